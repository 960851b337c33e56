// Writes the records of the cycles that the major frames of standard input give, as comma-separated values, a line for each value. The second argument
// is the year; the first names the descriptor for the status. Status 1 where standard input cannot be read, or ends within a frame, and where a line
// cannot be written.
#![tactic(auto)]

mod records;

use command::ErrorOutput;
use records::Cycle;
use std::io::Input;

const HEADER: [u8; 101] =
    *b"cycle,frame,record,item,unit,value,refusal,instant,year,day,hour,minute,second,millisecond,sixteenth\n";

fn main(rt: HostRuntime) {
    let whole = match year_argument::year_at(&rt, b"pcd-orbit", 2) {
        Some(year) => write_all(&rt, year),
        None => false,
    };
    command::end(&rt, if whole { 0 } else { 1 });
}

fn write_all(rt: &(impl Input + Print + ErrorOutput), year: u64) -> bool {
    let header = &HEADER;
    if !command::show(rt, b"pcd-orbit", header) {
        return false;
    }
    let mut space = [0u8; cycle::CYCLE];
    let area: &mut [u8] = &mut space;
    write_cycles(rt, year, area)
}

// The cycles of standard input, one after the other, each in the area.
fn write_cycles(rt: &(impl Input + Print + ErrorOutput), year: u64, area: &mut [u8]) -> bool {
    let mut frames: u64 = 0;
    let mut cycle: u64 = 0;
    // What standard input brings ends it: a `for` would need a bound that no input reaches and
    // an answer behind it.
    loop {
        let read = cycle_input::next_cycle(rt, b"pcd-orbit", year, &mut *area, frames);
        if !read.whole {
            return !read.cut & !read.failed;
        }
        let found = Cycle {
            body: area,
            year,
            number: cycle,
        };
        if !found.show(rt) {
            return false;
        }
        frames = read.frames;
        cycle += 1;
    }
}
