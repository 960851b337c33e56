// Writes the paid major frames of a reel to standard output, 16,384 bytes each, in order. Arguments: the descriptor for the status; `strict` for 01's
// rules alone; the file of the operators, or nothing; and the reel's files, of which `-` is standard input. The tally, the lead-ins and, where operators
// were named, their paid counts go to standard error at the end. Status 1 where a file cannot be read, the bytes are refused, or a frame cannot be written.
#![tactic(auto)]

mod progress;
mod report;

ghost use Rattle.std.specs.Prelude.{◌≡◌, ◌+◌};
ghost use Rattle.reel_state.specs.Reading.{blank};
ghost use Rattle.frames_state.specs.Frames.{AllWritten, Came, SameReel, ShiftChanged, AllRead};

use base::refusal::Refusal;
use command::ErrorOutput;
use frames_state::{State, ended, undone, wrote};
use reel_reading::{Event, Source};
use std::io::Input;
use std::rt::{Clock, Env, Files};

const FIRST_FILE: usize = 4;

// The most turns of the reading: each opens a file, fills the buffer, takes bytes or changes the shift, so that no reel has as many.
const MOST_TURNS: u64 = 1 << 62;

const NEVER: u64 = 18446744073709551615;

fn main(rt: HostRuntime) {
    let mut space = io::large_buffer();
    if run(&rt, &mut space) {
        command::end(&rt, 0);
        return;
    }
    command::end(&rt, 1);
}

// Reads the shifts, if a file of them is named, and the reel.
fn run<R: Env + Files + Input + Clock + Print + ErrorOutput>(rt: &R, text: &mut [u8]) -> bool {
    let mut space = io::buffer();
    let n = command::argument(rt, 3, &mut space);
    if n == 0 {
        return read_reel(rt, &text[..n]);
    }
    run_with(rt, &space[..n], text)
}

// Reads the shifts of this file into the text; then the reel.
fn run_with<R: Env + Files + Input + Clock + Print + ErrorOutput>(
    rt: &R,
    path: &[u8],
    text: &mut [u8],
) -> bool {
    let Ok(k) = shifts::read(rt, b"pcd-frames", path, &mut *text) else {
        return false;
    };
    read_reel(rt, &text[..k])
}

// Reads the reel with these shifts, and tells of it.
fn read_reel<R: Env + Files + Input + Clock + Print + ErrorOutput>(rt: &R, shifts: &[u8]) -> bool {
    let s = read_all(rt, shifts);
    progress::end(rt, s.progress);
    report::show(
        rt,
        s.reel.feeder.tally,
        s.reel.feeder.handed,
        0 < shifts.len(),
    );
    s.done
}

fn read_all<R: Env + Files + Input + Clock + Print + ErrorOutput>(rt: &R, shifts: &[u8]) -> State
    ensures { AllRead result }
{
    let mut buffer_space = io::large_buffer();
    let buffer: &mut [u8] = &mut buffer_space;
    let mut area_space = [0u8; 16384];
    let area: &mut [u8] = &mut area_space;
    let mut source = Source::Nothing;
    let mut s = begin(rt, begins(shifts, 0));
    for _ in 0..MOST_TURNS {
        s = turn(rt, s, &mut source, &mut *buffer, &mut *area, shifts);
        if !s.goes_on {
            return s;
        }
    }
    s
}

fn begin(rt: &(impl Env + Clock + ErrorOutput), next: u64) -> State
    ensures { AllWritten result blank }
{
    let reel = reel_reading::begin(is_strict(rt), FIRST_FILE);
    let progress = progress::begin(rt);
    State {
        reel: reel,
        written: 0,
        begun: 0,
        next: next,
        done: true,
        goes_on: true,
        progress: progress,
    }
}

// Whether the second argument is `strict`.
fn is_strict(rt: &impl Env) -> bool {
    let mut word = [0u8; 8];
    let n = command::argument(rt, 2, &mut word);
    (n == 6) & (word[0] == b's')
}

// What comes next of the reel, and what is to be done with it.
fn turn<R: Env + Files + Input + Clock + Print + ErrorOutput>(
    rt: &R,
    s: State,
    source: &mut Source<R::Reader, R::File>,
    buffer: &mut [u8],
    area: &mut [u8],
    shifts: &[u8],
) -> State
    requires { AllWritten s area.old }
    ensures { AllWritten result area.new }
{
    let next = reel_reading::advance(
        rt,
        b"pcd-frames",
        s.reel,
        source,
        s.next,
        &mut *buffer,
        &mut *area,
    );
    let mut r = s;
    let after = next.reel;
    r.reel = after;
    let event = next.event;
    done_with(rt, event, r, area, shifts)
}

fn done_with(
    rt: &(impl Clock + Print + ErrorOutput),
    event: Event,
    s: State,
    area: &[u8],
    shifts: &[u8],
) -> State
    requires { Came event s area.now }
    ensures { AllWritten result area.now }
{
    match event {
        Event::Onward => {
            return s;
        }
        Event::Filled => {
            return told(rt, s);
        }
        Event::Complete => {
            return write_frame(rt, s, area);
        }
        Event::Cut => {
            return change_shift(s, shifts);
        }
        Event::Ended => {
            return ended(s);
        }
        Event::Unreadable => {
            return undone(s);
        }
        Event::Refused(refusal) => {
            return refused(rt, s, refusal);
        }
    }
}

fn told(rt: &(impl Clock + ErrorOutput), s: State) -> State
    ensures { SameReel s result }
{
    let mut r = s;
    r.progress = progress::tell(rt, s.progress, s.reel.taken, s.reel.frames);
    r
}

// A major frame is complete: it goes to standard output, once.
fn write_frame(rt: &(impl Print + ErrorOutput), s: State, area: &[u8]) -> State
    requires { s.written + 1 ≡ s.reel.frames }
    ensures { (result.reel ≡ s.reel) × (result.written ≡ s.reel.frames) }
{
    let shown = command::show(rt, b"pcd-frames", area);
    wrote(s, shown)
}

// The next shift begins.
fn change_shift(s: State, shifts: &[u8]) -> State
    ensures { ShiftChanged s result }
{
    let k = s.begun;
    let operator = match shifts::nth(shifts, k) {
        Ok(now) => now.operator,
        Err(_) => 0,
    };
    let reel = reel_reading::change_duty(s.reel, operator);
    let mut r = s;
    r.reel = reel;
    r.begun = one_more(k);
    r.next = begins(shifts, r.begun);
    r
}

fn one_more(k: usize) -> usize {
    if k < 65536 {
        return k + 1;
    }
    k
}

// From which byte on shift k is; no reel has as many where there is no such shift.
fn begins(shifts: &[u8], k: usize) -> u64 {
    match shifts::nth(shifts, k) {
        Ok(shift) => shift.begin,
        Err(_) => NEVER,
    }
}

fn refused(rt: &impl ErrorOutput, s: State, refusal: Refusal) -> State
    ensures { SameReel s result }
{
    command::refuse(rt, b"pcd-frames", b"the reel", refusal.number());
    let mut r = s;
    r.done = false;
    r.goes_on = false;
    r
}
