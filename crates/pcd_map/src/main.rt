// Writes a map of a reel to standard output, as SVG: what each stretch of it gave. Arguments: the descriptor for the status; `strict` for 01's rules
// alone; and the reel's files, of which `-` is standard input. Status 1 where a file cannot be read, the bytes are refused, or the map cannot be
// written.
#![tactic(auto)]

mod picture;

use base::refusal::Refusal;
use command::ErrorOutput;
use picture::Told;
use reel_map::Map;
use reel_reading::{Event, Reel, Source};
use std::io::Input;
use std::rt::{Env, Files};

const FIRST_FILE: usize = 3;

// The map has 256 rows of 128 cells at most.
const CELLS: usize = 32768;

// The most turns of the reading: each opens a file, fills the buffer or takes bytes, so that no reel has as many.
const MOST_TURNS: u64 = 1 << 62;

#[derive(Clone, Copy)]
struct State {
    reel: Reel,
    map: Map,
    // Whether all was done so far, and whether the reading goes on.
    done: bool,
    goes_on: bool,
}

fn main(rt: HostRuntime) {
    let mut space = [0u8; CELLS];
    let cells: &mut [u8] = &mut space;
    if run(&rt, cells) {
        command::end(&rt, 0);
        return;
    }
    command::end(&rt, 1);
}

// Reads the reel, and writes its map.
fn run<R: Env + Files + Input + Print + ErrorOutput>(rt: &R, cells: &mut [u8]) -> bool {
    let s = read_all(rt, &mut *cells);
    let tally = s.reel.feeder.tally;
    let told = Told {
        bytes: s.reel.taken,
        strict: s.reel.strict,
        tally: tally,
    };
    picture::show(rt, told, s.map.length, s.map.cell, cells) & s.done
}

fn read_all<R: Env + Files + Input + ErrorOutput>(rt: &R, cells: &mut [u8]) -> State {
    let mut buffer_space = io::large_buffer();
    let buffer: &mut [u8] = &mut buffer_space;
    let mut area_space = [0u8; 16384];
    let area: &mut [u8] = &mut area_space;
    let mut source = Source::Nothing;
    let mut s = begin(rt);
    for _ in 0..MOST_TURNS {
        s = turn(rt, s, &mut source, &mut *buffer, &mut *area, &mut *cells);
        if !s.goes_on {
            return s;
        }
    }
    s
}

fn begin(rt: &impl Env) -> State {
    let reel = reel_reading::begin(is_strict(rt), FIRST_FILE);
    let map = reel_map::begin();
    State {
        reel: reel,
        map: map,
        done: true,
        goes_on: true,
    }
}

// Whether the second argument is `strict`.
fn is_strict(rt: &impl Env) -> bool {
    let mut word = [0u8; 8];
    let n = command::argument(rt, 2, &mut word);
    (n == 6) & (word[0] == b's')
}

// What comes next of the reel, as far as the cell's end, and what is to be done with it.
fn turn<R: Env + Files + Input + ErrorOutput>(
    rt: &R,
    s: State,
    source: &mut Source<R::Reader, R::File>,
    buffer: &mut [u8],
    area: &mut [u8],
    cells: &mut [u8],
) -> State {
    let next = reel_reading::advance(rt, b"pcd-map", s.reel, source, s.map.end, buffer, area);
    let mut r = s;
    let after = next.reel;
    r.reel = after;
    let event = next.event;
    done_with(rt, event, r, cells)
}

fn done_with(rt: &impl ErrorOutput, event: Event, s: State, cells: &mut [u8]) -> State {
    match event {
        Event::Onward => {
            return s;
        }
        Event::Filled => {
            return s;
        }
        Event::Complete => {
            return complete(s, cells);
        }
        Event::Cut => {
            return next_cell(s, cells);
        }
        Event::Ended => {
            return ended(s, cells);
        }
        Event::Unreadable => {
            return undone(s);
        }
        Event::Refused(refusal) => {
            return refused(rt, s, refusal, cells);
        }
    }
}

fn complete(s: State, cells: &mut [u8]) -> State {
    let mut r = s;
    r.map = reel_map::complete(s.map, s.reel.feeder.tally, cells);
    r
}

fn next_cell(s: State, cells: &mut [u8]) -> State {
    let tally = s.reel.feeder.tally;
    reel_map::mark(s.map, tally, &mut *cells);
    let mut r = s;
    r.map = reel_map::next(s.map, tally, cells);
    r
}

// The last cell ends with the reel.
fn ended(s: State, cells: &mut [u8]) -> State {
    reel_map::mark(s.map, s.reel.feeder.tally, cells);
    let mut r = s;
    r.goes_on = false;
    r
}

fn undone(s: State) -> State {
    let mut r = s;
    r.done = false;
    r
}

fn refused(rt: &impl ErrorOutput, s: State, refusal: Refusal, cells: &mut [u8]) -> State {
    command::refuse(rt, b"pcd-map", b"the reel", refusal.number());
    let mut r = ended(s, cells);
    r.done = false;
    r
}
