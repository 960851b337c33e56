// The reader at its edges: the limit of 2^40 bytes, the order of the refusals, and each clause of 'in order' (paper 01, "The tally and one
// call" and "Refusal numbers"; paper 02, requests 2, 5 and 6). Makes the calls of standard input, which tests/tally_limit.py has, and writes a line
// about each. The file stdout was written by hand from the papers, not taken from a run.
//
// A record: numbers of 8 bytes, which are the call, whether the tally that comes back is kept, whether the call is on the record's own tally or on
// the one that was kept last, the lengths of the line and of the piece, the room of the area or the operator or the rule, and the 33 of the tally;
// its frame (128 bytes); which numbers the line has (16 bytes); the line (160 bytes), in which each '#' stands for the next number; the piece (16 bytes).
#![tactic(auto)]

mod call;
mod show;
mod tally;

use labelling::Tally;
use std::io;
use std::io::Input;
use vectors::{filled, filled_numbers};

const MOST_LINE: usize = 160;

const MOST_PIECE: usize = 16;

fn main(rt: HostRuntime) -> io::Result<()> {
    let mut kept = call::begun();
    for _ in 0..vectors::MOST_RECORDS {
        match turn(&rt, kept)? {
            Some(tally) => kept = tally,
            None => return Ok(()),
        }
    }
    Ok(())
}

// Reads a record and makes its call; the answer is the tally that is kept, and none at the end of the input.
fn turn(rt: &(impl Input + Print), kept: Tally) -> io::Result<Option<Tally>> {
    let mut numbers = [0u64; 39];
    let mut frame = [0u8; 128];
    let mut texts = [0u8; 192];
    if !(filled_numbers(rt, &mut numbers) & filled(rt, &mut frame) & filled(rt, &mut texts)) {
        return Ok(None);
    }
    let t = chosen(numbers[2] == 1, tally::of(numbers, frame), kept);
    let back = run(rt, numbers, &texts, t)?;
    Ok(Some(chosen(numbers[1] == 1, back, kept)))
}

fn chosen(first: bool, a: Tally, b: Tally) -> Tally {
    if first {
        return a;
    }
    b
}

// Makes the call and writes its line; the answer is the tally that comes back.
fn run(rt: &impl Print, numbers: [u64; 39], texts: &[u8], t: Tally) -> io::Result<Tally> {
    if texts.len() < 192 {
        return Ok(t);
    }
    let line_end = 16 + (numbers[3] as usize).min(MOST_LINE);
    let piece_end = 176 + (numbers[4] as usize).min(MOST_PIECE);
    let picks = &texts[0..16];
    let line = &texts[16..line_end];
    let piece = &texts[176..piece_end];
    let answer = call::answered(numbers[0], t, numbers[5], piece);
    show::line(rt, line, picks, t, answer)?;
    Ok(answer.tally)
}
