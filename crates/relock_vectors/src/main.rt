// Reads the simulated reels of standard input by steps that lock on a frame's own sync, and writes what comes of each: what tests/relock_vectors.py
// makes, with the answers that it worked out by other means.
#![tactic(auto)]

mod report;

ghost use Rattle.std.specs.Prelude.{◌≡◌, length};

use base::refusal::Refusal;
use relocking::Feeder;
use std::io;
use std::io::Input;
use vectors::{filled, number, sum};

const ROOM: usize = 140_000;

// More steps than any reel here needs; it makes the loop over them end.
const MOST_STEPS: u64 = 1_000_000;

// How the reading of a reel stands: the bytes from `at` to `end` are in hand.
#[derive(Clone, Copy)]
pub(crate) struct Reading {
    pub(crate) feeder: Feeder,
    pub(crate) at: u64,
    pub(crate) end: u64,
    pub(crate) answer: Result<(), Refusal>,
}

fn main(rt: HostRuntime) -> io::Result<()> {
    for _ in 0..vectors::MOST_RECORDS {
        if !turn(&rt)? {
            return Ok(());
        }
    }
    Ok(())
}

// Reads a record and runs it; false at the end of the input.
fn turn(rt: &(impl Input + Print)) -> io::Result<bool> {
    let mut header = [0u8; 44];
    if !filled(rt, &mut header) {
        return Ok(false);
    }
    record(rt, &header)
}

// The record that begins so.
fn record(rt: &(impl Input + Print), header: &[u8]) -> io::Result<bool>
    requires { length header.now ≡ 44 }
{
    let n = number(&header[0..4]) as usize;
    if ROOM < n {
        return Ok(false);
    }
    let mut space = [0u8; 140000];
    let reel = &mut space[0..n];
    if !filled(rt, &mut *reel) {
        return Ok(false);
    }
    every_cut(rt, reel, &header[4..36], number(&header[36..44]))?;
    Ok(true)
}

// Reads the reel by the rule in pieces of each of these eight lengths.
fn every_cut(rt: &impl Print, reel: &[u8], lengths: &[u8], rule: u64) -> io::Result<()>
    requires { length lengths.now ≡ 32 }
{
    for length in lengths.chunks_exact(4) {
        one_cut(rt, reel, length, rule)?;
    }
    Ok(())
}

// Reads the reel in pieces of this length; 0 is no length.
fn one_cut(rt: &impl Print, reel: &[u8], length: &[u8], rule: u64) -> io::Result<()> {
    let piece = number(length);
    if piece == 0 {
        return Ok(());
    }
    report::heading(rt, reel.len(), piece, rule)?;
    let mut space = [0u8; 16384];
    let area: &mut [u8] = &mut space;
    let r = read_reel(rt, begun(rule), reel, piece, &mut *area)?;
    report::whole(rt, r, area)
}

fn begun(rule: u64) -> Reading {
    let fresh = reader::fresh(rule);
    let t = fresh.tally;
    let f = Feeder {
        tally: t,
        awaits: false,
        handed: 0,
    };
    Reading {
        feeder: f,
        at: 0,
        end: 0,
        answer: Ok(()),
    }
}

fn read_reel(
    rt: &impl Print,
    begun: Reading,
    reel: &[u8],
    piece: u64,
    area: &mut [u8],
) -> io::Result<Reading> {
    let mut r = begun;
    for _ in 0..MOST_STEPS {
        if is_done(r, reel.len()) {
            return Ok(r);
        }
        r = step(rt, r, reel, piece, &mut *area)?;
    }
    Ok(r)
}

fn is_done(r: Reading, size: usize) -> bool {
    r.answer.is_err() | (size as u64 <= r.at)
}

// One step on the bytes in hand. A major frame that it completed is reported.
fn step(
    rt: &impl Print,
    r: Reading,
    reel: &[u8],
    piece: u64,
    area: &mut [u8],
) -> io::Result<Reading> {
    let f = r.feeder;
    let size = reel.len() as u64;
    let a = match relocking::relock(f, in_hand(reel, r.at, r.end), size <= r.end, &mut *area) {
        Ok(a) => a,
        Err(refusal) => return Ok(stopped(r, refusal)),
    };
    let at = sum(r.at, a.taken as u64);
    report::paid(rt, a.complete, at, area)?;
    let next = a.feeder;
    Ok(Reading {
        feeder: next,
        at: at,
        end: further(r.end, a.more | (r.end <= at), piece, size),
        answer: Ok(()),
    })
}

// The reading after a step that is refused.
fn stopped(r: Reading, refusal: Refusal) -> Reading {
    let mut next = r;
    next.answer = Err(refusal);
    next
}

fn in_hand(reel: &[u8], at: u64, end: u64) -> &[u8] {
    let from = at as usize;
    let to = end as usize;
    if reel.len() < to {
        return &reel[0..0];
    }
    if to < from {
        return &reel[0..0];
    }
    &reel[from..to]
}

// Where the bytes in hand end: one piece further where more are asked for, and with the reel at the latest.
fn further(end: u64, more: bool, piece: u64, size: u64) -> u64 {
    if !more {
        return end;
    }
    let next = sum(end, piece);
    if size < next {
        return size;
    }
    next
}
