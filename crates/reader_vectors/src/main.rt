// Reads the streams of standard input in pieces and writes what comes of each: what tests/reader_vectors.py makes, with the answers that it
// worked out by other means.
#![tactic(auto)]

mod report;
mod shifts;

ghost use Rattle.std.specs.Prelude.{◌≡◌, length};

use base::format::MAJOR_FRAME;
use base::refusal::Refusal;
use feeding::Stepped;
use labelling::Tally;
use reader::Taken;
use shifts::Shifts;
use std::io;
use std::io::Input;
use vectors::{filled, mix, number, sum};

const ROOM: usize = 140_000;

// How the reading of a stream stands.
#[derive(Clone, Copy)]
pub(crate) struct Reading {
    pub(crate) tally: Tally,
    // How many calls there were that must take their piece, and a checksum of their answers.
    pub(crate) calls: u64,
    pub(crate) answers: u64,
    // How many calls were refused 2 as they must be, and how many of those had another answer.
    pub(crate) refused: u64,
    pub(crate) otherwise: u64,
    pub(crate) shifts: Shifts,
}

fn main(rt: HostRuntime) -> io::Result<()> {
    for _ in 0..vectors::MOST_RECORDS {
        if !turn(&rt)? {
            return Ok(());
        }
    }
    Ok(())
}

// Reads a record and runs it; false at the end of the input.
fn turn(rt: &(impl Input + Print)) -> io::Result<bool> {
    let mut header = [0u8; 108];
    if !filled(rt, &mut header) {
        return Ok(false);
    }
    record(rt, &header)
}

// The record that begins so.
fn record(rt: &(impl Input + Print), header: &[u8]) -> io::Result<bool>
    requires { length header.now ≡ 108 }
{
    let n = number(&header[0..4]) as usize;
    if ROOM < n {
        return Ok(false);
    }
    let mut space = [0u8; 140000];
    let stream = &mut space[0..n];
    if !filled(rt, &mut *stream) {
        return Ok(false);
    }
    let s = shifts::begun(&header[36..100]);
    every_cut(rt, stream, &header[4..36], s, number(&header[100..108]))?;
    Ok(true)
}

// Reads the stream by the rule in pieces of each of these eight lengths.
fn every_cut(rt: &impl Print, stream: &[u8], lengths: &[u8], s: Shifts, rule: u64) -> io::Result<()>
    requires { length lengths.now ≡ 32 }
{
    for length in lengths.chunks_exact(4) {
        one_cut(rt, stream, length, s, rule)?;
    }
    Ok(())
}

// Reads the stream in pieces of this length; 0 is no length.
fn one_cut(rt: &impl Print, stream: &[u8], length: &[u8], s: Shifts, rule: u64) -> io::Result<()> {
    let piece = number(length) as usize;
    if piece == 0 {
        return Ok(());
    }
    let begun = reader::fresh(rule);
    report::heading(rt, stream.len(), piece, rule, begun.answer)?;
    let mut space = [0u8; 16384];
    let area: &mut [u8] = &mut space;
    let r = read_stream(rt, from_tally(begun.tally, s), stream, piece, &mut *area)?;
    report::whole(rt, r, area)
}

fn from_tally(t: Tally, s: Shifts) -> Reading {
    Reading {
        tally: t,
        calls: 0,
        answers: 0,
        refused: 0,
        otherwise: 0,
        shifts: s,
    }
}

fn read_stream(
    rt: &impl Print,
    begun: Reading,
    stream: &[u8],
    piece: usize,
    area: &mut [u8],
) -> io::Result<Reading>
    requires { length area.old ≡ 16384 }
{
    let mut r = probe(begun, &mut *area);
    let mut at: usize = 0;
    // No `for` is plainer: a step goes on by as many bytes as its call took.
    while at < stream.len() {
        let t = r.tally;
        match feeding::step(t, stream, at, piece, &mut *area) {
            Ok(s) => {
                r = stepped(rt, r, s, &mut *area)?;
                at = s.at;
            }
            Err(refusal) => return Ok(probe(answered(r, Err(refusal)), area)),
        }
    }
    Ok(r)
}

// The reading after a step: a major frame that it completed is reported, and after each piece the reader is probed.
fn stepped(rt: &impl Print, r: Reading, s: Stepped, area: &mut [u8]) -> io::Result<Reading>
    requires { length area.old ≡ 16384 }
{
    let a = s.taken;
    report::paid(rt, a.complete, a.tally.groups.bytes, area)?;
    let next = answered(r, Ok(a));
    if s.at < s.end {
        return Ok(next);
    }
    Ok(probe(next, area))
}

// Between two pieces the next operator is named, after two calls that leave all as it is.
fn probe(r: Reading, area: &mut [u8]) -> Reading
    requires { length area.old ≡ 16384 }
{
    shifts::changed(idle(r, area))
}

// Two calls that leave all as it is.
fn idle(r: Reading, area: &mut [u8]) -> Reading
    requires { length area.old ≡ 16384 }
{
    short_area(no_bytes(r, &mut *area), area)
}

// A piece of no bytes is taken.
fn no_bytes(r: Reading, area: &mut [u8]) -> Reading {
    let piece = [0u8; 0];
    answered(r, reader::take(r.tally, &piece, area))
}

// An area that is a byte too short is refused.
fn short_area(r: Reading, area: &mut [u8]) -> Reading
    requires { length area.old ≡ 16384 }
{
    let piece = [0x16u8; 3];
    refused(r, reader::take(r.tally, &piece, &mut area[1..MAJOR_FRAME]))
}

// The reading after a call that must take its piece.
fn answered(r: Reading, a: Result<Taken, Refusal>) -> Reading {
    let mut next = r;
    next.calls = sum(r.calls, 1);
    match a {
        Ok(a) => {
            next.tally = a.tally;
            next.answers = mixed(r.answers, a.taken, a.complete, 0);
        }
        Err(refusal) => next.answers = mixed(r.answers, 0, false, refusal.number()),
    }
    next
}

// A refused call is mixed in as one that has taken no bytes and completed no frame.
fn mixed(h: u64, taken: usize, complete: bool, refusal: u8) -> u64 {
    let b = mix(h, taken as u64);
    let c = mix(b, vectors::bit(complete));
    mix(c, u64::from(refusal))
}

// The reading after a call that must be refused 2.
fn refused(r: Reading, a: Result<Taken, Refusal>) -> Reading {
    let mut next = r;
    match a {
        Err(Refusal::WrongLength) => next.refused = sum(r.refused, 1),
        Err(_) => next.otherwise = sum(r.otherwise, 1),
        Ok(a) => {
            next.tally = a.tally;
            next.otherwise = sum(r.otherwise, 1);
        }
    }
    next
}
