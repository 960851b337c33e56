// What is written of a call and of a reading.
ghost use Rattle.std.specs.Prelude.{◌≤◌, length};

use crate::reel::Reading;
use base::refusal::{self, Refusal};
use labelling::{Framing, Groups, Runs, Tally};
use std::io;
use vectors::{checksum, field, fields, put};

// The longest output that is shown byte by byte.
const SHORT: usize = 28;

// The answer of a call, and how many bytes it changed.
pub(crate) fn answered(
    rt: &impl Print,
    answer: Result<(), Refusal>,
    changed: u64,
) -> io::Result<()> {
    let numbers = [u64::from(refusal::code(answer)), changed];
    fields(rt, b": answer # changed #", &numbers)
}

// What a minor frame has at its sync and number places: what decides whether it can be written.
pub(crate) fn minor_frame(
    rt: &impl Print,
    spacing: u64,
    frame: &[u8],
    room: usize,
) -> io::Result<()> {
    let numbers = [spacing, frame.len() as u64];
    fields(rt, b"minor frame spacing # length # sync ", &numbers)?;
    byte_at(rt, frame, 0)?;
    byte_at(rt, frame, 1)?;
    byte_at(rt, frame, 2)?;
    put(rt, b" number ")?;
    byte_at(rt, frame, 65)?;
    field(rt, b" output ", room as u64)
}

// A byte that is not there is shown as two dashes.
fn byte_at(rt: &impl Print, bytes: &[u8], at: usize) -> io::Result<()> {
    if at < bytes.len() {
        vectors::put_byte(rt, bytes[at])?;
        return Ok(());
    }
    put(rt, b"--")
}

// Ends the line of a call with the checksum of its output, the first bytes of the space.
pub(crate) fn output(rt: &impl Print, space: &[u8], room: usize) -> io::Result<()>
    requires { room ≤ length space.now }
{
    field(rt, b" checksum ", checksum(&space[0..room]))?;
    put(rt, b"\n")
}

// Ends the line with every byte too, where there are few.
pub(crate) fn short_output(rt: &impl Print, space: &[u8], room: usize) -> io::Result<()>
    requires { room ≤ length space.now }
{
    if room <= SHORT {
        put(rt, b" bytes ")?;
        vectors::put_bytes(rt, &space[0..room])?;
    }
    output(rt, space, room)
}

pub(crate) fn written(rt: &impl Print, majors: usize, reel: &[u8]) -> io::Result<()> {
    let numbers = [majors as u64, reel.len() as u64, checksum(reel)];
    fields(rt, b"reel of major frames # bytes # checksum #\n", &numbers)
}

pub(crate) fn reading(rt: &impl Print, piece: usize, r: Reading) -> io::Result<()> {
    let numbers = [piece as u64, r.paid as u64, r.compared, r.differ];
    fields(rt, b"pieces of #: paid # compared # differ #", &numbers)?;
    let t = r.tally;
    faults(rt, t.groups, t.framing, t.runs)?;
    unfinished(rt, t)?;
    counts(rt, t)
}

// The counts that are 0 for a written reel.
fn faults(rt: &impl Print, g: Groups, f: Framing, r: Runs) -> io::Result<()> {
    let numbers = [
        g.stray,
        g.split,
        g.weak.first,
        g.weak.second,
        g.weak.third,
        f.damaged,
        f.unsynced,
        r.broken,
        r.loose,
    ];
    fields(
        rt,
        b" stray # split # weak1 # weak2 # weak3 # damaged # unsynced # broken # loose #",
        &numbers,
    )
}

fn unfinished(rt: &impl Print, t: Tally) -> io::Result<()> {
    let numbers = [
        t.framing.hunted,
        t.runs.building,
        t.framing.placed,
        t.groups.open,
    ];
    fields(rt, b" hunted # building # placed # open #", &numbers)
}

fn counts(rt: &impl Print, t: Tally) -> io::Result<()> {
    let numbers = [
        t.framing.good,
        t.runs.majors,
        t.groups.bytes,
        t.groups.fill,
        t.groups.voted,
    ];
    fields(rt, b" good # majors # bytes # fill # voted #\n", &numbers)
}
