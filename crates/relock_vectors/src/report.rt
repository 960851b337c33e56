// What is written of a reel.
use crate::Reading;
use base::refusal::Refusal;
use labelling::{Framing, Groups, Runs, Tally};
use std::io;
use vectors::{bit, checksum, fields};

pub(crate) fn heading(rt: &impl Print, length: usize, piece: u64, rule: u64) -> io::Result<()> {
    let numbers = [length as u64, piece, rule];
    fields(rt, b"reel of # bytes in pieces of # by rule #\n", &numbers)
}

// A line for a major frame that is paid: how many bytes of the reel are taken, and the area.
pub(crate) fn paid(rt: &impl Print, complete: bool, at: u64, area: &[u8]) -> io::Result<()> {
    if complete {
        let numbers = [at, checksum(area)];
        fields(rt, b"paid at # area #\n", &numbers)?;
    }
    Ok(())
}

pub(crate) fn whole(rt: &impl Print, r: Reading, area: &[u8]) -> io::Result<()> {
    refused(rt, r.answer)?;
    let t = r.feeder.tally;
    groups(rt, t.groups)?;
    framing(rt, t.framing)?;
    runs(rt, t.runs)?;
    kept(rt, t)?;
    locked(rt, r.feeder.handed, r.feeder.awaits, checksum(area))
}

// No step here may be refused.
fn refused(rt: &impl Print, answer: Result<(), Refusal>) -> io::Result<()> {
    if let Err(refusal) = answer {
        vectors::put_refusal(rt, refusal.number())?;
    }
    Ok(())
}

fn groups(rt: &impl Print, g: Groups) -> io::Result<()> {
    let numbers = [
        g.bytes,
        g.fill,
        g.stray,
        g.voted,
        g.split,
        g.weak.first,
        g.weak.second,
        g.weak.third,
        g.open,
    ];
    fields(
        rt,
        b"bytes # fill # stray # voted # split # weak1 # weak2 # weak3 # open #",
        &numbers,
    )
}

fn framing(rt: &impl Print, f: Framing) -> io::Result<()> {
    let numbers = [f.hunted, f.good, f.damaged, f.unsynced, f.placed];
    fields(
        rt,
        b" hunted # good # damaged # unsynced # placed #",
        &numbers,
    )
}

fn runs(rt: &impl Print, r: Runs) -> io::Result<()> {
    let numbers = [r.majors, r.broken, r.loose, r.building];
    fields(rt, b" majors # broken # loose # building #\n", &numbers)
}

// What the tally holds beside the counts.
fn kept(rt: &impl Print, t: Tally) -> io::Result<()> {
    let frame = t.frame;
    let numbers = [
        bit(t.framing.hunting),
        t.framing.matched,
        bit(t.framing.erasure),
        u64::from(t.groups.first),
        u64::from(t.groups.second),
        checksum(&frame),
    ];
    fields(
        rt,
        b"hunting # match # hole # copies # # frame #\n",
        &numbers,
    )
}

// The lock, and the area.
fn locked(rt: &impl Print, handed: u64, awaits: bool, area: u64) -> io::Result<()> {
    let numbers = [handed, bit(awaits), area];
    fields(rt, b"lead-ins # awaits # area #\n", &numbers)
}
