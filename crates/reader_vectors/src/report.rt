// What is written of a stream.
use crate::Reading;
use base::refusal::{self, Refusal};
use labelling::{Framing, Groups, Operators, Runs, Tally};
use std::io;
use vectors::{bit, checksum, fields};

// Which rule was asked for, and whether that was refused.
pub(crate) fn heading(
    rt: &impl Print,
    length: usize,
    piece: usize,
    rule: u64,
    answer: Result<(), Refusal>,
) -> io::Result<()> {
    let refusal = u64::from(refusal::code(answer));
    let numbers = [length as u64, piece as u64, rule, refusal];
    fields(
        rt,
        b"stream of # bytes in pieces of # by rule # refused #\n",
        &numbers,
    )
}

// A line for a major frame that is paid: how many bytes are taken, and the area.
pub(crate) fn paid(rt: &impl Print, complete: bool, bytes: u64, area: &[u8]) -> io::Result<()> {
    if complete {
        let numbers = [bytes, checksum(area)];
        fields(rt, b"paid at # area #\n", &numbers)?;
    }
    Ok(())
}

pub(crate) fn whole(rt: &impl Print, r: Reading, area: &[u8]) -> io::Result<()> {
    let t = r.tally;
    groups(rt, t.groups)?;
    framing(rt, t.framing)?;
    runs(rt, t.runs)?;
    paid_to(rt, t.operators, t.rule)?;
    kept(rt, t)?;
    called(rt, r, checksum(area))
}

fn groups(rt: &impl Print, g: Groups) -> io::Result<()> {
    let numbers = [
        g.bytes,
        g.fill,
        g.stray,
        g.voted,
        g.split,
        g.weak.first,
        g.weak.second,
        g.weak.third,
        g.open,
    ];
    fields(
        rt,
        b"bytes # fill # stray # voted # split # weak1 # weak2 # weak3 # open #",
        &numbers,
    )
}

fn framing(rt: &impl Print, f: Framing) -> io::Result<()> {
    let numbers = [f.hunted, f.good, f.damaged, f.unsynced, f.placed];
    fields(
        rt,
        b" hunted # good # damaged # unsynced # placed #",
        &numbers,
    )
}

fn runs(rt: &impl Print, r: Runs) -> io::Result<()> {
    let numbers = [r.majors, r.broken, r.loose, r.building];
    fields(rt, b" majors # broken # loose # building #\n", &numbers)
}

// The operators' counts, who is on duty, and the rule.
fn paid_to(rt: &impl Print, o: Operators, rule: u64) -> io::Result<()> {
    let paid = o.paid;
    let numbers = [o.duty, rule];
    fields(rt, b"paid to # # # # # # # #", &paid)?;
    fields(rt, b" duty # rule #\n", &numbers)
}

// What the tally holds beside the counts.
fn kept(rt: &impl Print, t: Tally) -> io::Result<()> {
    let frame = t.frame;
    let numbers = [
        bit(t.framing.hunting),
        t.framing.matched,
        bit(t.framing.erasure),
        u64::from(t.groups.first),
        u64::from(t.groups.second),
        checksum(&frame),
    ];
    fields(
        rt,
        b"hunting # match # hole # copies # # frame #\n",
        &numbers,
    )
}

// How the calls answered.
fn called(rt: &impl Print, r: Reading, area: u64) -> io::Result<()> {
    let numbers = [
        area,
        r.calls,
        r.answers,
        r.shifts.changed,
        r.refused,
        r.shifts.refused,
        r.otherwise,
    ];
    fields(
        rt,
        b"area # calls # answers # changed # refused 2: # refused 14: # otherwise: #\n",
        &numbers,
    )
}
