// A reel that is written and read back: a lead-in, then whole major frames, each minor frame at a spacing of its own.
ghost use Rattle.std.specs.Prelude.{◌≡◌, ◌*◌, ◌≤◌, length};

use crate::report;
use base::format::{MAJOR_FRAME, MINOR_FRAME};
use labelling::Tally;
use reader::Taken;
use std::io;
use std::io::Input;
use vectors::{filled, sum};

const MOST_MAJORS: usize = 4;

// How the reading of a reel stands.
#[derive(Clone, Copy)]
pub(crate) struct Reading {
    pub(crate) tally: Tally,
    // How many major frames were paid, how many bytes of the area were compared then, and how many of these are not what was written.
    pub(crate) paid: usize,
    pub(crate) compared: u64,
    pub(crate) differ: u64,
}

// A reel of so many major frames, whose spacings and minor frames follow in the input; false where they do not.
pub(crate) fn written_and_read(
    rt: &(impl Input + Print),
    lead_spacing: u64,
    majors: usize,
) -> io::Result<bool> {
    if MOST_MAJORS < majors {
        return Ok(false);
    }
    let mut spacing_space = [0u8; 512];
    let spacings = &mut spacing_space[0..128 * majors];
    if !filled(rt, &mut *spacings) {
        return Ok(false);
    }
    with_frames(rt, lead_spacing, spacings)
}

// The minor frames that follow, one for each spacing; false where they do not.
fn with_frames(rt: &(impl Input + Print), lead_spacing: u64, spacings: &[u8]) -> io::Result<bool>
    requires { length spacings.now ≤ 512 }
{
    let mut frame_space = [0u8; 65536];
    let frames = &mut frame_space[0..MINOR_FRAME * spacings.len()];
    if !filled(rt, &mut *frames) {
        return Ok(false);
    }
    run(rt, lead_spacing, spacings, frames)?;
    Ok(true)
}

fn run(rt: &impl Print, lead_spacing: u64, spacings: &[u8], frames: &[u8]) -> io::Result<()> {
    let mut space = blank();
    let length = write_reel(lead_spacing, spacings, frames, &mut space);
    let reel = &space[0..length];
    report::written(rt, frames.len() / MAJOR_FRAME, reel)?;
    every_cut(rt, reel, frames)
}

// Room for a reel. Callers know only its length: a check that counted so many bytes one by one would run out of stack.
fn blank() -> [u8; 2000000]
    ensures { 2000000 ≡ length result }
{
    [0; 2000000]
}

// Writes the reel at the start of the room; the answer is its length.
fn write_reel(lead_spacing: u64, spacings: &[u8], frames: &[u8], room: &mut [u8]) -> usize
    ensures { result ≤ length room.new }
{
    let begun = write_lead_in(lead_spacing, &mut *room);
    write_frames(spacings, frames, begun, room)
}

// Writes the lead-in at the start of the room; the answer is its length, 0 where it is refused.
fn write_lead_in(spacing: u64, room: &mut [u8]) -> usize
    ensures { result ≤ length room.new }
{
    if 255 < spacing {
        return 0;
    }
    let end = 3 * (4 + spacing as usize);
    if room.len() < end {
        return 0;
    }
    if writer::write_lead_in(spacing, &mut room[..end]).is_err() {
        return 0;
    }
    end
}

// Writes each minor frame after the one before it; the answer is where the last one ends.
fn write_frames(spacings: &[u8], frames: &[u8], begun: usize, room: &mut [u8]) -> usize
    requires { begun ≤ length room.old }
    ensures { result ≤ length room.new }
{
    let mut at = begun;
    for (&spacing, frame) in spacings.iter().zip(frames.chunks_exact(MINOR_FRAME)) {
        at += write_frame(spacing, frame, &mut room[at..]);
    }
    at
}

// Writes a minor frame at the start of the room; the answer is its length, 0 where it is refused.
fn write_frame(spacing: u8, frame: &[u8], room: &mut [u8]) -> usize
    ensures { result ≤ length room.new }
{
    let end = 128 * (4 + usize::from(spacing));
    if room.len() < end {
        return 0;
    }
    if writer::write_minor_frame(u64::from(spacing), frame, &mut room[..end]).is_err() {
        return 0;
    }
    end
}

// Reads the reel in pieces of each of these lengths, and whole.
fn every_cut(rt: &impl Print, reel: &[u8], frames: &[u8]) -> io::Result<()> {
    for piece in [1, 3, 7, 61, 127, 509, 4093, 65521, reel.len()] {
        one_cut(rt, reel, frames, piece)?;
    }
    Ok(())
}

fn one_cut(rt: &impl Print, reel: &[u8], frames: &[u8], piece: usize) -> io::Result<()> {
    if piece == 0 {
        return Ok(());
    }
    let mut space = [0xA5u8; 16384];
    let area: &mut [u8] = &mut space;
    let r = read_reel(reel, frames, piece, area);
    report::reading(rt, piece, r)
}

fn fresh() -> Reading {
    let begun = reader::fresh(1);
    let tally = begun.tally;
    Reading {
        tally: tally,
        paid: 0,
        compared: 0,
        differ: 0,
    }
}

fn read_reel(reel: &[u8], frames: &[u8], piece: usize, area: &mut [u8]) -> Reading {
    let mut r = fresh();
    let mut at: usize = 0;
    // No `for` is plainer: a step goes on by as many bytes as its call took.
    while at < reel.len() {
        let t = r.tally;
        let Ok(s) = feeding::step(t, reel, at, piece, &mut *area) else {
            return r;
        };
        r = answered(r, s.taken, frames, &*area);
        at = s.at;
    }
    r
}

// The reading after a call: where a major frame is complete, the area is compared with the frames that were written.
fn answered(r: Reading, a: Taken, frames: &[u8], area: &[u8]) -> Reading {
    let t = a.tally;
    if !a.complete {
        return Reading {
            tally: t,
            paid: r.paid,
            compared: r.compared,
            differ: r.differ,
        };
    }
    let d = vectors::differing(area, from(frames, r.paid));
    Reading {
        tally: t,
        paid: next_of(r.paid),
        compared: sum(r.compared, area.len() as u64),
        differ: sum(r.differ, d),
    }
}

fn next_of(paid: usize) -> usize {
    if paid < MOST_MAJORS {
        return paid + 1;
    }
    // One more than any reel has: a major frame that was never written.
    MOST_MAJORS + 1
}

// The major frames that were written, from this one on; none where it never was.
fn from(frames: &[u8], major: usize) -> &[u8] {
    if MOST_MAJORS < major {
        return &frames[0..0];
    }
    let start = MAJOR_FRAME * major;
    if frames.len() < start {
        return &frames[0..0];
    }
    &frames[start..]
}
