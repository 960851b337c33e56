// One call of the writer, and the line about it.
ghost use Rattle.std.specs.Prelude.{◌≤◌};

use crate::report;
use std::io;
use std::io::Input;
use vectors::{fields, others};

// More than any output that a record asks for, 128 × 66 bytes at most, so that a write past its end would show.
const SPACE: usize = 8576;

// What the lent bytes hold before a call.
const BEFORE: u8 = 0xA5;

// False where the record asks for more than there is space for.
pub(crate) fn lead_in(rt: &impl Print, spacing: u64, room: usize) -> io::Result<bool> {
    if SPACE < room {
        return Ok(false);
    }
    let numbers = [spacing, room as u64];
    fields(rt, b"lead-in spacing # output #", &numbers)?;
    one_lead_in(rt, spacing, room)?;
    Ok(true)
}

fn one_lead_in(rt: &impl Print, spacing: u64, room: usize) -> io::Result<()>
    requires { room ≤ 8576 }
{
    let mut array = [0xA5u8; 8576];
    let space: &mut [u8] = &mut array;
    let answer = writer::write_lead_in(spacing, &mut space[..room]);
    report::answered(rt, answer, others(space, BEFORE))?;
    report::short_output(rt, space, room)
}

// A minor frame that follows its header in the input; false where it does not.
pub(crate) fn minor_frame(
    rt: &(impl Input + Print),
    spacing: u64,
    length: usize,
    room: usize,
) -> io::Result<bool> {
    if SPACE < room {
        return Ok(false);
    }
    if 256 < length {
        return Ok(false);
    }
    let mut source = [0u8; 256];
    let frame = &mut source[0..length];
    if !vectors::filled(rt, &mut *frame) {
        return Ok(false);
    }
    report::minor_frame(rt, spacing, frame, room)?;
    one_minor_frame(rt, spacing, frame, room)?;
    Ok(true)
}

fn one_minor_frame(rt: &impl Print, spacing: u64, frame: &[u8], room: usize) -> io::Result<()>
    requires { room ≤ 8576 }
{
    let mut array = [0xA5u8; 8576];
    let space: &mut [u8] = &mut array;
    let answer = writer::write_minor_frame(spacing, frame, &mut space[..room]);
    report::answered(rt, answer, others(space, BEFORE))?;
    report::output(rt, space, room)
}
