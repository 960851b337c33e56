// Does what the records of standard input ask for: a call of the writer, or a reel that is written and read back in pieces.
// tests/writer_vectors.py makes the records, with the answers that it worked out by other means.
#![tactic(auto)]

mod reel;
mod report;
mod single;

use std::io;
use std::io::Input;
use vectors::number;

// The kind of a record stays a number: the record's format, which tests/writer_vectors.py writes.
const LEAD_IN: u8 = 0;

const MINOR_FRAME: u8 = 1;

// The beginning of a record.
#[derive(Clone, Copy)]
struct Header {
    kind: u8,
    // The bytes of a minor frame, or the major frames of a reel.
    count: usize,
    // The length of the output that is lent.
    room: usize,
    spacing: u64,
}

fn main(rt: HostRuntime) -> io::Result<()> {
    for _ in 0..vectors::MOST_RECORDS {
        if !turn(&rt)? {
            return Ok(());
        }
    }
    Ok(())
}

// Reads a record and runs it; false at the end of the input.
fn turn(rt: &(impl Input + Print)) -> io::Result<bool> {
    let mut bytes = [0u8; 12];
    if !vectors::filled(rt, &mut bytes) {
        return Ok(false);
    }
    let h = Header {
        kind: bytes[0],
        count: number(&bytes[1..2]) as usize,
        room: number(&bytes[2..4]) as usize,
        spacing: number(&bytes[4..12]),
    };
    run(rt, h)
}

fn run(rt: &(impl Input + Print), h: Header) -> io::Result<bool> {
    match h.kind {
        LEAD_IN => single::lead_in(rt, h.spacing, h.room),
        MINOR_FRAME => single::minor_frame(rt, h.spacing, h.count, h.room),
        _ => reel::written_and_read(rt, h.spacing, h.count),
    }
}
