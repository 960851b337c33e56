// Progress on a terminal: a line on standard error, written anew each second.
ghost use Rattle.command.specs.Text.{Adds};
ghost use Rattle.pcd_frames.specs.Lines.{progress_text};

use command::{ErrorOutput, put, put_field, write_error};
use frames_state::Progress;
use std::io::IsTerminal;
use std::rt::Clock;

const LINE: usize = 128;

const MEGABYTE: u64 = 1_000_000;

pub fn begin(rt: &(impl Clock + ErrorOutput)) -> Progress {
    let now = seconds(rt);
    Progress {
        terminal: rt.error_output().is_terminal(),
        began: now,
        shown: now,
    }
}

// Since 1970; 0 where the clock cannot be read.
fn seconds(rt: &impl Clock) -> u64 {
    match rt.since_1970() {
        Ok(now) => now.as_secs(),
        Err(_) => 0,
    }
}

// The line, where a second has gone by.
pub fn tell(rt: &(impl Clock + ErrorOutput), p: Progress, bytes: u64, frames: u64) -> Progress {
    if !p.terminal {
        return p;
    }
    let now = seconds(rt);
    if now <= p.shown {
        return p;
    }
    let mut space = [0u8; LINE];
    write_line(rt, &mut space, bytes, frames, rate(bytes, p.began, now));
    let mut next = p;
    next.shown = now;
    next
}

// Megabytes a second.
fn rate(bytes: u64, began: u64, now: u64) -> u64 {
    if now <= began {
        return 0;
    }
    bytes / MEGABYTE / (now - began)
}

fn write_line(rt: &impl ErrorOutput, line: &mut [u8], bytes: u64, frames: u64, rate: u64) {
    let n = put_line(&mut *line, bytes, frames, rate);
    write_error(rt, &line[..n]);
}

fn put_line(line: &mut [u8], bytes: u64, frames: u64, rate: u64) -> usize
    ensures { Adds line.old 0 (progress_text bytes frames rate) line.new result }
{
    let taken = put_field(&mut *line, 0, b"\rbytes ", bytes);
    let paid = put_field(&mut *line, taken, b" frames ", frames);
    let rated = put_field(&mut *line, paid, b" MB/s ", rate);
    put(line, rated, b"  ")
}

// Ends the line.
pub fn end(rt: &impl ErrorOutput, p: Progress) {
    if p.terminal {
        write_error(rt, b"\n");
    }
}
