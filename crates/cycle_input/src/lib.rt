// Cycles from the major frames of standard input: what the programs over cycles share. What is left out is said on standard error, each line after the
// program's name.
#![tactic(auto)]

ghost use Rattle.std.specs.Prelude.{◌≡◌, false};
ghost use Rattle.command.specs.Text.{Adds};
ghost use Rattle.cycle_input.specs.Reading.{ReadPromise, frames_text};

use base::format::MAJOR_FRAME;
use command::{ErrorOutput, ReadFailed, put_field};
use std::io::Input;

// How far standard input was read: whether the area holds a cycle now; else it has ended, within a frame where it is cut, or could not be read.
#[derive(Clone, Copy)]
pub struct Read {
    pub whole: bool,
    pub cut: bool,
    pub failed: bool,
    // How many frames were read so far.
    pub frames: u64,
}

const LINE: usize = 64;

// Reads on behind so many frames, until the area of 65,536 bytes holds a cycle or standard input ends. Frames that are in no cycle are said.
pub fn next_cycle(
    rt: &(impl Input + ErrorOutput),
    program: &[u8],
    year: u64,
    area: &mut [u8],
    before: u64,
) -> Read
    ensures { ReadPromise year before area.new result }
{
    let mut space = [0u8; MAJOR_FRAME];
    let frame: &mut [u8] = &mut space;
    gather(rt, program, year, area, before, frame)
}

// The same with a room for a frame.
fn gather(
    rt: &(impl Input + ErrorOutput),
    program: &[u8],
    year: u64,
    area: &mut [u8],
    before: u64,
    frame: &mut [u8],
) -> Read
    ensures { ReadPromise year before area.new result }
{
    let mut input = rt.reader();
    let mut frames = before;
    let mut bits: u64 = 0;
    while frames < u64::MAX {
        match command::fill(&mut input, &mut *frame, 0) {
            Ok(length) if length == frame.len() => (),
            got => return stopped(rt, program, frames, bits, got),
        }
        let brought = match cycle_frames::next(year, &mut *area, bits, frame) {
            Ok(brought) => brought,
            Err(refusal) => {
                command::refuse(rt, program, b"standard input", refusal.number());
                return ended(true, false, frames);
            }
        };
        say_left_out(rt, program, first_held(frames, bits), brought.omitted);
        frames += 1;
        if brought.whole {
            return found(frames);
        }
        bits = brought.bits;
    }
    ended(false, false, frames)
}

// Standard input has no whole frame more: a line says why, and the frames that are held are left out.
fn stopped(
    rt: &impl ErrorOutput,
    program: &[u8],
    frames: u64,
    bits: u64,
    got: Result<usize, ReadFailed>,
) -> Read
    ensures { result.whole ≡ false }
{
    if let Err(failed) = got {
        command::fail(rt, program, b"standard input", failed.error);
    }
    say_left_out(
        rt,
        program,
        first_held(frames, bits),
        cycle_frames::held(bits),
    );
    match got {
        Err(_) => ended(true, false, frames),
        Ok(0) => ended(false, false, frames),
        Ok(_) => {
            command::say(
                rt,
                program,
                b"standard input",
                b"it ends within a frame, which is left out",
            );
            ended(false, true, frames)
        }
    }
}

fn found(frames: u64) -> Read
    ensures { result.frames ≡ frames }
{
    Read {
        whole: true,
        cut: false,
        failed: false,
        frames: frames,
    }
}

fn ended(failed: bool, cut: bool, frames: u64) -> Read
    ensures { result.whole ≡ false }
{
    Read {
        whole: false,
        cut: cut,
        failed: failed,
        frames: frames,
    }
}

// The first of the frames that are held where so many were read before this one.
fn first_held(frames: u64, bits: u64) -> u64 {
    let held = cycle_frames::held(bits);
    if frames < held {
        return 0;
    }
    frames - held
}

fn say_left_out(rt: &impl ErrorOutput, program: &[u8], first: u64, count: u64) {
    say_of(rt, program, first, count, b"in no cycle");
}

// A line of so many frames from this one on; none where there are none.
pub fn say_of(rt: &impl ErrorOutput, program: &[u8], first: u64, count: u64, words: &[u8]) {
    if count == 0 {
        return;
    }
    let mut space = [0u8; LINE];
    say_of_in(rt, program, first, count, words, &mut space);
}

fn say_of_in(
    rt: &impl ErrorOutput,
    program: &[u8],
    first: u64,
    count: u64,
    words: &[u8],
    text: &mut [u8],
) {
    let n = put_frames(&mut *text, first, count);
    command::say(rt, program, &text[..n], words);
}

// `frame 7`, or `frames 7 and 2 after it`.
fn put_frames(out: &mut [u8], first: u64, count: u64) -> usize
    ensures { Adds out.old 0 (frames_text first count) out.new result }
{
    if count <= 1 {
        return put_field(out, 0, b"frame ", first);
    }
    let begun = put_field(&mut *out, 0, b"frames ", first);
    let more = put_field(&mut *out, begun, b" and ", count - 1);
    command::put(out, more, b" after it")
}
