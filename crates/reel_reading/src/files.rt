// The files of a reel: more bytes in the buffer, from the file that is open or the next one.
ghost use Rattle.std.specs.Prelude.{◌≡◌, false, ◌+◌, ◌≤◌, ◌<◌, take, drop};
ghost use Rattle.reel_state.specs.Reading.{is_complete, Keeps};

use command::ErrorOutput;
use reel_state::{Advanced, Event, Reel};
use std::io::{Error, Input, Read, Result};
use std::rt::{Env, Files};

// What is open of a reel's files.
#[derive(Drop)]
pub enum Source<I, F> {
    Nothing,
    Input(I),
    File(F),
}

impl<I: Read, F: Read> Read for Source<I, F> {
    fn read(&mut self, buf: &mut [u8]) -> Result<usize> {
        match self {
            Source::Nothing => Ok(0),
            Source::Input(input) => input.read(buf),
            Source::File(file) => file.read(buf),
        }
    }
}

// More bytes behind those that were not taken, which go to the front of the buffer; or the next file; or nothing follows.
pub(crate) fn more<R: Env + Files + Input + ErrorOutput>(
    rt: &R,
    program: &[u8],
    reel: Reel,
    source: &mut Source<R::Reader, R::File>,
    buffer: &mut [u8],
) -> Advanced
    ensures { Keeps reel result }
{
    if is_nothing(source) {
        return open_next(rt, program, reel, source);
    }
    let kept = to_front(&mut *buffer, reel.at, reel.end);
    let got = command::fill(&mut *source, &mut *buffer, kept);
    let end = match got {
        Ok(end) => end,
        Err(failed) => {
            tell(rt, program, argument(reel.file), failed.error);
            failed.length
        }
    };
    // A file that has ended is closed.
    if end < buffer.len() {
        *source = Source::Nothing;
    }
    filled(reel, end, got.is_err())
}

fn is_nothing<I, F>(source: &Source<I, F>) -> bool {
    matches!(source, Source::Nothing)
}

// A line: a read of the file that this argument names has failed.
fn tell(rt: &(impl Env + ErrorOutput), program: &[u8], i: usize, error: Error) {
    let mut space = io::buffer();
    let n = command::argument(rt, i, &mut space);
    command::fail(rt, program, &space[..n], error);
}

// The argument that names the open file.
fn argument(next: usize) -> usize {
    if next == 0 {
        return 0;
    }
    next - 1
}

// The buffer is filled as far as `end`.
fn filled(reel: Reel, end: usize, failed: bool) -> Advanced
    ensures { Keeps reel result }
{
    let mut r = reel;
    r.at = 0;
    r.end = end;
    r.wants = false;
    Advanced {
        event: filled_as(failed),
        reel: r,
    }
}

fn filled_as(failed: bool) -> Event
    ensures { is_complete result ≡ false }
{
    if failed {
        return Event::Unreadable;
    }
    Event::Filled
}

// Opens the next file. Where there is none, what is left in the buffer is the reel's end.
fn open_next<R: Env + Files + Input + ErrorOutput>(
    rt: &R,
    program: &[u8],
    reel: Reel,
    source: &mut Source<R::Reader, R::File>,
) -> Advanced
    ensures { Keeps reel result }
{
    let mut r = reel;
    if reel.file < command::argument_count(rt) {
        *source = open(rt, program, reel.file);
        r.file = reel.file + 1;
        return Advanced {
            event: opened_as(is_nothing(source)),
            reel: r,
        };
    }
    r.wants = false;
    r.last = true;
    Advanced {
        event: left_as(reel.last | (reel.end <= reel.at)),
        reel: r,
    }
}

fn opened_as(nothing: bool) -> Event
    ensures { is_complete result ≡ false }
{
    if nothing {
        return Event::Unreadable;
    }
    Event::Onward
}

fn left_as(nothing: bool) -> Event
    ensures { is_complete result ≡ false }
{
    if nothing {
        return Event::Ended;
    }
    Event::Onward
}

// Opens the file that an argument names; `-` is standard input. A line says where it cannot be opened.
fn open<R: Env + Files + Input + ErrorOutput>(
    rt: &R,
    program: &[u8],
    i: usize,
) -> Source<R::Reader, R::File> {
    let mut space = io::buffer();
    let n = command::argument(rt, i, &mut space);
    if (n == 1) & (space[0] == b'-') {
        return Source::Input(rt.reader());
    }
    match command::open(rt, program, &space[..n]) {
        Some(file) => Source::File(file),
        None => Source::Nothing,
    }
}

// Moves the bytes from `at` to `end` to the front, and answers how many they are.
fn to_front(buffer: &mut [u8], at: usize, end: usize) -> usize
    ensures { take result buffer.new ≡ take result (drop at buffer.old) }
{
    let n = between(at, end, buffer.len());
    let mut i: usize = 0;
    while i < n {
        buffer[i] = buffer[at + i];
        i += 1;
    }
    n
}

// How many bytes stand from `at` to `end`; none where the buffer has no such places.
fn between(at: usize, end: usize, size: usize) -> usize
    ensures { 0 < result → at + result ≤ size }
{
    if size < end {
        return 0;
    }
    if end <= at {
        return 0;
    }
    end - at
}
