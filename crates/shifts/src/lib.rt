// Who is on duty from which byte of a reel on: a text with a line `BYTE OPERATOR` for each shift, by rising bytes.
#![tactic(auto)]

ghost use Rattle.std.specs.Prelude.{◌<◌, length, IfOk};
ghost use Rattle.command.specs.Text.{Adds};
ghost use Rattle.io.specs.Counts.{IsPrefixLen};
ghost use Rattle.shifts.specs.Lines.{fault_text, bytes_read};

use command::{ErrorOutput, put, put_field};
use shift_line::{Fault, Shift, shift_of};
use std::rt::Files;

const LINE: usize = 256;

// Reads the lines of a file and answers how many bytes they have; as an error where it cannot be
// read, is longer than the room or has a line that is wrong, and a line on standard error says so.
pub fn read<R: Files + ErrorOutput>(
    rt: &R,
    program: &[u8],
    path: &[u8],
    text: &mut [u8],
) -> Result<usize, usize>
    ensures fits { IfOk result (λ n. n < length text.new) }
    ensures count { IsPrefixLen (bytes_read result) text.new }
{
    let Some(mut file) = command::open(rt, program, path) else {
        return Err(0);
    };
    let n = match command::fill(&mut file, &mut *text, 0) {
        Ok(length) => length,
        Err(failed) => {
            command::say(rt, program, path, b"the file cannot be read");
            return Err(failed.length);
        }
    };
    if text.len() <= n {
        command::say(
            rt,
            program,
            path,
            b"the file is longer than its room of 65,535 bytes",
        );
        return Err(n);
    }
    if !check(rt, program, path, &text[..n]) {
        return Err(n);
    }
    Ok(n)
}

// Whether each line is right; the first that is not is told.
fn check(rt: &impl ErrorOutput, program: &[u8], path: &[u8], text: &[u8]) -> bool {
    let mut least = 0;
    for k in 0..line_count(text) {
        match parse(command::line(text, k), least) {
            Ok(shift) => least = shift.begin.saturating_add(1),
            Err(fault) => {
                say_line(rt, program, path, k, words_of(fault));
                return false;
            }
        }
    }
    true
}

// Shift k, counted from 0; a fault where there is none.
pub fn nth(text: &[u8], k: usize) -> Result<Shift, Fault> {
    parse(command::line(text, k), 0)
}

// How many lines there are; the last may have no line feed.
fn line_count(text: &[u8]) -> usize {
    let feeds = text.iter().filter(|&&b| b == b'\n').count();
    match text {
        [] | [.., b'\n'] => feeds,
        _ => feeds + 1,
    }
}

// A line: two numbers with one blank between them.
fn parse(line: &[u8], least: u64) -> Result<Shift, Fault> {
    let Some(i) = line.iter().position(|&b| b == b' ') else {
        return Err(Fault::NotTwoNumbers);
    };
    let rest = i + 1;
    match (command::number(&line[..i]), command::number(&line[rest..])) {
        (Some(begin), Some(operator)) => shift_of(begin, operator, least),
        _ => Err(Fault::NotTwoNumbers),
    }
}

fn words_of(fault: Fault) -> &'static [u8] {
    match fault {
        Fault::NotTwoNumbers => b"not BYTE OPERATOR, two numbers with one blank between them",
        Fault::NoOperator => b"there is no such operator: 0 to 7",
        Fault::NotRising => b"the bytes do not rise",
        Fault::TooFar => b"the byte is beyond 2^40",
    }
}

// Lines are counted from 1, and the room has no more than 65,535.
fn say_line(rt: &impl ErrorOutput, program: &[u8], path: &[u8], k: usize, words: &[u8]) {
    let mut space = [0u8; LINE];
    say_in(rt, &mut space, program, path, k as u64 % 65536 + 1, words);
}

fn say_in(
    rt: &impl ErrorOutput,
    text: &mut [u8],
    program: &[u8],
    path: &[u8],
    k: u64,
    words: &[u8],
) {
    let n = put_fault(&mut *text, k, words);
    command::say(rt, program, path, &text[..n]);
}

fn put_fault(text: &mut [u8], k: u64, words: &[u8]) -> usize
    ensures { Adds text.old 0 (fault_text k words.now) text.new result }
{
    let named = put_field(&mut *text, 0, b"line ", k);
    let told = put(&mut *text, named, b": ");
    put(text, told, words)
}
