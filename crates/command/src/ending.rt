// How a program ends. A program has no exit status: the wrapper names a descriptor, one digit, by the first argument, and the last line there
// is the status that the wrapper ends with: 0, or 1 where something was not done; 2 where a comparison is refused.
use crate::arguments::argument;
use crate::files::fill;
use crate::lines::line;
use crate::saying::ErrorOutput;
use crate::text::Text;
use std::fmt::InlineText;
use std::fs::{File, OpenOptions};
use std::io;
use std::io::Write;
use std::rt::{Env, Files};

const LINE: usize = 32;

pub fn end<R: Env + Files + Print + ErrorOutput>(rt: &R, status: u64) {
    let mut word = [0u8; 8];
    let n = argument(rt, 1, &mut word);
    if n == 1 {
        let mut space = [0u8; LINE];
        let mut line = Text::new(&mut space);
        line.put_number(status);
        line.put(b"\n");
        // A program whose status cannot be written has no other way to tell it.
        let _ = tell(rt, word[0], line.bytes());
    }
}

// Writes the line on the descriptor that a digit names; on standard error for another byte.
fn tell<R: Files + Print + ErrorOutput>(rt: &R, named: u8, line: &[u8]) -> io::Result<()> {
    match named {
        b'1' => rt.write_all(line),
        b'0' | b'3'..=b'9' => tell_by_name(rt, named - b'0', line),
        _ => rt.error_output().write_all(line),
    }
}

// The library has no handle of any other descriptor that a program is begun with, so the file of
// that descriptor is opened anew, by the name that the system gives it. What is written goes behind
// what is there, and a descriptor that is open for reading alone stays unwritten.
fn tell_by_name<R: Files>(rt: &R, number: u8, line: &[u8]) -> io::Result<()> {
    if !is_for_writing(rt, number)? {
        return Ok(());
    }
    let name = InlineText::<32>::of(format_args!("/dev/fd/{number}"));
    let mut file = OpenOptions::new().append(true).open(rt, name.as_str())?;
    file.write_all(line)
}

// Whether the descriptor is open for writing. Line 1 of what the system tells of it ends in the
// last octal digit of its flags, whose two low bits are 0 where it is open for reading alone.
fn is_for_writing<R: Files>(rt: &R, number: u8) -> io::Result<bool> {
    let name = InlineText::<32>::of(format_args!("/proc/self/fdinfo/{number}"));
    let mut file = File::open(rt, name.as_str())?;
    let mut space = [0u8; 128];
    // What was read before a read failed counts.
    let n = match fill(&mut file, &mut space, 0) {
        Ok(n) => n,
        Err(failed) => failed.length,
    };
    Ok(told_for_writing(line(&space[..n], 1)))
}

fn told_for_writing(flags: &[u8]) -> bool {
    match flags {
        [.., last] => last & 3 != 0,
        [] => false,
    }
}
