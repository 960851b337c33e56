// What a program says: lines on standard error, each after the program's name, and data on standard output.
use crate::text::Text;
use crate::words::words;
use std::fmt::InlineText;
use std::io;
use std::io::IsTerminal;
use std::rt::Stderr;

// A path has 4,095 bytes at most.
const LINE: usize = 4608;

const WORDS: usize = 256;

// Standard error as `Print` has standard output: `Eprint` takes text alone, and what an argument
// names need not be text.
pub trait ErrorOutput {
    type Stream: Print + IsTerminal + Drop;

    fn error_output(&self) -> Self::Stream;
}

impl ErrorOutput for HostRuntime {
    type Stream = Stderr;

    fn error_output(&self) -> Stderr {
        self.stderr()
    }
}

// The line `PROGRAM: WHAT: WORDS`.
pub fn say(rt: &impl ErrorOutput, program: &[u8], what: &[u8], words: &[u8]) {
    let mut space = [0u8; LINE];
    let mut line = Text::new(&mut space);
    line.put(program);
    line.put(b": ");
    line.put(what);
    line.put(b": ");
    line.put(words);
    line.put(b"\n");
    write_error(rt, line.bytes());
}

// Writes to standard error. Where it cannot be written, there is nothing left to say so on.
pub fn write_error(rt: &impl ErrorOutput, bytes: &[u8]) {
    let _ = rt.error_output().write_all(bytes);
}

// The line `PROGRAM: WHAT: ` with the words of the error.
pub fn fail(rt: &impl ErrorOutput, program: &[u8], what: &[u8], error: io::Error) {
    let told = InlineText::<WORDS>::of(error);
    say(rt, program, what, words_of(told.as_str()).as_bytes());
}

// The words of an error without its number, which the library puts behind those of the system's.
fn words_of(text: &str) -> &str {
    match text.rsplit_once(" (os error ") {
        Some((words, _)) => words,
        None => text,
    }
}

// The line `PROGRAM: WHAT: refusal N: ` and what the number means; nothing for a number that is none:
// it says any number that it is given, so it takes no `Refusal`.
pub fn refuse(rt: &impl ErrorOutput, program: &[u8], what: &[u8], number: u8) {
    let mut space = [0u8; WORDS];
    let mut told = Text::new(&mut space);
    told.put(b"refusal ");
    told.put_number(u64::from(number));
    told.put(b": ");
    told.put(words(number));
    say(rt, program, what, told.bytes());
}

// Writes data; where it cannot be written, a line says so, and the answer is false.
pub fn show(rt: &(impl Print + ErrorOutput), program: &[u8], data: &[u8]) -> bool {
    match rt.write_all(data) {
        Ok(()) => true,
        Err(e) => {
            fail(rt, program, b"standard output", e);
            false
        }
    }
}
