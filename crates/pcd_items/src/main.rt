// Writes the items of word 72 of the major frames of standard input, 16,384 bytes each, as comma-separated values with a header. The first argument
// names the descriptor for the status, the second the year that the frames were recorded in. Status 1 where it is no such year, where the input
// cannot be read, where a rest is no whole frame, and where a line cannot be written.
#![tactic(auto)]

ghost use Rattle.io.specs.Counts.{IsPrefixLen};

use base::format;
use base::refusal::Refusal;
use command::ErrorOutput;
use std::io::Read;
use std::rt::Env;

// More frames than any input has.
const MOST_FRAMES: u64 = 1 << 60;

// How reading stands.
#[derive(Clone, Copy)]
enum Input {
    More,
    Ended,
    Failed,
}

fn main(rt: HostRuntime) {
    if show_all(&rt) {
        command::end(&rt, 0);
        return;
    }
    command::end(&rt, 1);
}

fn show_all<R: Env + std::io::Input + Print + ErrorOutput>(rt: &R) -> bool {
    let mut word = [0u8; 64];
    let n = command::argument(rt, 2, &mut word);
    match command::number(&word[..n]) {
        Some(year) => show_year(rt, year, &word[..n]),
        None => {
            command::say(
                rt,
                b"pcd-items",
                &word[..n],
                b"not a year: a number from 1999 to 2099 is asked for",
            );
            false
        }
    }
}

// The frames of a year; a line says where it is outside the span.
fn show_year<R: std::io::Input + Print + ErrorOutput>(rt: &R, year: u64, word: &[u8]) -> bool {
    if !time_code::year::in_span(year) {
        command::refuse(rt, b"pcd-items", word, Refusal::YearOutsideSpan.number());
        return false;
    }
    let header = word72_csv::HEADER;
    if !command::show(rt, b"pcd-items", &header) {
        return false;
    }
    show_frames(rt, year)
}

fn show_frames<R: std::io::Input + Print + ErrorOutput>(rt: &R, year: u64) -> bool {
    let mut area_space = [0u8; format::MAJOR_FRAME];
    let area: &mut [u8] = &mut area_space;
    let mut text_space = io::large_buffer();
    let text: &mut [u8] = &mut text_space;
    let mut input = rt.reader();
    for frame in 0..MOST_FRAMES {
        match turn(rt, &mut input, year, frame, &mut *area, &mut *text) {
            Input::More => (),
            Input::Ended => return true,
            Input::Failed => return false,
        }
    }
    false
}

// Reads a frame and writes its items.
fn turn(
    rt: &(impl Print + ErrorOutput),
    input: &mut impl Read,
    year: u64,
    frame: u64,
    area: &mut [u8],
    text: &mut [u8],
) -> Input {
    let length = match command::fill(input, &mut *area, 0) {
        Ok(length) => length,
        Err(failed) => {
            command::fail(rt, b"pcd-items", b"standard input", failed.error);
            return Input::Failed;
        }
    };
    if length == 0 {
        return Input::Ended;
    }
    if length < area.len() {
        say_rest(rt, length as u64);
        return Input::Failed;
    }
    if show_frame(rt, year, frame, area, text) {
        return Input::More;
    }
    Input::Failed
}

fn say_rest(rt: &impl ErrorOutput, length: u64) {
    let mut words = [0u8; 96];
    say_rest_in(rt, &mut words, length);
}

fn say_rest_in(rt: &impl ErrorOutput, words: &mut [u8], length: u64) {
    let counted = command::put_number(&mut *words, 0, length);
    let told = command::put(
        &mut *words,
        counted,
        b" bytes behind the last whole frame are left out",
    );
    command::say(rt, b"pcd-items", b"standard input", &words[..told]);
}

fn show_frame(
    rt: &(impl Print + ErrorOutput),
    year: u64,
    frame: u64,
    area: &[u8],
    text: &mut [u8],
) -> bool {
    let mut column = [0u8; 128];
    // It is not refused: the area is a whole major frame.
    let _ = subcom::gather(area, &mut column);
    show_column(rt, year, frame, &column, text)
}

fn show_column(
    rt: &(impl Print + ErrorOutput),
    year: u64,
    frame: u64,
    column: &[u8],
    text: &mut [u8],
) -> bool {
    let n = word72_csv::put_frame(&mut *text, year, frame, column);
    command::show(rt, b"pcd-items", &text[..n])
}
