// The bodies of a book, one behind the other, as the cycles of standard input come.
ghost use Rattle.std.specs.Prelude.{length};
ghost use Rattle.command.specs.Text.{Adds};
ghost use Rattle.pcd_book.specs.Shelves.{Roomy, Fits, TurnPromise, GatherPromise, room_text};

use book_shelf::Shelf;
use command::{ErrorOutput, put, put_field};
use cycle::CYCLE;
use std::io::Input;

const WORDS: usize = 96;

// The frames of a cycle.
const FRAMES: u64 = 4;

// Puts the cycles of standard input end to end, as far as they rise and there is room: the room has a cycle's bytes more than it may hold, in which frames
// are held. A line says what is left out.
pub(crate) fn gather(rt: &(impl Input + ErrorOutput), year: u64, bodies: &mut [u8]) -> Shelf
    requires { Roomy (length bodies.old) }
    ensures { GatherPromise year bodies.old bodies.new result }
{
    let mut shelf = book_shelf::begun();
    // What standard input brings ends it: a `for` would need a bound that no input reaches and a
    // second answer behind it.
    loop {
        shelf = turn(rt, year, &mut *bodies, shelf);
        if !shelf.more {
            return shelf;
        }
    }
}

// The next cycle.
fn turn(rt: &(impl Input + ErrorOutput), year: u64, bodies: &mut [u8], s: Shelf) -> Shelf
    requires { Fits (length bodies.old) s }
    ensures { TurnPromise year bodies.old bodies.new s result }
{
    let room = bodies.len();
    let start = CYCLE * s.cycles;
    let end = start + CYCLE;
    let read = cycle_input::next_cycle(rt, b"pcd-book", year, &mut bodies[start..end], s.frames);
    if !read.whole {
        return book_shelf::ended(s, read.frames, read.cut, read.failed);
    }
    let instant = cycle::instant(year, &bodies[start..end]);
    if !book_shelf::rises(s, instant) {
        say_of_cycle(rt, read.frames, b"a cycle whose instant does not rise");
        return book_shelf::left_out(s, read.frames);
    }
    if room - end < CYCLE {
        say_no_room(rt, read.frames, s.cycles as u64);
        return book_shelf::left_out(s, read.frames);
    }
    book_shelf::added(s, s.cycles + 1, read.frames, instant)
}

// The line of the cycle that ends with the last of so many frames.
fn say_of_cycle(rt: &impl ErrorOutput, frames: u64, words: &[u8]) {
    if frames < FRAMES {
        return;
    }
    cycle_input::say_of(rt, b"pcd-book", frames - FRAMES, FRAMES, words);
}

fn say_no_room(rt: &impl ErrorOutput, frames: u64, most: u64) {
    let mut space = [0u8; WORDS];
    say_no_room_in(rt, frames, most, &mut space);
}

fn say_no_room_in(rt: &impl ErrorOutput, frames: u64, most: u64, words: &mut [u8]) {
    let n = put_room(&mut *words, most);
    say_of_cycle(rt, frames, &words[..n]);
}

fn put_room(out: &mut [u8], most: u64) -> usize
    ensures { Adds out.old 0 (room_text most) out.new result }
{
    let told = put_field(&mut *out, 0, b"a cycle more than the ", most);
    put(out, told, b" that there is room for")
}
