// Writes a book of the cycles that the major frames of standard input give. Of the arguments from the second on, each pair is a year and how many cycles
// there is room for; the first names the descriptor for the status. Standard input is read to its end for the first pair. Status 1 where a cycle is
// left out, or where standard input or the book cannot be read or written whole.
#![tactic(auto)]

mod gathering;
mod writing;

ghost use Rattle.std.specs.Prelude.{◌≤◌, length};
ghost use Rattle.pcd_book.specs.Shelves.{Roomy, Bound};

use command::{ErrorOutput, LARGE_ROOM, SMALL_ROOM};
use cycle::CYCLE;
use std::io::Input;
use std::rt::Env;

// Bodies of 32 cycles and of 255, each with one more, in which frames are held.
const SMALL_BODIES: usize = 2_162_688;

const LARGE_BODIES: usize = 16_777_216;

const SMALL_CYCLES: u64 = 32;

fn main(rt: HostRuntime) {
    if write_from(&rt, 2, command::argument_count(&rt)) {
        command::end(&rt, 0);
        return;
    }
    command::end(&rt, 1);
}

// Writes the books that the pairs of arguments from i on ask for; true where all is done. It calls itself, and the compiler does not merge the frame of
// a room with that of such a function: the large rooms are on the stack only where they are asked for.
fn write_from<R: Env + Input + Print + ErrorOutput>(rt: &R, i: usize, count: usize) -> bool {
    if count <= i {
        return true;
    }
    if count - i < 2 {
        return true;
    }
    if few_at(rt, i + 1) {
        let done = in_rooms::<SMALL_BODIES, SMALL_ROOM>(rt, i);
        return write_from(rt, i + 2, count) & done;
    }
    let done = in_rooms::<LARGE_BODIES, LARGE_ROOM>(rt, i);
    write_from(rt, i + 2, count) & done
}

// Whether an argument asks for no more cycles than the small rooms hold.
fn few_at(rt: &impl Env, i: usize) -> bool {
    let mut word = [0u8; 64];
    let n = command::argument(rt, i, &mut word);
    match command::number(&word[..n]) {
        Some(cycles) => cycles <= SMALL_CYCLES,
        None => true,
    }
}

// With room for so many bytes of bodies, and for a book of N bytes.
fn in_rooms<const BODIES: usize, const N: usize>(
    rt: &(impl Env + Input + Print + ErrorOutput),
    i: usize,
) -> bool
    requires { (Roomy BODIES) × (N ≤ 16777216) }
{
    let mut space = [0u8; BODIES];
    let bodies: &mut [u8] = &mut space;
    gather::<N>(rt, i, bodies)
}

fn gather<const N: usize>(
    rt: &(impl Env + Input + Print + ErrorOutput),
    i: usize,
    bodies: &mut [u8],
) -> bool
    requires { (Roomy (length bodies.old)) × (N ≤ 16777216) }
{
    let Some(year) = year_argument::year_at(rt, b"pcd-book", i) else {
        return false;
    };
    let shelf = gathering::gather(rt, year, &mut *bodies);
    if shelf.failed {
        return false;
    }
    let n = CYCLE * shelf.cycles;
    write::<N>(rt, year, &bodies[0..n]) & shelf.all
}

fn write<const N: usize>(rt: &(impl Print + ErrorOutput), year: u64, bodies: &[u8]) -> bool
    requires { (Bound year bodies.now) × (N ≤ 16777216) }
{
    let mut space = [0u8; N];
    writing::write(rt, year, bodies, &mut space)
}
