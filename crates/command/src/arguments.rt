// The program's arguments.
ghost use Rattle.io.specs.Counts.{IsPrefixLen};

use std::env::FillError;
use std::rt::Env;

// Copies argument i to the start of the room, and answers how many bytes it has; none where there is
// no such argument, or where it is longer than the room.
pub fn argument(rt: &impl Env, i: usize, room: &mut [u8]) -> usize
    ensures { IsPrefixLen result room.new }
{
    match rt.arg(i, room) {
        Ok(n) => n,
        Err(_) => 0,
    }
}

// Whether there is an argument i.
fn is_argument(rt: &impl Env, i: usize) -> bool {
    let mut room = [0u8; 1];
    !matches!(rt.arg(i, &mut room), Err(FillError::NotPresent))
}

// How many arguments there are, the program's name among them.
pub fn argument_count(rt: &impl Env) -> usize {
    for i in 0..usize::MAX {
        if !is_argument(rt, i) {
            return i;
        }
    }
    usize::MAX
}
