// Looks instants up in books: of the arguments from the second on, each pair is a book and an instant; the first names the descriptor for the
// status. A line says the last cycle at or before the instant, its place and the looks. Status 1 where a book or an instant cannot be used.
#![tactic(auto)]

mod answer;

ghost use Rattle.std.specs.Prelude.{◌≤◌};

use command::{ErrorOutput, LARGE_ROOM, Room, SMALL_ROOM};
use std::io::Read;
use std::rt::{Env, Files};

fn main(rt: HostRuntime) {
    if find_from(&rt, 2, command::argument_count(&rt)) {
        command::end(&rt, 0);
        return;
    }
    command::end(&rt, 1);
}

// Answers for the pairs of arguments from i on; true where each has an answer. It calls itself, and the compiler does not merge the frame of a
// room with that of such a function: a room is on the stack only while its book is read.
fn find_from<R: Env + Files + Print + ErrorOutput>(rt: &R, i: usize, count: usize) -> bool {
    if count <= i {
        return true;
    }
    if count - i < 2 {
        return true;
    }
    let mut space = io::buffer();
    let n = command::argument(rt, i, &mut space);
    let mut answered = false;
    if let Some(mut file) = command::open(rt, b"pcd-find", &space[..n]) {
        let mut header = [0u8; 4];
        if let Some(begun) = command::begin_book(
            rt,
            b"pcd-find",
            &space[..n],
            &mut file,
            &mut header,
        ) {
            let k = begun.length;
            match begun.room {
                Room::Small => answered = in_room::<SMALL_ROOM>(
                    rt,
                    &mut file,
                    &space[..n],
                    &header[..k],
                    i + 1,
                ),
                Room::Large => answered = in_room::<LARGE_ROOM>(
                    rt,
                    &mut file,
                    &space[..n],
                    &header[..k],
                    i + 1,
                ),
            }
        }
    }
    find_from(rt, i + 2, count) & answered
}

// In a room of N bytes.
fn in_room<const N: usize>(
    rt: &(impl Env + Print + ErrorOutput),
    file: &mut impl Read,
    path: &[u8],
    header: &[u8],
    asked: usize,
) -> bool
    requires { N ≤ 16777216 }
{
    let mut space = [0u8; N];
    find(rt, file, path, header, asked, &mut space)
}

// Reads the book into the room and looks the instant up that an argument names.
fn find(
    rt: &(impl Env + Print + ErrorOutput),
    file: &mut impl Read,
    path: &[u8],
    header: &[u8],
    asked: usize,
    room: &mut [u8],
) -> bool {
    let Ok(n) = command::read_book(rt, b"pcd-find", path, file, header, &mut *room) else {
        return false;
    };
    match instant_of(rt, asked) {
        Some(wanted) => answer::report(rt, path, &room[..n], wanted),
        None => false,
    }
}

// The number that an argument is; a line says where it is none.
fn instant_of(rt: &(impl Env + ErrorOutput), i: usize) -> Option<u64> {
    let mut word = [0u8; 64];
    let n = command::argument(rt, i, &mut word);
    let parsed = command::number(&word[..n]);
    match parsed {
        Some(_) => (),
        None => command::say(
            rt,
            b"pcd-find",
            &word[..n],
            b"not an instant: a number of sixteenths of a millisecond is asked for",
        ),
    }
    parsed
}
