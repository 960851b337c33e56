// Checks the books that the arguments name from the second on; the first names the descriptor for the status. For each a line says yes, or the
// fault and its entry in words. Status 1 where a book is not accepted or cannot be read.
#![tactic(auto)]

mod verdict;

use command::{ErrorOutput, LARGE_ROOM, Room, SMALL_ROOM};
use std::io::Read;
use std::rt::{Env, Files};

fn main(rt: HostRuntime) {
    if check_from(&rt, 2, command::argument_count(&rt)) {
        command::end(&rt, 0);
        return;
    }
    command::end(&rt, 1);
}

// Checks the books that the arguments from i on name; true where each is accepted. It calls itself, and the compiler does not merge the frame
// of a room with that of such a function: a room is on the stack only while its book is read.
fn check_from<R: Env + Files + Print + ErrorOutput>(rt: &R, i: usize, count: usize) -> bool {
    if count <= i {
        return true;
    }
    let mut space = io::buffer();
    let n = command::argument(rt, i, &mut space);
    let mut accepted = false;
    if let Some(mut file) = command::open(rt, b"pcd-book-check", &space[..n]) {
        let mut header = [0u8; 4];
        if let Some(begun) = command::begin_book(
            rt,
            b"pcd-book-check",
            &space[..n],
            &mut file,
            &mut header,
        ) {
            let k = begun.length;
            match begun.room {
                Room::Small => accepted = in_small_room(rt, &mut file, &space[..n], &header[..k]),
                Room::Large => accepted = in_large_room(rt, &mut file, &space[..n], &header[..k]),
            }
        }
    }
    check_from(rt, i + 1, count) & accepted
}

fn in_small_room(
    rt: &(impl Print + ErrorOutput),
    file: &mut impl Read,
    path: &[u8],
    header: &[u8],
) -> bool {
    let mut space = [0u8; SMALL_ROOM];
    let room: &mut [u8] = &mut space;
    check(rt, file, path, header, room)
}

fn in_large_room(
    rt: &(impl Print + ErrorOutput),
    file: &mut impl Read,
    path: &[u8],
    header: &[u8],
) -> bool {
    let mut space = [0u8; LARGE_ROOM];
    let room: &mut [u8] = &mut space;
    check(rt, file, path, header, room)
}

// Reads the book into the room and writes its verdict.
fn check(
    rt: &(impl Print + ErrorOutput),
    file: &mut impl Read,
    path: &[u8],
    header: &[u8],
    room: &mut [u8],
) -> bool {
    let Ok(n) = command::read_book(rt, b"pcd-book-check", path, file, header, &mut *room) else {
        return false;
    };
    verdict::report(rt, path, &room[..n])
}
