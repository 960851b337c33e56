// Compares books: of the arguments from the second on, each pair is two books; the first names the descriptor for the status. The lines by which
// they differ go to standard output, by rising instant. Status 0 where they are equal, 1 where they differ, 2 where a book is refused, cannot be
// read, or the lines cannot be written.
#![tactic(auto)]

mod differences;

ghost use Rattle.std.specs.Prelude.{IfSome, ◌≤◌};
ghost use Rattle.io.specs.Counts.{IsPrefixLen};

use command::{ErrorOutput, LARGE_ROOM, Room, SMALL_ROOM};
use std::io::Read;
use std::rt::{Env, Files};

const REFUSED: u64 = 2;

fn main(rt: HostRuntime) {
    let status = compare_from(&rt, 2, command::argument_count(&rt));
    command::end(&rt, status);
}

// A book that is open: its file, the room that it needs, and how much of its header there is.
#[derive(Drop)]
struct Opened<F> {
    file: F,
    room: Room,
    length: usize,
}

// Compares the pairs of arguments from i on and answers the highest status. It calls itself, and the compiler does not merge the frame of a room
// with that of such a function: a room is on the stack only while its book is read.
fn compare_from<R: Env + Files + Print + ErrorOutput>(rt: &R, i: usize, count: usize) -> u64 {
    if count <= i {
        return 0;
    }
    if count - i < 2 {
        return 0;
    }
    let mut first_header = [0u8; 4];
    let mut second_header = [0u8; 4];
    let first = begin_at(rt, i, &mut first_header);
    let second = begin_at(rt, i + 1, &mut second_header);
    let mut status = REFUSED;
    if let (Some(mut a), Some(mut b)) = (first, second) {
        let k = a.length;
        let m = b.length;
        match a.room.max(b.room) {
            Room::Small => status = in_rooms::<SMALL_ROOM>(
                rt,
                i,
                &mut a.file,
                &first_header[..k],
                &mut b.file,
                &second_header[..m],
            ),
            Room::Large => status = in_rooms::<LARGE_ROOM>(
                rt,
                i,
                &mut a.file,
                &first_header[..k],
                &mut b.file,
                &second_header[..m],
            ),
        }
    }
    higher(status, compare_from(rt, i + 2, count))
}

// Opens the book that an argument names and reads its header; none where that cannot be done.
fn begin_at<R: Env + Files + ErrorOutput>(
    rt: &R,
    i: usize,
    header: &mut [u8; 4],
) -> Option<Opened<R::File>>
    ensures { IfSome result (λ opened. IsPrefixLen opened.length header.new) }
{
    let mut path = io::buffer();
    let n = command::argument(rt, i, &mut path);
    let mut file = command::open(rt, b"pcd-book-compare", &path[..n])?;
    let begun = command::begin_book(rt, b"pcd-book-compare", &path[..n], &mut file, header)?;
    Some(Opened {
        file,
        room: begun.room,
        length: begun.length,
    })
}

fn higher(a: u64, b: u64) -> u64 {
    if a < b { b } else { a }
}

// In two rooms of N bytes each.
fn in_rooms<const N: usize>(
    rt: &(impl Env + Print + ErrorOutput),
    i: usize,
    a: &mut impl Read,
    first_header: &[u8],
    b: &mut impl Read,
    second_header: &[u8],
) -> u64
    requires { N ≤ 16777216 }
{
    let mut first = [0u8; N];
    let Some(n) = read_at(rt, i, a, first_header, &mut first) else {
        return REFUSED;
    };
    let mut second = [0u8; N];
    compare(rt, i, &first[..n], b, second_header, &mut second)
}

// Reads the second book into its room and compares it with the first.
fn compare(
    rt: &(impl Env + Print + ErrorOutput),
    i: usize,
    first: &[u8],
    b: &mut impl Read,
    second_header: &[u8],
    second: &mut [u8],
) -> u64 {
    let Some(n) = read_at(rt, after(i), b, second_header, &mut *second) else {
        return REFUSED;
    };
    differences::report(rt, first, &second[..n])
}

// The next argument; there are never so many that none comes after it.
fn after(i: usize) -> usize {
    if i < usize::MAX { i + 1 } else { i }
}

fn read_at(
    rt: &(impl Env + ErrorOutput),
    i: usize,
    file: &mut impl Read,
    header: &[u8],
    room: &mut [u8],
) -> Option<usize>
    ensures { IfSome result (λ length. IsPrefixLen length room.new) }
{
    let mut path = io::buffer();
    let n = command::argument(rt, i, &mut path);
    command::read_book(rt, b"pcd-book-compare", &path[..n], file, header, room).ok()
}
