// The book of the bodies that are gathered.
ghost use Rattle.std.specs.Prelude.{◌≡◌};
ghost use Rattle.pcd_book.specs.Shelves.{Bound, Writable, MadePromise, room_for};

use command::ErrorOutput;
use cycle::CYCLE;

// An entry and a body.
const ENTRY_AND_BODY: usize = book::ENTRY + CYCLE;

// Writes the book of these bodies, which is put together in the room; a line says where that is too small or the book cannot be written.
pub(crate) fn write(
    rt: &(impl Print + ErrorOutput),
    year: u64,
    bodies: &[u8],
    room: &mut [u8],
) -> bool
    requires { Bound year bodies.now }
{
    let length = book_length(bodies.len() / CYCLE);
    if room.len() < length {
        command::say(rt, b"pcd-book", b"the book", b"the room does not hold it");
        return false;
    }
    write_made(rt, year, bodies, &mut room[0..length])
}

fn write_made(rt: &(impl Print + ErrorOutput), year: u64, bodies: &[u8], out: &mut [u8]) -> bool
    requires { Writable year bodies.now out.old }
{
    make(year, bodies, &mut *out);
    command::show(rt, b"pcd-book", out)
}

// Puts the book together. Of such bodies it is not refused.
fn make(year: u64, bodies: &[u8], out: &mut [u8])
    requires { Writable year bodies.now out.old }
    ensures { MadePromise year bodies.now out.new }
{
    book_writer::write(year, bodies, out).unwrap();
}

// How long the book of so many cycles is; 0 where there is none.
fn book_length(cycles: usize) -> usize
    ensures { result ≡ room_for cycles }
{
    if book::MOST_CYCLES < cycles {
        return 0;
    }
    book::HEADER + ENTRY_AND_BODY * cycles
}
