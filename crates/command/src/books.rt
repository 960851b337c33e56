// The bytes of a book in a file: its header comes first and tells how much room the rest may need. A program keeps a small room and a large one
// in functions of their own, so that the large one is on the stack only while a large book is read.
ghost use Rattle.std.specs.Prelude.{IfSome};
ghost use Rattle.io.specs.Counts.{IsPrefixLen};
ghost use Rattle.command.specs.Files.{filled_to};

use crate::files::{ReadFailed, fill};
use crate::saying::{ErrorOutput, fail};
use crate::text::put;
use std::io::Read;

// A book of 32 cycles, one of 255, each with a byte more, which tells a longer file: its length is wrong either way.
pub const SMALL_ROOM: usize = 2_097_541;

pub const LARGE_ROOM: usize = 16_714_745;

const SMALL_CYCLES: u8 = 32;

// Which room a book needs, the smaller one first.
#[derive(Clone, Copy, Debug, PartialEq, Eq, PartialOrd, Ord)]
pub enum Room {
    Small,
    Large,
}

// A book whose header is read.
#[derive(Clone, Copy, Debug, PartialEq, Eq)]
pub struct Begun {
    pub room: Room,
    // How much of the header there is.
    pub length: usize,
}

// Reads the header of a book; none where it cannot be read, and a line says so.
pub fn begin_book(
    rt: &impl ErrorOutput,
    program: &[u8],
    path: &[u8],
    file: &mut impl Read,
    header: &mut [u8; 4],
) -> Option<Begun>
    ensures { IfSome result (λ begun. IsPrefixLen begun.length header.new) }
{
    match fill(file, header, 0) {
        Ok(length) => Some(Begun {
            room: room_for(header[0], header[1]),
            length,
        }),
        Err(failed) => {
            fail(rt, program, path, failed.error);
            None
        }
    }
}

// The room for as many cycles as the header's first two bytes say. More than 255 are refused, whatever follows.
fn room_for(high: u8, low: u8) -> Room {
    if high == 0 && SMALL_CYCLES < low {
        Room::Large
    } else {
        Room::Small
    }
}

// Puts the header into the room and reads the rest behind it, and answers how long the book is. A
// line says where it cannot be read.
pub fn read_book(
    rt: &impl ErrorOutput,
    program: &[u8],
    path: &[u8],
    file: &mut impl Read,
    header: &[u8],
    room: &mut [u8],
) -> Result<usize, ReadFailed>
    ensures { IsPrefixLen (filled_to result) room.new }
{
    let at = put(&mut *room, 0, header);
    let filled = fill(file, room, at);
    if let Err(failed) = filled {
        fail(rt, program, path, failed.error);
    }
    filled
}
