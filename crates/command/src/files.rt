// The bytes of a file.
ghost use Rattle.command.specs.Files.{FillPromise};

use crate::saying::{ErrorOutput, fail};
use std::io::Read;
use std::rt::Files;
use std::{fs, io};

// A read has failed before the file ended: how far the room is filled by then, and the error.
#[derive(Clone, Copy)]
pub struct ReadFailed {
    pub length: usize,
    pub error: io::Error,
}

// Opens a file to read it; a line says where it cannot be opened. The library opens a file by text
// alone, so a name that is no UTF-8 text cannot be opened.
pub fn open<R: Files + ErrorOutput>(rt: &R, program: &[u8], path: &[u8]) -> Option<R::File> {
    match open_named(rt, path) {
        Ok(file) => Some(file),
        Err(e) => {
            fail(rt, program, path, e);
            None
        }
    }
}

fn open_named<R: Files>(rt: &R, path: &[u8]) -> io::Result<R::File> {
    let Ok(name) = std::str::from_utf8(path) else {
        return Err(io::Error::new(io::ErrorKind::InvalidInput, "the name is no UTF-8 text"));
    };
    fs::open(rt, name)
}

// Reads into the room from place `from` on, until the file ends, a read fails or the room is full,
// and answers how far it is filled. What stood before that place stays.
pub fn fill(file: &mut impl Read, room: &mut [u8], from: usize) -> Result<usize, ReadFailed>
    ensures { FillPromise room.old from room.new result }
{
    let mut end = from;
    while end < room.len() {
        match file.read(&mut room[end..]) {
            Ok(0) => return Ok(end),
            Ok(n) => end += n,
            Err(error) => return Err(ReadFailed { length: end, error }),
        }
    }
    Ok(room.len())
}
