// The parts of a book (paper 02, request 7): entry i and body i, which are the caller's own bytes. No stored offset is trusted: where a part lies
// is computed. The length and the number of cycles are tested, and nothing else.
#![tactic(auto)]

ghost use Rattle.std.specs.Prelude.{◌≡◌, ◌+◌, ◌≤◌, length, Ok, Err};
ghost use Rattle.base.specs.Refusals.{answered};
ghost use Rattle.book.specs.Layout.{cycles_said};
ghost use Rattle.book_parts.specs.Parts.{part_lines, instant_told};
ghost use Rattle.book_parts.specs.Parts.{entry_place, body_place, IsPart, PlacePromise};
ghost use Rattle.book_parts.specs.Parts.{try_entry_place, try_body_place, HandsOut, TryPlacePromise};

use base::big_endian;
use base::refusal::Refusal;
use book::{ENTRY, HEADER};
use cycle::CYCLE;

// Where a part of a book lies.
#[derive(Clone, Copy, Debug, PartialEq, Eq)]
pub struct Place {
    pub start: usize,
    pub length: usize,
}

// A refused part is the empty one at the start of the caller's bytes.
const NOWHERE: Place = Place {
    start: 0,
    length: 0,
};

// The 12 bytes of entry i, no copy; an empty part where it is refused.
pub fn entry(bytes: &[u8], i: u64) -> &[u8]
    ensures { IsPart result bytes.entry (entry_place bytes.now i) }
{
    let place = entry_place(bytes, i);
    part(bytes, place)
}

// The 65,536 bytes of body i, no copy; an empty part where it is refused.
pub fn body(bytes: &[u8], i: u64) -> &[u8]
    ensures { IsPart result bytes.entry (body_place bytes.now i) }
{
    let place = body_place(bytes, i);
    part(bytes, place)
}

// Entry i, or why it is refused: as its place is.
pub fn try_entry(bytes: &[u8], i: u64) -> Result<&[u8], Refusal>
    ensures { HandsOut result bytes.entry (try_entry_place bytes.now i) }
{
    match try_entry_place(bytes, i) {
        Ok(place) => Ok(part(bytes, place)),
        Err(refusal) => Err(refusal),
    }
}

// Body i, or why it is refused: as its place is.
pub fn try_body(bytes: &[u8], i: u64) -> Result<&[u8], Refusal>
    ensures { HandsOut result bytes.entry (try_body_place bytes.now i) }
{
    match try_body_place(bytes, i) {
        Ok(place) => Ok(part(bytes, place)),
        Err(refusal) => Err(refusal),
    }
}

// The instant that entry i holds; 0 where it is refused. It refuses nothing, since its callers ask
// for entries that they know to be there.
pub fn instant(bytes: &[u8], i: u64) -> u64
    ensures { result ≡ instant_told bytes.now i }
{
    match try_entry(bytes, i) {
        Ok(held) => big_endian::read(&held[0..8]),
        Err(_) => 0,
    }
}

// Where entry i lies; 0 and 0 where it is refused.
pub fn entry_place(bytes: &[u8], i: u64) -> Place
    ensures { PlacePromise bytes.now (entry_place bytes.now i) result }
{
    try_entry_place(bytes, i).unwrap_or(NOWHERE)
}

// Where body i lies; 0 and 0 where it is refused.
pub fn body_place(bytes: &[u8], i: u64) -> Place
    ensures { PlacePromise bytes.now (body_place bytes.now i) result }
{
    try_body_place(bytes, i).unwrap_or(NOWHERE)
}

// Where entry i lies. Refused 16: the length, or more than 255 cycles. Refused 20: no entry i.
pub fn try_entry_place(bytes: &[u8], i: u64) -> Result<Place, Refusal>
    ensures { TryPlacePromise bytes.now (try_entry_place bytes.now i) result }
{
    cycles_past(bytes, i)?;
    Ok(Place {
        start: HEADER + ENTRY * (i as usize),
        length: ENTRY,
    })
}

// Where body i lies. Refused as of entry i.
pub fn try_body_place(bytes: &[u8], i: u64) -> Result<Place, Refusal>
    ensures { TryPlacePromise bytes.now (try_body_place bytes.now i) result }
{
    let n = cycles_past(bytes, i)?;
    Ok(Place {
        start: book::body_start(n as u8, i as u8),
        length: CYCLE,
    })
}

// The number of cycles, which is above i.
fn cycles_past(bytes: &[u8], i: u64) -> Result<u64, Refusal>
    ensures { result ≡ answered Err (part_lines bytes.now i) (Ok (cycles_said bytes.now)) }
{
    let header = book::read_header(bytes)?;
    if header.cycles <= i {
        return Err(Refusal::NoSuchEntry);
    }
    Ok(header.cycles)
}

fn part(bytes: &[u8], place: Place) -> &[u8]
    requires { place.start + place.length ≤ length bytes.now }
    ensures { IsPart result bytes.entry place }
{
    let start = place.start;
    let end = start + place.length;
    &bytes[start..end]
}
