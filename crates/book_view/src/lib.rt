// A view of a book (paper 02, request 7): it remembers the lent bytes and hands out entry i and body
// i as parts of them. A refused book's view holds nothing. The functions that have a view stand in
// this crate alone: each takes it apart and calls the function of `book` on the slice. Callers with
// a slice and a number use `entry_of`, `try_entry_of` and their like, whose contracts say nothing of
// a view.
#![tactic(auto)]

ghost use Rattle.std.specs.Prelude.{◌≡◌};
ghost use Rattle.book.specs.Header.{count_of, year_of};
ghost use Rattle.book_parts.specs.Parts.{entry_place, body_place, IsPart};
ghost use Rattle.book_parts.specs.Parts.{try_entry_place, try_body_place, HandsOut};
ghost use Rattle.book_view.specs.Held.{held_of, held_place};

use base::refusal::Refusal;

// The bytes that it remembers.
#[derive(Clone, Copy)]
pub struct Book<'a> {
    pub bytes: &'a [u8],
}

// A view of the bytes. `book::accept` tells whether it holds them: 13, 16, 17, 18 or 19, and it
// holds nothing.
pub fn view<'a>(bytes: &'a [u8]) -> Book<'a>
    ensures { IsPart result.bytes bytes.entry (held_place bytes.now) }
{
    Book { bytes: held(bytes) }
}

// What a view of the bytes holds: all of them, or none where the book is refused.
fn held(bytes: &[u8]) -> &[u8]
    ensures { IsPart result bytes.entry (held_place bytes.now) }
{
    match book::accept(bytes) {
        Ok(()) => bytes,
        Err(_) => &bytes[0..0],
    }
}

impl<'a> Book<'a> {
    // The 12 bytes of entry i; an empty part where it is refused.
    pub fn entry(self, i: u64) -> &'a [u8]
        ensures { IsPart result self.entry.bytes (entry_place self.entry.bytes.now i) }
    {
        book_parts::entry(self.bytes, i)
    }

    // The 65,536 bytes of body i; an empty part where it is refused.
    pub fn body(self, i: u64) -> &'a [u8]
        ensures { IsPart result self.entry.bytes (body_place self.entry.bytes.now i) }
    {
        book_parts::body(self.bytes, i)
    }

    // Entry i. Refused 16: the view holds no book. Refused 20: no entry i.
    pub fn try_entry(self, i: u64) -> Result<&'a [u8], Refusal>
        ensures { HandsOut result self.entry.bytes (try_entry_place self.entry.bytes.now i) }
    {
        book_parts::try_entry(self.bytes, i)
    }

    // Body i. Refused as entry i is.
    pub fn try_body(self, i: u64) -> Result<&'a [u8], Refusal>
        ensures { HandsOut result self.entry.bytes (try_body_place self.entry.bytes.now i) }
    {
        book_parts::try_body(self.bytes, i)
    }

    // The number of cycles; 0 where the view holds nothing.
    pub fn cycles(self) -> u64
        ensures { result ≡ count_of self.entry.bytes.now }
    {
        book::cycles(self.bytes)
    }

    // The year; 0 where the view holds nothing.
    pub fn year(self) -> u64
        ensures { result ≡ year_of self.entry.bytes.now }
    {
        book::year(self.bytes)
    }
}

// ---- through a view of the bytes

// Entry i of what a view of the bytes holds; an empty part where it is refused.
pub fn entry_of(bytes: &[u8], i: u64) -> &[u8]
    ensures { IsPart result bytes.entry (entry_place (held_of bytes.now) i) }
{
    view(bytes).entry(i)
}

// Body i of what a view of the bytes holds; an empty part where it is refused.
pub fn body_of(bytes: &[u8], i: u64) -> &[u8]
    ensures { IsPart result bytes.entry (body_place (held_of bytes.now) i) }
{
    view(bytes).body(i)
}

// Entry i of what a view of the bytes holds, or why it is refused.
pub fn try_entry_of(bytes: &[u8], i: u64) -> Result<&[u8], Refusal>
    ensures { HandsOut result bytes.entry (try_entry_place (held_of bytes.now) i) }
{
    view(bytes).try_entry(i)
}

// Body i of what a view of the bytes holds, or why it is refused.
pub fn try_body_of(bytes: &[u8], i: u64) -> Result<&[u8], Refusal>
    ensures { HandsOut result bytes.entry (try_body_place (held_of bytes.now) i) }
{
    view(bytes).try_body(i)
}

// The number of cycles of what a view of the bytes holds.
pub fn cycles_of(bytes: &[u8]) -> u64
    ensures { result ≡ count_of (held_of bytes.now) }
{
    view(bytes).cycles()
}

// The year of what a view of the bytes holds.
pub fn year_of(bytes: &[u8]) -> u64
    ensures { result ≡ year_of (held_of bytes.now) }
{
    view(bytes).year()
}
