// What the header of a book says. The length and the number of cycles are tested, and nothing else.
ghost use Rattle.std.specs.Prelude.{◌≡◌};
ghost use Rattle.base.specs.Refusals.{Answers};
ghost use Rattle.book.specs.Header.{has_size, header_lines, header_of, count_of, year_of};

use crate::layout::HEADER;
use crate::{faults, fields};
use base::refusal::Refusal;

// The number of cycles, and the year.
#[derive(Clone, Copy, Debug, PartialEq, Eq)]
pub struct Header {
    pub cycles: u64,
    pub year: u64,
}

// What a book says. Refused 16: the length, or more than 255 cycles.
pub fn read_header(bytes: &[u8]) -> Result<Header, Refusal>
    ensures { Answers (header_lines bytes.now) (header_of bytes.now) result }
{
    if !has_size(bytes) {
        return Err(Refusal::WrongBookLength);
    }
    Ok(Header {
        cycles: fields::cycles_said(bytes) as u64,
        year: fields::year_said(bytes),
    })
}

// The number of cycles; 0 where it is refused.
pub fn cycles(bytes: &[u8]) -> u64
    ensures { result ≡ count_of bytes.now }
{
    match read_header(bytes) {
        Ok(says) => says.cycles,
        Err(_) => 0,
    }
}

// The year; 0 where it is refused.
pub fn year(bytes: &[u8]) -> u64
    ensures { result ≡ year_of bytes.now }
{
    match read_header(bytes) {
        Ok(says) => says.year,
        Err(_) => 0,
    }
}

// Whether the length is that of the number of cycles, and these are at most 255.
fn has_size(bytes: &[u8]) -> bool
    ensures { result ≡ has_size bytes.now }
{
    if bytes.len() < HEADER {
        return false;
    }
    faults::is_sized(bytes)
}
