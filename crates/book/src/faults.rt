// The faults of a book, in the order of paper 02: 16 for fewer than 4 bytes, 13, 16, 17, 18, 19.
ghost use Rattle.std.specs.Prelude.{◌≡◌, ◌/◌, ◌≤◌, ◌<◌, length};
ghost use Rattle.base.specs.Refusals.{number_of};
ghost use Rattle.book.specs.Layout.{cycles_said, year_said};
ghost use Rattle.book.specs.Faults.{contents, is_sized, bad_instant, bad_offset, accepted, view_refusal, first_fault};
ghost use Rattle.book.specs.Sought.{bad_row, first_such, unless_found, Laid, Sized};

use crate::fields;
use crate::layout::{ENTRY, ENTRY_AND_BODY, HEADER, MOST_CYCLES, body_start};
use base::refusal::Refusal;
use cycle::CYCLE;

// A fault of a book: why it is refused, and the lowest entry that has the fault; 0 for a fault of
// the whole book.
#[derive(Clone, Copy, Debug, PartialEq, Eq)]
pub struct Fault {
    pub refusal: Refusal,
    pub entry: u64,
}

// Whether a book is accepted, or why not: its first fault without the entry.
pub fn accept(bytes: &[u8]) -> Result<(), Refusal>
    ensures answer { result ≡ accepted bytes.now }
    ensures number { number_of result ≡ view_refusal bytes.now }
{
    match first_fault(bytes) {
        Ok(()) => Ok(()),
        Err(fault) => Err(fault.refusal),
    }
}

// The first fault, if there is one. 13: the year. 16: the length, or more than 255 cycles; fewer
// than 4 bytes before 13. 17: a body is not as described. 18: an instant is not its body's, or does
// not rise. 19: an offset.
pub fn first_fault(bytes: &[u8]) -> Result<(), Fault>
    ensures { result ≡ first_fault bytes.now }
{
    if bytes.len() < HEADER {
        return of_the_whole(Refusal::WrongBookLength);
    }
    if !time_code::year::in_span(fields::year_said(bytes)) {
        return of_the_whole(Refusal::YearOutsideSpan);
    }
    if !is_sized(bytes) {
        return of_the_whole(Refusal::WrongBookLength);
    }
    first_entry_fault(bytes)
}

// Whether the length is that of the number of cycles, and these are at most 255.
pub(crate) fn is_sized(bytes: &[u8]) -> bool
    requires { 4 ≤ length bytes.now }
    ensures { result ≡ is_sized (contents bytes.now) }
{
    let n = fields::cycles_said(bytes);
    (bytes.len() == HEADER + ENTRY_AND_BODY * n) & (n <= MOST_CYCLES)
}

// 17, 18 or 19, of a book that has its length and a year of the span.
fn first_entry_fault(bytes: &[u8]) -> Result<(), Fault>
    requires { Laid bytes.now }
    ensures { result ≡ first_fault bytes.now }
{
    let n = fields::cycles_said(bytes);
    let year = fields::year_said(bytes);
    let start = HEADER + ENTRY * n;
    unless_found(Refusal::NotACycle, first_bad_body(year, &bytes[start..]))?;
    unless_found(Refusal::WrongInstant, first_bad_instant(bytes, year, n))?;
    unless_found(Refusal::WrongOffset, first_bad_offset(bytes, n))
}

// The lowest of the whole bodies end to end that is no cycle of the year.
pub fn first_bad_body(year: u64, bodies: &[u8]) -> Option<usize>
    ensures { result ≡ first_such (bad_row year bodies.now) (length bodies.now / 65536) }
{
    let n = bodies.len() / CYCLE;
    (0..n).find(|&i| is_bad_body(year, bodies, i))
}

fn is_bad_body(year: u64, bodies: &[u8], i: usize) -> bool
    requires { i < length bodies.now / 65536 }
    ensures { result ≡ bad_row year bodies.now i }
{
    let start = CYCLE * i;
    let end = start + CYCLE;
    !cycle::is_cycle(year, &bodies[start..end])
}

// The lowest entry whose instant is not its body's, or does not rise.
fn first_bad_instant(bytes: &[u8], year: u64, n: usize) -> Option<usize>
    requires { Sized bytes.now n × (year ≡ year_said bytes.now) }
    ensures { result ≡ first_such (bad_instant (contents bytes.now)) n }
{
    (0..n).find(|&i| is_bad_instant(bytes, year, n, i))
}

fn is_bad_instant(bytes: &[u8], year: u64, n: usize, i: usize) -> bool
    requires { Sized bytes.now n × (year ≡ year_said bytes.now) × (i < n) }
    ensures { result ≡ bad_instant (contents bytes.now) i }
{
    let start = HEADER + ENTRY * n + CYCLE * i;
    let end = start + CYCLE;
    let instant = fields::instant_at(bytes, i);
    if instant != cycle::instant(year, &bytes[start..end]) {
        return true;
    }
    if 0 < i {
        return instant <= fields::instant_at(bytes, i - 1);
    }
    false
}

// The lowest entry whose offset is not where its body starts.
fn first_bad_offset(bytes: &[u8], n: usize) -> Option<usize>
    requires { Sized bytes.now n }
    ensures { result ≡ first_such (bad_offset (contents bytes.now)) n }
{
    (0..n).find(|&i| is_bad_offset(bytes, n, i))
}

fn is_bad_offset(bytes: &[u8], n: usize, i: usize) -> bool
    requires { Sized bytes.now n × (i < n) }
    ensures { result ≡ bad_offset (contents bytes.now) i }
{
    fields::offset_at(bytes, i) != body_start(n as u8, i as u8) as u64
}

// A fault of the whole book.
fn of_the_whole(refusal: Refusal) -> Result<(), Fault>
    ensures { result ≡ unless_found refusal (Some 0) }
{
    unless_found(refusal, Some(0))
}

// The fault that the lowest entry with it has, if there is such an entry.
fn unless_found(refusal: Refusal, entry: Option<usize>) -> Result<(), Fault>
    ensures { result ≡ unless_found refusal entry }
{
    match entry {
        None => Ok(()),
        Some(i) => Err(Fault {
            refusal: refusal,
            entry: i as u64,
        }),
    }
}
