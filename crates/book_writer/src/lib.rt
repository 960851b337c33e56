// Writes a book (paper 02, request 7) from a year and the bodies of its cycles, end to end.
#![tactic(auto)]

ghost use Rattle.std.specs.Prelude.{◌≡◌, ◌++◌, ◌+◌, ◌*◌, ◌≤◌, ◌<◌, eqb, length, take, drop};
ghost use Rattle.base.specs.Numbers.{bytes_of};
ghost use Rattle.base.specs.Ranges.{joined};
ghost use Rattle.base.specs.Refusals.{permitted};
ghost use Rattle.cycle.specs.Cycle.{instant_of};
ghost use Rattle.book.specs.Layout.{book_length, entry, book};
ghost use Rattle.book.specs.Faults.{contents_of, faults as faultsOf, lines_of};
ghost use Rattle.book.specs.Sought.{first_such};
ghost use Rattle.book_writer.specs.Writing.{bodies_in};
ghost use Rattle.book_writer.specs.Sought.{row_instant, falling_row};
ghost use Rattle.book_writer.specs.Promise.{WriteAnswers};

use base::big_endian;
use base::refusal::Refusal;
use book::{ENTRY, ENTRY_AND_BODY, HEADER, MOST_CYCLES};
use cycle::CYCLE;

// Writes the book of the year and the cycles whose bodies these are. Refused 2: no whole number of
// bodies, or `out` does not fit them. Refused 13: the year. Refused 16: more than 255 cycles. Refused
// 17: a body is no cycle of the year. Refused 18: an instant does not rise. A refusal writes nothing.
pub fn write(year: u64, bodies: &[u8], out: &mut [u8]) -> Result<(), Refusal>
    ensures { WriteAnswers year bodies.now out.old out.new result }
{
    if bodies.len() % CYCLE != 0 {
        return Err(Refusal::WrongLength);
    }
    let n = bodies.len() / CYCLE;
    if !fits(n, out.len()) {
        return Err(Refusal::WrongLength);
    }
    permit_contents(year, bodies, n)?;
    put_book(year, bodies, n, out);
    Ok(())
}

// Whether a book of n cycles is so long, for any n: with no product that could wrap.
fn fits(n: usize, length: usize) -> bool
    ensures { result ≡ eqb length (book_length n) }
{
    if length < HEADER {
        return false;
    }
    if (length - HEADER) % ENTRY_AND_BODY != 0 {
        return false;
    }
    (length - HEADER) / ENTRY_AND_BODY == n
}

// 13, 16, 17 or 18, of the year and the n cycles; 19 cannot come.
fn permit_contents(year: u64, bodies: &[u8], n: usize) -> Result<(), Refusal>
    requires { length bodies.now ≡ 65536 * n }
    ensures { result ≡ permitted (lines_of (faultsOf (contents_of year (bodies_in bodies.now)))) }
{
    if !time_code::year::in_span(year) {
        return Err(Refusal::YearOutsideSpan);
    }
    if MOST_CYCLES < n {
        return Err(Refusal::WrongBookLength);
    }
    if book::first_bad_body(year, bodies).is_some() {
        return Err(Refusal::NotACycle);
    }
    if first_falling(year, bodies, n).is_some() {
        return Err(Refusal::WrongInstant);
    }
    Ok(())
}

fn instant_in(year: u64, bodies: &[u8], i: usize) -> u64
    requires { 65536 * i + 65536 ≤ length bodies.now }
    ensures { result ≡ row_instant year bodies.now i }
{
    let start = CYCLE * i;
    let end = start + CYCLE;
    cycle::instant(year, &bodies[start..end])
}

fn falls(year: u64, bodies: &[u8], i: usize) -> bool
    requires { 65536 * i + 65536 ≤ length bodies.now }
    ensures { result ≡ falling_row year bodies.now i }
{
    if 0 < i {
        return instant_in(year, bodies, i) <= instant_in(year, bodies, i - 1);
    }
    false
}

// The lowest body whose instant does not rise.
fn first_falling(year: u64, bodies: &[u8], n: usize) -> Option<usize>
    requires { 65536 * n ≤ length bodies.now }
    ensures { result ≡ first_such (falling_row year bodies.now) n }
{
    (0..n).find(|&i| falls(year, bodies, i))
}

// ---- the bytes

fn put_book(year: u64, bodies: &[u8], n: usize, out: &mut [u8])
    requires { (n ≤ 255) × (length bodies.now ≡ 65536 * n) × (length out.old ≡ book_length n) }
    ensures { out.new ≡ book year (bodies_in bodies.now) }
{
    put_header(n as u64, year, out);
    put_entries(year, bodies, n, out);
    let start = HEADER + ENTRY * n;
    out[start..].copy_from_slice(bodies);
}

fn put_header(n: u64, year: u64, out: &mut [u8])
    requires { 4 ≤ length out.old }
    ensures { out.new ≡ bytes_of 2 n ++ (bytes_of 2 year ++ drop 4 out.old) }
{
    big_endian::write(n, &mut out[0..2]);
    big_endian::write(year, &mut out[2..4]);
}

fn put_entries(year: u64, bodies: &[u8], n: usize, out: &mut [u8])
    requires { (n ≤ 255) × (length bodies.now ≡ 65536 * n) × (length out.old ≡ book_length n) }
    ensures { out.new
        ≡ take 4 out.old ++ (joined (entry year (bodies_in bodies.now)) 0 n ++ drop (4 + 12 * n) out.old) }
{
    for i in 0..n {
        let instant = instant_in(year, bodies, i);
        let offset = book::body_start(n as u8, i as u8) as u64;
        let start = HEADER + ENTRY * i;
        let end = start + ENTRY;
        put_entry(instant, offset, &mut out[start..end]);
    }
}

fn put_entry(instant: u64, offset: u64, out: &mut [u8])
    requires { length out.old ≡ 12 }
    ensures { out.new ≡ bytes_of 8 instant ++ bytes_of 4 offset }
{
    big_endian::write(instant, &mut out[0..8]);
    big_endian::write(offset, &mut out[8..12]);
}
