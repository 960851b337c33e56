// A book of cycles. The answer is the number of the refusal, 0 for none; a refusal writes nothing. A part of a book is a reference, which cannot
// cross: where it lies crosses.
ghost use Rattle.std.specs.Prelude.{◌≡◌};
ghost use Rattle.base.specs.Refusals.{number_of};
ghost use Rattle.book.specs.Faults.{view_refusal};
ghost use Rattle.book_writer.specs.Promise.{WritePromise};
ghost use Rattle.book_api.specs.Books.{CheckCrossed, HeaderCrossed, EntryCrossed, BodyCrossed, place_or};

use base::refusal::{self, Refusal};
use book_parts::Place;

// Writes the book of a year and of the bodies of its cycles, end to end.
pub fn pcd_book_write(year: u64, bodies: &[u8], out: &mut [u8]) -> u8
    ensures { WritePromise year bodies.now out.old out.new result }
{
    refusal::code(book_writer::write(year, bodies, out))
}

// Why a view of the bytes holds nothing, 0 where it holds the book.
pub fn pcd_book_view_refusal(book: &[u8]) -> u8
    ensures { result ≡ view_refusal book.now }
{
    refusal::code(book::accept(book))
}

// Checks a book: the number of its first fault, 0 where it is accepted. `out` gets the lowest entry that has the fault, 0 where there is none: that is
// part of the answer, so it is written in every case.
pub fn pcd_book_check(book: &[u8], out: &mut u64) -> u8
    ensures { CheckCrossed book.now result out.new }
{
    match book_check::check(book) {
        Ok(()) => {
            *out = 0;
            0
        }
        Err(fault) => {
            *out = fault.entry;
            fault.refusal.number()
        }
    }
}

// `out` gets the number of cycles, then the year.
pub fn pcd_book_header(book: &[u8], out: &mut [u64; 2]) -> u8
    ensures { HeaderCrossed book.now result out.old out.new }
{
    match book::read_header(book) {
        Ok(header) => {
            *out = [header.cycles, header.year];
            0
        }
        Err(refusal) => refusal.number(),
    }
}

// `out` gets the place of entry i in the book, then its length.
pub fn pcd_book_entry(book: &[u8], i: u64, out: &mut [u64; 2]) -> u8
    ensures { EntryCrossed book.now i result out.old out.new }
{
    pass_place(book_parts::try_entry_place(book, i), out)
}

// `out` gets the place of body i in the book, then its length.
pub fn pcd_book_body(book: &[u8], i: u64, out: &mut [u64; 2]) -> u8
    ensures { BodyCrossed book.now i result out.old out.new }
{
    pass_place(book_parts::try_body_place(book, i), out)
}

fn pass_place(place: Result<Place, Refusal>, out: &mut [u64; 2]) -> u8
    ensures code { result ≡ number_of place }
    ensures out { out.new ≡ place_or out.old place }
{
    match place {
        Ok(p) => {
            *out = [p.start as u64, p.length as u64];
            0
        }
        Err(refusal) => refusal.number(),
    }
}
