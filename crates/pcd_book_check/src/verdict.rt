// The verdict of a book as a line of text.
ghost use Rattle.std.specs.Prelude.{◌≡◌, true, Ok};
ghost use Rattle.book_check.specs.Checking.{verdict};
ghost use Rattle.command.specs.Text.{Adds};
ghost use Rattle.pcd_book_check.specs.Verdicts.{verdict_line, verdict_text, fault_text, is_yes};

use book::Fault;
use command::{ErrorOutput, put_field, put_meaning};

// A path and its verdict.
const LINE: usize = 4608;

// The last fault that is one of the whole book.
const WHOLE_BOOK: u8 = 16;

// Writes the line of a book; true where it is accepted and the line is written.
pub(crate) fn report(rt: &(impl Print + ErrorOutput), path: &[u8], book: &[u8]) -> bool
    ensures { result ≡ true → verdict book.now ≡ Ok tt }
{
    let verdict = book_check::check(book);
    let mut space = [0u8; LINE];
    if show_line(rt, path, verdict, &mut space) {
        return is_yes(verdict);
    }
    false
}

fn show_line(
    rt: &(impl Print + ErrorOutput),
    path: &[u8],
    verdict: Result<(), Fault>,
    line: &mut [u8],
) -> bool {
    let n = put_line(&mut *line, path, verdict);
    command::show(rt, b"pcd-book-check", &line[..n])
}

fn is_yes(verdict: Result<(), Fault>) -> bool
    ensures { result ≡ is_yes verdict }
{
    verdict.is_ok()
}

fn put_line(out: &mut [u8], path: &[u8], verdict: Result<(), Fault>) -> usize
    ensures { Adds out.old 0 (verdict_line path.now verdict) out.new result }
{
    let named = command::put_joined(&mut *out, 0, path, b": ");
    let told = put_verdict(&mut *out, named, verdict);
    command::put(out, told, b"\n")
}

fn put_verdict(out: &mut [u8], at: usize, verdict: Result<(), Fault>) -> usize
    ensures { Adds out.old at (verdict_text verdict) out.new result }
{
    match verdict {
        Ok(()) => command::put(out, at, b"yes"),
        Err(fault) => put_fault(out, at, fault.refusal.number(), fault.entry),
    }
}

// A fault of the whole book, 13 or 16, has no entry.
fn put_fault(out: &mut [u8], at: usize, number: u8, entry: u64) -> usize
    ensures { Adds out.old at (fault_text number entry) out.new result }
{
    let refused = put_field(&mut *out, at, b"no: refusal ", number as u64);
    if number <= WHOLE_BOOK {
        return put_meaning(out, refused, number);
    }
    let placed = put_field(&mut *out, refused, b" at entry ", entry);
    put_meaning(out, placed, number)
}
