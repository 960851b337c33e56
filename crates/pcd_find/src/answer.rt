// The answer of a lookup as a line of text.
ghost use Rattle.std.specs.Prelude.{◌≡◌, length, get_or};
ghost use Rattle.book.specs.Faults.{view_refusal};
ghost use Rattle.command.specs.Text.{Adds};
ghost use Rattle.pcd_find.specs.Answers.{answer_line, found_text, none_text, refused_text, InstantsPromise};

use base::refusal::Refusal;
use command::{ErrorOutput, put, put_field};
use lookup::Found;

const LINE: usize = 128;

const MOST_CYCLES: usize = 255;

// Looks the instant up in an accepted book and writes the answer; a line says where the book is refused.
pub(crate) fn report(
    rt: &(impl Print + ErrorOutput),
    path: &[u8],
    book: &[u8],
    wanted: u64,
) -> bool {
    if let Err(refusal) = book::accept(book) {
        command::refuse(rt, b"pcd-find", path, refusal.number());
        return false;
    }
    let mut space = [0u64; MOST_CYCLES];
    let n = put_instants(book, &mut space);
    show_answer(rt, &space[..n], wanted)
}

// Puts the instants of an accepted book's entries into the list and answers how many there are.
fn put_instants(book: &[u8], out: &mut [u64]) -> usize
    requires { (view_refusal book.now ≡ 0) × (length out.old ≡ 255) }
    ensures { InstantsPromise book.now out.new result }
{
    let n = book::cycles(book) as usize;
    for i in 0..n {
        out[i] = book_parts::instant(book, i as u64);
    }
    n
}

fn show_answer(rt: &(impl Print + ErrorOutput), instants: &[u64], wanted: u64) -> bool {
    let found = lookup::find(instants, wanted);
    let mut space = [0u8; LINE];
    show_line(rt, instants, found, &mut space)
}

fn show_line(
    rt: &(impl Print + ErrorOutput),
    instants: &[u64],
    found: Result<Found, Refusal>,
    line: &mut [u8],
) -> bool {
    let n = put_answer(&mut *line, instants, found);
    command::show(rt, b"pcd-find", &line[..n])
}

fn put_answer(out: &mut [u8], instants: &[u64], found: Result<Found, Refusal>) -> usize
    ensures { Adds out.old 0 (answer_line instants.now found) out.new result }
{
    match found {
        Ok(
            Found {
                place: Some(place),
                looks,
            },
        ) => { put_found(out, place as u64, element(instants, place), looks as u64) }
        Ok(Found { place: None, looks }) => put_none(out, looks as u64),
        Err(refusal) => put_refused(out, refusal.number()),
    }
}

fn put_found(out: &mut [u8], place: u64, instant: u64, looks: u64) -> usize
    ensures { Adds out.old 0 (found_text place instant looks) out.new result }
{
    let placed = put_field(&mut *out, 0, b"place ", place);
    let timed = put_field(&mut *out, placed, b" instant ", instant);
    let looked = put_field(&mut *out, timed, b" looks ", looks);
    put(out, looked, b"\n")
}

fn put_none(out: &mut [u8], looks: u64) -> usize
    ensures { Adds out.old 0 (none_text looks) out.new result }
{
    let looked = put_field(&mut *out, 0, b"none looks ", looks);
    put(out, looked, b"\n")
}

fn put_refused(out: &mut [u8], number: u8) -> usize
    ensures { Adds out.old 0 (refused_text number) out.new result }
{
    let refused = put_field(&mut *out, 0, b"refusal ", number as u64);
    put(out, refused, b"\n")
}

// An element, 0 past the end.
fn element(list: &[u64], i: usize) -> u64
    ensures { result ≡ get_or list.now i 0 }
{
    if i < list.len() {
        return list[i];
    }
    0
}
