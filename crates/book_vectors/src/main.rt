// Runs books on the records of standard input and writes lines for each answer: what tests/book_vectors.py makes, with the answers that it
// worked out by other means. Two areas, of 32 bodies and of a book of as many, stay from record to record.
#![tactic(auto)]

ghost use Rattle.std.specs.Prelude.{◌≡◌, length};

use base::{format, refusal};
use book::Fault;
use cycle::CYCLE;
use std::io;
use std::io::Input;
use vectors::{field, fields, filled, number, put};

// 32 bodies and 128 bytes; a book of 32 cycles and 128 bytes.
const BODIES: usize = 2_097_280;

const BOOK: usize = 2_097_668;

fn main(rt: HostRuntime) -> io::Result<()> {
    let mut body_space = blank_bodies();
    let mut book_space = blank_book();
    let bodies: &mut [u8] = &mut body_space;
    let book: &mut [u8] = &mut book_space;
    for _ in 0..vectors::MOST_RECORDS {
        if !turn(&rt, &mut *bodies, &mut *book)? {
            return Ok(());
        }
    }
    Ok(())
}

// Room for the bodies, and for the book. Callers know only the length, so that no check of theirs counts the bytes one by one.
fn blank_bodies() -> [u8; BODIES]
    ensures { 2097280 ≡ length result }
{
    [0; BODIES]
}

fn blank_book() -> [u8; BOOK]
    ensures { 2097668 ≡ length result }
{
    [0; BOOK]
}

// Reads a record and runs it; false at the end of the input, and where a record goes beyond an area. A record: the operation, three bytes of
// nothing, a place or a length (4 bytes), and a number (8 bytes).
fn turn(rt: &(impl Input + Print), bodies: &mut [u8], book: &mut [u8]) -> io::Result<bool> {
    let mut record = [0u8; 16];
    if !filled(rt, &mut record) {
        return Ok(false);
    }
    let n = number(&record[4..8]) as usize;
    run(rt, record[0], n, number(&record[8..16]), bodies, book)
}

// The operation stays a number: it is the record's format, which tests/book_vectors.py writes.
fn run(
    rt: &(impl Input + Print),
    operation: u8,
    n: usize,
    value: u64,
    bodies: &mut [u8],
    book: &mut [u8],
) -> io::Result<bool> {
    match operation {
        1 => Ok(make_body(rt, bodies, n, value)),
        2 => Ok(patch(bodies, n, value)),
        3 => write(rt, bodies, n, value, book),
        _ => on_book(rt, operation, n, value, book),
    }
}

fn on_book(
    rt: &impl Print,
    operation: u8,
    n: usize,
    value: u64,
    book: &mut [u8],
) -> io::Result<bool> {
    match operation {
        4 => Ok(patch(book, n, value)),
        5 => Ok(fill(book, n, value)),
        _ => ask(rt, operation, n, value, book),
    }
}

fn ask(rt: &impl Print, operation: u8, n: usize, i: u64, book: &[u8]) -> io::Result<bool> {
    let Some(bytes) = book.get(..n) else {
        return Ok(false);
    };
    match operation {
        6 => put_view(rt, bytes)?,
        7 => put_parts(rt, bytes, i)?,
        8 => put_check(rt, bytes)?,
        _ => return Ok(false),
    }
    Ok(true)
}

// ---- what changes an area

fn patch(area: &mut [u8], place: usize, value: u64) -> bool {
    match area.get_mut(place) {
        Some(byte) => {
            *byte = (value % 256) as u8;
            true
        }
        None => false,
    }
}

fn fill(area: &mut [u8], n: usize, value: u64) -> bool {
    match area.get_mut(..n) {
        Some(bytes) => {
            bytes.fill((value % 256) as u8);
            true
        }
        None => false,
    }
}

// Body i, made of a seed and the time code that follows.
fn make_body(rt: &impl Input, bodies: &mut [u8], i: usize, seed: u64) -> bool {
    let mut code = [0u8; 8];
    if !filled(rt, &mut code) {
        return false;
    }
    if bodies.len() / CYCLE <= i {
        return false;
    }
    let start = CYCLE * i;
    let end = start + CYCLE;
    put_body(&mut bodies[start..end], seed, &code[0..7]);
    true
}

// Bytes from the seed, then the sync bytes and the numbers, then word 72 of the time code and of the identifiers.
fn put_body(body: &mut [u8], seed: u64, code: &[u8]) {
    put_noise(body, seed);
    put_numbers(body);
    put_time(body, code);
    put_identifier(body, 1);
    put_identifier(body, 2);
    put_identifier(body, 3);
}

fn put_noise(body: &mut [u8], seed: u64) {
    let mut x = seed;
    for byte in body {
        x = (x % 4_294_967_296 * 1_103_515_245 + 12_345) % 4_294_967_296;
        *byte = (x / 65_536 % 256) as u8;
    }
}

fn put_numbers(body: &mut [u8]) {
    for frame in 0..512 {
        let start = format::MINOR_FRAME * frame;
        set(body, start, format::SYNC_WORD_0);
        set(body, start + 1, format::SYNC_WORD_1);
        set(body, start + 2, format::SYNC_WORD_2);
        set(body, start + format::NUMBER_PLACE, (frame % 128) as u8);
    }
}

fn put_time(body: &mut [u8], code: &[u8]) {
    for (k, &byte) in code.iter().enumerate() {
        put_word72(body, 0, k, byte);
    }
}

fn put_identifier(body: &mut [u8], kind: u8) {
    for k in 0..8 {
        put_word72(body, kind, k, kind);
    }
}

// Word 72 of minor frame 96 + k of a major frame.
fn put_word72(body: &mut [u8], major: u8, k: usize, value: u8) {
    if k < 8 {
        let start = format::MAJOR_FRAME * usize::from(major) + format::MINOR_FRAME * (96 + k);
        set(body, start + 72, value);
    }
}

fn set(area: &mut [u8], place: usize, value: u8) {
    if let Some(byte) = area.get_mut(place) {
        *byte = value;
    }
}

// ---- what is asked

fn write(
    rt: &(impl Input + Print),
    bodies: &[u8],
    n: usize,
    year: u64,
    book: &mut [u8],
) -> io::Result<bool> {
    let mut bytes = [0u8; 8];
    if !filled(rt, &mut bytes) {
        return Ok(false);
    }
    let length = number(&bytes) as usize;
    if bodies.len() < n {
        return Ok(false);
    }
    if book.len() < length {
        return Ok(false);
    }
    put_written(rt, year, &bodies[0..n], &mut book[0..length])?;
    Ok(true)
}

fn put_written(rt: &impl Print, year: u64, bodies: &[u8], book: &mut [u8]) -> io::Result<()> {
    let answer = book_writer::write(year, bodies, &mut *book);
    let numbers = [u64::from(refusal::code(answer)), vectors::checksum(book)];
    fields(rt, b"write # sum #\n", &numbers)
}

fn put_view(rt: &impl Print, bytes: &[u8]) -> io::Result<()> {
    let numbers = [
        u64::from(refusal::code(book::accept(bytes))),
        book_view::cycles_of(bytes),
        book_view::year_of(bytes),
    ];
    fields(rt, b"view # cycles # year #\n", &numbers)
}

fn put_check(rt: &impl Print, bytes: &[u8]) -> io::Result<()> {
    match book_check::check(bytes) {
        Ok(()) => put(rt, b"check accepted\n"),
        Err(fault) => put_fault(rt, fault),
    }
}

fn put_fault(rt: &impl Print, fault: Fault) -> io::Result<()> {
    let numbers = [u64::from(fault.refusal.number()), fault.entry];
    fields(rt, b"check # entry #\n", &numbers)
}

fn put_parts(rt: &impl Print, bytes: &[u8], i: u64) -> io::Result<()> {
    put_placed(rt, bytes, i)?;
    put_viewed(rt, bytes, i)
}

// By the slice, with the places; a part that is refused is an empty one at 0.
fn put_placed(rt: &impl Print, bytes: &[u8], i: u64) -> io::Result<()> {
    let number = refusal::code(book_parts::try_entry_place(bytes, i));
    let place = book_parts::entry_place(bytes, i);
    field(rt, b"part ", u64::from(number))?;
    field(rt, b" entry ", place.start as u64)?;
    put_entry(rt, book_parts::entry(bytes, i))?;
    field(rt, b" body ", book_parts::body_place(bytes, i).start as u64)?;
    put_body_sum(rt, book_parts::body(bytes, i))
}

// Through a view.
fn put_viewed(rt: &impl Print, bytes: &[u8], i: u64) -> io::Result<()> {
    let number = refusal::code(book_view::try_entry_of(bytes, i));
    field(rt, b"view ", u64::from(number))?;
    put(rt, b" entry")?;
    put_entry(rt, book_view::entry_of(bytes, i))?;
    put(rt, b" body")?;
    put_body_sum(rt, book_view::body_of(bytes, i))
}

fn put_entry(rt: &impl Print, entry: &[u8]) -> io::Result<()> {
    let numbers = [entry.len() as u64];
    fields(rt, b" # ", &numbers)?;
    vectors::put_bytes(rt, entry)
}

fn put_body_sum(rt: &impl Print, body: &[u8]) -> io::Result<()> {
    let numbers = [body.len() as u64, vectors::checksum(body)];
    fields(rt, b" # #\n", &numbers)
}
