// Runs word 72's entries on the records of standard input and writes a line for each answer: what tests/word72_vectors.py makes, with
// the answers that it worked out by other means.
#![tactic(auto)]

use base::refusal::{self, Refusal};
use std::io;
use std::io::Input;
use subcom::{EightFlags, Form, Item, Reading};
use vectors::{field, filled, number, put, put_bytes, put_number, put_refusal};

// A record: the operation, seven bytes of nothing, three numbers of eight bytes, and the year in as many.
const RECORD: usize = 40;

const AREA: usize = 16_384;

const COLUMN: usize = 128;

fn main(rt: HostRuntime) -> io::Result<()> {
    // Both have more room than an area and a column, so that longer ones can be lent.
    let mut area_space = [0u8; 16_640];
    let mut column_space = [0u8; 160];
    let area: &mut [u8] = &mut area_space;
    let column: &mut [u8] = &mut column_space;
    for _ in 0..vectors::MOST_RECORDS {
        if !turn(&rt, &mut *area, &mut *column)? {
            return Ok(());
        }
    }
    Ok(())
}

// Reads a record and runs it; false at the end of the input.
fn turn(rt: &(impl Input + Print), area: &mut [u8], column: &mut [u8]) -> io::Result<bool> {
    let mut record = [0u8; 40];
    if filled(rt, &mut record) {
        return run(rt, &record, area, column);
    }
    Ok(false)
}

fn run(
    rt: &(impl Input + Print),
    record: &[u8],
    area: &mut [u8],
    column: &mut [u8],
) -> io::Result<bool> {
    if record.len() != RECORD {
        return Ok(false);
    }
    let operation = record[0];
    let a = number(&record[8..16]);
    let b = number(&record[16..24]);
    let c = number(&record[24..32]);
    let year = number(&record[32..40]);
    // The operation stays a number: the record's format, which tests/word72_vectors.py writes.
    match operation {
        1 => Ok(load(rt, area, AREA)),
        2 => Ok(load(rt, column, COLUMN)),
        3 => gather(rt, first(area, a), column, b),
        _ => {
            ask_one(rt, operation, year, column, a, b, c)?;
            Ok(true)
        }
    }
}

// The operations that change neither buffer.
fn ask_one(
    rt: &impl Print,
    operation: u8,
    year: u64,
    column: &[u8],
    a: u64,
    b: u64,
    c: u64,
) -> io::Result<()> {
    match operation {
        4 => kind(rt, year, first(column, a)),
        5 => list(rt, year, first(column, COLUMN as u64), a),
        _ => ask(rt, year, first(column, c), a, b),
    }
}

// Fills the first n bytes of a buffer from the input.
fn load(rt: &impl Input, buffer: &mut [u8], n: usize) -> bool {
    match buffer.get_mut(..n) {
        Some(bytes) => filled(rt, bytes),
        None => false,
    }
}

// The first n bytes of a buffer, or all where it has no more.
fn first(buffer: &[u8], n: u64) -> &[u8] {
    buffer.get(..n as usize).unwrap_or(buffer)
}

// Gathers into the first n bytes of the column, and writes the answer and the whole buffer.
fn gather(rt: &impl Print, area: &[u8], column: &mut [u8], n: u64) -> io::Result<bool> {
    let count = n as usize;
    if count <= column.len() {
        let out = &mut column[0..count];
        let answer = refusal::code(subcom::gather(area, out));
        put_number(rt, u64::from(answer))?;
        put(rt, b" ")?;
        put_bytes(rt, column)?;
        put(rt, b"\n")?;
        return Ok(true);
    }
    Ok(false)
}

fn kind(rt: &impl Print, year: u64, column: &[u8]) -> io::Result<()> {
    match subcom::kind(year, column) {
        Ok(k) => {
            field(rt, b"kind ", k)?;
            put(rt, b"\n")
        }
        Err(r) => put_refusal(rt, r.number()),
    }
}

// Writes what each item of a kind is, its bytes, and what it reads as.
fn list(rt: &impl Print, year: u64, column: &[u8], kind: u64) -> io::Result<()> {
    match subcom::item_count(kind) {
        Ok(n) => list_items(rt, year, column, kind, n),
        Err(r) => put_refusal(rt, r.number()),
    }
}

fn list_items(rt: &impl Print, year: u64, column: &[u8], kind: u64, n: u64) -> io::Result<()> {
    for item in 0..n {
        list_item(rt, year, column, kind, item)?;
    }
    Ok(())
}

fn list_item(rt: &impl Print, year: u64, column: &[u8], kind: u64, item: u64) -> io::Result<()> {
    put_number(rt, kind)?;
    field(rt, b" ", item)?;
    match subcom::describe(kind, item) {
        Ok(i) => put_item(rt, i)?,
        Err(r) => put_number(rt, u64::from(r.number()))?,
    }
    put_values(rt, year, column, kind, item)
}

// Writes the answers of all entries on one item.
fn ask(rt: &impl Print, year: u64, column: &[u8], kind: u64, item: u64) -> io::Result<()> {
    let refusal = refusal::code(subcom::try_part(column, kind, item));
    put_number(rt, u64::from(refusal))?;
    put_values(rt, year, column, kind, item)
}

// Writes the bytes of an item, none where it is refused, and what they read as.
fn put_values(rt: &impl Print, year: u64, column: &[u8], kind: u64, item: u64) -> io::Result<()> {
    put(rt, b" [")?;
    put_bytes(rt, subcom::part(column, kind, item))?;
    put(rt, b"] ")?;
    put_reading(rt, subcom::read(year, column, kind, item))
}

fn put_item(rt: &impl Print, i: Item) -> io::Result<()> {
    put(rt, b" ")?;
    put_form(rt, i.form)?;
    field(rt, b" ", i.first as u64)?;
    field(rt, b" ", i.length as u64)
}

fn put_form(rt: &impl Print, form: Form) -> io::Result<()> {
    match form {
        Form::Count => put(rt, b"count"),
        Form::TwelveBit => put(rt, b"twelve"),
        Form::Flags => put(rt, b"flags"),
        Form::Number => put(rt, b"number"),
        Form::Time => put(rt, b"time"),
        Form::Fill => put(rt, b"fill"),
    }
}

fn put_reading(rt: &impl Print, answer: Result<Reading, Refusal>) -> io::Result<()> {
    match answer {
        Ok(Reading::Count(n)) => {
            field(rt, b"count ", n)?;
            put(rt, b"\n")
        }
        Ok(Reading::Flags(f)) => put_flags(rt, f),
        Ok(Reading::Number(x)) => vectors::put_double(rt, x),
        Ok(Reading::Time(t)) => vectors::put_time(rt, t.spacecraft, t.instant),
        Ok(Reading::Fill) => put(rt, b"fill\n"),
        Err(r) => put_refusal(rt, r.number()),
    }
}

fn put_flags(rt: &impl Print, f: EightFlags) -> io::Result<()> {
    put(rt, b"flags ")?;
    put_flag(rt, f.bit0)?;
    put_flag(rt, f.bit1)?;
    put_flag(rt, f.bit2)?;
    put_flag(rt, f.bit3)?;
    put_flag(rt, f.bit4)?;
    put_flag(rt, f.bit5)?;
    put_flag(rt, f.bit6)?;
    put_flag(rt, f.bit7)?;
    put(rt, b"\n")
}

fn put_flag(rt: &impl Print, flag: bool) -> io::Result<()> {
    put_number(rt, vectors::bit(flag))
}
