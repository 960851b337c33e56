// Compares books on the records of standard input and writes lines for each answer: what tests/book_compare_vectors.py makes, with the answers
// that it worked out by other means. Two areas, each for a book of 16 cycles, stay from record to record; what stands in them comes from the input
// alone.
#![tactic(auto)]

ghost use Rattle.std.specs.Prelude.{◌≡◌, length};

use base::refusal::Refusal;
use std::io;
use std::io::Input;
use vectors::{field, fields, filled, number, put};

// A book of 16 cycles and, behind it, a major frame.
const BOOK: usize = 1_065_156;

// Two lines more than a table has.
const SPACE: usize = 1536;

fn main(rt: HostRuntime) -> io::Result<()> {
    let mut first_space = blank();
    let mut second_space = blank();
    let mut table_space = [0u64; SPACE];
    let first: &mut [u8] = &mut first_space;
    let second: &mut [u8] = &mut second_space;
    let table: &mut [u64] = &mut table_space;
    for _ in 0..vectors::MOST_RECORDS {
        if !turn(&rt, &mut *first, &mut *second, &mut *table)? {
            return Ok(());
        }
    }
    Ok(())
}

// Room for a book. Callers know only its length, so that no check of theirs counts the bytes one by one.
fn blank() -> [u8; BOOK]
    ensures { 1065156 ≡ length result }
{
    [0; BOOK]
}

// Reads a record and runs it; false at the end of the input, and where a record goes beyond an area. A record: the operation, three bytes of
// nothing, a place or a length (4 bytes), and a number (8 bytes).
fn turn(
    rt: &(impl Input + Print),
    first: &mut [u8],
    second: &mut [u8],
    table: &mut [u64],
) -> io::Result<bool> {
    let mut record = [0u8; 16];
    if !filled(rt, &mut record) {
        return Ok(false);
    }
    let n = number(&record[4..8]) as usize;
    let value = number(&record[8..16]) as usize;
    match record[0] {
        1 => return Ok(load(rt, first, n, value)),
        2 => return Ok(load(rt, second, n, value)),
        3 => return Ok(repeat(rt, first, n, value)),
        4 => return Ok(repeat(rt, second, n, value)),
        5 => return compare(rt, first, n, second, value, table),
        _ => return Ok(false),
    }
}

// ---- what changes an area

// So many bytes of the input go to a place.
fn load(rt: &impl Input, area: &mut [u8], place: usize, n: usize) -> bool {
    if area.len() < place {
        return false;
    }
    if area.len() - place < n {
        return false;
    }
    let end = place + n;
    filled(rt, &mut area[place..end])
}

// So many bytes, as the input says, go once more from one place to another.
fn repeat(rt: &impl Input, area: &mut [u8], place: usize, from: usize) -> bool {
    let mut bytes = [0u8; 8];
    if !filled(rt, &mut bytes) {
        return false;
    }
    let n = number(&bytes) as usize;
    if area.len() < n {
        return false;
    }
    let last = area.len() - n;
    if (last < place) | (last < from) {
        return false;
    }
    put_again(area, place, from, n);
    true
}

// Byte by byte from the first on: what was put is read again where the parts overlap, which
// `copy_within` would not do.
fn put_again(area: &mut [u8], place: usize, from: usize, n: usize) {
    for i in 0..n {
        set(area, place, i, byte_at(area, from, i));
    }
}

fn byte_at(area: &[u8], from: usize, i: usize) -> u8 {
    if i < area.len() {
        if from < area.len() - i {
            return area[from + i];
        }
    }
    0
}

fn set(area: &mut [u8], place: usize, i: usize, b: u8) {
    if i < area.len() {
        if place < area.len() - i {
            area[place + i] = b;
        }
    }
}

// ---- what is asked

// The first n bytes of one area with the first m of the other, into as many numbers of the table as the input says.
fn compare(
    rt: &(impl Input + Print),
    first: &[u8],
    n: usize,
    second: &[u8],
    m: usize,
    table: &mut [u64],
) -> io::Result<bool> {
    let mut bytes = [0u8; 8];
    if !filled(rt, &mut bytes) {
        return Ok(false);
    }
    let size = number(&bytes) as usize;
    if first.len() < n {
        return Ok(false);
    }
    if second.len() < m {
        return Ok(false);
    }
    if table.len() < size {
        return Ok(false);
    }
    put_pattern(table);
    let answer = book_compare::compare(&first[0..n], &second[0..m], &mut table[0..size]);
    put_compared(rt, answer, table)?;
    Ok(true)
}

// Numbers of which each is another.
fn put_pattern(table: &mut [u64]) {
    for (i, number) in table.iter_mut().enumerate() {
        *number = u64::MAX - i as u64;
    }
}

fn put_compared(rt: &impl Print, answer: Result<u64, Refusal>, table: &[u64]) -> io::Result<()> {
    match answer {
        Ok(n) => {
            field(rt, b"lines ", n)?;
            put_sum(rt, table)?;
            put_lines(rt, table, n)
        }
        Err(refusal) => {
            field(rt, b"refused ", u64::from(refusal.number()))?;
            put_sum(rt, table)
        }
    }
}

// The sum of all numbers of the table, used or not.
fn put_sum(rt: &impl Print, table: &[u64]) -> io::Result<()> {
    let mut sum: u64 = 0;
    for &number in table {
        sum = vectors::mix(sum, number);
    }
    field(rt, b" sum ", sum)?;
    put(rt, b"\n")
}

// The first n lines of three numbers, as far as the table goes.
fn put_lines(rt: &impl Print, table: &[u64], n: u64) -> io::Result<()> {
    for line in table.chunks_exact(3).take(n as usize) {
        fields(rt, b"# # #\n", line)?;
    }
    Ok(())
}
