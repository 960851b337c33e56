// Runs the frame store on the records of standard input and writes a line for each answer: what
// tests/frame_store_vectors.py makes, with the answers that it worked out by other means. Area and bits
// are handed on from record to record.
#![tactic(auto)]

ghost use Rattle.std.specs.Prelude.{◌≡◌, length};

use base::refusal;
use base::refusal::Refusal;
use frame_store::Stored;
use std::io;
use std::io::Input;
use vectors::{checksum, field, filled, number, put};

fn main(rt: HostRuntime) -> io::Result<()> {
    let mut space = blank();
    every_record(&rt, &mut space)
}

// One slot and one byte more than the store takes. Callers know only the length: a check that counted
// so many bytes one by one would run out of stack.
fn blank() -> [u8; 1064961]
    ensures { 1064961 ≡ length result }
{
    [0; 1064961]
}

fn every_record(rt: &(impl Input + Print), area: &mut [u8]) -> io::Result<()> {
    let mut bits: u64 = 0;
    for _ in 0..vectors::MOST_RECORDS {
        match turn(rt, &mut *area, bits)? {
            Some(left) => bits = left,
            None => return Ok(()),
        }
    }
    Ok(())
}

// Reads a record and runs it on the first bytes of the area: the bits to hand on, none at the end of
// the input. A record: the operation; 1 where the call is handed bits of its own, which are not handed
// on; two bytes of nothing; how many bytes of the area (4 bytes); those bits, and three numbers (8 bytes
// each).
fn turn(rt: &(impl Input + Print), area: &mut [u8], bits: u64) -> io::Result<Option<u64>> {
    let mut record = [0u8; 40];
    if !filled(rt, &mut record) {
        return Ok(None);
    }
    let size = number(&record[4..8]) as usize;
    if area.len() < size {
        return Ok(None);
    }
    let a = number(&record[16..24]);
    let b = number(&record[24..32]);
    let n = number(&record[32..40]);
    if record[1] == 1 {
        run(
            rt,
            record[0],
            &mut area[0..size],
            number(&record[8..16]),
            a,
            b,
            n,
        )?;
        return Ok(Some(bits));
    }
    let left = run(rt, record[0], &mut area[0..size], bits, a, b, n)?;
    Ok(Some(left))
}

// The bits that the call leaves.
// The operation stays a number: the record's format, which tests/frame_store_vectors.py writes.
fn run(
    rt: &impl Print,
    operation: u8,
    area: &mut [u8],
    bits: u64,
    a: u64,
    b: u64,
    n: u64,
) -> io::Result<u64> {
    match operation {
        1 => {
            put_series(area, a, b);
            Ok(0)
        }
        2 => store(rt, area, bits, a, b, n),
        3 => put_released(rt, frame_store::release(area, bits, a), bits),
        4 => {
            put_part(rt, frame_store::slot(area, bits, a))?;
            vectors::put_refusal(rt, refusal::code(frame_store::try_slot(area, bits, a)))?;
            Ok(bits)
        }
        _ => {
            field(rt, b"area ", checksum(area))?;
            put(rt, b"\n")?;
            Ok(bits)
        }
    }
}

// Stores a frame of n bytes, which are a series.
fn store(
    rt: &impl Print,
    area: &mut [u8],
    bits: u64,
    first: u64,
    step: u64,
    n: u64,
) -> io::Result<u64> {
    let mut frame = [0u8; 16_385];
    put_series(&mut frame, first, step);
    store_first(rt, area, bits, &frame, n as usize)
}

// Stores the first bytes.
fn store_first(
    rt: &impl Print,
    area: &mut [u8],
    bits: u64,
    bytes: &[u8],
    length: usize,
) -> io::Result<u64> {
    match bytes.get(..length) {
        Some(frame) => put_stored(rt, frame_store::store(area, bits, frame), bits),
        None => Ok(bits),
    }
}

// The numbers from the first on by the step, modulo 2^64, and of each the remainder by 251.
fn put_series(bytes: &mut [u8], first: u64, step: u64) {
    let mut x = first;
    for byte in bytes {
        *byte = (x % 251) as u8;
        x = x.wrapping_add(step);
    }
}

// The answer as a line, a refused one with slot 0 and the bits that were; and the bits to hand on.
fn put_stored(rt: &impl Print, answer: Result<Stored, Refusal>, bits: u64) -> io::Result<u64> {
    let mut stored = Stored { slot: 0, bits };
    let number = refusal::pass(answer, &mut stored);
    field(rt, b"slot ", stored.slot)?;
    field(rt, b" bits ", stored.bits)?;
    put(rt, b" ")?;
    vectors::put_refusal(rt, number)?;
    Ok(stored.bits)
}

fn put_released(rt: &impl Print, answer: Result<u64, Refusal>, bits: u64) -> io::Result<u64> {
    let mut left = bits;
    let number = refusal::pass(answer, &mut left);
    field(rt, b"bits ", left)?;
    put(rt, b" ")?;
    vectors::put_refusal(rt, number)?;
    Ok(left)
}

fn put_part(rt: &impl Print, part: &[u8]) -> io::Result<()> {
    field(rt, b"part ", part.len() as u64)?;
    field(rt, b" ", checksum(part))?;
    put(rt, b" ")
}
