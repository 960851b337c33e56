// Runs the pay system's entries on the records of standard input and writes a line for each answer:
// what tests/pay_vectors.py makes, with the answers that it worked out by other means.
#![tactic(auto)]

ghost use Rattle.std.specs.Prelude.{◌<◌};

use std::io;
use std::io::Input;
use vectors::{filled, number, put};

fn main(rt: HostRuntime) -> io::Result<()> {
    // Two instants more than the lookup takes.
    let mut space = [0u8; 800_016];
    let bytes: &mut [u8] = &mut space;
    for _ in 0..vectors::MOST_RECORDS {
        if !turn(&rt, &mut *bytes)? {
            return Ok(());
        }
    }
    Ok(())
}

// What a record asks for.
#[derive(Clone, Copy)]
struct Asked {
    // The operation stays a number: it is the record's format, which tests/pay_vectors.py writes.
    operation: u8,
    // The length of the lent answer.
    lent: u8,
    first: u8,
    second: u8,
    third: u8,
    value: u64,
}

// Reads a record and runs it on the first bytes; false at the end of the input. A record: the
// operation, the length of the answer, three copies, three bytes of nothing, how many bytes (8 bytes),
// and a number (8 bytes).
fn turn(rt: &(impl Input + Print), bytes: &mut [u8]) -> io::Result<bool> {
    let mut record = [0u8; 24];
    if !filled(rt, &mut record) {
        return Ok(false);
    }
    let n = number(&record[8..16]);
    if (bytes.len() as u64) < n {
        return Ok(false);
    }
    let asked = Asked {
        operation: record[0],
        lent: record[1],
        first: record[2],
        second: record[3],
        third: record[4],
        value: number(&record[16..24]),
    };
    run(rt, asked, &mut bytes[0..n as usize])
}

fn run(rt: &(impl Input + Print), asked: Asked, bytes: &mut [u8]) -> io::Result<bool> {
    match asked.operation {
        6 => Ok(filled(rt, bytes)),
        7 => Ok(load_series(rt, bytes)),
        _ => {
            let mut answer = [0xEEu8; 20];
            put_answer(rt, asked, bytes, &mut answer)
        }
    }
}

// Fills the bytes with the instants of a series, whose first one, step and modulus are read from the
// input.
fn load_series(rt: &impl Input, bytes: &mut [u8]) -> bool {
    let mut given = [0u8; 24];
    if !filled(rt, &mut given) {
        return false;
    }
    let first = number(&given[0..8]);
    let step = number(&given[8..16]);
    let modulus = number(&given[16..24]);
    if modulus == 0 {
        return false;
    }
    put_series(bytes, first, step, modulus);
    true
}

// The numbers from the first on by the step, modulo 2^64, and of each the remainder: eight bytes each,
// the first byte highest.
fn put_series(bytes: &mut [u8], first: u64, step: u64, modulus: u64)
    requires { 0 < modulus }
{
    let mut x = first;
    for instant in bytes.chunks_exact_mut(8) {
        base::big_endian::write(x % modulus, instant);
        x = x.wrapping_add(step);
    }
}

// Lends the first bytes of an answer, and writes what is returned and all that the answer then holds.
fn put_answer(rt: &impl Print, asked: Asked, bytes: &[u8], answer: &mut [u8]) -> io::Result<bool> {
    let Some(lent) = answer.get_mut(..usize::from(asked.lent)) else {
        return Ok(false);
    };
    let returned = call(asked, bytes, lent);
    vectors::put_number(rt, u64::from(returned))?;
    put(rt, b" ")?;
    vectors::put_bytes(rt, answer)?;
    put(rt, b"\n")?;
    Ok(true)
}

fn call(asked: Asked, bytes: &[u8], answer: &mut [u8]) -> u8 {
    match asked.operation {
        1 => pay_api::pcd_pay_vote_bytes(asked.first, asked.second, asked.third, answer),
        2 => pay_api::pcd_pay_vote_bits(asked.first, asked.second, asked.third, answer),
        3 => pay_api::pcd_pay_instant(bytes, asked.value, answer),
        4 => pay_api::pcd_pay_number(bytes, answer),
        _ => pay_api::pcd_pay_find(bytes, asked.value, answer),
    }
}
