// Runs the lookup on the records of standard input and writes a line for each answer: what
// tests/lookup_vectors.py makes, with the answers that it worked out by other means.
#![tactic(auto)]

ghost use Rattle.std.specs.Prelude.{◌<◌};

use base::refusal::Refusal;
use lookup::Found;
use std::io;
use std::io::Input;
use vectors::{field, filled, filled_numbers, number, put};

fn main(rt: HostRuntime) -> io::Result<()> {
    // One more than the lookup takes.
    let mut space = [0u64; 100_001];
    let instants: &mut [u64] = &mut space;
    for _ in 0..vectors::MOST_RECORDS {
        if !turn(&rt, &mut *instants)? {
            return Ok(());
        }
    }
    Ok(())
}

// Reads a record and runs it on the first instants; false at the end of the input. A record: the
// operation, three bytes of nothing, how many instants (4 bytes), and a number (8 bytes).
fn turn(rt: &(impl Input + Print), instants: &mut [u64]) -> io::Result<bool> {
    let mut record = [0u8; 16];
    if !filled(rt, &mut record) {
        return Ok(false);
    }
    let n = number(&record[4..8]) as usize;
    if instants.len() < n {
        return Ok(false);
    }
    run(rt, record[0], &mut instants[0..n], number(&record[8..16]))
}

// The operation stays a number: it is the record's format, which tests/lookup_vectors.py writes.
fn run(
    rt: &(impl Input + Print),
    operation: u8,
    instants: &mut [u64],
    value: u64,
) -> io::Result<bool> {
    match operation {
        1 => Ok(filled_numbers(rt, instants)),
        2 => Ok(load_series(rt, instants, value)),
        _ => {
            put_found(rt, lookup::find(instants, value))?;
            Ok(true)
        }
    }
}

// Fills the list with a series, whose step and modulus are read from the input.
fn load_series(rt: &impl Input, instants: &mut [u64], first: u64) -> bool {
    let mut bytes = [0u8; 16];
    if !filled(rt, &mut bytes) {
        return false;
    }
    let step = number(&bytes[0..8]);
    let modulus = number(&bytes[8..16]);
    if modulus == 0 {
        return false;
    }
    put_series(instants, first, step, modulus);
    true
}

// The numbers from the first on by the step, modulo 2^64, and of each the remainder.
fn put_series(instants: &mut [u64], first: u64, step: u64, modulus: u64)
    requires { 0 < modulus }
{
    let mut x = first;
    for instant in instants {
        *instant = x % modulus;
        x = x.wrapping_add(step);
    }
}

fn put_found(rt: &impl Print, found: Result<Found, Refusal>) -> io::Result<()> {
    match found {
        Ok(
            Found {
                place: Some(place),
                looks,
            },
        ) => {
            field(rt, b"at ", place as u64)?;
            put_looks(rt, looks)
        }
        Ok(Found { place: None, looks }) => {
            put(rt, b"none")?;
            put_looks(rt, looks)
        }
        Err(r) => vectors::put_refusal(rt, r.number()),
    }
}

fn put_looks(rt: &impl Print, looks: usize) -> io::Result<()> {
    field(rt, b" looks ", looks as u64)?;
    put(rt, b"\n")
}
