// Runs the data pointer's entries on the records of standard input and writes a line for each
// answer: what tests/data_pointer_vectors.py makes, with the answers that it worked out by walking.
#![tactic(auto)]

use base::refusal::Refusal;
use std::io;
use std::io::Input;
use vectors::{field, filled, number, put};

fn main(rt: HostRuntime) -> io::Result<()> {
    for _ in 0..vectors::MOST_RECORDS {
        if !turn(&rt)? {
            return Ok(());
        }
    }
    Ok(())
}

// Reads a record and runs it; false at the end of the input. A record: the operation, a pointer and
// a number (8 bytes each).
fn turn(rt: &(impl Input + Print)) -> io::Result<bool> {
    let mut record = [0u8; 17];
    if !filled(rt, &mut record) {
        return Ok(false);
    }
    let p = number(&record[1..9]);
    let n = number(&record[9..17]);
    put_answer(rt, run(record[0], p, n))?;
    Ok(true)
}

// The operation stays a number: the record's format, which tests/data_pointer_vectors.py writes.
fn run(operation: u8, p: u64, n: u64) -> Result<u64, Refusal> {
    match operation {
        1 => data_pointer::next(p),
        2 => data_pointer::previous(p),
        3 => data_pointer::after(p, n),
        _ => data_pointer::distance(p, n),
    }
}

fn put_answer(rt: &impl Print, answer: Result<u64, Refusal>) -> io::Result<()> {
    match answer {
        Ok(v) => {
            field(rt, b"", v)?;
            put(rt, b"\n")
        }
        Err(r) => vectors::put_refusal(rt, r.number()),
    }
}
