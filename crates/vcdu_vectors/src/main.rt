// Runs the entries over VCDU headers on the records of standard input and writes a line for each:
// what tests/vcdu_vectors.py makes, with the answers that it worked out by other means.
#![tactic(auto)]

mod sweep;

use base::refusal;
use base::refusal::Refusal;
use std::io;
use std::io::Input;
use vectors::{field, put};

fn main(rt: HostRuntime) -> io::Result<()> {
    for _ in 0..vectors::MOST_RECORDS {
        if !turn(&rt)? {
            return Ok(());
        }
    }
    Ok(())
}

// Reads a record and runs it; false at the end of the input. A record: the operation, how many bytes
// are lent, and sixteen bytes, of which the first are lent.
fn turn(rt: &(impl Input + Print)) -> io::Result<bool> {
    let mut record = [0u8; 18];
    if !vectors::filled(rt, &mut record) {
        return Ok(false);
    }
    let n = usize::from(record[1]);
    if 16 < n {
        return Ok(false);
    }
    let end = 2 + n;
    run(rt, record[0], &mut record[2..end])?;
    Ok(true)
}

// The operation stays a number: it is the record's format, which tests/vcdu_vectors.py writes.
fn run(rt: &impl Print, operation: u8, header: &mut [u8]) -> io::Result<()> {
    match operation {
        1 => {
            let code = refusal::code(vcdu_header::encode(header));
            field(rt, b"encoded ", u64::from(code))?;
            put_header(rt, header)
        }
        2 => put_checked(rt, vcdu_header::check(header)),
        3 => {
            put_repaired(rt, vcdu_header::repair(header))?;
            put_header(rt, header)
        }
        _ => {
            field(rt, b"swept ", sweep::all(header))?;
            put(rt, b"\n")
        }
    }
}

fn put_header(rt: &impl Print, header: &[u8]) -> io::Result<()> {
    put(rt, b" ")?;
    vectors::put_bytes(rt, header)?;
    put(rt, b"\n")
}

fn put_checked(rt: &impl Print, checked: Result<bool, Refusal>) -> io::Result<()> {
    match checked {
        Ok(true) => put(rt, b"good\n"),
        Ok(false) => put(rt, b"bad\n"),
        Err(r) => vectors::put_refusal(rt, r.number()),
    }
}

fn put_repaired(rt: &impl Print, repaired: Result<u64, Refusal>) -> io::Result<()> {
    match repaired {
        Ok(n) => field(rt, b"corrected ", n),
        Err(r) => field(rt, b"refused ", u64::from(r.number())),
    }
}
