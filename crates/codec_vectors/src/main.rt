// Runs the codecs on the records of standard input and writes a line for each: what tests/codec_vectors.py makes, with the
// answers that it worked out by other means.
#![tactic(auto)]

ghost use Rattle.std.specs.Prelude.{◌≤◌, length};

use base::refusal::Refusal;
use std::io;
use std::io::Input;
use time_code::TimeCode;
use vectors::{number, put};

const OPERANDS: usize = 22;

// Above these 63 bits of a pattern lie the NaNs.
const INFINITY: u64 = 0x7FF0_0000_0000_0000;

fn main(rt: HostRuntime) -> io::Result<()> {
    for _ in 0..vectors::MOST_RECORDS {
        if !turn(&rt)? {
            return Ok(());
        }
    }
    Ok(())
}

// Reads a record and runs it; false at the end of the input.
fn turn(rt: &(impl Input + Print)) -> io::Result<bool> {
    let mut record = [0u8; 32];
    if !vectors::filled(rt, &mut record) {
        return Ok(false);
    }
    run(rt, &record)
}

// A record's operation, how many bytes of its operands count, its year and its operands.
fn run(rt: &impl Print, record: &[u8; 32]) -> io::Result<bool> {
    let n = usize::from(record[1]);
    if OPERANDS < n {
        return Ok(false);
    }
    let year = number(&record[2..10]);
    let operands = &record[10..];
    match record[0] {
        1 => read_time(rt, year, &operands[..n])?,
        2 => write_time(rt, year, operands, n)?,
        3 => read_number(rt, &operands[..n])?,
        4 => write_number(rt, operands, n)?,
        _ => {}
    }
    Ok(true)
}

fn read_time(rt: &impl Print, year: u64, bytes: &[u8]) -> io::Result<()> {
    match time_code::decode(year, bytes) {
        Ok(t) => vectors::put_time(rt, t.spacecraft, t.instant),
        Err(r) => vectors::put_refusal(rt, r.number()),
    }
}

fn write_time(rt: &impl Print, year: u64, operands: &[u8], n: usize) -> io::Result<()>
    requires in_bounds { 22 ≤ length operands.now }
    requires n_bound { n ≤ 22 }
{
    let t = TimeCode {
        spacecraft: number(&operands[0..8]),
        instant: number(&operands[8..16]),
    };
    let mut space = [0xA5u8; 22];
    let out = &mut space[0..n];
    let answer = time_code::encode(year, t, out);
    written(rt, out, answer)
}

fn read_number(rt: &impl Print, bytes: &[u8]) -> io::Result<()> {
    match float1750::decode(bytes) {
        Ok(x) => vectors::put_double(rt, x),
        Err(r) => vectors::put_refusal(rt, r.number()),
    }
}

fn write_number(rt: &impl Print, operands: &[u8], n: usize) -> io::Result<()>
    requires in_bounds { 22 ≤ length operands.now }
    requires n_bound { n ≤ 22 }
{
    let x = double(number(&operands[0..8]));
    let mut space = [0xA5u8; 22];
    let out = &mut space[0..n];
    let answer = float1750::encode(x, out);
    written(rt, out, answer)
}

// The double of 64 bits. double_vectors makes the same test where it writes a NaN: one function of both is no plainer,
// for a public one has a contract and edits of its own.
fn double(pattern: u64) -> f64 {
    if INFINITY < pattern % 0x8000_0000_0000_0000 {
        return 0.0 / 0.0;
    }
    f64::from_bits(pattern)
}

// The bytes that a writer left, and its answer.
fn written(rt: &impl Print, out: &[u8], answer: Result<(), Refusal>) -> io::Result<()> {
    put(rt, b"[")?;
    vectors::put_bytes(rt, out)?;
    put(rt, b"] ")?;
    match answer {
        Ok(()) => put(rt, b"written\n"),
        Err(r) => vectors::put_refusal(rt, r.number()),
    }
}
