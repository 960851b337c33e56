// What the programs write: text, numbers, bytes, and the lines that more than one of them has.
use std::io;

pub fn put(rt: &impl Print, text: &[u8]) -> io::Result<()> {
    rt.write_all(text)
}

pub fn put_number(rt: &impl Print, n: u64) -> io::Result<()> {
    rt.print(n)
}

// A number after its name.
pub fn field(rt: &impl Print, name: &[u8], n: u64) -> io::Result<()> {
    put(rt, name)?;
    put_number(rt, n)
}

// Text in which each '#' stands for the next of the numbers.
pub fn fields(rt: &impl Print, form: &[u8], numbers: &[u64]) -> io::Result<()> {
    let mut left = numbers.iter();
    for &b in form {
        if b != b'#' {
            put(rt, &[b])?;
        } else if let Some(&n) = left.next() {
            put_number(rt, n)?;
        }
    }
    Ok(())
}

pub fn put_bytes(rt: &impl Print, bytes: &[u8]) -> io::Result<()> {
    for &b in bytes {
        put_byte(rt, b)?;
    }
    Ok(())
}

pub fn put_byte(rt: &impl Print, b: u8) -> io::Result<()> {
    print!(rt; "{b:02x}")
}

pub fn put_refusal(rt: &impl Print, number: u8) -> io::Result<()> {
    field(rt, b"refused ", number as u64)?;
    put(rt, b"\n")
}

pub fn put_time(rt: &impl Print, spacecraft: u64, instant: u64) -> io::Result<()> {
    field(rt, b"time ", spacecraft)?;
    field(rt, b" ", instant)?;
    put(rt, b"\n")
}

pub fn put_double(rt: &impl Print, x: f64) -> io::Result<()> {
    let all = bits(x);
    println!(rt; "number {all:016x}")
}

// The bits of a double; all ones for a NaN, which no reading gives.
fn bits(x: f64) -> u64 {
    if x.is_nan() {
        return u64::MAX;
    }
    f64::to_bits(x)
}
