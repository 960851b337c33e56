// Writes the text of the doubles of standard input, eight bytes each, first byte highest, a line for each: what tests/items_samples.py makes, with
// the lines that it worked out by other means.
#![tactic(auto)]

use std::io;
use std::io::Input;
use vectors::number;

const LINE: usize = 1152;

// In a pattern: the weight of the sign, and the 63 bits above which the NaNs lie.
const SIGN_BIT: u64 = 1 << 63;

const INFINITY: u64 = 0x7FF0_0000_0000_0000;

fn main(rt: HostRuntime) -> io::Result<()> {
    for _ in 0..vectors::MOST_RECORDS {
        if !turn(&rt)? {
            return Ok(());
        }
    }
    Ok(())
}

// Reads a double and writes its line; false at the end of the input.
fn turn(rt: &(impl Input + Print)) -> io::Result<bool> {
    let mut record = [0u8; 8];
    if !vectors::filled(rt, &mut record) {
        return Ok(false);
    }
    show(rt, number(&record))?;
    Ok(true)
}

// A NaN is written as one: the bits of it that are not fixed cannot be had.
fn show(rt: &impl Print, bits: u64) -> io::Result<()> {
    if INFINITY < bits % SIGN_BIT {
        return vectors::put(rt, b"nan\n");
    }
    show_double(rt, f64::from_bits(bits))
}

fn show_double(rt: &impl Print, x: f64) -> io::Result<()> {
    let mut line = [0u8; LINE];
    let n = double_text::put_double(&mut line, 0, x);
    let end = command::put_byte(&mut line, n, b'\n');
    vectors::put(rt, &line[..end])
}
