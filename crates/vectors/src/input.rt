// The records of standard input.
use crate::sums::number;
use std::io::{Input, Read};

// More records than any input of these programs has; it makes the loop over them end.
pub const MOST_RECORDS: u64 = 1_000_000;

// Fills these bytes from the input; false where it ends before.
pub fn filled(rt: &impl Input, bytes: &mut [u8]) -> bool {
    rt.reader().read_exact(bytes).is_ok()
}

// Fills this list with numbers of eight bytes, first byte highest; false where the input ends before.
pub fn filled_numbers(rt: &impl Input, list: &mut [u64]) -> bool {
    for n in list.iter_mut() {
        let mut bytes = [0u8; 8];
        if !filled(rt, &mut bytes) {
            return false;
        }
        *n = number(&bytes);
    }
    true
}
