// What the programs that run outside vectors share: the bytes of standard input, the fields that they write, and sums over bytes.
#![tactic(auto)]

mod input;
mod print;
mod sums;

pub use input::{MOST_RECORDS, filled, filled_numbers};
pub use print::{
    field, fields, put, put_byte, put_bytes, put_double, put_number, put_refusal, put_time,
};
pub use sums::{bit, checksum, differing, mix, number, others, sum};
