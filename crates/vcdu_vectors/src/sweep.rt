// All ways in which at most two symbols of a header can be wrong, repaired one after the other.
ghost use Rattle.std.specs.Prelude.{◌≡◌, ◌<◌, length};

use base::refusal::Refusal;
use vectors::mix;

// Two places of ten and what is wrong at each: 10 × 16 × 10 × 16.
const WAYS: u64 = 25_600;

// A checksum of the answers and of the headers that are left; 0 for a header of another length than eight.
pub fn all(header: &[u8]) -> u64 {
    if header.len() != 8 {
        return 0;
    }
    let mut sum: u64 = 0;
    for way in 0..WAYS {
        sum = one(header, way, sum);
    }
    sum
}

fn one(header: &[u8], way: u64, sum: u64) -> u64
    requires { length header.now ≡ 8 }
{
    let mut copy = [
        header[0], header[1], header[2], header[3], header[4], header[5], header[6], header[7],
    ];
    spoil(&mut copy, way / 2560 % 10, way / 160 % 16);
    spoil(&mut copy, way / 16 % 10, way % 16);
    let answer = told(vcdu_header::repair(&mut copy));
    mix(mix(sum, answer), vectors::checksum(&copy))
}

// Adds to the symbol at a place, counted from the first.
fn spoil(header: &mut [u8], place: u64, by: u64)
    requires { length header.old ≡ 8 }
{
    let at = byte_of(place / 2 % 5);
    if place % 2 == 0 {
        header[at] = header[at] ^ ((by % 16 * 16) as u8);
    } else {
        header[at] = header[at] ^ ((by % 16) as u8);
    }
}

// The protected bytes are 0, 1, 5, 6 and 7.
fn byte_of(n: u64) -> usize
    requires { n < 5 }
    ensures { result < 8 }
{
    if n < 2 {
        return n as usize;
    }
    n as usize + 3
}

fn told(answer: Result<u64, Refusal>) -> u64 {
    match answer {
        Ok(n) => n,
        Err(r) => 100 + u64::from(r.number()),
    }
}
