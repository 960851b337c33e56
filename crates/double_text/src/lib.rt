// A double as decimal text that denotes exactly its number, so that every reader makes the same double of it again. A double is a whole number
// times or over a power of two; n / 2^p is n × 5^p / 10^p, so the digits end.
#![tactic(auto)]

mod digits;

ghost use Rattle.std.specs.Prelude.{◌≡◌, ◌+◌, ◌^◌, ◌≤◌, ◌<◌, length};
ghost use Rattle.command.specs.Text.{Adds};
ghost use Rattle.double_text.specs.Decimal.{pointed, product, lowest_terms, significand, sign_text, scaled_text, bits_text, double_text};

use command::put;

// In a double's bit pattern: the weight of its sign and of its exponent field.
const SIGN_BIT: u64 = 1 << 63;

const EXPONENT_UNIT: u64 = 1 << 52;

// The exponent field of an infinity, and the one of which a significand is a whole number.
const INFINITE: u64 = 2047;

const WHOLE: u64 = 1075;

// The digits of a significand, and room for one digit more for each factor.
const DIGITS: usize = 20;

const MOST_DIGITS: usize = 1100;

// A fraction n / 2^p in lowest terms.
#[derive(Clone, Copy)]
struct Lowest {
    numerator: u64,
    power: usize,
}

// The exact decimal text of a double; `nan`, `inf` and `-inf` of those that are no number.
pub fn put_double(out: &mut [u8], at: usize, x: f64) -> usize
    ensures { Adds out.old at (double_text x) out.new result }
{
    // A NaN's bit pattern is not fixed, so it is not asked for.
    if x.is_nan() {
        return put(out, at, b"nan");
    }
    put_bits(out, at, f64::to_bits(x))
}

// Of a double's 64 bits.
fn put_bits(out: &mut [u8], at: usize, bits: u64) -> usize
    ensures { Adds out.old at (bits_text bits) out.new result }
{
    let signed = put_sign(&mut *out, at, bits / SIGN_BIT);
    let exponent = bits / EXPONENT_UNIT % 2048;
    if exponent == INFINITE {
        return put(out, signed, b"inf");
    }
    put_scaled(
        out,
        signed,
        significand_of(exponent, bits % EXPONENT_UNIT),
        exponent,
    )
}

fn put_sign(out: &mut [u8], at: usize, sign: u64) -> usize
    ensures { Adds out.old at (sign_text sign) out.new result }
{
    if sign == 0 {
        return put(out, at, b"");
    }
    put(out, at, b"-")
}

// A number without its sign is its significand times 2^exponent / 2^1075.
fn significand_of(exponent: u64, fraction: u64) -> u64
    requires { fraction < 2 ^ 52 }
    ensures { result ≡ significand exponent fraction }
{
    if exponent == 0 {
        return fraction * 2;
    }
    EXPONENT_UNIT + fraction
}

// n × 2^exponent / 2^1075.
fn put_scaled(out: &mut [u8], at: usize, n: u64, exponent: u64) -> usize
    requires { exponent < 2048 }
    ensures { Adds out.old at (scaled_text n exponent) out.new result }
{
    if WHOLE <= exponent {
        let k = (exponent - WHOLE) as usize;
        return put_product(out, at, n, 2, k, DIGITS + k);
    }
    let l = lowest_terms(n, (WHOLE - exponent) as usize);
    put_product(out, at, l.numerator, 5, l.power, DIGITS)
}

// n / 2^p in lowest terms.
fn lowest_terms(n: u64, p: usize) -> Lowest
    ensures { (result ≡ lowest_terms n p) × (result.power ≤ p) }
{
    let mut numerator = n;
    for i in 0..p {
        if numerator % 2 != 0 {
            return Lowest {
                numerator,
                power: p - i,
            };
        }
        numerator /= 2;
    }
    Lowest {
        numerator,
        power: 0,
    }
}

// The digits of n × factor^k, with the decimal point behind the first `cut` of 20 + k digits.
fn put_product(out: &mut [u8], at: usize, n: u64, factor: u8, k: usize, cut: usize) -> usize
    requires { (factor ≤ 9) × (k ≤ 1075) × (cut ≤ 20 + k) }
    ensures { Adds out.old at (pointed cut (product n factor k)) out.new result }
{
    let mut space = [0u8; MOST_DIGITS];
    let size = DIGITS + k;
    digits::expand(&mut space[..size], n, factor, k);
    put_pointed(out, at, &space[..size], cut)
}

// Digits with the decimal point behind the first `cut` of them; without it where that is all. Leading zeros are left out.
fn put_pointed(out: &mut [u8], at: usize, all: &[u8], cut: usize) -> usize
    requires { cut ≤ length all.now }
    ensures { Adds out.old at (pointed cut all.now) out.new result }
{
    let first = digits::leading_zeros(all, cut);
    let whole = put(&mut *out, at, &all[first..cut]);
    if cut < all.len() {
        let point = put(&mut *out, whole, b".");
        return put(out, point, &all[cut..]);
    }
    whole
}
