// Two's complement counts of 32 bits as numbers (DFCB 3.2.7.4.4, 3.2.7.4.5 and 3.2.7.4.8): as an integer, and times a power of two as a double,
// which holds it exactly.
#![tactic(auto)]

ghost use Rattle.std.specs.Prelude.{◌≡◌, ◌≤◌, ◌<◌, ◌^◌, eqb};
ghost use Rattle.std.specs.Float.Ieee.{odd};
ghost use Rattle.fixed_point.specs.Counts.{signed as signedCount};
ghost use Rattle.fixed_point.specs.Promise.{ScaledPromise};

// A count from here on is negative.
const SIGN: u32 = 1 << 31;

// A negative count has the bits MODULUS − |count|.
const MODULUS: u64 = 1 << 32;

// In a double's bit pattern: the weight of its sign and of its exponent field.
const SIGN_BIT: u64 = 1 << 63;

const EXPONENT_UNIT: u64 = 1 << 52;

// The zeros before a number of 53 binary digits, in 64 bits.
const SPARE: u32 = 11;

// The exponent field of a number of 53 binary digits, less the one that its first digit adds.
const UNIT_FIELD: u64 = 1074;

// The count as an integer.
pub fn signed(count: u32) -> i64
    ensures { result ≡ signedCount count }
{
    if count < SIGN {
        return i64::from(count);
    }
    i64::from(count) - 4_294_967_296
}

// The count times 2^−places. It is exact, whatever the two are.
pub fn scaled(count: u32, places: u8) -> f64
    ensures { ScaledPromise places count result }
{
    if count == 0 {
        return 0.0;
    }
    if count < SIGN {
        return double(0, u64::from(count), places);
    }
    double(1, MODULUS - u64::from(count), places)
}

// The double ±magnitude × 2^−places. The first digit of the magnitude, moved to the place of the exponent field, adds one to it.
fn double(sign: u64, magnitude: u64, places: u8) -> f64
    requires { (sign ≤ 1) × (0 < magnitude) × (magnitude < 2 ^ 32) }
    ensures { result ≡ odd 53 (eqb sign 1) magnitude 0 places }
{
    let shift = u64::from(magnitude.leading_zeros() - SPARE);
    let field = UNIT_FIELD - u64::from(places) - shift;
    f64::from_bits(sign * SIGN_BIT + field * EXPONENT_UNIT + (magnitude << shift))
}
