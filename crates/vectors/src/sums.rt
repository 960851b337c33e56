// Numbers and sums of bytes.
ghost use Rattle.std.specs.Prelude.{◌≡◌, drop};
ghost use mathlib.Core.List.{foldl};
ghost use Rattle.base.specs.Lists.{count_by, one};
ghost use Rattle.base.specs.Numbers.{NumberOf};
ghost use Rattle.vectors.specs.Folds.{mixed, is_other, is_other_first, differ, capped};

const MODULUS: u64 = 4_294_967_291;

// The number that the bytes are, the first one highest. Of more than eight the last eight count.
pub fn number(bytes: &[u8]) -> u64
    ensures { NumberOf bytes.now result }
{
    base::big_endian::read(bytes)
}

pub fn checksum(bytes: &[u8]) -> u64
    ensures { result ≡ foldl mixed 0 bytes.now }
{
    bytes.iter().fold(0, |h, &b| mix(h, u64::from(b)))
}

// One number more in a checksum.
pub fn mix(h: u64, n: u64) -> u64
    ensures { result ≡ mixed h n }
{
    ((h % MODULUS) * 31 + n % MODULUS) % MODULUS
}

// How many of the bytes are not this one.
pub fn others(bytes: &[u8], b: u8) -> u64
    ensures { result ≡ count_by (is_other b) bytes.now }
{
    bytes.iter().filter(|&&x| x != b).count() as u64
}

pub fn bit(b: bool) -> u64
    ensures { result ≡ one b }
{
    u64::from(b)
}

// A sum that stops at the largest number.
pub fn sum(a: u64, b: u64) -> u64
    ensures { result ≡ capped a b }
{
    a.saturating_add(b)
}

// At how many places of the first slice the second has another byte, or none.
pub fn differing(a: &[u8], b: &[u8]) -> u64
    ensures { result ≡ differ a.now b.now }
{
    let mut n = 0;
    for (i, &x) in a.iter().enumerate() {
        n += bit(is_other(x, b, i));
    }
    n
}

// Whether this place has another byte than b, or none.
fn is_other(b: u8, bytes: &[u8], i: usize) -> bool
    ensures { result ≡ is_other_first b (drop i bytes.now) }
{
    match bytes.get(i) {
        Some(&x) => x != b,
        None => true,
    }
}
