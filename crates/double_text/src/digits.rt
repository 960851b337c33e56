// Decimal digits in ASCII, the most significant first.
ghost use Rattle.std.specs.Prelude.{◌≡◌, ◌*◌, ◌^◌, ◌≤◌, length};
ghost use Rattle.io.specs.Digits.{last_digits as Io·digits};
ghost use Rattle.double_text.specs.Decimal.{Multiplied, LeadingZeros};

// Puts the digits of n × factor^k.
pub(crate) fn expand(digits: &mut [u8], n: u64, factor: u8, k: usize)
    requires { factor ≤ 9 }
    ensures { digits.new ≡ Io·digits 10 (length digits.old) (n * factor ^ k) }
{
    spell(&mut *digits, n);
    for _ in 0..k {
        multiply(&mut *digits, factor);
    }
}

// Puts the digits of n, with zeros in front.
fn spell(digits: &mut [u8], n: u64)
    ensures { digits.new ≡ Io·digits 10 (length digits.old) n }
{
    let mut rest = n;
    for i in (0..digits.len()).rev() {
        digits[i] = b'0' + (rest % 10) as u8;
        rest /= 10;
    }
}

// Multiplies the number that the digits are by a factor.
fn multiply(digits: &mut [u8], factor: u8)
    requires { factor ≤ 9 }
    ensures { Multiplied digits.old factor digits.new }
{
    let mut carry = 0;
    for i in (0..digits.len()).rev() {
        let product = digits[i] % 16 * factor + carry;
        digits[i] = b'0' + product % 10;
        carry = product / 10;
    }
}

// How many zeros stand in front of the first `cut` digits, the last of them left out.
pub(crate) fn leading_zeros(digits: &[u8], cut: usize) -> usize
    requires { cut ≤ length digits.now }
    ensures { LeadingZeros digits.now cut result }
{
    let last = cut.saturating_sub(1);
    for first in 0..last {
        if digits[first] != b'0' {
            return first;
        }
    }
    last
}
