// Numbers in bytes, the first byte highest.
ghost use Rattle.std.specs.Prelude.{◌≡◌, length};
ghost use Rattle.base.specs.Numbers.{NumberOf, bytes_of};

// What a number keeps when a byte is added at its end: all of it, up to seven bytes.
const SEVEN_BYTES: u64 = 1 << 56;

// The number that the bytes are. Of more than eight the last eight count.
pub fn read(bytes: &[u8]) -> u64
    ensures { NumberOf bytes.now result }
{
    let mut n = 0;
    for &b in bytes {
        n = n % SEVEN_BYTES * 256 + u64::from(b);
    }
    n
}

// Writes n into as many bytes as are lent: its last ones where it has more, zeros before it where it has fewer.
pub fn write(n: u64, out: &mut [u8])
    ensures { out.new ≡ bytes_of (length out.old) n }
{
    let mut rest = n;
    for i in (0..out.len()).rev() {
        out[i] = (rest % 256) as u8;
        rest = rest / 256;
    }
}
