// The first byte by which two bodies differ.
ghost use Rattle.std.specs.Prelude.{◌≡◌, false, ◌+◌, ◌≤◌, length};
ghost use Rattle.book_compare.specs.Differences.{first_differing};
ghost use Rattle.book_compare.specs.Merge.{Alike, AlikeFrom};

// Bytes that are looked at together.
const BLOCK: usize = 64;

// Its place; the length where none differs.
pub(crate) fn first_differing(c: &[u8], d: &[u8]) -> usize
    requires { length c.now ≡ length d.now }
    ensures { result ≡ first_differing c.now d.now }
{
    let mut at = alike(c, d);
    while at < c.len() {
        if c[at] != d[at] {
            return at;
        }
        at += 1;
    }
    at
}

// As far as whole blocks are equal.
fn alike(c: &[u8], d: &[u8]) -> usize
    requires { length c.now ≡ length d.now }
    ensures { Alike c.now d.now result }
{
    let mut at: usize = 0;
    while BLOCK <= c.len() - at {
        if block_differs(c, d, at) {
            return at;
        }
        at += BLOCK;
    }
    at
}

// Whether some byte of a block differs. The loop has one way out, so that it is compiled to vector instructions.
fn block_differs(c: &[u8], d: &[u8], at: usize) -> bool
    requires { (at + 64 ≤ length c.now) × (at + 64 ≤ length d.now) }
    ensures { result ≡ false → AlikeFrom c.now d.now at 64 }
{
    let mut differs = false;
    let mut k: usize = 0;
    while k < BLOCK {
        if c[at + k] != d[at + k] {
            differs = true;
        }
        k += 1;
    }
    differs
}
