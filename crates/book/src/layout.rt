// The sizes of a book (specs/Layout.antt has the same for the definitions).
ghost use Rattle.std.specs.Prelude.{◌≡◌};
ghost use Rattle.book.specs.Layout.{body_start};

use cycle::CYCLE;

// The number of cycles in 2 bytes, the year in 2.
pub const HEADER: usize = 4;

// The instant in 8 bytes, the body's offset in 4.
pub const ENTRY: usize = 12;

// An entry and a body.
pub const ENTRY_AND_BODY: usize = 65_548;

pub const MOST_CYCLES: usize = 255;

// Where body i of n starts. A book has at most 255 cycles, so either number is a byte.
pub fn body_start(n: u8, i: u8) -> usize
    ensures { result ≡ body_start n i }
{
    HEADER + ENTRY * usize::from(n) + CYCLE * usize::from(i)
}
