// The FILL of a group of the usual spacing, by few comparisons.
ghost use Rattle.std.specs.Prelude.{◌≡◌, true, ◌+◌, ◌<◌, length};
ghost use Rattle.nominal.specs.Stretches.{FourFill};
ghost use Rattle.voted.specs.Stretches.{Spaced, Alike};

use base::format::{FILL, SYNC};

// Whether four FILL stand here.
fn are_four(piece: &[u8], at: usize) -> bool
    requires { at + 3 < length piece.now }
    ensures { result ≡ true → FourFill piece.now at }
{
    nominal::number(piece[at], piece[at + 1], piece[at + 2], piece[at + 3]) == nominal::FOUR_FILL
}

// Whether SYNC stands here, and five FILL after the three copies.
pub(crate) fn is_spaced(piece: &[u8], at: usize) -> bool
    requires { at + 8 < length piece.now }
    ensures { result ≡ true → Spaced piece.now at }
{
    if piece[at] != SYNC {
        return false;
    }
    if !are_four(piece, at + 4) {
        return false;
    }
    piece[at + 8] == FILL
}

// The same, with three equal copies.
pub(crate) fn is_cell(piece: &[u8], at: usize) -> bool
    ensures { result ≡ true → Alike piece.now at }
{
    if nominal::starts(piece, 9) <= at {
        return false;
    }
    if !is_spaced(piece, at) {
        return false;
    }
    if piece[at + 1] != piece[at + 2] {
        return false;
    }
    piece[at + 1] == piece[at + 3]
}
