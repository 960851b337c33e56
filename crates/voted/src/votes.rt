// The three copies of a group, without branches: which copy is bad cannot be foreseen on a reel with a bad head.
ghost use Rattle.std.specs.Prelude.{◌≡◌, false, ◌+◌, ◌<◌, length};
ghost use Rattle.base.specs.Format as format;
ghost use Rattle.quiet.specs.Quiet.{Byte};
ghost use Rattle.voted.specs.Stretches.{Group, Looked};
ghost use Rattle.voted.specs.Copies.{Copies, copies, copies_at, IsVoted, word_of, side_by_side, agreement, Agreed, Agreement};

use crate::fill;
use base::format::SYNC;
use labelling::Weak;

// A count of each two copies that are equal, first and second lowest, then first and third: side by side in one number, so that a loop adds up one.
const OUTER: u64 = 0x10000;

const LAST: u64 = 0x100000000;

// Each two copies agree once.
pub(crate) const ALIKE: u64 = 0x100010001;

// What is told of a group: which copies agree, none where it is split, its word, and the next SYNC after it with the stray bytes before that.
#[derive(Clone, Copy)]
pub(crate) struct Seen {
    pub(crate) agree: u64,
    pub(crate) word: u8,
    pub(crate) at: usize,
    pub(crate) stray: u64,
}

// The copies of the group at `at`.
pub(crate) fn agreeing(piece: &[u8], at: usize) -> u64
    requires { at + 3 < length piece.now }
    ensures { result ≡ agreement (copies_at piece.now at) }
{
    agreed(piece[at + 1], piece[at + 2], piece[at + 3])
}

pub(crate) fn agreed(a: u8, b: u8, c: u8) -> u64
    ensures { result ≡ agreement (copies a b c) }
{
    (a == b) as u64 + OUTER * (a == c) as u64 + LAST * (b == c) as u64
}

// Three counts side by side.
pub(crate) fn side_by_side(x: u8, y: u8, z: u8) -> u64
    ensures { result ≡ side_by_side x y z }
{
    u64::from(x) + OUTER * u64::from(y) + LAST * u64::from(z)
}

// Its word, where at least two copies are equal.
pub(crate) fn word(piece: &[u8], at: usize) -> u8
    requires { at + 3 < length piece.now }
    ensures { IsVoted (copies_at piece.now at) → result ≡ word_of (copies_at piece.now at) }
{
    by_masks(piece[at + 1], piece[at + 2], piece[at + 3])
}

pub(crate) fn by_masks(a: u8, b: u8, c: u8) -> u8
    ensures { IsVoted (copies a b c) → result ≡ word_of (copies a b c) }
{
    (a & b) | (a & c) | (b & c)
}

// The group at `at` and what stands after it. Three equal copies and five FILL, as mostly, are looked for first.
pub(crate) fn see(piece: &[u8], at: usize) -> Seen
    requires { at + 3 < length piece.now }
    ensures { Looked piece.now at result }
{
    if fill::is_cell(piece, at) {
        return Seen {
            agree: ALIKE,
            word: piece[at + 1],
            at: at + 9,
            stray: 0,
        };
    }
    let skipped = quiet::skip(piece, at + 4);
    Seen {
        agree: agreeing(piece, at),
        word: word(piece, at),
        at: skipped.at,
        stray: skipped.stray,
    }
}

// 0 where at least two copies are equal: what each two differ in, multiplied. Tests for equal ones would be compiled to branches.
fn apart(a: u8, b: u8, c: u8) -> u64
    ensures { IsVoted (copies a b c) → result ≡ 0 }
{
    (u64::from(a) ^ u64::from(b)) * (u64::from(a) ^ u64::from(c)) * (u64::from(b) ^ u64::from(c))
}

// Whether a group of which two copies are equal stands here.
pub fn group_stands(piece: &[u8], at: usize) -> bool
    ensures { result ≡ false → (g : Copies) → Group piece.now at g → IsVoted g → ⊥ }
{
    if nominal::starts(piece, 4) <= at {
        return false;
    }
    if piece[at] != SYNC {
        return false;
    }
    apart(piece[at + 1], piece[at + 2], piece[at + 3]) == 0
}

// How often each copy was the weak one in n groups, of which each has two equal copies: where all three are, each two are counted.
pub(crate) fn weak_of(sums: u64, n: u64) -> Weak
    requires { Agreed sums n }
    ensures { Agreement sums n result }
{
    let first_two = sums % OUTER;
    let outer_two = sums / OUTER % OUTER;
    let last_two = sums / LAST;
    let all_three = (first_two + outer_two + last_two - n) / 2;
    Weak {
        first: last_two - all_three,
        second: outer_two - all_three,
        third: first_two - all_three,
    }
}
