// A row: sixteen groups of three equal copies with no FILL between them. Its test is a loop over all of its bytes that is compiled to vector
// instructions.
ghost use Rattle.std.specs.Prelude.{◌≡◌, true, ◌+◌, ◌/◌, ◌%◌, ◌≤◌, ◌<◌, length};
ghost use Rattle.nominal.specs.Stretches.{Belongs, Row, RowWords, last_place, Stored};

use crate::numbers;
use base::format::SYNC;

const GROUP: usize = 4;

pub(crate) const ROW: usize = 16;

pub(crate) const ROW_BYTES: usize = GROUP * ROW;

// 0 where byte x, with y after it, belongs at this place of a group.
fn wrong(place: usize, x: u8, y: u8) -> u8
    ensures { result ≡ 0 → Belongs place x y }
{
    (((place == 0) & (x != SYNC)) | ((place == 1) & (x != y)) | ((place == 2) & (x != y))) as u8
}

// Whether a row stands here. The byte after it is read too, whatever it is, so that all turns are alike.
pub(crate) fn is_row(piece: &[u8], at: usize) -> bool
    requires { at + 64 < length piece.now }
    ensures { result ≡ true → Row piece.now at }
{
    let mut bad: u8 = 0;
    let mut k: usize = 0;
    while k < ROW_BYTES {
        bad = bad | wrong(k % GROUP, piece[at + k], piece[at + k + 1]);
        k += 1;
    }
    bad == 0
}

// The byte above the lowest.
fn second_byte(n: u64) -> u8
    ensures { result ≡ n / 0x100 % 0x100 }
{
    (n / 0x100 % 0x100) as u8
}

// Its words. Each comes from the number of its group: numbers are taken as vectors, and bytes that stand apart one by one.
fn words_of(piece: &[u8], at: usize) -> [u8; 16]
    requires { at + 64 ≤ length piece.now }
    ensures { RowWords piece.now at result }
{
    let mut words = [0u8; 16];
    let mut k: usize = 0;
    while k < ROW {
        words[k] = second_byte(numbers::four(piece, at + GROUP * k));
        k += 1;
    }
    words
}

// The words, into the frame.
pub(crate) fn put_row(piece: &[u8], at: usize, start: usize, frame: &mut [u8; 128])
    requires { Row piece.now at × (start + 16 ≤ last_place) }
    ensures { Stored piece.now at (at + 64) start (start + 16) frame.old frame.new }
{
    let words = words_of(piece, at);
    let mut k: usize = 0;
    while k < ROW {
        frame[start + k] = words[k];
        k += 1;
    }
}
