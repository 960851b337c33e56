// Cells in rows: sixteen of them one after another. Their test is a loop over all of their bytes that is compiled to vector instructions.
ghost use Rattle.std.specs.Prelude.{◌≡◌, true, ◌+◌, ◌≤◌, ◌<◌, length};
ghost use Rattle.nominal.specs.Stretches.{Usual, InCell, CellRow, last_place, Stored};

use crate::row::ROW;
use base::format::{FILL, SYNC};

const CELL: usize = 9;

pub(crate) const CELLS_BYTES: usize = CELL * ROW;

// What stands at a place of a cell that is no copy's.
fn usual(place: usize) -> u8
    ensures { Usual place result }
{
    if place == 0 {
        return SYNC;
    }
    FILL
}

// 0 where byte x, with y after it, belongs at this place of a cell.
fn wrong(place: usize, x: u8, y: u8) -> u8
    ensures { result ≡ 0 → InCell place x y }
{
    ((((place == 0) | (3 < place)) & (x != usual(place)))
        | (((place == 1) | (place == 2)) & (x != y))) as u8
}

// Whether sixteen cells stand here. The byte after them is read too, whatever it is, so that all turns are alike.
pub(crate) fn are_cells(piece: &[u8], at: usize) -> bool
    requires { at + 144 < length piece.now }
    ensures { result ≡ true → CellRow piece.now at }
{
    let mut bad: u8 = 0;
    let mut k: usize = 0;
    while k < CELLS_BYTES {
        bad = bad | wrong(k % CELL, piece[at + k], piece[at + k + 1]);
        k += 1;
    }
    bad == 0
}

// Their words, into the frame.
pub(crate) fn put_cells(piece: &[u8], at: usize, start: usize, frame: &mut [u8; 128])
    requires { CellRow piece.now at × (start + 16 ≤ last_place) }
    ensures { Stored piece.now at (at + 144) start (start + 16) frame.old frame.new }
{
    let mut k: usize = 0;
    while k < ROW {
        frame[start + k] = piece[at + CELL * k + 1];
        k += 1;
    }
}
