// Cells while words are placed, a block of them at a time: the copies of its groups are gathered into three columns, and compared there by loops that are
// compiled to vector instructions. No branch depends on which copy is bad.
ghost use Rattle.std.specs.Prelude.{ℕ, ◌+◌, ◌*◌, ◌-◌, ◌≤◌, ◌<◌, ◌≡◌, eqb, length};
ghost use Rattle.base.specs.Lists.{one};
ghost use Rattle.voted.specs.Lanes.{columns, Blank, Gathered, copied, Counts};
ghost use Rattle.voted.specs.Copies.{copies, IsVoted};
ghost use Rattle.voted.specs.Stretches.{RunRoom, RunsOn};

use crate::placing::{LAST_PLACE, Run};
use crate::{fill, votes};

// So many cells at most: two blocks fill a frame, and a split group costs no more than one.
const LANES: usize = 64;

const CELL: usize = 9;

// Lanes are compared so many at a time: the compiler makes whole vectors of a loop over a multiple of them.
const VECTOR: usize = 16;

// What the columns tell: how often copies agree, and whether all three differ somewhere, where it is not 0.
#[derive(Clone, Copy)]
pub(crate) struct Told {
    pub(crate) sums: u64,
    pub(crate) split: u8,
}

// How many cells a block may have: it leaves the last place.
fn most_cells(placed: usize) -> usize
    requires { placed ≤ 127 }
    ensures { (result ≤ 64) × (result ≤ 127 - placed) }
{
    if LAST_PLACE - placed < LANES {
        return LAST_PLACE - placed;
    }
    LANES
}

// Where so many cells end, or the piece has no whole one.
fn stop_of(piece: &[u8], from: usize, most: usize) -> usize
    requires { most ≤ 64 }
    ensures { (result ≤ from + 9 * most) × (result ≤ from + (length piece.now - 8 - from)) }
{
    let end = nominal::starts(piece, CELL);
    if end <= from {
        return from;
    }
    if end - from < CELL * most {
        return end;
    }
    from + CELL * most
}

// The copies of the cells from `from` on: how many.
fn gather(
    piece: &[u8],
    from: usize,
    most: usize,
    first: &mut [u8; 64],
    second: &mut [u8; 64],
    third: &mut [u8; 64],
) -> usize
    requires { (most ≤ 64) × Blank (columns first.old second.old third.old) }
    ensures { Gathered piece.now from result (columns first.new second.new third.new) × (result ≤ most) }
{
    let stop = stop_of(piece, from, most);
    let mut at = from;
    let mut k: usize = 0;
    while at < stop {
        if !fill::is_spaced(piece, at) {
            return k;
        }
        first[k] = piece[at + 1];
        second[k] = piece[at + 2];
        third[k] = piece[at + 3];
        k += 1;
        at += CELL;
    }
    k
}

fn same(x: u8, y: u8) -> u8
    ensures { result ≡ one (eqb x y) }
{
    (x == y) as u8
}

// 0 where at least two copies are equal.
fn split(a: u8, b: u8, c: u8) -> u8
    ensures { (result ≤ 1) × (result ≡ 0 → IsVoted (copies a b c)) }
{
    (votes::agreed(a, b, c) == 0) as u8
}

// The vectors that n lanes fill, the last perhaps in part.
fn vectors_of(n: usize) -> usize
    requires { n ≤ 64 }
    ensures { (n ≤ 16 * result) × (result ≤ 4) }
{
    (n + VECTOR - 1) / VECTOR
}

// Votes on each lane of the vectors, whatever stands in it: its word takes the place of its first copy.
fn vote(first: &mut [u8; 64], second: &[u8; 64], third: &[u8; 64], vectors: usize) -> Told
    requires { (vectors ≤ 4) × (length first.old ≡ 64) }
    ensures { Counts (columns first.old second.now third.now) (16 * vectors) first.new result }
{
    let mut x: u8 = 0;
    let mut y: u8 = 0;
    let mut z: u8 = 0;
    let mut none: u8 = 0;
    let mut k: usize = 0;
    while k < VECTOR * vectors {
        let a = first[k];
        let b = second[k];
        let c = third[k];
        first[k] = votes::by_masks(a, b, c);
        x += same(a, b);
        y += same(a, c);
        z += same(b, c);
        none += split(a, b, c);
        k += 1;
    }
    Told {
        sums: votes::side_by_side(x, y, z),
        split: none,
    }
}

// The first n words, into the frame.
fn put(words: &[u8; 64], n: usize, start: usize, frame: &mut [u8; 128])
    requires { (n ≤ 64) × (start + n ≤ 127) }
    ensures { frame.new ≡ copied frame.old start words.now n }
{
    let mut k: usize = 0;
    while k < n {
        frame[start + k] = words[k];
        k += 1;
    }
}

// A block. It takes nothing where a group of it is split; lanes of its vectors with no cell count as three equal copies, and are taken off.
fn block(piece: &[u8], before: Run, frame: &mut [u8; 128]) -> Run
    requires { RunRoom before }
    ensures { RunsOn piece.now before frame.old result frame.new × (before.placed ≤ result.placed) }
{
    let from = before.at;
    let mut first = [0u8; 64];
    let mut second = [0u8; 64];
    let mut third = [0u8; 64];
    let n = gather(
        piece,
        from,
        most_cells(before.placed),
        &mut first,
        &mut second,
        &mut third,
    );
    if n == 0 {
        return before;
    }
    let vectors = vectors_of(n);
    let told = vote(&mut first, &second, &third, vectors);
    if told.split != 0 {
        return before;
    }
    put(&first, n, before.placed, frame);
    Run {
        at: from + CELL * n,
        placed: before.placed + n,
        last: from + CELL * (n - 1),
        sums: before.sums + (told.sums - votes::ALIKE * (VECTOR * vectors - n) as u64),
        stray: before.stray,
    }
}

// Blocks, as long as they are whole: two at most.
pub(crate) fn blocks(piece: &[u8], before: Run, frame: &mut [u8; 128]) -> Run
    requires { RunRoom before }
    ensures { RunsOn piece.now before frame.old result frame.new }
{
    let mut next = before;
    let mut more = true;
    while more {
        let placed = next.placed;
        next = block(piece, next, frame);
        more = placed + LANES <= next.placed;
    }
    next
}
