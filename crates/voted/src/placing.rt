// Voted groups while words are placed, as far as the last place.
ghost use Rattle.std.specs.Prelude.{◌≤◌, ◌≡◌};
ghost use Rattle.voted.specs.Stretches.{RunRoom, RunsOn, RunsOut, Longest, no_group, Placed};

use crate::{blocks, fill, votes};
use base::format::{MINOR_FRAME, SYNC};
use labelling::Weak;

// The last place of a frame is left to the caller: its word may complete a major frame.
pub(crate) const LAST_PLACE: usize = MINOR_FRAME - 1;

// How far a stretch goes, how far the frame is filled then, the weak copies of its groups, the first two copies of the last of them, and
// its stray bytes.
#[derive(Clone, Copy)]
pub struct Filled {
    pub at: usize,
    pub placed: usize,
    pub weak: Weak,
    pub first: u8,
    pub second: u8,
    pub stray: u64,
}

// The same in a loop: where the last group stands, and how often copies agree.
#[derive(Clone, Copy)]
pub(crate) struct Run {
    pub(crate) at: usize,
    pub(crate) placed: usize,
    pub(crate) last: usize,
    pub(crate) sums: u64,
    pub(crate) stray: u64,
}

// Cells of three equal copies, as many as follow: most cells between bad bytes are such.
fn alike(piece: &[u8], before: Run, frame: &mut [u8; 128]) -> Run
    requires { RunRoom before }
    ensures { RunsOn piece.now before frame.old result frame.new × (before.at ≤ result.at) }
{
    let mut next = before;
    while next.placed < LAST_PLACE {
        let at = next.at;
        let p = next.placed;
        if !fill::is_cell(piece, at) {
            return next;
        }
        frame[p] = piece[at + 1];
        next.at = at + 9;
        next.placed = p + 1;
        next.last = at;
        next.sums += votes::ALIKE;
    }
    next
}

// Groups with any bytes but SYNC before and after each: all that is left of the stretch.
fn groups(piece: &[u8], before: Run, frame: &mut [u8; 128]) -> Run
    requires { RunRoom before }
    ensures { RunsOut piece.now before frame.old result frame.new }
{
    let end = nominal::starts(piece, 4);
    let mut next = before;
    while next.at < end {
        let at = next.at;
        if piece[at] != SYNC {
            let skipped = quiet::skip(piece, at);
            next.at = skipped.at;
            next.stray += skipped.stray;
        } else {
            let p = next.placed;
            if LAST_PLACE <= p {
                return next;
            }
            let seen = votes::see(piece, at);
            if seen.agree == 0 {
                return next;
            }
            frame[p] = seen.word;
            let more = Run {
                at: seen.at,
                placed: p + 1,
                last: at,
                sums: next.sums + seen.agree,
                stray: next.stray + seen.stray,
            };
            next = alike(piece, more, frame);
        }
    }
    next
}

// The whole stretch: blocks of cells, and groups.
fn longest(piece: &[u8], from: usize, start: usize, frame: &mut [u8; 128]) -> Run
    requires { start ≤ 127 }
    ensures { Longest piece.now from start frame.old result frame.new }
{
    let begun = Run {
        at: from,
        placed: start,
        last: from,
        sums: 0,
        stray: 0,
    };
    groups(piece, blocks::blocks(piece, begun, frame), frame)
}

// No group.
fn no_group(at: usize, start: usize, stray: u64) -> Filled
    ensures { result ≡ no_group at start stray }
{
    let none = Weak {
        first: 0,
        second: 0,
        third: 0,
    };
    Filled {
        at: at,
        placed: start,
        weak: none,
        first: 0,
        second: 0,
        stray: stray,
    }
}

// Puts the words of the voted stretch that begins at `from` into the frame from `start` on, all of them but one for the last place.
pub fn place(piece: &[u8], from: usize, start: usize, frame: &mut [u8; 128]) -> Filled
    ensures { Placed piece.now from start frame.old result frame.new }
{
    if LAST_PLACE <= start {
        let skipped = quiet::skip(piece, from);
        return no_group(skipped.at, start, skipped.stray);
    }
    let r = longest(piece, from, start, frame);
    if r.placed == start {
        return no_group(r.at, start, r.stray);
    }
    let last = r.last;
    Filled {
        at: r.at,
        placed: r.placed,
        weak: votes::weak_of(r.sums, (r.placed - start) as u64),
        first: piece[last + 1],
        second: piece[last + 2],
        stray: r.stray,
    }
}
