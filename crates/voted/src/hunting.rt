// Voted groups while the sync is hunted with nothing matched: words other than FA change nothing but counts.
ghost use Rattle.std.specs.Prelude.{◌≡◌, ◌*◌, ◌≤◌};
ghost use Rattle.voted.specs.Stretches.{SeeksOn, Sought, none_passed, Hunted};

use crate::{fill, votes};
use base::format::{SYNC, SYNC_WORD_0};
use labelling::Weak;

// So many groups at most: as often copies can agree where three counts stand side by side.
const MOST: u64 = 0xffff;

// How far a stretch goes, how many groups it has, their weak copies, the first two copies of the last of them, and its stray bytes.
#[derive(Clone, Copy)]
pub struct Passed {
    pub at: usize,
    pub count: u64,
    pub weak: Weak,
    pub first: u8,
    pub second: u8,
    pub stray: u64,
}

// The same in a loop: where the last group stands, and how often copies agree.
#[derive(Clone, Copy)]
pub(crate) struct Hunt {
    pub(crate) at: usize,
    pub(crate) count: u64,
    pub(crate) last: usize,
    pub(crate) sums: u64,
    pub(crate) stray: u64,
}

// Cells of three equal copies, as many as follow, as far as a word FA.
fn alike(piece: &[u8], before: Hunt) -> Hunt
    requires { before.sums ≤ 0x100010001 * before.count }
    ensures { SeeksOn piece.now before result × (before.at ≤ result.at) }
{
    let mut next = before;
    while next.count < MOST {
        let at = next.at;
        if !fill::is_cell(piece, at) {
            return next;
        }
        if piece[at + 1] == SYNC_WORD_0 {
            return next;
        }
        next.at = at + 9;
        next.count += 1;
        next.last = at;
        next.sums += votes::ALIKE;
    }
    next
}

// Groups with any bytes but SYNC before and after each, as far as a word FA.
fn other_groups(piece: &[u8], from: usize) -> Hunt
    ensures { Sought piece.now from result }
{
    let end = nominal::starts(piece, 4);
    let mut next = Hunt {
        at: from,
        count: 0,
        last: from,
        sums: 0,
        stray: 0,
    };
    while next.at < end {
        let at = next.at;
        if piece[at] != SYNC {
            let skipped = quiet::skip(piece, at);
            next.at = skipped.at;
            next.stray += skipped.stray;
        } else {
            if MOST <= next.count {
                return next;
            }
            let seen = votes::see(piece, at);
            if seen.agree == 0 {
                return next;
            }
            if seen.word == SYNC_WORD_0 {
                return next;
            }
            let more = Hunt {
                at: seen.at,
                count: next.count + 1,
                last: at,
                sums: next.sums + seen.agree,
                stray: next.stray + seen.stray,
            };
            next = alike(piece, more);
        }
    }
    next
}

// No group.
fn none_passed(at: usize, stray: u64) -> Passed
    ensures { result ≡ none_passed at stray }
{
    let none = Weak {
        first: 0,
        second: 0,
        third: 0,
    };
    Passed {
        at: at,
        count: 0,
        weak: none,
        first: 0,
        second: 0,
        stray: stray,
    }
}

// Passes the voted stretch that begins at `from`, as far as a word FA.
pub fn pass(piece: &[u8], from: usize) -> Passed
    ensures { Hunted piece.now from result }
{
    let r = other_groups(piece, from);
    if r.count == 0 {
        return none_passed(r.at, r.stray);
    }
    let last = r.last;
    Passed {
        at: r.at,
        count: r.count,
        weak: votes::weak_of(r.sums, r.count),
        first: piece[last + 1],
        second: piece[last + 2],
        stray: r.stray,
    }
}
