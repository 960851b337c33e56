// From bytes to words: what a byte does to the first layer.
ghost use Rattle.std.specs.Prelude.{◌≡◌, ◌≤◌, ◌<◌, ◌^◌};
ghost use Rattle.labelling.specs.Words.{outside, Vote};
ghost use Rattle.labelling.specs.Machine.{outer, weaker, after_closing, after_byte, byte_event};
ghost use Rattle.order.specs.Room.{GroupsRoom};

use base::format::{FILL, SYNC};
use labelling::{Groups, Weak, Word};

// A byte outside a group.
fn outer_byte(g: Groups, b: u8) -> Groups
    requires groups_room { GroupsRoom g }
    requires open_value { g.«open» ≡ 0 }
    ensures { result ≡ after_byte (outer (outside b)) g b }
{
    let mut next = g;
    next.bytes += 1;
    if b == SYNC {
        next.open = 1;
        return next;
    }
    if b == FILL {
        next.fill += 1;
        return next;
    }
    next.stray += 1;
    next
}

// A byte that closes no group: whatever the vote is.
pub fn open_byte(g: Groups, b: u8) -> Groups
    requires groups_room { GroupsRoom g }
    requires open_bound { g.«open» < 3 }
    ensures { (vote : Vote) → result ≡ after_byte (byte_event vote g.«open» g b) g b }
{
    if g.open == 0 {
        return outer_byte(g, b);
    }
    let mut next = g;
    next.bytes += 1;
    if g.open == 1 {
        next.open = 2;
        next.first = b;
        return next;
    }
    next.open = 3;
    next.second = b;
    next
}

// The copy n was weak once more; 0 is for none. A count is added to without a branch: which copy is weak cannot be foreseen.
fn weaken(w: Weak, n: u8) -> Weak
    requires { (w.first ≤ 2 ^ 40) × (w.second ≤ 2 ^ 40) × (w.third ≤ 2 ^ 40) }
    ensures { result ≡ weaker n w }
{
    Weak {
        first: w.first + u64::from(n == 1),
        second: w.second + u64::from(n == 2),
        third: w.third + u64::from(n == 3),
    }
}

// The third copy: the group closes, and has given w; n is its weak copy.
pub fn close_group(g: Groups, w: Word, n: u8) -> Groups
    requires { GroupsRoom g }
    ensures { result ≡ after_closing w n g }
{
    let mut next = g;
    next.bytes += 1;
    next.open = 0;
    match w {
        Word::Voted(_) => {
            next.voted += 1;
            next.weak = weaken(g.weak, n);
            next
        }
        Word::Erased => {
            next.split += 1;
            next
        }
    }
}
