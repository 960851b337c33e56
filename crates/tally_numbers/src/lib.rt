// A tally as numbers: 33 of them and the frame's 128 bytes, for callers that cannot hold a tally. What is written is read back the same, both ways.
#![tactic(auto)]

ghost use Rattle.std.specs.Prelude.{◌≡◌};
ghost use Rattle.base.specs.Lists.{one};
ghost use Rattle.tally_numbers.specs.Numbers.{is_tally, groups_of, framing_of, runs_of, operators_of, tally_of, counts_only, numbers_of};

use labelling::{Framing, Groups, Operators, Runs, Tally, Weak};

// How many numbers a tally has.
pub const NUMBERS: usize = 33;

// Whether these are the numbers of a tally: the copies are bytes, the flags 0 or 1.
pub fn is_tally(n: &[u64; NUMBERS]) -> bool
    ensures { result ≡ is_tally n.now }
{
    (n[6] < 256) & (n[7] < 256) & (n[13] < 2) & (n[15] < 2)
}

// Of numbers that are no tally's too, whose copies are then cut to bytes: `is_tally` tells them apart.
pub fn tally_of(n: &[u64; NUMBERS], frame: &[u8; 128]) -> Tally
    ensures { result ≡ tally_of n.now frame.now }
{
    let groups = groups_of(n);
    let framing = framing_of(n);
    let runs = runs_of(n);
    let operators = operators_of(n);
    let bytes = *frame;
    Tally {
        groups: groups,
        framing: framing,
        runs: runs,
        operators: operators,
        rule: n[32],
        frame: bytes,
    }
}

pub fn put_tally(t: Tally, n: &mut [u64; NUMBERS], frame: &mut [u8; 128])
    ensures n_after { n.new ≡ numbers_of t }
    ensures frame_after { frame.new ≡ t.frame }
{
    let groups = t.groups;
    let framing = t.framing;
    let runs = t.runs;
    let operators = t.operators;
    put_counts(groups, framing, runs, operators, t.rule, n);
    let bytes = t.frame;
    *frame = bytes;
}

// All of a tally but its frame.
pub fn put_counts(g: Groups, f: Framing, r: Runs, o: Operators, rule: u64, n: &mut [u64; NUMBERS])
    ensures { n.new ≡ numbers_of (counts_only g f r o rule) }
{
    let first = u64::from(g.first);
    let second = u64::from(g.second);
    let hunting = flag(f.hunting);
    let erasure = flag(f.erasure);
    let p = o.paid;
    *n = [
        g.bytes,
        g.fill,
        g.stray,
        g.voted,
        g.split,
        g.open,
        first,
        second,
        f.hunted,
        f.good,
        f.damaged,
        f.unsynced,
        f.placed,
        hunting,
        f.matched,
        erasure,
        r.majors,
        r.broken,
        r.loose,
        r.building,
        g.weak.first,
        g.weak.second,
        g.weak.third,
        p[0],
        p[1],
        p[2],
        p[3],
        p[4],
        p[5],
        p[6],
        p[7],
        o.duty,
        rule,
    ];
}

pub fn groups_of(n: &[u64; NUMBERS]) -> Groups
    ensures { result ≡ groups_of n.now }
{
    Groups {
        bytes: n[0],
        fill: n[1],
        stray: n[2],
        voted: n[3],
        split: n[4],
        weak: Weak {
            first: n[20],
            second: n[21],
            third: n[22],
        },
        open: n[5],
        first: (n[6] % 256) as u8,
        second: (n[7] % 256) as u8,
    }
}

pub fn framing_of(n: &[u64; NUMBERS]) -> Framing
    ensures { result ≡ framing_of n.now }
{
    Framing {
        hunted: n[8],
        good: n[9],
        damaged: n[10],
        unsynced: n[11],
        placed: n[12],
        hunting: n[13] == 1,
        matched: n[14],
        erasure: n[15] == 1,
    }
}

pub fn runs_of(n: &[u64; NUMBERS]) -> Runs
    ensures { result ≡ runs_of n.now }
{
    Runs {
        majors: n[16],
        broken: n[17],
        loose: n[18],
        building: n[19],
    }
}

pub fn operators_of(n: &[u64; NUMBERS]) -> Operators
    ensures { result ≡ operators_of n.now }
{
    let paid = [n[23], n[24], n[25], n[26], n[27], n[28], n[29], n[30]];
    Operators {
        paid: paid,
        duty: n[31],
    }
}

// A flag as a number.
pub fn flag(b: bool) -> u64
    ensures { result ≡ one b }
{
    b as u64
}
