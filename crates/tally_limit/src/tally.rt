// The tally of a record, whose numbers are those from 6 on; and the numbers of a tally.
use labelling::{Framing, Groups, Operators, Runs, Tally, Weak};
use vectors::bit;

pub(crate) fn of(n: [u64; 39], frame: [u8; 128]) -> Tally {
    let g = groups(n);
    let f = framing(n);
    let r = runs(n);
    let o = operators(n);
    Tally {
        groups: g,
        framing: f,
        runs: r,
        operators: o,
        rule: n[38],
        frame: frame,
    }
}

fn groups(n: [u64; 39]) -> Groups {
    let weak = Weak {
        first: n[11],
        second: n[12],
        third: n[13],
    };
    Groups {
        bytes: n[6],
        fill: n[7],
        stray: n[8],
        voted: n[9],
        split: n[10],
        weak: weak,
        open: n[14],
        first: (n[15] % 256) as u8,
        second: (n[16] % 256) as u8,
    }
}

fn framing(n: [u64; 39]) -> Framing {
    Framing {
        hunted: n[17],
        good: n[18],
        damaged: n[19],
        unsynced: n[20],
        placed: n[21],
        hunting: n[22] == 1,
        matched: n[23],
        erasure: n[24] == 1,
    }
}

fn runs(n: [u64; 39]) -> Runs {
    Runs {
        majors: n[25],
        broken: n[26],
        loose: n[27],
        building: n[28],
    }
}

fn operators(n: [u64; 39]) -> Operators {
    let paid = [n[29], n[30], n[31], n[32], n[33], n[34], n[35], n[36]];
    Operators {
        paid: paid,
        duty: n[37],
    }
}

// The numbers in the same order.
pub(crate) fn numbers(t: Tally) -> [u64; 33] {
    let paid = t.operators.paid;
    [
        t.groups.bytes,
        t.groups.fill,
        t.groups.stray,
        t.groups.voted,
        t.groups.split,
        t.groups.weak.first,
        t.groups.weak.second,
        t.groups.weak.third,
        t.groups.open,
        u64::from(t.groups.first),
        u64::from(t.groups.second),
        t.framing.hunted,
        t.framing.good,
        t.framing.damaged,
        t.framing.unsynced,
        t.framing.placed,
        bit(t.framing.hunting),
        t.framing.matched,
        bit(t.framing.erasure),
        t.runs.majors,
        t.runs.broken,
        t.runs.loose,
        t.runs.building,
        paid[0],
        paid[1],
        paid[2],
        paid[3],
        paid[4],
        paid[5],
        paid[6],
        paid[7],
        t.operators.duty,
        t.rule,
    ]
}
