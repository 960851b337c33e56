// A fresh tally, with which every list of calls begins (paper 01, "The tally and one call"; paper 02, requests 5 and 6).
#![tactic(auto)]

ghost use Rattle.std.specs.Prelude.{◌≡◌};
ghost use Rattle.base.specs.Refusals.{number_of};
ghost use Rattle.labelling.specs.Once.{FreshPromise};
ghost use Rattle.labelling.specs.Machine.{fresh as fresh_of};

use base::refusal::Refusal;
use labelling::{Framing, Groups, Operators, Runs, Tally, Weak};

// The answer where a fresh tally is asked for. It is no Result of a tally: a refusal gives one too, that of rule 1, and `FreshPromise` speaks of it.
#[derive(Clone, Copy)]
pub struct FreshTally {
    // Whether there is such a rule. Refused 15: there is none.
    pub answer: Result<(), Refusal>,
    pub tally: Tally,
}

// A tally of no bytes, with operator 0 on duty, that votes by this rule: 1, by bytes, or 2, by bits. What it promises is demand 3: over every list
// of calls of `take` and `change_duty` that begins with it, each major frame of the bytes is paid exactly once, to whoever was on duty, and each
// count is that of the labelling of the bytes.
pub fn fresh(rule: u64) -> FreshTally
    ensures { FreshPromise rule (number_of result.answer) result.tally }
{
    if (rule == 1) | (rule == 2) {
        return FreshTally {
            answer: Ok(()),
            tally: blank(rule),
        };
    }
    FreshTally {
        answer: Err(Refusal::NoSuchRule),
        tally: blank(1),
    }
}

fn blank(rule: u64) -> Tally
    ensures { result ≡ fresh_of rule }
{
    Tally {
        groups: Groups {
            bytes: 0,
            fill: 0,
            stray: 0,
            voted: 0,
            split: 0,
            weak: Weak {
                first: 0,
                second: 0,
                third: 0,
            },
            open: 0,
            first: 0,
            second: 0,
        },
        framing: Framing {
            hunted: 0,
            good: 0,
            damaged: 0,
            unsynced: 0,
            placed: 0,
            hunting: true,
            matched: 0,
            erasure: false,
        },
        runs: Runs {
            majors: 0,
            broken: 0,
            loose: 0,
            building: 0,
        },
        operators: Operators {
            paid: [0u64; 8],
            duty: 0,
        },
        rule: rule,
        frame: [0u8; 128],
    }
}
