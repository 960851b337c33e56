// The line about a call. Its numbers: 0 the refusal, 1 the bytes taken, 2 whether a major frame is complete, 3 how many bytes of the area the call
// changed, 4 whether the tally that comes back is the one that went in, 5 whether it is but for who is on duty; from 6 on those of the tally that comes back.
use crate::call::Answer;
use crate::tally::numbers;
use labelling::Tally;
use std::io;
use vectors::{bit, fields};

pub(crate) fn line(
    rt: &impl Print,
    form: &[u8],
    picks: &[u8],
    t: Tally,
    a: Answer,
) -> io::Result<()> {
    let u = a.tally;
    let after = numbers(u);
    let called = [
        a.refusal,
        a.taken,
        a.complete,
        a.changed,
        bit(t == u),
        bit(t == with_duty(u, t.operators.duty)),
    ];
    let mut shown = [0u64; 16];
    pick(picks, &called, &after, &mut shown);
    fields(rt, form, &shown)
}

// The tally with this operator on duty.
fn with_duty(t: Tally, duty: u64) -> Tally {
    let mut r = t;
    r.operators.duty = duty;
    r
}

fn pick(picks: &[u8], called: &[u64], left: &[u64], shown: &mut [u64]) {
    for (shown, &number) in shown.iter_mut().zip(picks) {
        *shown = picked(number, called, left);
    }
}

fn picked(number: u8, called: &[u64], left: &[u64]) -> u64 {
    let k = number as usize;
    if k < called.len() {
        return called[k];
    }
    *left.get(k - called.len()).unwrap_or(&0)
}
