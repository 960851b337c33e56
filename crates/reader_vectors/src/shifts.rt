// Changes of duty among the calls of a reading.
ghost use Rattle.std.specs.Prelude.{◌≡◌, length};

use crate::Reading;
use base::refusal::Refusal;
use labelling::Tally;
use vectors::{number, sum};

const LAST_OPERATOR: u64 = 7;

#[derive(Clone, Copy)]
pub(crate) struct Shifts {
    // The numbers that are named in turn, and which comes next.
    pub(crate) operators: [u64; 8],
    pub(crate) next: u64,
    // How many changes were accepted, and how many were refused 14 as they must be.
    pub(crate) changed: u64,
    pub(crate) refused: u64,
}

// Eight numbers of eight bytes.
pub(crate) fn begun(b: &[u8]) -> Shifts
    requires { length b.now ≡ 64 }
{
    let mut operators = [0u64; 8];
    for (operator, bytes) in operators.iter_mut().zip(b.chunks_exact(8)) {
        *operator = number(bytes);
    }
    Shifts {
        operators: operators,
        next: 0,
        changed: 0,
        refused: 0,
    }
}

// The reading after the next operator is named.
pub(crate) fn changed(r: Reading) -> Reading {
    let t = r.tally;
    let operator = named(r.shifts);
    let a = reader::change_duty(t, operator);
    let mut next = r;
    next.shifts = counted(r.shifts, a);
    next.otherwise = sum(r.otherwise, vectors::bit(!is_due(a, operator)));
    if let Ok(u) = a {
        next.tally = u;
    }
    next
}

fn named(s: Shifts) -> u64 {
    let operators = s.operators;
    let i = (s.next % 8) as usize;
    operators[i]
}

// Whether the call is refused where it must be, and with 14.
fn is_due(a: Result<Tally, Refusal>, operator: u64) -> bool {
    match a {
        Ok(_) => operator <= LAST_OPERATOR,
        Err(Refusal::NoSuchOperator) => operator > LAST_OPERATOR,
        Err(_) => false,
    }
}

fn counted(s: Shifts, a: Result<Tally, Refusal>) -> Shifts {
    let mut next = s;
    next.next = sum(s.next, 1);
    match a {
        Ok(_) => next.changed = sum(s.changed, 1),
        Err(Refusal::NoSuchOperator) => next.refused = sum(s.refused, 1),
        Err(_) => {}
    }
    next
}
