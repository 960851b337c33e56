// The calls, and what they answer.
ghost use Rattle.std.specs.Prelude.{◌≡◌, ◌≤◌, length};

use base::refusal;
use labelling::Tally;

// One more than an area has.
const MOST_ROOM: usize = 16385;

// What the area holds before a call.
const BEFORE: u8 = 0xA5;

const TAKE: u64 = 1;

const CHANGE: u64 = 2;

const FRESH: u64 = 3;

#[derive(Clone, Copy)]
pub(crate) struct Answer {
    pub(crate) tally: Tally,
    pub(crate) refusal: u64,
    pub(crate) taken: u64,
    pub(crate) complete: u64,
    // How many bytes of the area the call changed.
    pub(crate) changed: u64,
}

// The fresh tally of rule 1.
pub(crate) fn begun() -> Tally {
    let begun = reader::fresh(1);
    begun.tally
}

// The call of this number, with the room of the area, the operator or the rule; none for any other number.
pub(crate) fn answered(call: u64, t: Tally, value: u64, piece: &[u8]) -> Answer {
    if call == TAKE {
        return taken(t, (value as usize).min(MOST_ROOM), piece);
    }
    if call == CHANGE {
        let a = reader::change_duty(t, value);
        return only(a.unwrap_or(t), refusal::code(a));
    }
    if call == FRESH {
        let a = reader::fresh(value);
        return only(a.tally, refusal::code(a.answer));
    }
    only(t, 0)
}

fn only(t: Tally, refusal: u8) -> Answer {
    Answer {
        tally: t,
        refusal: refusal as u64,
        taken: 0,
        complete: 0,
        changed: 0,
    }
}

fn taken(t: Tally, room: usize, piece: &[u8]) -> Answer
    requires { room ≤ 16385 }
{
    let mut space = blank();
    let area = &mut space[0..room];
    let a = reader::take(t, piece, &mut *area);
    let mut answer = only(t, refusal::code(a));
    answer.changed = vectors::others(area, BEFORE);
    if let Ok(a) = a {
        answer.tally = a.tally;
        answer.taken = a.taken as u64;
        answer.complete = vectors::bit(a.complete);
    }
    answer
}

// What is in the room before a call. Callers know only its length: a check that counted so many bytes one by one would take long.
fn blank() -> [u8; 16385]
    ensures { 16385 ≡ length result }
{
    [0xA5; 16385]
}
