// A change of duty (paper 02, request 5): a call that names an operator.
#![tactic(auto)]

ghost use Rattle.std.specs.Prelude.{◌≡◌};
ghost use Rattle.labelling.specs.Operators.{on_duty};
ghost use Rattle.labelling.specs.Machine.{with_operators};
ghost use Rattle.duty.specs.Change.{duty_call_of, DutyPromise};

use base::refusal::Refusal;
use labelling::Tally;
use order::in_order;

pub const LAST_OPERATOR: u64 = 7;

// Puts an operator on duty, and changes nothing else. Refused 1: the tally is not in order. Refused 14: there is no such operator.
pub fn change_duty(t: Tally, operator: u64) -> Result<Tally, Refusal>
    ensures { DutyPromise (duty_call_of t operator) result }
{
    if !in_order(t) {
        return Err(Refusal::NotInOrder);
    }
    if operator > LAST_OPERATOR {
        return Err(Refusal::NoSuchOperator);
    }
    Ok(on_duty(t, operator))
}

// The tally with this operator on duty.
pub fn on_duty(t: Tally, operator: u64) -> Tally
    ensures { result ≡ with_operators (on_duty operator t.operators) t }
{
    let mut o = t.operators;
    o.duty = operator;
    let mut next = t;
    next.operators = o;
    next
}
