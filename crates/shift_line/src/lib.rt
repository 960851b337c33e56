// A shift: from which byte of a reel on who is on duty, as a line of two numbers says it.
#![tactic(auto)]

ghost use Rattle.shift_line.specs.Shifts.{ShiftOf};

// No reel has a byte beyond it.
pub const LIMIT: u64 = 1 << 40;

const LAST_OPERATOR: u64 = 7;

// What is wrong with a line.
#[derive(Clone, Copy, Debug, PartialEq, Eq)]
pub enum Fault {
    NotTwoNumbers,
    NoOperator,
    NotRising,
    TooFar,
}

// Who is on duty, and from which byte on.
#[derive(Clone, Copy, Debug, PartialEq, Eq)]
pub struct Shift {
    pub begin: u64,
    pub operator: u64,
}

// The shift of an operator from this byte on, where no earlier byte than `least` may begin one.
pub fn shift_of(begin: u64, operator: u64, least: u64) -> Result<Shift, Fault>
    ensures { ShiftOf begin operator least result }
{
    if LAST_OPERATOR < operator {
        return Err(Fault::NoOperator);
    }
    if begin < least {
        return Err(Fault::NotRising);
    }
    if LIMIT < begin {
        return Err(Fault::TooFar);
    }
    Ok(Shift { begin, operator })
}
