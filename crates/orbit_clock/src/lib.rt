// The terms of the clock (DFCB 3.2.7.4.6 and 3.2.7.4.7), in major frame 0.
#![tactic(auto)]

ghost use Rattle.orbit_clock.specs.Promise.{ClockPromise, ClockIn};

use base::refusal::Refusal;
use cycle_columns::{column, count16};
use cycle_records::check_cycle;

// The last update of the clock, in seconds from midnight of the year's first day; and the terms of its drift, as counts in milliseconds, per day and
// per day squared, whose weight and sign the book leaves open.
#[derive(Clone, Copy, Debug, PartialEq)]
pub struct Clock {
    pub updated: f64,
    pub bias: u16,
    pub rate: u16,
    pub acceleration: u16,
}

// Refused 2, 13, 17, 10.
pub fn read(body: &[u8], year: u64) -> Result<Clock, Refusal>
    ensures { ClockPromise body.now year result }
{
    check_cycle(body, year, 0)?;
    let column = column(body, 0);
    in_column(&column)
}

fn in_column(column: &[u8; 128]) -> Result<Clock, Refusal>
    ensures { ClockIn column.now result }
{
    let updated = float1750::decode(&column[28..34])?;
    Ok(Clock {
        updated,
        bias: count16(column, 36),
        rate: count16(column, 38),
        acceleration: count16(column, 40),
    })
}
