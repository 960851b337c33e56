// The years that a time code can be of, and the last day of each (paper 02, request 4).
#![tactic(auto)]

ghost use Rattle.std.specs.Prelude.{◌≡◌};
ghost use Rattle.calendar.specs.Calendar.{in_span, is_leap, last_day};

const FIRST_YEAR: u64 = 1999;

const LAST_YEAR: u64 = 2099;

// Whether a year is one of those that times are read and written in.
pub fn in_span(year: u64) -> bool
    ensures { result ≡ in_span year }
{
    (FIRST_YEAR..=LAST_YEAR).contains(&year)
}

// The number of a year's last day.
pub fn last_day(year: u64) -> u64
    ensures { result ≡ last_day year }
{
    if is_leap(year) { 366 } else { 365 }
}

// No century exception falls in the span.
fn is_leap(year: u64) -> bool
    ensures { result ≡ is_leap year }
{
    year % 4 == 0
}
