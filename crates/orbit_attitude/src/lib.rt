// The attitude (DFCB 3.2.7.4.5), in every major frame.
#![tactic(auto)]

ghost use Rattle.std.specs.Prelude.{◌≡◌};
ghost use Rattle.fixed_point.specs.Counts.{signed};
ghost use Rattle.cycle_columns.specs.Values.{word};
ghost use Rattle.orbit_attitude.specs.Record.{attitude_in};
ghost use Rattle.orbit_attitude.specs.Promise.{AttitudePromise};

use base::refusal::Refusal;
use cycle_columns::{column, count32};
use cycle_records::instant_in_year;

// The four Euler parameters, as counts: the book's figure of their weight is lost.
#[derive(Clone, Copy, Debug, PartialEq, Eq)]
pub struct Attitude {
    pub instant: u64,
    pub epa1: i64,
    pub epa2: i64,
    pub epa3: i64,
    pub epa4: i64,
}

// Of major frame k. Refused 2, 13, 6, 17, 8.
pub fn read(body: &[u8], year: u64, k: u64) -> Result<Attitude, Refusal>
    ensures { AttitudePromise body.now year k result }
{
    let instant = instant_in_year(body, year, k)?;
    let column = column(body, k);
    Ok(in_column(&column, instant))
}

fn in_column(column: &[u8], instant: u64) -> Attitude
    ensures { result ≡ attitude_in instant column.now }
{
    Attitude {
        instant,
        epa1: parameter(column, 0),
        epa2: parameter(column, 4),
        epa3: parameter(column, 8),
        epa4: parameter(column, 12),
    }
}

// The Euler parameter from a place on.
fn parameter(column: &[u8], place: usize) -> i64
    ensures { result ≡ signed (word column.now place) }
{
    fixed_point::signed(count32(column, place))
}
