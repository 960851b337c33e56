// The drift of the gyros (DFCB 3.2.7.4.4), in major frame 0.
#![tactic(auto)]

ghost use Rattle.std.specs.Prelude.{◌≡◌};
ghost use Rattle.orbit_gyro_drift.specs.Promise.{GyroDriftPromise, DriftIn};

use base::refusal::Refusal;
use cycle_columns::{column, value};
use cycle_records::instant_in_year;

// Binary places of a radian per second after the point.
const PLACES: u8 = 47;

// Radians per second.
#[derive(Clone, Copy, Debug, PartialEq)]
pub struct GyroDrift {
    pub instant: u64,
    pub x: f64,
    pub y: f64,
    pub z: f64,
}

// Refused 2, 13, 17, 8.
pub fn read(body: &[u8], year: u64) -> Result<GyroDrift, Refusal>
    ensures { GyroDriftPromise body.now year result }
{
    let instant = instant_in_year(body, year, 0)?;
    let column = column(body, 0);
    Ok(in_column(&column, instant))
}

fn in_column(column: &[u8], instant: u64) -> GyroDrift
    ensures { DriftIn instant column.now result }
{
    GyroDrift {
        instant,
        x: value(column, 16, PLACES),
        y: value(column, 20, PLACES),
        z: value(column, 24, PLACES),
    }
}
