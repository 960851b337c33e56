// The ephemeris (DFCB 3.2.7.4.8, figure 24), in every major frame.
#![tactic(auto)]

ghost use Rattle.std.specs.Prelude.{◌≡◌, ◌+◌, ◌≤◌, length};
ghost use Rattle.orbit_ephemeris.specs.Record.{ephemeris_place};
ghost use Rattle.orbit_ephemeris.specs.Promise.{EphemerisPromise, EphemerisIn};

use base::refusal::Refusal;
use cycle_columns::{column, value};
use cycle_records::instant_in_year;

// Binary places after the point: of a metre, and of a metre per millisecond.
const POSITION: u8 = 8;

const VELOCITY: u8 = 28;

// Metres, and metres per millisecond.
#[derive(Clone, Copy, Debug, PartialEq)]
pub struct Ephemeris {
    pub instant: u64,
    pub x: f64,
    pub y: f64,
    pub z: f64,
    pub vx: f64,
    pub vy: f64,
    pub vz: f64,
}

// Of major frame k. Refused 2, 13, 6, 17, 8.
pub fn read(body: &[u8], year: u64, k: u64) -> Result<Ephemeris, Refusal>
    ensures { EphemerisPromise body.now year k result }
{
    let instant = instant_in_year(body, year, k)?;
    let column = column(body, k);
    Ok(in_column(&column, first_place(k), instant))
}

// From its first place on.
fn in_column(column: &[u8], first: usize, instant: u64) -> Ephemeris
    requires { first + 24 ≤ length column.now }
    ensures { EphemerisIn instant column.now first result }
{
    Ephemeris {
        instant,
        x: value(column, first, POSITION),
        y: value(column, first + 4, POSITION),
        z: value(column, first + 8, POSITION),
        vx: value(column, first + 12, VELOCITY),
        vy: value(column, first + 16, VELOCITY),
        vz: value(column, first + 20, VELOCITY),
    }
}

// The first place of major frame k's ephemeris.
fn first_place(k: u64) -> usize
    ensures { (result ≡ ephemeris_place k) × (result ≤ 50) }
{
    if k % 2 == 0 {
        return 50;
    }
    16
}
