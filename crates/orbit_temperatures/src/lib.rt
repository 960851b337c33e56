// The temperatures of table 11 (DFCB 3.2.7.4.2), in every major frame.
#![tactic(auto)]

ghost use Rattle.std.specs.Prelude.{◌≡◌, ◌+◌, ◌≤◌, ◌<◌, length};
ghost use Rattle.fixed_point.specs.Promise.{ScaledPromise};
ghost use Rattle.orbit_temperatures.specs.Record.{twelve_bits, twelve_at, temperature_count, upper_clear};
ghost use Rattle.orbit_temperatures.specs.Promise.{TemperaturesPromise, TemperaturesIn};

use base::refusal::Refusal;
use cycle_columns::column;
use cycle_records::check_cycle;

// Binary places of a degree after the point.
const PLACES: u8 = 11;

// Degrees Celsius: the three angular displacement sensors' and the PDF's.
#[derive(Clone, Copy, Debug, PartialEq)]
pub struct Temperatures {
    pub temp1: f64,
    pub temp2: f64,
    pub temp3: f64,
    pub temp4: f64,
}

// Of major frame k. Refused 2, 13, 6, 17, 9.
pub fn read(body: &[u8], year: u64, k: u64) -> Result<Temperatures, Refusal>
    ensures { TemperaturesPromise body.now year k result }
{
    check_cycle(body, year, k)?;
    let column = column(body, k);
    in_column(&column)
}

fn in_column(column: &[u8; 128]) -> Result<Temperatures, Refusal>
    ensures { TemperaturesIn column.now result }
{
    if !upper_clear(column) {
        return Err(Refusal::UpperBitsSet);
    }
    Ok(Temperatures {
        temp1: celsius(column, 108),
        temp2: celsius(column, 110),
        temp3: celsius(column, 112),
        temp4: celsius(column, 114),
    })
}

// Whether the upper four bits of each are 0.
fn upper_clear(column: &[u8; 128]) -> bool
    ensures { result ≡ upper_clear column.now }
{
    (column[108] / 16 == 0)
        & (column[110] / 16 == 0)
        & (column[112] / 16 == 0)
        & (column[114] / 16 == 0)
}

// 50 − DN × 25/2048 degrees, of the 12-bit DN from a place on.
fn celsius(column: &[u8], place: usize) -> f64
    requires { place + 2 ≤ length column.now }
    ensures { ScaledPromise 11 (temperature_count (twelve_at column.now place)) result }
{
    let dn = twelve_bits(column[place], column[place + 1]);
    fixed_point::scaled(102_400 - 25 * dn, PLACES)
}

fn twelve_bits(high: u8, low: u8) -> u32
    ensures { (result ≡ twelve_bits high low) × (result < 4096) }
{
    u32::from(high % 16) * 256 + u32::from(low)
}
