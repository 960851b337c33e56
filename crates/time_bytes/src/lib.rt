// The seven bytes of a time code, written from a spacecraft number and an instant (paper 01, "Time"; DFCB table 12). A leaf for the time code's
// writer.
#![tactic(auto)]

ghost use Rattle.std.specs.Prelude.{◌≡◌, ◌≤◌, ◌<◌};
ghost use Rattle.time_fields.specs.Fields.{day_of};
ghost use Rattle.time_bytes.specs.Bytes.{bcd, code_of, fits, put_after};

use time_fields::TICKS_PER_MILLISECOND;

// A time code has seven bytes.
pub const CODE_LENGTH: usize = 7;

// The highest spacecraft number that half a byte holds.
pub const LAST_SPACECRAFT: u64 = 15;

const LAST_DAY: u64 = 366;

const TICKS_PER_SECOND: u64 = 1000 * TICKS_PER_MILLISECOND;

const TICKS_PER_MINUTE: u64 = 60 * TICKS_PER_SECOND;

// The sixteenths of a millisecond of an hour, and of a day.
pub const TICKS_PER_HOUR: u64 = 60 * TICKS_PER_MINUTE;

pub const TICKS_PER_DAY: u64 = 24 * TICKS_PER_HOUR;

// Writes the code of a spacecraft number and an instant. Nothing is written where it does not fit: other than seven bytes are lent, the spacecraft is
// above 15 or the day above 366. It takes a slice: an array of seven bytes would ask more of its callers.
pub fn put(out: &mut [u8], spacecraft: u64, instant: u64)
    ensures { out.new ≡ put_after spacecraft instant out.old }
{
    if code_fits(out.len(), spacecraft, instant) {
        out.copy_from_slice(&code(spacecraft, instant));
    }
}

fn code_fits(room: usize, spacecraft: u64, instant: u64) -> bool
    ensures { result ≡ fits room spacecraft instant }
{
    (room == CODE_LENGTH) & (spacecraft <= LAST_SPACECRAFT) & (instant / TICKS_PER_DAY <= LAST_DAY)
}

fn code(spacecraft: u64, instant: u64) -> [u8; 7]
    requires { (spacecraft ≤ 15) × (day_of instant ≤ 366) }
    ensures { result ≡ code_of spacecraft instant }
{
    let day = instant / TICKS_PER_DAY;
    let millisecond = instant / TICKS_PER_MILLISECOND % 1000;
    [
        (spacecraft * 16 + day / 100) as u8,
        bcd_byte(day % 100),
        bcd_byte(instant / TICKS_PER_HOUR % 24),
        bcd_byte(instant / TICKS_PER_MINUTE % 60),
        bcd_byte(instant / TICKS_PER_SECOND % 60),
        bcd_byte(millisecond / 10),
        (millisecond % 10 * 16 + instant % TICKS_PER_MILLISECOND) as u8,
    ]
}

// The byte of the two decimal digits of n.
fn bcd_byte(n: u64) -> u8
    requires { n < 100 }
    ensures { result ≡ bcd n }
{
    (n / 10 * 16 + n % 10) as u8
}
