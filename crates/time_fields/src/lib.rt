// The fields of a time code, read from its seven bytes (paper 01, "Time"; DFCB table 12). A leaf for the time code's reader.
#![tactic(auto)]

ghost use Rattle.std.specs.Prelude.{◌≡◌, ◌+◌, ◌*◌, ◌/◌, ◌%◌, ◌<◌};
ghost use Rattle.time_fields.specs.Fields.{day, decimal, in_range, is_time, instant as instant_of};

// Sixteenths of a millisecond, which an instant counts.
pub const TICKS_PER_MILLISECOND: u64 = 16;

// Whether seven bytes are a good time code of a year.
pub fn is_time(year: u64, code: &[u8; 7]) -> bool
    ensures { result ≡ is_time year code.now }
{
    is_decimal(code)
        & in_range(
            year,
            day(code),
            two_digits(code[2]),
            two_digits(code[3]),
            two_digits(code[4]),
        )
}

// The instant that the fields of seven bytes name.
pub fn instant(code: &[u8; 7]) -> u64
    ensures { result ≡ instant_of code.now }
{
    let minutes = (day(code) * 24 + two_digits(code[2])) * 60 + two_digits(code[3]);
    let milliseconds = (minutes * 60 + two_digits(code[4])) * 1000
        + two_digits(code[5]) * 10
        + high(code[6]);
    milliseconds * TICKS_PER_MILLISECOND + low(code[6])
}

// Hundreds of days in the first byte, tens and units in the second.
fn day(code: &[u8; 7]) -> u64
    ensures { (result ≡ day code.now) × (result < 2048) }
{
    low(code[0]) * 100 + two_digits(code[1])
}

// A byte's upper half; the first byte's is the spacecraft number.
pub fn high(b: u8) -> u64
    ensures { (result ≡ b / 16) × (result < 16) }
{
    u64::from(b / 16)
}

fn low(b: u8) -> u64
    ensures { (result ≡ b % 16) × (result < 16) }
{
    u64::from(b % 16)
}

// The number of a byte's two half bytes, taken as decimal digits.
fn two_digits(b: u8) -> u64
    ensures { (result ≡ b / 16 * 10 + b % 16) × (result < 256) }
{
    high(b) * 10 + low(b)
}

// Every half byte but the first and the last is a decimal digit. Written out: `iter().all` over the middle bytes is
// no plainer, for its proof would name each half byte again.
fn is_decimal(code: &[u8; 7]) -> bool
    ensures { result ≡ decimal code.now 1 12 }
{
    (code[0] % 16 < 10)
        & (code[1] / 16 < 10)
        & (code[1] % 16 < 10)
        & (code[2] / 16 < 10)
        & (code[2] % 16 < 10)
        & (code[3] / 16 < 10)
        & (code[3] % 16 < 10)
        & (code[4] / 16 < 10)
        & (code[4] % 16 < 10)
        & (code[5] / 16 < 10)
        & (code[5] % 16 < 10)
        & (code[6] / 16 < 10)
}

fn in_range(year: u64, day: u64, hour: u64, minute: u64, second: u64) -> bool
    ensures { result ≡ in_range year day hour minute second }
{
    let last_day = calendar::last_day(year);
    (1..=last_day).contains(&day) & (hour <= 23) & (minute <= 59) & (second <= 59)
}
