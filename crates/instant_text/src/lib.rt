// An instant of a year as text: 2003-123T04:56:07.8909375, the form of ISO 8601 with the day of the year.
#![tactic(auto)]

ghost use Rattle.std.specs.Prelude.{◌≡◌, ◌-◌, ◌≤◌, ◌∷◌};
ghost use Rattle.command.specs.Text.{Adds};
ghost use Rattle.instant_text.specs.Instants.{clock_text, padded};

use command::{put, put_byte};

// An instant counts sixteenths of a millisecond.
const SECOND: u64 = 16_000;

const MINUTE: u64 = 60 * SECOND;

const HOUR: u64 = 60 * MINUTE;

const DAY: u64 = 24 * HOUR;

// A sixteenth of a millisecond in the seventh decimal of a second.
const SIXTEENTH: u64 = 625;

// The instant of a year, behind a comma.
pub fn put_clock(out: &mut [u8], at: usize, year: u64, instant: u64) -> usize
    ensures { Adds out.old at (clock_text year instant) out.new result }
{
    let a = put_part(&mut *out, at, b',', year, 4);
    let b = put_part(&mut *out, a, b'-', instant / DAY, 3);
    let c = put_part(&mut *out, b, b'T', instant / HOUR % 24, 2);
    let d = put_part(&mut *out, c, b':', instant / MINUTE % 60, 2);
    let e = put_part(&mut *out, d, b':', instant / SECOND % 60, 2);
    put_part(out, e, b'.', instant % SECOND * SIXTEENTH, 7)
}

// A number behind a mark, with zeros in front up to `width` digits.
fn put_part(out: &mut [u8], at: usize, mark: u8, n: u64, width: usize) -> usize
    requires { width ≤ 8 }
    ensures { Adds out.old at (mark ∷ padded width n) out.new result }
{
    let marked = put_byte(&mut *out, at, mark);
    put_padded(out, marked, n, width)
}

fn put_padded(out: &mut [u8], at: usize, n: u64, width: usize) -> usize
    requires { width ≤ 8 }
    ensures { Adds out.old at (padded width n) out.new result }
{
    let mut digits = [0u8; 20];
    let k = io::decimal(n, &mut digits);
    let missing = width.saturating_sub(k);
    let zeros = [b'0'; 8];
    let padded = put(&mut *out, at, &zeros[..missing]);
    put(out, padded, &digits[..k])
}
