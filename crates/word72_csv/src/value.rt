// What an item reads as, and the rest of its line.
ghost use Rattle.std.specs.Prelude.{◌≡◌, ◌<◌};
ghost use Rattle.base.specs.Refusals.{number};
ghost use Rattle.io.specs.Digits.{hex_digit_ascii};
ghost use Rattle.command.specs.Text.{Adds};
ghost use Rattle.word72_csv.specs.Values.{reading_text, count_text, flags_text, number_text, time_text, fill_text, refused_text};
ghost use Rattle.word72_csv.specs.Values.{no_more, hex_text, hex_byte, bit_glyph};

use base::refusal::Refusal;
use command::{put, put_byte, put_field, put_words};
use csv_fields::put_number_field;
use instant_text::put_clock;
use subcom::{EightFlags, Reading};
use time_code::TimeCode;

pub(crate) fn put_reading(
    out: &mut [u8],
    at: usize,
    year: u64,
    reading: Result<Reading, Refusal>,
    bytes: &[u8],
) -> usize
    ensures { Adds out.old at (reading_text year reading bytes.now) out.new result }
{
    match reading {
        Ok(Reading::Count(n)) => put_count(out, at, n),
        Ok(Reading::Flags(f)) => put_flags(out, at, f),
        Ok(Reading::Number(x)) => put_real(out, at, x),
        Ok(Reading::Time(t)) => put_time(out, at, year, t),
        Ok(Reading::Fill) => put_fill(out, at, bytes),
        Err(refusal) => put_refused(out, at, refusal),
    }
}

fn put_count(out: &mut [u8], at: usize, n: u64) -> usize
    ensures { Adds out.old at (count_text n) out.new result }
{
    let valued = put_number_field(&mut *out, at, n);
    put_no_more(out, valued)
}

// The rest of a line that has a value: no spacecraft, no time and no refusal.
fn put_no_more(out: &mut [u8], at: usize) -> usize
    ensures { Adds out.old at no_more out.new result }
{
    put(out, at, b",,,,\n")
}

// The bits 0 to 7 behind a letter, so that no reader takes them for a decimal number.
fn put_flags(out: &mut [u8], at: usize, f: EightFlags) -> usize
    ensures { Adds out.old at (flags_text f) out.new result }
{
    let bits = [
        b',',
        b'b',
        bit_glyph(f.bit0),
        bit_glyph(f.bit1),
        bit_glyph(f.bit2),
        bit_glyph(f.bit3),
        bit_glyph(f.bit4),
        bit_glyph(f.bit5),
        bit_glyph(f.bit6),
        bit_glyph(f.bit7),
    ];
    let valued = put(&mut *out, at, &bits);
    put_no_more(out, valued)
}

fn bit_glyph(bit: bool) -> u8
    ensures { result ≡ bit_glyph bit }
{
    if bit { b'1' } else { b'0' }
}

fn put_real(out: &mut [u8], at: usize, x: f64) -> usize
    ensures { Adds out.old at (number_text x) out.new result }
{
    let begun = put_byte(&mut *out, at, b',');
    let valued = double_text::put_double(&mut *out, begun, x);
    put_no_more(out, valued)
}

// A time's value is its instant.
fn put_time(out: &mut [u8], at: usize, year: u64, t: TimeCode) -> usize
    ensures { Adds out.old at (time_text year t) out.new result }
{
    let valued = put_number_field(&mut *out, at, t.instant);
    let crafted = put_number_field(&mut *out, valued, t.spacecraft);
    let timed = put_clock(&mut *out, crafted, year, t.instant);
    put(out, timed, b",,\n")
}

// The bytes in hexadecimal digits, behind a letter.
fn put_fill(out: &mut [u8], at: usize, bytes: &[u8]) -> usize
    ensures { Adds out.old at (fill_text bytes.now) out.new result }
{
    let begun = put(&mut *out, at, b",x");
    let valued = put_hex(&mut *out, begun, bytes);
    put_no_more(out, valued)
}

// No value, and the refusal.
pub(crate) fn put_refused(out: &mut [u8], at: usize, refusal: Refusal) -> usize
    ensures { Adds out.old at (refused_text (number refusal)) out.new result }
{
    let number = refusal.number();
    let refused = put_field(&mut *out, at, b",,,,", u64::from(number));
    let quoted = put(&mut *out, refused, b",\"");
    let told = put_words(&mut *out, quoted, number);
    put(out, told, b"\"\n")
}

fn put_hex(out: &mut [u8], at: usize, bytes: &[u8]) -> usize
    ensures { Adds out.old at (hex_text bytes.now) out.new result }
{
    let mut end = put(&mut *out, at, b"");
    for &b in bytes {
        end = put_hex_byte(&mut *out, end, b);
    }
    end
}

fn put_hex_byte(out: &mut [u8], at: usize, b: u8) -> usize
    ensures { Adds out.old at (hex_byte b) out.new result }
{
    let high = put_byte(&mut *out, at, hex_glyph(b / 16));
    put_byte(out, high, hex_glyph(b % 16))
}

fn hex_glyph(d: u8) -> u8
    requires { d < 16 }
    ensures { result ≡ hex_digit_ascii d }
{
    if d < 10 { b'0' + d } else { b'a' + (d - 10) }
}
