// Fields of comma-separated values as RFC 4180 has them, and integers as text. A program puts the commas and ends each line with a line feed.
#![tactic(auto)]

ghost use Rattle.std.specs.Prelude.{◌≡◌};
ghost use Rattle.std.specs.List.{list_any};
ghost use Rattle.command.specs.Text.{Adds};
ghost use Rattle.csv_fields.specs.Fields.{is_special, doubled, quoted, csv_field, number_field, integer_text};

use command::{put, put_byte, put_field, put_number};

// A field: as it is, or in quotes where it holds a comma, a quote or a line end; its own quotes are doubled then.
pub fn put_csv_field(out: &mut [u8], at: usize, text: &[u8]) -> usize
    ensures { Adds out.old at (csv_field text.now) out.new result }
{
    if !is_quoted(text) {
        return put(out, at, text);
    }
    let begun = put_byte(&mut *out, at, b'"');
    let inside = put_doubled(&mut *out, begun, text);
    put_byte(out, inside, b'"')
}

// A number as a field behind a comma.
pub fn put_number_field(out: &mut [u8], at: usize, n: u64) -> usize
    ensures { Adds out.old at (number_field n) out.new result }
{
    let begun = put_byte(&mut *out, at, b',');
    put_number(out, begun, n)
}

// An integer: its decimal digits, behind a minus sign where it is negative.
pub fn put_integer(out: &mut [u8], at: usize, n: i64) -> usize
    ensures { Adds out.old at (integer_text n) out.new result }
{
    if n < 0 {
        return put_field(out, at, b"-", n.unsigned_abs());
    }
    put_number(out, at, n.unsigned_abs())
}

// Whether a field needs quotes.
fn is_quoted(text: &[u8]) -> bool
    ensures { result ≡ list_any is_special text.now }
{
    text.iter().any(|&b| is_special(b))
}

fn is_special(b: u8) -> bool
    ensures { result ≡ is_special b }
{
    (b == b',') | (b == b'"') | (b == b'\n') | (b == b'\r')
}

// A text with each quote doubled.
fn put_doubled(out: &mut [u8], at: usize, text: &[u8]) -> usize
    ensures { Adds out.old at (doubled text.now) out.new result }
{
    let mut end = put(&mut *out, at, b"");
    for &b in text {
        end = put_quoted(&mut *out, end, b);
    }
    end
}

// A byte within quotes.
fn put_quoted(out: &mut [u8], at: usize, b: u8) -> usize
    ensures { Adds out.old at (quoted b) out.new result }
{
    if b == b'"' {
        let middle = put_byte(&mut *out, at, b);
        return put_byte(out, middle, b);
    }
    put_byte(out, at, b)
}
