// What the bytes of an item read as, by the item's form (paper 01, "Word 72 and its items"; paper 02, request 4).
#![tactic(auto)]

ghost use Rattle.std.specs.Prelude.{◌≡◌, true, [], ◌∷◌, length, T, Ok};
ghost use Rattle.time_code.specs.Calendar.{in_span};
ghost use Rattle.word72_items.specs.ItemTable.{suits};
ghost use Rattle.word72_items.specs.declared.Form.TheVariants as form;
ghost use Rattle.word72_reading.specs.Readings.{flags_of};
ghost use Rattle.word72_reading.specs.Values.{bits};
ghost use Rattle.word72_reading.specs.Promise.{ReadAsPromise, SuitedPromise, InAnyYear};

use base::refusal::Refusal;
use time_code::{TimeCode, year};
use word72_items::Form;

// The most bytes of a count; a longer item that has no other form reads as fill.
const LONGEST_COUNT: usize = 8;

// The eight flags of a serial word by the book's bit numbers; bit 0 is the most significant.
#[derive(Clone, Copy, Debug, PartialEq, Eq)]
pub struct EightFlags {
    pub bit0: bool,
    pub bit1: bool,
    pub bit2: bool,
    pub bit3: bool,
    pub bit4: bool,
    pub bit5: bool,
    pub bit6: bool,
    pub bit7: bool,
}

// What an item reads as.
#[derive(Clone, Copy)]
pub enum Reading {
    Count(u64),
    Flags(EightFlags),
    Number(f64),
    Time(TimeCode),
    Fill,
}

// Reads bytes recorded in a year by a form. Refused 2: the form asks for another number of bytes. Refused 13, whatever the form: the year is
// outside 1999 to 2099. Then 8: the time code is not good in the year, 9: the upper four bits of a 12-bit item are not 0, 10: the number is
// not normalised.
pub fn read_as(year: u64, form: Form, bytes: &[u8]) -> Result<Reading, Refusal>
    ensures { ReadAsPromise year form bytes.now result }
{
    if !length_suits(form, bytes.len()) {
        return Err(Refusal::WrongLength);
    }
    if !year::in_span(year) {
        return Err(Refusal::YearOutsideSpan);
    }
    read_suited(year, form, bytes)
}

fn length_suits(form: Form, n: usize) -> bool
    ensures { result ≡ suits form n }
{
    match form {
        Form::Count => 1 <= n,
        Form::TwelveBit => n == 2,
        Form::Flags => n == 1,
        Form::Number => n == 6,
        Form::Time => n == 7,
        Form::Fill => 1 <= n,
    }
}

fn read_suited(year: u64, form: Form, bytes: &[u8]) -> Result<Reading, Refusal>
    requires { (in_span year ≡ true) × T (suits form (length bytes.now)) }
    ensures { SuitedPromise year form bytes.now result }
{
    match form {
        Form::Count => Ok(count(bytes)),
        Form::TwelveBit => twelve_bit(bytes[0], bytes[1]),
        Form::Flags => Ok(Reading::Flags(flags(bytes[0]))),
        Form::Number => number(bytes),
        Form::Time => time(year, bytes),
        Form::Fill => Ok(Reading::Fill),
    }
}

// A count of up to eight bytes, the first byte highest; longer items read as fill.
fn count(bytes: &[u8]) -> Reading
    ensures { InAnyYear form.Count bytes.now (Ok result) }
{
    if LONGEST_COUNT < bytes.len() {
        return Reading::Fill;
    }
    Reading::Count(base::big_endian::read(bytes))
}

// The low four bits of the first byte, then the second; refused where the upper four are not 0.
fn twelve_bit(first: u8, second: u8) -> Result<Reading, Refusal>
    ensures { InAnyYear form.TwelveBit (first ∷ second ∷ []) result }
{
    if first / 16 != 0 {
        return Err(Refusal::UpperBitsSet);
    }
    Ok(Reading::Count(u64::from(first) * 256 + u64::from(second)))
}

fn flags(b: u8) -> EightFlags
    ensures { result ≡ flags_of (bits b) }
{
    EightFlags {
        bit0: b / 128 % 2 == 1,
        bit1: b / 64 % 2 == 1,
        bit2: b / 32 % 2 == 1,
        bit3: b / 16 % 2 == 1,
        bit4: b / 8 % 2 == 1,
        bit5: b / 4 % 2 == 1,
        bit6: b / 2 % 2 == 1,
        bit7: b % 2 == 1,
    }
}

fn number(bytes: &[u8]) -> Result<Reading, Refusal>
    requires { length bytes.now ≡ 6 }
    ensures { InAnyYear form.Number bytes.now result }
{
    Ok(Reading::Number(float1750::decode(bytes)?))
}

fn time(year: u64, bytes: &[u8]) -> Result<Reading, Refusal>
    requires { (in_span year ≡ true) × (length bytes.now ≡ 7) }
    ensures { SuitedPromise year form.Time bytes.now result }
{
    Ok(Reading::Time(time_code::decode(year, bytes)?))
}
