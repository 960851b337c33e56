// A value of a record of a cycle as a line of comma-separated values.
#![tactic(auto)]

ghost use Rattle.std.specs.Prelude.{List, ℕ};
ghost use Rattle.command.specs.Text.{Adds};
ghost use Rattle.csv_fields.specs.Fields.{integer_text};
ghost use Rattle.double_text.specs.Decimal.{double_text};
ghost use Rattle.orbit_rows.specs.Rows.{pair_text, date_text, clock_text, when_text, refusal_text, start_text, end_text, row_text};

use command::{put, put_byte, put_number};
use csv_fields::put_number_field;

// Which record a value is of: its cycle, its major frame and its year; and its instant, where it has one.
#[derive(Clone, Copy, Debug, PartialEq, Eq)]
pub struct Row {
    pub cycle: u64,
    pub frame: u64,
    pub year: u64,
    pub instant: Option<u64>,
}

// The names of the values: record, item and unit.
pub const EPHEMERIS: usize = 0;

pub const ATTITUDE: usize = 6;

pub const TEMPERATURES: usize = 10;

pub const GYRO_DRIFT: usize = 14;

pub const CLOCK: usize = 17;

const NAMES: [u8; 446] = *b"\
,ephemeris,x,m,
,ephemeris,y,m,
,ephemeris,z,m,
,ephemeris,vx,m/ms,
,ephemeris,vy,m/ms,
,ephemeris,vz,m/ms,
,attitude,epa1,count,
,attitude,epa2,count,
,attitude,epa3,count,
,attitude,epa4,count,
,temperatures,temp1,degC,
,temperatures,temp2,degC,
,temperatures,temp3,degC,
,temperatures,temp4,degC,
,gyro drift,x,rad/s,
,gyro drift,y,rad/s,
,gyro drift,z,rad/s,
,clock,updated,s,
,clock,bias,count,
,clock,rate,count,
,clock,acceleration,count,
";

// Sixteenths of a millisecond.
const DAY: u64 = 1_382_400_000;

const HOUR: u64 = 57_600_000;

const MINUTE: u64 = 960_000;

const SECOND: u64 = 16_000;

// What a record has in a line: a double or an integer.
pub trait Value: Copy {
    // Its text.
    ghost text: { Self → List ℕ };

    fn put(self, out: &mut [u8], at: usize) -> usize
        ensures { Adds out.old at (text self) out.new result };
}

impl Value for f64 {
    ghost text = { double_text };

    fn put(self, out: &mut [u8], at: usize) -> usize {
        double_text::put_double(out, at, self)
    }
}

impl Value for i64 {
    ghost text = { integer_text };

    fn put(self, out: &mut [u8], at: usize) -> usize {
        csv_fields::put_integer(out, at, self)
    }
}

// The line of a value; of a refused record it has the number in its place, whatever number that is.
pub fn put_row<V: Value>(
    out: &mut [u8],
    at: usize,
    row: Row,
    name: usize,
    value: Result<V, u8>,
) -> usize
    ensures { Adds out.old at (row_text V.text row name value) out.new result }
{
    let begun = put_start(&mut *out, at, row, name);
    match value {
        Ok(v) => {
            let told = v.put(&mut *out, begun);
            put_end(out, told, row, 0)
        }
        Err(number) => put_end(out, begun, row, number),
    }
}

fn put_start(out: &mut [u8], at: usize, row: Row, name: usize) -> usize
    ensures { Adds out.old at (start_text row name) out.new result }
{
    let names = &NAMES;
    let counted = put_number(&mut *out, at, row.cycle);
    let framed = put_number_field(&mut *out, counted, row.frame);
    put(out, framed, command::line(names, name))
}

fn put_end(out: &mut [u8], at: usize, row: Row, number: u8) -> usize
    ensures { Adds out.old at (end_text row number) out.new result }
{
    let refused = put_refusal(&mut *out, at, u64::from(number));
    put_when(out, refused, row.year, row.instant)
}

fn put_refusal(out: &mut [u8], at: usize, number: u64) -> usize
    ensures { Adds out.old at (refusal_text number) out.new result }
{
    if number == 0 {
        return put_byte(out, at, b',');
    }
    put_number_field(out, at, number)
}

// The instant as a number and in the fields of a time code; eight empty fields where there is none.
fn put_when(out: &mut [u8], at: usize, year: u64, instant: Option<u64>) -> usize
    ensures { Adds out.old at (when_text year instant) out.new result }
{
    match instant {
        Some(instant) => {
            let dated = put_date(&mut *out, at, year, instant);
            let timed = put_clock(&mut *out, dated, instant);
            put_byte(out, timed, b'\n')
        }
        None => put(out, at, b",,,,,,,,\n"),
    }
}

fn put_date(out: &mut [u8], at: usize, year: u64, instant: u64) -> usize
    ensures { Adds out.old at (date_text year instant) out.new result }
{
    let told = put_pair(&mut *out, at, instant, year);
    put_pair(out, told, instant / DAY, instant / HOUR % 24)
}

fn put_clock(out: &mut [u8], at: usize, instant: u64) -> usize
    ensures { Adds out.old at (clock_text instant) out.new result }
{
    let told = put_pair(&mut *out, at, instant / MINUTE % 60, instant / SECOND % 60);
    put_pair(out, told, instant / 16 % 1000, instant % 16)
}

// Two numbers, each behind a comma.
fn put_pair(out: &mut [u8], at: usize, a: u64, b: u64) -> usize
    ensures { Adds out.old at (pair_text a b) out.new result }
{
    let first = put_number_field(&mut *out, at, a);
    put_number_field(out, first, b)
}
