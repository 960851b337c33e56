// Word 72. The answer is the number of the refusal, 0 for none; a refusal writes nothing.
ghost use Rattle.std.specs.Prelude.{◌≡◌};
ghost use Rattle.subcom.specs.Parts.{part_refusal};
ghost use Rattle.word72_column.specs.Promise.{GatherPromise};
ghost use Rattle.word72_reading.specs.Readings.{value_in};
ghost use Rattle.word72_api.specs.Word72.{item_numbers, value_numbers, KindCrossed, CountCrossed, DescribeCrossed, ReadCrossed};

use base::refusal::{code, pass};
use subcom::{Item, Reading};

// Puts word 72 of each minor frame of a major frame into the column.
pub fn pcd_gather(area: &[u8], column: &mut [u8]) -> u8
    ensures { GatherPromise area.now column.old column.new result }
{
    code(subcom::gather(area, column))
}

// The kind of a column recorded in a year.
pub fn pcd_kind(year: u64, column: &[u8], out: &mut u64) -> u8
    ensures { KindCrossed year column.now result out.old out.new }
{
    pass(subcom::kind(year, column), out)
}

// How many items a kind has.
pub fn pcd_item_count(kind: u64, out: &mut u64) -> u8
    ensures { CountCrossed kind result out.old out.new }
{
    pass(subcom::item_count(kind), out)
}

// What an item is; `out` gets its form's number, its first place and its length.
pub fn pcd_describe(kind: u64, item: u64, out: &mut [u64; 3]) -> u8
    ensures { DescribeCrossed kind item result out.old out.new }
{
    match subcom::describe(kind, item) {
        Ok(found) => {
            *out = item_numbers(found);
            0
        }
        Err(refusal) => refusal.number(),
    }
}

// An item as its form, its first place and its length.
fn item_numbers(i: Item) -> [u64; 3]
    ensures { result ≡ item_numbers i }
{
    [i.form as u64, i.first as u64, i.length as u64]
}

// Why a part of a column is refused, 0 where it is not.
pub fn pcd_part_refusal(column: &[u8], kind: u64, item: u64) -> u8
    ensures { result ≡ part_refusal column.now kind item }
{
    code(subcom::try_part(column, kind, item))
}

// What an item of a column recorded in a year reads as; `out` gets what that is (0 a count, 2 flags, 3 a number, 4 a time, 5 fill), then its
// values, and `number` the double of a number. A 12-bit item is a count here.
pub fn pcd_read(
    year: u64,
    column: &[u8],
    kind: u64,
    item: u64,
    out: &mut [u64; 9],
    number: &mut f64,
) -> u8
    ensures { ReadCrossed year column.now kind item result
        out.old out.new number.old number.new }
{
    match subcom::read(year, column, kind, item) {
        Ok(reading) => {
            *out = value_numbers(reading);
            if let Reading::Number(x) = reading {
                *number = x;
            }
            0
        }
        Err(refusal) => refusal.number(),
    }
}

// What a reading is, and its values; a number's double has a place of its own.
fn value_numbers(reading: Reading) -> [u64; 9]
    ensures { result ≡ value_numbers (value_in reading) }
{
    match reading {
        Reading::Count(n) => [0, n, 0, 0, 0, 0, 0, 0, 0],
        Reading::Flags(f) => [
            2,
            u64::from(f.bit0),
            u64::from(f.bit1),
            u64::from(f.bit2),
            u64::from(f.bit3),
            u64::from(f.bit4),
            u64::from(f.bit5),
            u64::from(f.bit6),
            u64::from(f.bit7),
        ],
        Reading::Number(_) => [3, 0, 0, 0, 0, 0, 0, 0, 0],
        Reading::Time(t) => [4, t.spacecraft, t.instant, 0, 0, 0, 0, 0, 0],
        Reading::Fill => [5, 0, 0, 0, 0, 0, 0, 0, 0],
    }
}
