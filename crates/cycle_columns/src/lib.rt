// Word 72 of a cycle's major frames, and the counts in it. A leaf for the records of a cycle.
#![tactic(auto)]

ghost use Rattle.std.specs.Prelude.{◌≡◌, ◌≤◌, length};
ghost use Rattle.cycle_records.specs.Columns.{column_of, count_at};
ghost use Rattle.fixed_point.specs.Promise.{ScaledPromise};
ghost use Rattle.cycle_columns.specs.Values.{column_in, word};

use base::format;
use cycle::CYCLE;

// A cycle has the major frames 0 to 3.
const LAST_FRAME: u64 = 3;

// Word 72 of major frame k; zeros where the body is not that of a cycle or has no such frame.
pub fn column(body: &[u8], k: u64) -> [u8; 128]
    ensures { (result ≡ column_in body.now k) × (length result ≡ 128) }
{
    let zeros = [0u8; 128];
    if body.len() != CYCLE {
        return zeros;
    }
    if LAST_FRAME < k {
        return zeros;
    }
    frame_column(body, k)
}

fn frame_column(body: &[u8], k: u64) -> [u8; 128]
    requires { (length body.now ≡ 65536) × (k ≤ 3) }
    ensures { (result ≡ column_of body.now k) × (length result ≡ 128) }
{
    let start = k as usize * format::MAJOR_FRAME;
    let end = start + format::MAJOR_FRAME;
    let mut column = [0u8; 128];
    // It cannot be refused: both have the lengths that it asks for.
    let _ = word72_column::gather(&body[start..end], &mut column);
    column
}

// The count of four bytes from a place of a column on; of fewer, where it has no more.
pub fn count32(column: &[u8], place: usize) -> u32
    ensures { result ≡ count_at 4 column.now place }
{
    count(column, place, 4) as u32
}

// The same of two bytes.
pub fn count16(column: &[u8], place: usize) -> u16
    ensures { result ≡ count_at 2 column.now place }
{
    count(column, place, 2) as u16
}

// The same of up to eight.
fn count(column: &[u8], place: usize, width: usize) -> u64
    requires { width ≤ 8 }
    ensures { result ≡ count_at width column.now place }
{
    let start = place.min(column.len());
    let end = start + width.min(column.len() - start);
    base::big_endian::read(&column[start..end])
}

// The count at four places from this one on, with so many binary places after the point.
pub fn value(column: &[u8], place: usize, places: u8) -> f64
    ensures { ScaledPromise places (word column.now place) result }
{
    fixed_point::scaled(count32(column, place), places)
}
