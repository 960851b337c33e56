// Compares two books of cycles (paper 02, request 9): what one of them has alone, and where the bodies of one instant differ.
#![tactic(auto)]

mod bodies;
mod merge;

ghost use Rattle.book_compare.specs.Promise.{ComparePromise};

use base::refusal::Refusal;

// 510 lines of three numbers.
pub const TABLE: usize = 1530;

// Puts the lines by which two books differ into the table, by rising instant, and answers how many
// there are. A line is the instant; 1 for only in the first, 2 for only in the second, 3 for in both
// with different bodies; and the place in the body of the first byte that differs, 0 in cases 1 and
// 2. Lines that are not used stay. Refused 2: the table has another size. Then the faults of the
// first book, then those of the second. Refused 21: the years differ.
pub fn compare(first: &[u8], second: &[u8], table: &mut [u64]) -> Result<u64, Refusal>
    ensures { ComparePromise first.now second.now table.old table.new result }
{
    if table.len() != TABLE {
        return Err(Refusal::WrongLength);
    }
    book::accept(first)?;
    book::accept(second)?;
    if book::year(first) != book::year(second) {
        return Err(Refusal::YearsDiffer);
    }
    Ok(merge::put_lines(first, second, table))
}
