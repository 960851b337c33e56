// Comparing two books. The answer is the number of the refusal, 0 for none; a refusal writes nothing.
ghost use Rattle.book_api.specs.Comparing.{CompareCrossed};

use base::refusal;

// Puts how two books differ into a table of 510 lines of three numbers; `lines` gets how many there are.
pub fn pcd_book_compare(first: &[u8], second: &[u8], table: &mut [u64], lines: &mut u64) -> u8
    ensures { CompareCrossed first.now second.now result table.old table.new
        lines.old lines.new }
{
    refusal::pass(book_compare::compare(first, second, table), lines)
}
