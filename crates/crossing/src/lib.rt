// A tally as it crosses to programs in other languages: its numbers and the frame's 128 bytes, which the caller lends. An entry works
// on them in place. No number is cut: numbers that are no tally's are refused as a tally not in order is.
#![tactic(auto)]

mod lock;
mod operator;

ghost use Rattle.crossing.specs.Crossing.{lent, TakeCrossed, FreshCrossed};

use base::refusal;
pub use lock::take_to_lock;
pub use operator::change_duty;
use tally_numbers::{NUMBERS, flag, put_tally};

// Writes a fresh tally of this rule. Returns the number of the refusal, 0 for none; after a refusal the fresh tally of rule 1 is written. What it
// promises of the numbers: they are those of a tally, and of that one alone.
pub fn fresh(rule: u64, numbers: &mut [u64; NUMBERS], frame: &mut [u8; 128]) -> u8
    ensures { FreshCrossed rule result numbers.new frame.new }
{
    let r = reader::fresh(rule);
    let t = r.tally;
    put_tally(t, numbers, frame);
    refusal::code(r.answer)
}

// Takes a piece of the stream. Returns the number of the refusal, 0 for none; a refusal writes nothing. `answer` gets the bytes taken, then
// 1 where a major frame is complete and 0 where none is.
pub fn take(
    numbers: &mut [u64; NUMBERS],
    frame: &mut [u8; 128],
    piece: &[u8],
    area: &mut [u8],
    answer: &mut [u64; 2],
) -> u8
    ensures { TakeCrossed
        (lent numbers.old frame.old area.old answer.old) piece.now result
        (lent numbers.new frame.new area.new answer.new) }
{
    match in_place::take_part(numbers, frame, piece, false, area) {
        Ok(r) => {
            let complete = flag(r.complete);
            *answer = [r.taken as u64, complete];
            0
        }
        Err(refusal) => refusal.number(),
    }
}
