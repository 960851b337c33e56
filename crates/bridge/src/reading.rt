// The reader's entries. A tally crosses as its numbers and its frame of 128 bytes, which the caller lends and gets back.
ghost use Rattle.crossing.specs.Crossing.{lent, TakeCrossed, FreshCrossed, places, DutyCrossed};
ghost use Rattle.std.specs.Prelude.{not, eqb};
ghost use Rattle.crossing.specs.Locking.{LockCrossed};
ghost use Rattle.relock_crossing.specs.Relocking.{lent_feeder, RelockCrossed};

use tally_numbers::NUMBERS;

// Writes a fresh tally of this rule: 1, by bytes, or 2, by bits. Returns the number of the refusal, 0 for none; after a refusal the fresh tally of
// rule 1 is written.
pub fn pcd_fresh(rule: u64, numbers: &mut [u64; NUMBERS], frame: &mut [u8; 128]) -> u8
    ensures { FreshCrossed rule result numbers.new frame.new }
{
    crossing::fresh(rule, numbers, frame)
}

// Takes a piece of the stream. Returns the number of the refusal, 0 for none; a refusal writes nothing. `answer` gets the bytes taken, then
// 1 where a major frame is complete and 0 where none is.
pub fn pcd_take(
    numbers: &mut [u64; NUMBERS],
    frame: &mut [u8; 128],
    piece: &[u8],
    area: &mut [u8],
    answer: &mut [u64; 2],
) -> u8
    ensures { TakeCrossed
        (lent numbers.old frame.old area.old answer.old) piece.now result
        (lent numbers.new frame.new area.new answer.new) }
{
    crossing::take(numbers, frame, piece, area, answer)
}

// As `pcd_take`, but it also stops just after the byte that ends a hunt. `answer` gets the bytes taken, then 1 where a major frame is complete, then
// 1 where a hunt has ended.
pub fn pcd_take_to_lock(
    numbers: &mut [u64; NUMBERS],
    frame: &mut [u8; 128],
    piece: &[u8],
    area: &mut [u8],
    answer: &mut [u64; 3],
) -> u8
    ensures { LockCrossed
        (lent numbers.old frame.old area.old answer.old) piece.now result
        (lent numbers.new frame.new area.new answer.new) }
{
    crossing::take_to_lock(numbers, frame, piece, area, answer)
}

// One step over a reel as it comes, which locks on a frame's own sync. Beside the tally the caller lends `feeder`: 1 where a lock awaits its word and
// 0 where none does, then how many lead-ins were handed; both are 0 at first. `ends` is 0 where more bytes may follow the piece. `answer` gets the
// bytes taken, then 1 where a major frame is complete, then 1 where the bytes left are asked for again with more behind them.
pub fn pcd_relock(
    numbers: &mut [u64; NUMBERS],
    frame: &mut [u8; 128],
    feeder: &mut [u64; 2],
    piece: &[u8],
    ends: u64,
    area: &mut [u8],
    answer: &mut [u64; 3],
) -> u8
    ensures { RelockCrossed
        (lent_feeder numbers.old frame.old feeder.old area.old answer.old)
        piece.now (not (eqb ends 0)) result
        (lent_feeder numbers.new frame.new feeder.new area.new answer.new) }
{
    relock_crossing::relock(numbers, frame, feeder, piece, ends, area, answer)
}

// Puts an operator on duty. Returns the number of the refusal, 0 for none; a refusal writes nothing.
pub fn pcd_change_duty(numbers: &mut [u64; NUMBERS], frame: &mut [u8; 128], operator: u64) -> u8
    ensures { DutyCrossed (places numbers.old frame.old) operator result (places numbers.new frame.new) }
{
    crossing::change_duty(numbers, frame, operator)
}
