// A call that also stops where a hunt ends, on the numbers that the caller lends.
ghost use Rattle.crossing.specs.Crossing.{lent};
ghost use Rattle.crossing.specs.Locking.{LockCrossed};

use tally_numbers::NUMBERS;

// Takes a piece of the stream, as far as the byte that completes a major frame or ends a hunt. Returns the number of the refusal, 0 for none; a
// refusal writes nothing. `answer` gets the bytes taken, then 1 where a major frame is complete, then 1 where a hunt has ended.
pub fn take_to_lock(
    numbers: &mut [u64; NUMBERS],
    frame: &mut [u8; 128],
    piece: &[u8],
    area: &mut [u8],
    answer: &mut [u64; 3],
) -> u8
    ensures { LockCrossed
        (lent numbers.old frame.old area.old answer.old) piece.now result
        (lent numbers.new frame.new area.new answer.new) }
{
    match in_place::take_to_lock(numbers, frame, piece, area) {
        Ok(r) => {
            let part = r.part;
            let complete = tally_numbers::flag(part.complete);
            let locked = tally_numbers::flag(r.locked);
            *answer = [part.taken as u64, complete, locked];
            0
        }
        Err(refusal) => refusal.number(),
    }
}
