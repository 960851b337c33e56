// A step that locks on a frame's own sync, on the numbers that the caller lends: beside the tally's there are two of the feeder's, whether a lock
// awaits its word, 1 or 0, and how many lead-ins were handed. It is `relocking::relock` in place.
#![tactic(auto)]

ghost use Rattle.std.specs.Prelude.{◌≡◌, true, not, ◌&&◌, eqb, length, List, ℕ};
ghost use Rattle.base.specs.Refusals.{number_of};
ghost use Rattle.tally_numbers.specs.Numbers.{is_tally, tally_of};
ghost use Rattle.relocking.specs.Relock.{stands_at_lock, feeder_in_order, before_group};
ghost use Rattle.relock_crossing.specs.Relocking.{is_feeder, feeder_of, refused_by, step_of, Fits, Waiting, StepCrossed, Asks};
ghost use Rattle.relock_crossing.specs.Relocking.{lent_feeder, RelockCrossed};

use base::format::MAJOR_FRAME;
use base::refusal::Refusal;
use in_place::Locked;
use order::LIMIT;
use relocking::LEAD_IN;
use tally_numbers::{NUMBERS, flag};

// One step on a piece of the reel; `ends` is 0 where more bytes may follow the piece. Returns the number of the refusal, 0 for none; a refusal writes
// nothing. `answer` gets the bytes taken, then 1 where a major frame is complete, then 1 where the bytes left are asked for again with more behind
// them.
pub fn relock(
    numbers: &mut [u64; NUMBERS],
    frame: &mut [u8; 128],
    feeder: &mut [u64; 2],
    piece: &[u8],
    ends: u64,
    area: &mut [u8],
    answer: &mut [u64; 3],
) -> u8
    ensures { RelockCrossed
        (lent_feeder numbers.old frame.old feeder.old area.old answer.old)
        piece.now (not (eqb ends 0)) result
        (lent_feeder numbers.new frame.new feeder.new area.new answer.new) }
{
    match stepped(numbers, frame, &*feeder, piece, ends != 0, area) {
        Ok(s) => {
            let awaits = flag(s.awaits);
            let complete = flag(s.complete);
            let more = flag(s.more);
            *feeder = [awaits, s.handed];
            *answer = [s.taken as u64, complete, more];
            0
        }
        Err(refusal) => refusal.number(),
    }
}

// What a step that is not refused answers, and the feeder's two after it.
#[derive(Clone, Copy)]
pub(crate) struct Step {
    pub(crate) taken: usize,
    pub(crate) complete: bool,
    pub(crate) more: bool,
    pub(crate) awaits: bool,
    pub(crate) handed: u64,
}

// The call that a step makes tests the order, so that a step tests it once. What is left of the tests comes before it; where one of them fails, the
// step is refused.
fn stepped(
    numbers: &mut [u64; NUMBERS],
    frame: &mut [u8; 128],
    feeder: &[u64; 2],
    piece: &[u8],
    ends: bool,
    area: &mut [u8],
) -> Result<Step, Refusal>
    ensures { StepCrossed numbers.old frame.old feeder.now piece.now ends area.old result
        numbers.new frame.new area.new }
{
    let handed = feeder[1];
    let awaits = feeder[0];
    let fit = fits(numbers[0], handed, piece.len());
    if (awaits == 0) & fit {
        let r = in_place::take_to_lock(numbers, frame, piece, area);
        return read(r, false, handed);
    }
    if (awaits == 1) & fit & stands(&*numbers) {
        return at_lock(numbers, frame, feeder, piece, ends, area);
    }
    permitted(&*numbers, &*frame, feeder, piece.len(), area.len())?;
    // It is never permitted here: what it tests beside the order has failed above.
    Err(Refusal::NotInOrder)
}

// Below a quarter of the limit nothing can pass it: there a plain step has one test less to make, and no division.
const NEAR: u64 = 1 << 38;

// Whether the tally's bytes have room for the lead-ins that were handed, and whether a lead-in still fits after the piece.
fn fits(bytes: u64, handed: u64, piece: usize) -> bool
    ensures { Fits bytes handed piece result }
{
    if (bytes < NEAR) & (handed < NEAR) & ((piece as u64) < NEAR) {
        return LEAD_IN * handed <= bytes;
    }
    if bytes / LEAD_IN < handed {
        return false;
    }
    if LIMIT - LEAD_IN < bytes {
        return false;
    }
    if LIMIT - LEAD_IN - bytes < piece as u64 {
        return false;
    }
    true
}

// Whether a step from these numbers is refused, by the lengths of the piece and of the area.
fn permitted(
    n: &[u64; NUMBERS],
    frame: &[u8; 128],
    feeder: &[u64; 2],
    piece: usize,
    area: usize,
) -> Result<(), Refusal>
    ensures { number_of result ≡ refused_by n.now frame.now feeder.now piece area }
{
    if !in_order(n, frame, feeder) {
        return Err(Refusal::NotInOrder);
    }
    if area != MAJOR_FRAME {
        return Err(Refusal::WrongLength);
    }
    let left = LIMIT - n[0];
    if left < LEAD_IN {
        return Err(Refusal::TooManyBytes);
    }
    if left - LEAD_IN < piece as u64 {
        return Err(Refusal::TooManyBytes);
    }
    Ok(())
}

// Whether these are the numbers of a feeder in order.
fn in_order(n: &[u64; NUMBERS], frame: &[u8; 128], feeder: &[u64; 2]) -> bool
    ensures { result ≡ (is_feeder n.now feeder.now && feeder_in_order (feeder_of n.now frame.now feeder.now)) }
{
    in_place::in_order(n, frame)
        & (feeder[0] < 2)
        & ((feeder[0] != 1) | stands(n))
        & (feeder[1] <= n[0] / LEAD_IN)
}

// Whether a lock can await its word here: before place 0, and outside a group.
fn stands(n: &[u64; NUMBERS]) -> bool
    ensures { (frame : List ℕ) → result ≡ stands_at_lock (tally_of n.now frame) }
{
    (n[13] != 1) & (n[12] == 0) & (n[5] == 0)
}

// A call as far as a lock, as a step. `waits` says that the lock before it goes on waiting.
fn read(r: Result<Locked, Refusal>, waits: bool, handed: u64) -> Result<Step, Refusal>
    ensures { result ≡ step_of r waits handed }
{
    let r = r?;
    let part = r.part;
    Ok(Step {
        taken: part.taken,
        complete: part.complete,
        more: false,
        awaits: waits | r.locked,
        handed: handed,
    })
}

// A lock awaits its word: what stands before the next group comes first.
fn at_lock(
    numbers: &mut [u64; NUMBERS],
    frame: &mut [u8; 128],
    feeder: &[u64; 2],
    piece: &[u8],
    ends: bool,
    area: &mut [u8],
) -> Result<Step, Refusal>
    requires { Waiting numbers.old frame.old feeder.now (length piece.now) }
    ensures { StepCrossed numbers.old frame.old feeder.now piece.now ends area.old result
        numbers.new frame.new area.new }
{
    let k = relocking::before_group(piece);
    if 0 < k {
        let r = in_place::take_to_lock(numbers, frame, &piece[..k], area);
        return read(r, true, feeder[1]);
    }
    decide(numbers, frame, feeder, piece, ends, area)
}

// A lock awaits its word, and the piece is empty or begins with the SYNC of that word's group. Where the word is not whole no call is made that would
// test the order.
fn decide(
    numbers: &mut [u64; NUMBERS],
    frame: &mut [u8; 128],
    feeder: &[u64; 2],
    piece: &[u8],
    ends: bool,
    area: &mut [u8],
) -> Result<Step, Refusal>
    requires { Waiting numbers.old frame.old feeder.now (length piece.now) × (before_group piece.now ≡ 0) }
    ensures { StepCrossed numbers.old frame.old feeder.now piece.now ends area.old result
        numbers.new frame.new area.new }
{
    let handed = feeder[1];
    if piece.len() < 4 {
        if ends | (piece.len() == 0) {
            let r = in_place::take_to_lock(numbers, frame, piece, area);
            return read(r, true, handed);
        }
        permitted(&*numbers, &*frame, feeder, piece.len(), area.len())?;
        return Ok(asks(numbers, frame, handed));
    }
    if relocking::begins_frame(numbers[32], piece[1], piece[2], piece[3]) {
        let r = in_place::take_to_lock(numbers, frame, piece, area);
        return read(r, false, handed);
    }
    let r = in_place::lead_and_take(numbers, frame, piece, area);
    read(r, false, handed + 1)
}

// Nothing is taken, and the numbers are written as they were read.
fn asks(numbers: &mut [u64; NUMBERS], frame: &mut [u8; 128], handed: u64) -> Step
    requires { is_tally numbers.old ≡ true }
    ensures { Asks numbers.old frame.old handed result numbers.new frame.new }
{
    let t = tally_numbers::tally_of(&*numbers, &*frame);
    tally_numbers::put_tally(t, numbers, frame);
    Step {
        taken: 0,
        complete: false,
        more: true,
        awaits: true,
        handed: handed,
    }
}
