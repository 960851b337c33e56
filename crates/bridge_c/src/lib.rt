// The reader and the writer for programs in C: each entry calls the function of `bridge` that has its
// name, and promises the same. include/pcd.h declares them.
#![tactic(auto)]

ghost use Rattle.crossing.specs.Crossing.{lent, TakeCrossed, FreshCrossed, places, DutyCrossed};
ghost use Rattle.std.specs.Prelude.{not, eqb};
ghost use Rattle.crossing.specs.Locking.{LockCrossed};
ghost use Rattle.relock_crossing.specs.Relocking.{lent_feeder, RelockCrossed};
ghost use Rattle.writer.specs.Promise.{LeadInPromise, MinorFramePromise};

use tally_numbers::NUMBERS;

#[unsafe(no_mangle)]
pub extern "C" fn pcd_fresh(rule: u64, numbers: &mut [u64; NUMBERS], frame: &mut [u8; 128]) -> u8
    ensures { FreshCrossed rule result numbers.new frame.new }
{
    bridge::pcd_fresh(rule, numbers, frame)
}

#[unsafe(no_mangle)]
pub extern "C" fn pcd_take(
    numbers: &mut [u64; NUMBERS],
    frame: &mut [u8; 128],
    piece: &[u8],
    area: &mut [u8],
    answer: &mut [u64; 2],
) -> u8
    ensures { TakeCrossed
        (lent numbers.old frame.old area.old answer.old) piece.now result
        (lent numbers.new frame.new area.new answer.new) }
{
    bridge::pcd_take(numbers, frame, piece, area, answer)
}

#[unsafe(no_mangle)]
pub extern "C" fn pcd_take_to_lock(
    numbers: &mut [u64; NUMBERS],
    frame: &mut [u8; 128],
    piece: &[u8],
    area: &mut [u8],
    answer: &mut [u64; 3],
) -> u8
    ensures { LockCrossed
        (lent numbers.old frame.old area.old answer.old) piece.now result
        (lent numbers.new frame.new area.new answer.new) }
{
    bridge::pcd_take_to_lock(numbers, frame, piece, area, answer)
}

#[unsafe(no_mangle)]
pub extern "C" fn pcd_relock(
    numbers: &mut [u64; NUMBERS],
    frame: &mut [u8; 128],
    feeder: &mut [u64; 2],
    piece: &[u8],
    ends: u64,
    area: &mut [u8],
    answer: &mut [u64; 3],
) -> u8
    ensures { RelockCrossed
        (lent_feeder numbers.old frame.old feeder.old area.old answer.old)
        piece.now (not (eqb ends 0)) result
        (lent_feeder numbers.new frame.new feeder.new area.new answer.new) }
{
    bridge::pcd_relock(numbers, frame, feeder, piece, ends, area, answer)
}

#[unsafe(no_mangle)]
pub extern "C" fn pcd_change_duty(
    numbers: &mut [u64; NUMBERS],
    frame: &mut [u8; 128],
    operator: u64,
) -> u8
    ensures { DutyCrossed (places numbers.old frame.old) operator result (places numbers.new frame.new) }
{
    bridge::pcd_change_duty(numbers, frame, operator)
}

#[unsafe(no_mangle)]
pub extern "C" fn pcd_write_lead_in(spacing: u64, out: &mut [u8]) -> u8
    ensures { LeadInPromise spacing out.old out.new result }
{
    bridge::pcd_write_lead_in(spacing, out)
}

#[unsafe(no_mangle)]
pub extern "C" fn pcd_write_minor_frame(spacing: u64, frame: &[u8], out: &mut [u8]) -> u8
    ensures { MinorFramePromise spacing frame.now out.old out.new result }
{
    bridge::pcd_write_minor_frame(spacing, frame, out)
}
