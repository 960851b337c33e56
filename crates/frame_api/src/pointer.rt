// The data pointer's sequence. The answer is the number of the refusal, 0 for none; a refusal
// writes nothing.
ghost use Rattle.data_pointer.specs.Sequence.{next, previous, steps, frames};
ghost use Rattle.data_pointer.specs.Answers.{pointer_lines, after_lines, distance_lines};
ghost use Rattle.frame_api.specs.Pointer.{PointerCrossed};

use base::refusal;

// The pointer of the next frame.
pub fn pcd_next_pointer(p: u64, out: &mut u64) -> u8
    ensures { PointerCrossed (pointer_lines p) (next p) result out.old out.new }
{
    refusal::pass(data_pointer::next(p), out)
}

// The pointer of the frame before.
pub fn pcd_previous_pointer(p: u64, out: &mut u64) -> u8
    ensures { PointerCrossed (pointer_lines p) (previous p) result out.old out.new }
{
    refusal::pass(data_pointer::previous(p), out)
}

// The pointer n frames on.
pub fn pcd_pointer_after(p: u64, n: u64, out: &mut u64) -> u8
    ensures { PointerCrossed (after_lines p n) (steps n p) result out.old out.new }
{
    refusal::pass(data_pointer::after(p, n), out)
}

// The frames from p on to q.
pub fn pcd_pointer_distance(p: u64, q: u64, out: &mut u64) -> u8
    ensures { PointerCrossed (distance_lines p q) (frames p q) result out.old out.new }
{
    refusal::pass(data_pointer::distance(p, q), out)
}
