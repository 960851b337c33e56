// What goes with frames for programs in C: each entry calls the function of `frame_api` that has its
// name, and promises the same. include/pcd.h declares them.
#![tactic(auto)]

ghost use Rattle.vcdu_header.specs.Promise.{EncodePromise};
ghost use Rattle.frame_api.specs.Headers.{CheckCrossed, RepairCrossed};
ghost use Rattle.data_pointer.specs.Sequence.{next, previous, steps, frames};
ghost use Rattle.data_pointer.specs.Answers.{pointer_lines, after_lines, distance_lines};
ghost use Rattle.frame_api.specs.Pointer.{PointerCrossed};
ghost use Rattle.std.specs.Prelude.{◌≡◌};
ghost use Rattle.frame_store.specs.Answers.{slot_refusal};
ghost use Rattle.frame_api.specs.Slots.{StoreCrossed, ReleaseCrossed};

#[unsafe(no_mangle)]
pub extern "C" fn pcd_encode_header(header: &mut [u8]) -> u8
    ensures { EncodePromise header.old header.new result }
{
    frame_api::pcd_encode_header(header)
}

#[unsafe(no_mangle)]
pub extern "C" fn pcd_check_header(header: &[u8], out: &mut u64) -> u8
    ensures { CheckCrossed header.now result out.old out.new }
{
    frame_api::pcd_check_header(header, out)
}

#[unsafe(no_mangle)]
pub extern "C" fn pcd_repair_header(header: &mut [u8], out: &mut u64) -> u8
    ensures { RepairCrossed header.old header.new result out.old out.new }
{
    frame_api::pcd_repair_header(header, out)
}

#[unsafe(no_mangle)]
pub extern "C" fn pcd_next_pointer(p: u64, out: &mut u64) -> u8
    ensures { PointerCrossed (pointer_lines p) (next p) result out.old out.new }
{
    frame_api::pcd_next_pointer(p, out)
}

#[unsafe(no_mangle)]
pub extern "C" fn pcd_previous_pointer(p: u64, out: &mut u64) -> u8
    ensures { PointerCrossed (pointer_lines p) (previous p) result out.old out.new }
{
    frame_api::pcd_previous_pointer(p, out)
}

#[unsafe(no_mangle)]
pub extern "C" fn pcd_pointer_after(p: u64, n: u64, out: &mut u64) -> u8
    ensures { PointerCrossed (after_lines p n) (steps n p) result out.old out.new }
{
    frame_api::pcd_pointer_after(p, n, out)
}

#[unsafe(no_mangle)]
pub extern "C" fn pcd_pointer_distance(p: u64, q: u64, out: &mut u64) -> u8
    ensures { PointerCrossed (distance_lines p q) (frames p q) result out.old out.new }
{
    frame_api::pcd_pointer_distance(p, q, out)
}

#[unsafe(no_mangle)]
pub extern "C" fn pcd_store(area: &mut [u8], bits: &mut u64, frame: &[u8], slot: &mut u64) -> u8
    ensures { StoreCrossed
        area.old bits.old frame.now slot.old result
        area.new bits.new slot.new }
{
    frame_api::pcd_store(area, bits, frame, slot)
}

#[unsafe(no_mangle)]
pub extern "C" fn pcd_release(area: &[u8], bits: &mut u64, slot: u64) -> u8
    ensures { ReleaseCrossed area.now bits.old slot result bits.new }
{
    frame_api::pcd_release(area, bits, slot)
}

#[unsafe(no_mangle)]
pub extern "C" fn pcd_slot_refusal(area: &[u8], bits: u64, slot: u64) -> u8
    ensures { result ≡ slot_refusal area.now bits slot }
{
    frame_api::pcd_slot_refusal(area, bits, slot)
}
