// Frames in the slots of a lent area. The answer is the number of the refusal, 0 for none; a refusal
// writes nothing.
ghost use Rattle.std.specs.Prelude.{◌≡◌};
ghost use Rattle.frame_store.specs.Answers.{slot_refusal};
ghost use Rattle.frame_api.specs.Slots.{StoreCrossed, ReleaseCrossed};

use base::refusal;

// Puts a frame into the lowest free slot; `bits` gets the bits afterwards, and `slot` the slot.
pub fn pcd_store(area: &mut [u8], bits: &mut u64, frame: &[u8], slot: &mut u64) -> u8
    ensures { StoreCrossed
        area.old bits.old frame.now slot.old result
        area.new bits.new slot.new }
{
    match frame_store::store(area, *bits, frame) {
        Ok(stored) => {
            *bits = stored.bits;
            *slot = stored.slot;
            0
        }
        Err(refusal) => refusal.number(),
    }
}

// Frees a slot; `bits` gets the bits afterwards.
pub fn pcd_release(area: &[u8], bits: &mut u64, slot: u64) -> u8
    ensures { ReleaseCrossed area.now bits.old slot result bits.new }
{
    refusal::pass(frame_store::release(area, *bits, slot), bits)
}

// 0 where a slot holds a frame, which then begins at 16,384 times the slot's number.
pub fn pcd_slot_refusal(area: &[u8], bits: u64, slot: u64) -> u8
    ensures { result ≡ slot_refusal area.now bits slot }
{
    refusal::code(frame_store::try_slot(area, bits, slot))
}
