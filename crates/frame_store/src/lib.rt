// Holds major frames in the slots of a lent area until a cycle is whole (paper 02, request 12). One
// number's bits tell which slots are in use, 2^i for slot i. The caller hands it on from call to call,
// as each one answers it, and begins with 0; a refusal leaves it as it was.
#![tactic(auto)]

ghost use Rattle.std.specs.Prelude.{◌≡◌};
ghost use Rattle.base.specs.Refusals.{permitted};
ghost use Rattle.frame_store.specs.Slots.{lowest_free};
ghost use Rattle.frame_store.specs.Answers.{area_lines, slot_lines};
ghost use Rattle.frame_store.specs.Promise.{StorePromise, ReleasePromise};
ghost use Rattle.frame_store.specs.Promise.{SlotPromise, TrySlotPromise};

use base::format::MAJOR_FRAME;
use base::refusal::Refusal;

// The slot that took a frame, and the bits afterwards.
#[derive(Clone, Copy, Debug, PartialEq, Eq)]
pub struct Stored {
    pub slot: u64,
    pub bits: u64,
}

const MOST_SLOTS: usize = 64;

// Puts a frame into the lowest free slot. Refused 2: the frame is not 16,384 bytes. Refused 24: the
// area is not 1 to 64 slots. Refused 25: bits are set beyond them. Refused 26: no slot is free. A
// refusal writes nothing.
pub fn store(area: &mut [u8], bits: u64, frame: &[u8]) -> Result<Stored, Refusal>
    ensures { StorePromise area.old bits frame.now area.new result }
{
    if frame.len() != MAJOR_FRAME {
        return Err(Refusal::WrongLength);
    }
    permit(area.len(), bits)?;
    let slot = lowest_free(bits);
    if area.len() / MAJOR_FRAME <= slot {
        return Err(Refusal::NoFreeSlot);
    }
    let first = slot * MAJOR_FRAME;
    let end = first + MAJOR_FRAME;
    area[first..end].copy_from_slice(frame);
    Ok(Stored {
        slot: slot as u64,
        bits: bits + (1 << slot as u64),
    })
}

// Frees a slot and answers the bits afterwards; nothing is written. Refused 24 and 25 as `store` is.
// Refused 27: the slot is not in use, or not there.
pub fn release(area: &[u8], bits: u64, slot: u64) -> Result<u64, Refusal>
    ensures { ReleasePromise area.now bits slot result }
{
    permit_slot(area.len(), bits, slot)?;
    Ok(bits - (1 << slot))
}

// The frame in a slot, which is the caller's own bytes and no copy. A refused call gives an empty
// part, and `try_slot` says why.
pub fn slot(area: &[u8], bits: u64, slot: u64) -> &[u8]
    ensures { SlotPromise area.now area.entry.ref_ptr bits slot result.now result.ref_ptr }
{
    match try_slot(area, bits, slot) {
        Ok(frame) => frame,
        Err(_) => &area[..0],
    }
}

// The same part, or why there is none. Refused as `release` is.
pub fn try_slot(area: &[u8], bits: u64, slot: u64) -> Result<&[u8], Refusal>
    ensures { TrySlotPromise area.now area.entry.ref_ptr bits slot result }
{
    permit_slot(area.len(), bits, slot)?;
    let first = slot as usize * MAJOR_FRAME;
    let end = first + MAJOR_FRAME;
    Ok(&area[first..end])
}

// Whether a slot of so many bytes may be read or released.
fn permit_slot(size: usize, bits: u64, slot: u64) -> Result<(), Refusal>
    ensures { result ≡ permitted (slot_lines size bits slot) }
{
    permit(size, bits)?;
    if (size / MAJOR_FRAME) as u64 <= slot {
        return Err(Refusal::NoSuchSlot);
    }
    if (bits >> slot) % 2 == 0 {
        return Err(Refusal::NoSuchSlot);
    }
    Ok(())
}

// 24: so many bytes are not 1 to 64 slots. 25: bits are set beyond them.
fn permit(size: usize, bits: u64) -> Result<(), Refusal>
    ensures { result ≡ permitted (area_lines size bits) }
{
    if size % MAJOR_FRAME != 0 {
        return Err(Refusal::NotWholeSlots);
    }
    let slots = size / MAJOR_FRAME;
    if slots == 0 {
        return Err(Refusal::NotWholeSlots);
    }
    if MOST_SLOTS < slots {
        return Err(Refusal::NotWholeSlots);
    }
    // The last slot's bit and those beyond it: of 64 slots there are none beyond, and no shift is by 64.
    if 1 < bits >> (slots as u64 - 1) {
        return Err(Refusal::BitsBeyondSlots);
    }
    Ok(())
}

// The lowest of 64 slots that is not in use; 64 where all are.
fn lowest_free(bits: u64) -> usize
    ensures { result ≡ lowest_free 64 bits }
{
    widen(u64::trailing_zeros(!bits))
}

fn widen(n: u32) -> usize
    ensures { result ≡ n }
{
    n as usize
}
