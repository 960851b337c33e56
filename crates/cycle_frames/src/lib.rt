// Gathers cycles from major frames as they come: four frames of the kinds 0, 1, 2, 3 in a row are a
// cycle (paper 02, request 7), and are held in the four slots of a frame store until it is whole
// (request 12). The caller hands the store's bits on from call to call, and begins with 0; while they
// are 0, the area may be another one.
#![tactic(auto)]

ghost use Rattle.std.specs.Prelude.{◌≡◌, length, Ok};
ghost use Rattle.cycle_frames.specs.Gathering.{held_in, kept_as, IsCount};
ghost use Rattle.cycle_frames.specs.Promise.{NextPromise};
ghost use Rattle.frame_store.specs.Slots.{with_frame};

use base::format::MAJOR_FRAME;
use base::refusal::Refusal;

// What a frame brought.
#[derive(Clone, Copy, Debug, PartialEq, Eq)]
pub struct Brought {
    pub bits: u64,
    // How many frames are now known to be in no cycle: those that were held, the frame itself, or both.
    pub omitted: u64,
    // Whether the area holds a whole cycle now; the bits are 0 then.
    pub whole: bool,
}

// The frames of a cycle, and the bits of as many slots.
const FRAMES: u64 = 4;

const ALL_SLOTS: u64 = 15;

// Takes the next frame. Where it follows those that are held it is held too; else they are in no
// cycle, and it begins one or is in none. Refused 2: the area is not 65,536 bytes, or the frame is not
// 16,384. Refused 25: the bits are not those of the first three slots or fewer. A refusal writes
// nothing.
pub fn next(year: u64, area: &mut [u8], bits: u64, frame: &[u8]) -> Result<Brought, Refusal>
    ensures { NextPromise year area.old bits frame.now area.new result }
{
    if area.len() != cycle::CYCLE {
        return Err(Refusal::WrongLength);
    }
    if frame.len() != MAJOR_FRAME {
        return Err(Refusal::WrongLength);
    }
    let held = held(bits);
    if FRAMES <= held {
        return Err(Refusal::BitsBeyondSlots);
    }
    if cycle::is_frame(year, held, frame) {
        return keep(area, bits, frame, 0);
    }
    if cycle::is_frame(year, 0, frame) {
        return keep(area, 0, frame, held);
    }
    Ok(Brought {
        bits: 0,
        omitted: held + 1,
        whole: false,
    })
}

// Stores a frame behind those that are held; so many others are left out.
fn keep(area: &mut [u8], bits: u64, frame: &[u8], omitted: u64) -> Result<Brought, Refusal>
    requires { (length area.old ≡ 65536) × (length frame.now ≡ 16384) × IsCount (held_in bits) }
    ensures { (result ≡ Ok (kept_as (held_in bits) omitted)) × (area.new ≡ with_frame (held_in bits) frame.now area.old) }
{
    let stored = frame_store::store(area, bits, frame)?;
    if stored.bits == ALL_SLOTS {
        return Ok(Brought {
            bits: 0,
            omitted,
            whole: true,
        });
    }
    Ok(Brought {
        bits: stored.bits,
        omitted,
        whole: false,
    })
}

// How many frames are held: the bits are those of so many slots from the first on. 4 where they are not.
#[tactic(auto, unfolding(crate::specs::Gathering::held_in))]
pub fn held(bits: u64) -> u64
    ensures { result ≡ held_in bits }
{
    match bits {
        0 => 0,
        1 => 1,
        3 => 2,
        7 => 3,
        _ => FRAMES,
    }
}
