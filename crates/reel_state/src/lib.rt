// Where the reading of a reel stands, and how a step on a piece of it changes that: a leaf for `reel_reading`.
#![tactic(auto)]

ghost use Rattle.std.specs.Prelude.{◌≡◌, true, false, ◌≤◌};
ghost use Rattle.base.specs.Lists.{one};
ghost use Rattle.reel_state.specs.Reading.{Room, SteppedPromise, is_complete, Keeps};
ghost use Rattle.reel_state.specs.declared.Event.TheVariants.{Refused};

use base::refusal::Refusal;
use relocking::{Feeder, Relocked};

// What has happened.
#[derive(Clone, Copy)]
pub enum Event {
    // Bytes were taken or a file was opened; nothing is to be done.
    Onward,
    // The buffer was filled from a file.
    Filled,
    // A major frame is complete, and the area holds it.
    Complete,
    // The reel is read as far as the cut, but for the bytes of a group whose word a lock awaits: no frame can be complete in them.
    Cut,
    // All files are read.
    Ended,
    // A file could not be opened or read; a line has said so.
    Unreadable,
    // The reader has refused the bytes.
    Refused(Refusal),
}

// How the reading of a reel stands.
#[derive(Clone, Copy)]
pub struct Reel {
    pub feeder: Feeder,
    // By 01's rules alone.
    pub strict: bool,
    // How many bytes of the reel were taken, and how many major frames were complete.
    pub taken: u64,
    pub frames: u64,
    // The argument that names the next file.
    pub file: usize,
    // Where the bytes of the buffer begin that were not taken, and where they end.
    pub at: usize,
    pub end: usize,
    // Whether these are asked for again with more behind them, and whether nothing follows them.
    pub wants: bool,
    pub last: bool,
}

#[derive(Clone, Copy)]
pub struct Advanced {
    pub event: Event,
    pub reel: Reel,
}

// No reel has more bytes or major frames.
const MOST: u64 = 1 << 40;

// No piece has so many bytes.
const TOO_LONG: usize = 1 << 63;

// The last place of a buffer.
const LAST: usize = 0xffff_ffff_ffff_ffff;

// The reel after a step; as it was, where its numbers have no room for that.
pub fn stepped(reel: Reel, s: Relocked, whole: bool) -> Advanced
    ensures { Room reel.taken reel.frames reel.at s.taken → SteppedPromise reel s result }
{
    if !has_room(reel.taken, reel.frames, reel.at, s.taken) {
        return refused(reel, Refusal::TooManyBytes);
    }
    moved(reel, s, whole)
}

fn has_room(taken: u64, frames: u64, at: usize, more: usize) -> bool
    ensures { (result ≡ true → Room taken frames at more) × (result ≡ false → Room taken frames at more → ⊥) }
{
    if MOST < taken {
        return false;
    }
    if MOST < frames {
        return false;
    }
    if TOO_LONG <= more {
        return false;
    }
    if LAST - more < at {
        return false;
    }
    true
}

fn moved(reel: Reel, s: Relocked, whole: bool) -> Advanced
    requires { Room reel.taken reel.frames reel.at s.taken }
    ensures { SteppedPromise reel s result }
{
    let feeder = s.feeder;
    let mut r = reel;
    r.feeder = feeder;
    r.taken = reel.taken + s.taken as u64;
    r.frames = reel.frames + number(s.complete);
    r.at = reel.at + s.taken;
    r.wants = s.more & whole;
    Advanced {
        event: event_of(s.complete, s.more & !whole),
        reel: r,
    }
}

fn number(complete: bool) -> u64
    ensures { (result ≡ one complete) × (result ≤ 1) }
{
    if complete {
        return 1;
    }
    0
}

// The bytes are refused, and the reel is as it was.
pub fn refused(reel: Reel, refusal: Refusal) -> Advanced
    ensures keeps { Keeps reel result }
    ensures told { result.event ≡ Refused refusal }
{
    Advanced {
        event: Event::Refused(refusal),
        reel: reel,
    }
}

fn event_of(complete: bool, cut: bool) -> Event
    ensures { is_complete result ≡ complete }
{
    if complete {
        return Event::Complete;
    }
    if cut {
        return Event::Cut;
    }
    Event::Onward
}
