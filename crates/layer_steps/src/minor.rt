// From words to minor frames: the hunt, the frame being filled, and its class when it closes.
ghost use Rattle.std.specs.Prelude.{◌≡◌, true, false, ◌||◌};
ghost use Rattle.labelling.specs.MinorFrames.{is_word, is_erased};
ghost use Rattle.labelling.specs.MajorFrames.{value as value_of};
ghost use Rattle.labelling.specs.Machine.{sync_word, hunt_event, synced_bytes, bytes_class, after_closing_frame, after_word};
ghost use Rattle.order.specs.Room.{FramingRoom};
ghost use Rattle.layer_steps.specs.Shapes.{PlacePromise};

use base::format::{MINOR_FRAME, SYNC_WORD_0, SYNC_WORD_1, SYNC_WORD_2};
use labelling::{FrameClass, Framing, Word};

const LAST_PLACE: usize = MINOR_FRAME - 1;

#[derive(Clone, Copy, Debug, PartialEq, Eq)]
pub struct Framed {
    pub framing: Framing,
    // The class of the frame that the word closed.
    pub closed: Option<FrameClass>,
}

fn is_word(n: u8, w: Word) -> bool
    ensures { result ≡ is_word n w }
{
    match w {
        Word::Voted(v) => v == n,
        Word::Erased => false,
    }
}

fn or_erased(held: bool, w: Word) -> bool
    ensures { result ≡ (held || is_erased w) }
{
    match w {
        Word::Voted(_) => held,
        Word::Erased => true,
    }
}

fn value(w: Word) -> u8
    ensures { result ≡ value_of w }
{
    match w {
        Word::Voted(v) => v,
        Word::Erased => 0,
    }
}

// The word that the hunt waits for, where m words of the sync are matched.
fn sync_word(m: u64) -> u8
    ensures { result ≡ sync_word m }
{
    match m {
        0 => SYNC_WORD_0,
        1 => SYNC_WORD_1,
        _ => SYNC_WORD_2,
    }
}

// A word that is met while hunting.
pub fn hunt(f: Framing, w: Word) -> Framing
    requires framing_room { FramingRoom f }
    requires hunting_value { f.hunting ≡ true }
    ensures { result ≡ after_word (hunt_event f.matched (is_word (sync_word f.matched) w) (is_word (sync_word 0) w)) f w }
{
    let mut next = f;
    next.hunted += 1;
    if is_word(sync_word(f.matched), w) {
        if f.matched == 2 {
            next.matched = 0;
            next.hunting = false;
            return next;
        }
        next.matched += 1;
        return next;
    }
    if is_word(SYNC_WORD_0, w) {
        next.matched = 1;
        return next;
    }
    next.matched = 0;
    next
}

fn synced(frame: &[u8; 128]) -> bool
    ensures { result ≡ synced_bytes frame.now }
{
    (frame[0] == SYNC_WORD_0) & (frame[1] == SYNC_WORD_1) & (frame[2] == SYNC_WORD_2)
}

// The class of a full frame.
fn class_of(frame: &[u8; 128], erasure: bool) -> FrameClass
    ensures { result ≡ bytes_class (synced_bytes frame.now) erasure }
{
    if !synced(frame) {
        return FrameClass::Unsynced;
    }
    if erasure {
        return FrameClass::Damaged;
    }
    FrameClass::Good
}

fn close_frame(f: Framing, class: FrameClass) -> Framing
    requires framing_room { FramingRoom f }
    requires hunting_value { f.hunting ≡ false }
    ensures { result ≡ after_closing_frame class f }
{
    let mut next = f;
    next.placed = 0;
    next.erasure = false;
    match class {
        FrameClass::Good => {
            next.good += 1;
            next
        }
        FrameClass::Damaged => {
            next.damaged += 1;
            next
        }
        FrameClass::Unsynced => {
            next.unsynced += 1;
            next.hunting = true;
            next.matched = 0;
            next
        }
    }
}

// A word that goes to the next place of the frame.
pub fn place(f: Framing, w: Word, frame: &mut [u8; 128]) -> Framed
    requires framing_room { FramingRoom f }
    requires hunting_value { f.hunting ≡ false }
    ensures { PlacePromise f w frame.old frame.new result }
{
    let p = f.placed as usize;
    frame[p] = value(w);
    let erasure = or_erased(f.erasure, w);
    if p < LAST_PLACE {
        let mut next = f;
        next.placed += 1;
        next.erasure = erasure;
        return Framed {
            framing: next,
            closed: None,
        };
    }
    let class = class_of(frame, erasure);
    Framed {
        framing: close_frame(f, class),
        closed: Some(class),
    }
}
