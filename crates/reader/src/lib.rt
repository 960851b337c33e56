// Reads an unpacked PCD stream in pieces: voted words, minor frames, major frames, and a tally of every byte (paper 01, "From bytes to
// words" to "The tally and one call"; paper 02, requests 5 and 6). The claim about every list of calls is the contract of `fresh`.
#![tactic(auto)]

ghost use Rattle.std.specs.Prelude.{◌≡◌, true, ◌+◌, ◌≤◌, ◌^◌, length, Ok};
ghost use Rattle.base.specs.Format.{major_frame};
ghost use Rattle.labelling.specs.Order.{in_order};
ghost use Rattle.labelling.specs.Machine.{tally_of};
ghost use Rattle.labelling.specs.Operators.{booked as bookedTo};
ghost use Rattle.order.specs.Room.{DutyRoom};
ghost use Rattle.plain_steps.specs.Shapes.{state_with};
ghost use Rattle.reader.specs.Shapes.{call_of, TakePromise, part_of, PartPromise, locked_by, LockPromise};

use base::format::MAJOR_FRAME;
use base::refusal::Refusal;
pub use duty::{LAST_OPERATOR, change_duty, on_duty};
pub use fresh_tally::{FreshTally, fresh};
use labelling::{Framing, Operators, Tally};
use order::LIMIT;
pub use order::in_order;
use plain_steps::Layers;
pub use plain_steps::{Voted, vote, vote_bits};

// What a call that is not refused has done.
#[derive(Clone, Copy)]
pub struct Taken {
    // How many bytes of the piece were taken: all, or as far as the byte that completes a major frame.
    pub taken: usize,
    // Whether a major frame is complete; the area holds it.
    pub complete: bool,
    pub tally: Tally,
}

// What a call that also stops at a lock has done.
#[derive(Clone, Copy)]
pub struct Locked {
    // As of `take`, but for how many bytes were taken: all, or as far as the byte that completes a major frame or ends a hunt.
    pub taken: Taken,
    // Whether a hunt has ended, with the last byte that was taken.
    pub locked: bool,
}

// Takes a piece of the stream, of any length, and puts the minor frames of a run into the area. Refused 1: the tally is not in order. Refused 2: the
// area has another length than a major frame. Refused 3: too many bytes. A refusal writes nothing, and the caller's tally stands.
pub fn take(t: Tally, piece: &[u8], area: &mut [u8]) -> Result<Taken, Refusal>
    ensures { TakePromise (call_of t piece.now area.old) result area.new }
{
    take_part(t, piece, false, area)
}

// As `take`, but it also stops just after the byte that ends a hunt, and says so. It is refused where `take` of the whole piece is.
pub fn take_to_lock(t: Tally, piece: &[u8], area: &mut [u8]) -> Result<Locked, Refusal>
    ensures { LockPromise (call_of t piece.now area.old) result area.new }
{
    let r = take_part(t, piece, true, area)?;
    let locked = has_locked(t.framing, r.tally.framing);
    Ok(Locked {
        taken: r,
        locked: locked,
    })
}

// Whether a call that stops where a hunt ends has ended one. A hunt that began within it shows in the unsynced frame before.
pub fn has_locked(before: Framing, after: Framing) -> bool
    ensures { result ≡ locked_by before after }
{
    !after.hunting & (before.hunting | (after.unsynced != before.unsynced))
}

// One of the two, by whether a lock stops it.
fn take_part(t: Tally, piece: &[u8], stop: bool, area: &mut [u8]) -> Result<Taken, Refusal>
    ensures { PartPromise stop (call_of t piece.now area.old) result area.new }
{
    if !in_order(t) {
        return Err(Refusal::NotInOrder);
    }
    if area.len() != MAJOR_FRAME {
        return Err(Refusal::WrongLength);
    }
    if LIMIT - t.groups.bytes < piece.len() as u64 {
        return Err(Refusal::TooManyBytes);
    }
    Ok(accepted(t, piece, stop, area))
}

// The tally is taken apart once a call, and a payment is booked once.
fn accepted(t: Tally, piece: &[u8], stop: bool, area: &mut [u8]) -> Taken
    requires { (in_order t ≡ true) × (length area.old ≡ major_frame) × (t.groups.bytes + length piece.now ≤ 2 ^ 40) }
    ensures { TakePromise (part_of stop (call_of t piece.now area.old)) (Ok result) area.new }
{
    let groups = t.groups;
    let framing = t.framing;
    let runs = t.runs;
    let mut frame = t.frame;
    let layers = Layers {
        groups: groups,
        framing: framing,
        runs: runs,
    };
    let r = reader_run::run(t.rule, stop, layers, piece, &mut frame, area);
    let left = r.layers;
    let operators = booked(t.operators, r.complete);
    let tally = together(left, operators, t.rule, frame);
    Taken {
        taken: r.at,
        complete: r.complete,
        tally: tally,
    }
}

fn together(l: Layers, operators: Operators, rule: u64, frame: [u8; 128]) -> Tally
    ensures { result ≡ tally_of rule operators (state_with l frame) }
{
    let groups = l.groups;
    let framing = l.framing;
    let runs = l.runs;
    Tally {
        groups: groups,
        framing: framing,
        runs: runs,
        operators: operators,
        rule: rule,
        frame: frame,
    }
}

// A call has taken its bytes: a complete major frame is counted to whoever is on duty.
fn booked(o: Operators, complete: bool) -> Operators
    requires { DutyRoom o }
    ensures { result ≡ bookedTo complete o }
{
    let d = o.duty as usize;
    let p = o.paid;
    let mut next = o;
    next.paid[d] = p[d] + complete as u64;
    next
}
