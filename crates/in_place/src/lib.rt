// The reader's calls in place: on the numbers of a tally and on its frame where they lie. The counts are read once and written once, and the frame is
// filled where it is, so that a call on a small piece costs no copy of a tally.
#![tactic(auto)]

ghost use Rattle.std.specs.Prelude.{◌≡◌, true, false, ◌&&◌, ◌+◌, ◌≤◌, ◌^◌, length, get_or};
ghost use Rattle.base.specs.Format.{minor_frame, major_frame};
ghost use Rattle.labelling.specs.Calls.{answer};
ghost use Rattle.labelling.specs.Order.{in_order};
ghost use Rattle.labelling.specs.Operators.{booked};
ghost use Rattle.order.specs.Room.{GroupsRoom, DutyRoom};
ghost use Rattle.plain_steps.specs.Shapes.{state_with};
ghost use Rattle.reader.specs.Shapes.{part_of};
ghost use Rattle.tally_numbers.specs.Numbers.{is_tally, tally_of, operators_of, numbers_of, counts_only};
ghost use Rattle.in_place.specs.Places.{call_in, layers_in, Left, Answered, InPlace, LockAnswered, LockedInPlace};
ghost use Rattle.in_place.specs.Leading.{LeadFits, after_lead, Tested, begun_with, led_in, LeadPromise};

use base::format::{MAJOR_FRAME, SYNC_WORD_0, SYNC_WORD_1, SYNC_WORD_2};
use base::refusal::Refusal;
use order::LIMIT;
use plain_steps::Layers;
use tally_numbers::NUMBERS;

// Where the eight paid counts begin among the numbers, and where it says who is on duty, and the rule.
const PAID: usize = 23;

const DUTY: usize = 31;

const RULE: usize = 32;

// How many bytes the lead-in of spacing 0 has.
const LEAD_IN: u64 = 12;

// What a call that is not refused has done; the tally is in its places.
#[derive(Clone, Copy)]
pub struct Part {
    // How many bytes of the piece were taken.
    pub taken: usize,
    // Whether a major frame is complete; the area holds it.
    pub complete: bool,
}

// `reader::take` in place, or `reader::take_to_lock`, by whether a lock stops it. It is refused as that is; numbers that are no tally's are not in order.
// A refusal writes nothing.
pub fn take_part(
    numbers: &mut [u64; NUMBERS],
    frame: &mut [u8; 128],
    piece: &[u8],
    stop: bool,
    area: &mut [u8],
) -> Result<Part, Refusal>
    ensures { InPlace stop (call_in numbers.old frame.old piece.now area.old) numbers.old result
        numbers.new frame.new area.new }
{
    call(numbers, frame, piece, stop, false, area)
}

// Every call goes through here, so that the run has one place in a program. `led` says that the lead-in is handed before the piece.
fn call(
    numbers: &mut [u64; NUMBERS],
    frame: &mut [u8; 128],
    piece: &[u8],
    stop: bool,
    led: bool,
    area: &mut [u8],
) -> Result<Part, Refusal>
    requires { led ≡ true → LeadFits numbers.old (length piece.now) }
    ensures { Answered (call_in numbers.old frame.old piece.now area.old)
        (part_of stop (after_lead led (call_in numbers.old frame.old piece.now area.old))) numbers.old result
        numbers.new frame.new area.new }
{
    if !in_order(&*numbers, &*frame) {
        return Err(Refusal::NotInOrder);
    }
    if area.len() != MAJOR_FRAME {
        return Err(Refusal::WrongLength);
    }
    if LIMIT - numbers[0] < piece.len() as u64 {
        return Err(Refusal::TooManyBytes);
    }
    Ok(accepted(numbers, frame, piece, stop, led, area))
}

// What a call that also stops at a lock has done.
#[derive(Clone, Copy)]
pub struct Locked {
    pub part: Part,
    // Whether a hunt has ended, with the last byte that was taken.
    pub locked: bool,
}

// `reader::take_to_lock` in place.
pub fn take_to_lock(
    numbers: &mut [u64; NUMBERS],
    frame: &mut [u8; 128],
    piece: &[u8],
    area: &mut [u8],
) -> Result<Locked, Refusal>
    ensures { LockedInPlace (call_in numbers.old frame.old piece.now area.old) numbers.old result
        numbers.new frame.new area.new }
{
    call_to_lock(numbers, frame, piece, false, area)
}

// The lead-in of spacing 0 (FA F3 20), and then `reader::take_to_lock` on the piece, as one call. Where no lock awaits its word, or the lead-in does not
// fit, it is refused as a tally not in order is.
pub fn lead_and_take(
    numbers: &mut [u64; NUMBERS],
    frame: &mut [u8; 128],
    piece: &[u8],
    area: &mut [u8],
) -> Result<Locked, Refusal>
    ensures { LeadPromise (call_in numbers.old frame.old piece.now area.old) numbers.old
        (length piece.now) result numbers.new frame.new area.new }
{
    if !lead_fits(&*numbers, piece.len()) {
        return Err(Refusal::NotInOrder);
    }
    call_to_lock(numbers, frame, piece, true, area)
}

// Whether a lock awaits its word, and the lead-in fits before a piece of this length.
fn lead_fits(n: &[u64; NUMBERS], piece: usize) -> bool
    ensures { (result ≡ true → LeadFits n.now piece) × (result ≡ false → LeadFits n.now piece → ⊥) }
{
    if n[13] == 1 {
        return false;
    }
    if n[12] != 0 {
        return false;
    }
    if n[5] != 0 {
        return false;
    }
    if LIMIT - LEAD_IN < n[0] {
        return false;
    }
    if LIMIT - LEAD_IN - n[0] < piece as u64 {
        return false;
    }
    true
}

fn call_to_lock(
    numbers: &mut [u64; NUMBERS],
    frame: &mut [u8; 128],
    piece: &[u8],
    led: bool,
    area: &mut [u8],
) -> Result<Locked, Refusal>
    requires { led ≡ true → LeadFits numbers.old (length piece.now) }
    ensures { LockAnswered (call_in numbers.old frame.old piece.now area.old)
        (after_lead led (call_in numbers.old frame.old piece.now area.old)) numbers.old result
        numbers.new frame.new area.new }
{
    let before = tally_numbers::framing_of(&*numbers);
    let part = call(numbers, frame, piece, true, led, area)?;
    let after = tally_numbers::framing_of(&*numbers);
    let locked = reader::has_locked(before, after);
    Ok(Locked {
        part: part,
        locked: locked,
    })
}

// Whether these are the numbers of a tally in order. The frame is not looked at.
pub fn in_order(numbers: &[u64; NUMBERS], frame: &[u8; 128]) -> bool
    ensures value { result ≡ (is_tally numbers.now && in_order (tally_of numbers.now frame.now)) }
    ensures frame_len { result ≡ true → length frame.now ≡ minor_frame }
{
    let bytes = *frame;
    whole(bytes);
    number_order::in_order(numbers)
}

// The type of a frame tells its length of a value, and not of what is lent. No code is left of this.
fn whole(bytes: [u8; 128])
    ensures { length bytes ≡ minor_frame }
{}

// The layers are taken out once a call and put back once.
fn accepted(
    numbers: &mut [u64; NUMBERS],
    frame: &mut [u8; 128],
    piece: &[u8],
    stop: bool,
    led: bool,
    area: &mut [u8],
) -> Part
    requires { Tested led numbers.old frame.old piece.now area.old }
    ensures { Left
        (answer (part_of stop (after_lead led (call_in numbers.old frame.old piece.now area.old)))) result
        numbers.new frame.new area.new }
{
    let rule = numbers[RULE];
    let layers = layers_of(&*numbers);
    let begun = begin(led, layers, frame);
    let r = reader_run::run(rule, stop, begun, piece, frame, area);
    let left = r.layers;
    put_layers(left, r.complete, numbers);
    Part {
        taken: r.at,
        complete: r.complete,
    }
}

fn layers_of(n: &[u64; NUMBERS]) -> Layers
    ensures { result ≡ layers_in n.now }
{
    let groups = tally_numbers::groups_of(n);
    let framing = tally_numbers::framing_of(n);
    let runs = tally_numbers::runs_of(n);
    Layers {
        groups: groups,
        framing: framing,
        runs: runs,
    }
}

// What the run begins with.
fn begin(led: bool, l: Layers, frame: &mut [u8; 128]) -> Layers
    requires frame_len { (length frame.old ≡ minor_frame) × GroupsRoom l.groups }
    requires placed_value { led ≡ true → l.framing.placed ≡ 0 }
    ensures { state_with result frame.new ≡ begun_with led (state_with l frame.old) }
{
    if led {
        return lead_in(l, frame);
    }
    l
}

// The lead-in needs no run: its three words fill places 0 to 2.
fn lead_in(l: Layers, frame: &mut [u8; 128]) -> Layers
    requires { (length frame.old ≡ minor_frame) × GroupsRoom l.groups × (l.framing.placed ≡ 0) }
    ensures { state_with result frame.new ≡ led_in (state_with l frame.old) }
{
    let mut groups = l.groups;
    groups.bytes += LEAD_IN;
    groups.voted += 3;
    groups.first = SYNC_WORD_2;
    groups.second = SYNC_WORD_2;
    let mut framing = l.framing;
    framing.placed += 3;
    frame[0] = SYNC_WORD_0;
    frame[1] = SYNC_WORD_1;
    frame[2] = SYNC_WORD_2;
    let runs = l.runs;
    Layers {
        groups: groups,
        framing: framing,
        runs: runs,
    }
}

// The layers, and one more or none paid to whoever is on duty. The other numbers stay.
fn put_layers(l: Layers, complete: bool, n: &mut [u64; NUMBERS])
    requires { DutyRoom (operators_of n.old) }
    ensures { n.new
        ≡ numbers_of (counts_only l.groups l.framing l.runs (booked complete (operators_of n.old)) (get_or n.old 32 0)) }
{
    let place = PAID + n[DUTY] as usize;
    let rule = n[RULE];
    let operators = tally_numbers::operators_of(&*n);
    let groups = l.groups;
    let framing = l.framing;
    let runs = l.runs;
    tally_numbers::put_counts(groups, framing, runs, operators, rule, n);
    if complete {
        n[place] += 1;
    }
}
