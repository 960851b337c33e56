// A reel by calls that lock on a frame's own sync: each goes as far as the byte that ends a hunt, and there the next word decides. Where it is FA, a
// frame begins, as after a lead-in, and nothing is handed. Before any other word the lead-in of spacing 0 is handed, so that the FA F3 20 that ended
// the hunt fill places 0 to 2 of their own frame.
#![tactic(auto)]

ghost use Rattle.std.specs.Prelude.{◌≡◌, Bool, true, false, ◌+◌, ◌≤◌, ◌<◌, length, IsOkAnd};
ghost use Rattle.base.specs.Refusals.{number_of};
ghost use Rattle.base.specs.Format.{sync_word};
ghost use Rattle.labelling.specs.MinorFrames.{is_word};
ghost use Rattle.labelling.specs.Votes.{rule_vote};
ghost use Rattle.relocking.specs.Relock.{feeder_in_order, before_group, relock_refusal, ReadsOn, LeadsIn, RelockPromise};

use base::format::{MAJOR_FRAME, SYNC, SYNC_WORD_0};
use base::refusal::Refusal;
use labelling::{Tally, Word};
use order::LIMIT;

// How many bytes a lead-in of spacing 0 has.
pub const LEAD_IN: u64 = 12;

// What goes from step to step. It begins with a fresh tally, at no lock, with no lead-in handed.
#[derive(Clone, Copy)]
pub struct Feeder {
    pub tally: Tally,
    // Whether a lock awaits its next word.
    pub awaits: bool,
    // How many lead-ins were handed: the tally's bytes are those of the reel, and twelve for each.
    pub handed: u64,
}

// What a step that is not refused has done.
#[derive(Clone, Copy)]
pub struct Relocked {
    // How many bytes of the piece were taken. The next step goes on there.
    pub taken: usize,
    // Whether a major frame is complete; the area holds it.
    pub complete: bool,
    // Whether the bytes that were not taken are asked for again with more behind them: the word that decides is not whole.
    pub more: bool,
    pub feeder: Feeder,
}

// One step on a piece of the reel, of any length. It takes the piece as far as the byte that completes a major frame or ends a hunt, or as far as the
// SYNC of the word that decides; `ends` says that no more bytes follow the piece, so that those of a group that is not whole are taken as they are.
// Refused 1: the feeder is not in order. Refused 2: the area has another length than a major frame. Refused 3: the lead-in would not fit after the
// whole piece. A refusal writes nothing, and the caller's feeder stands.
pub fn relock(f: Feeder, piece: &[u8], ends: bool, area: &mut [u8]) -> Result<Relocked, Refusal>
    ensures { RelockPromise f piece.now ends area.old result area.new }
{
    permitted(f, piece.len(), area.len())?;
    if !f.awaits {
        return read_on(f, piece, false, area);
    }
    let k = before_group(piece);
    if 0 < k {
        return read_on(f, &piece[..k], true, area);
    }
    decide(f, piece, ends, area)
}

// Whether a step from this feeder is refused, by the lengths of the piece and of the area.
fn permitted(f: Feeder, piece: usize, area: usize) -> Result<(), Refusal>
    ensures { number_of result ≡ relock_refusal f piece area }
{
    if !in_order(f) {
        return Err(Refusal::NotInOrder);
    }
    if area != MAJOR_FRAME {
        return Err(Refusal::WrongLength);
    }
    let left = LIMIT - f.tally.groups.bytes;
    if left < LEAD_IN {
        return Err(Refusal::TooManyBytes);
    }
    if left - LEAD_IN < piece as u64 {
        return Err(Refusal::TooManyBytes);
    }
    Ok(())
}

// Whether the tally is in order, and what is beside it goes with it: a lock that awaits its word stands before place 0 and outside a group.
fn in_order(f: Feeder) -> bool
    ensures { result ≡ feeder_in_order f }
{
    let t = f.tally;
    let at_lock = !t.framing.hunting & (t.framing.placed == 0) & (t.groups.open == 0);
    reader::in_order(t) & (!f.awaits | at_lock) & (f.handed <= t.groups.bytes / LEAD_IN)
}

// How many bytes stand before the first SYNC: while a lock awaits its word they are no part of one.
pub fn before_group(piece: &[u8]) -> usize
    ensures { (result ≡ before_group piece.now) × (result ≤ length piece.now) }
{
    let mut i: usize = 0;
    while i < piece.len() {
        if piece[i] == SYNC {
            return i;
        }
        i += 1;
    }
    i
}

// A lock awaits its word, and the piece is empty or begins with the SYNC of that word's group.
fn decide(f: Feeder, piece: &[u8], ends: bool, area: &mut [u8]) -> Result<Relocked, Refusal>
    requires { (relock_refusal f (length piece.now) (length area.old) ≡ 0) × (f.awaits ≡ true) × (before_group piece.now ≡ 0) }
    ensures { RelockPromise f piece.now ends area.old result area.new }
{
    if piece.len() < 4 {
        if ends | (piece.len() == 0) {
            return read_on(f, piece, true, area);
        }
        return Ok(Relocked {
            taken: 0,
            complete: false,
            more: true,
            feeder: f,
        });
    }
    if begins_frame(f.tally.rule, piece[1], piece[2], piece[3]) {
        return read_on(f, piece, false, area);
    }
    lead_in(f, piece, area)
}

// Whether the word of a group is FA, by a rule; a split group has none.
pub fn begins_frame(rule: u64, a: u8, b: u8, c: u8) -> bool
    ensures { result ≡ is_word (sync_word 0) (rule_vote rule a b c) }
{
    if rule == 2 {
        let by_bits = reader::vote_bits(a, b, c);
        let word = by_bits.word;
        return is_first(word);
    }
    let by_bytes = reader::vote(a, b, c);
    let word = by_bytes.word;
    is_first(word)
}

fn is_first(w: Word) -> bool
    ensures { result ≡ is_word (sync_word 0) w }
{
    match w {
        Word::Voted(v) => v == SYNC_WORD_0,
        Word::Erased => false,
    }
}

// One call as far as a lock, which is not refused. `waits` says that the lock before it goes on waiting: the part gives no word.
fn read_on(f: Feeder, part: &[u8], waits: bool, area: &mut [u8]) -> Result<Relocked, Refusal>
    requires { relock_refusal f (length part.now) (length area.old) ≡ 0 }
    ensures { IsOkAnd result (λ r. ReadsOn f part.now waits area.old r area.new) }
{
    let t = f.tally;
    let r = reader::take_to_lock(t, part, area)?;
    let answer = r.taken;
    let left = answer.tally;
    let next = Feeder {
        tally: left,
        awaits: waits | r.locked,
        handed: f.handed,
    };
    Ok(Relocked {
        taken: answer.taken,
        complete: answer.complete,
        more: false,
        feeder: next,
    })
}

// The lead-in, and then a call on the piece; neither is refused.
fn lead_in(f: Feeder, piece: &[u8], area: &mut [u8]) -> Result<Relocked, Refusal>
    requires { relock_refusal f (length piece.now) (length area.old) ≡ 0 }
    ensures { IsOkAnd result (λ r. LeadsIn f piece.now area.old r area.new) }
{
    let t = f.tally;
    let lead = reader::take(t, b"\x16\xfa\xfa\xfa\x16\xf3\xf3\xf3\x16\x20\x20\x20", area)?;
    let led = lead.tally;
    let r = reader::take_to_lock(led, piece, area)?;
    let last = r.taken;
    let left = last.tally;
    let next = Feeder {
        tally: left,
        awaits: r.locked,
        handed: f.handed + 1,
    };
    Ok(Relocked {
        taken: last.taken,
        complete: last.complete,
        more: false,
        feeder: next,
    })
}
