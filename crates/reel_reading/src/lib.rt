// A reel from files, for programs: what comes next of it, one thing at a time. The files that the arguments name are read one after the other, as one
// reel, locked on its frames' own sync or, strictly, by 01's rules alone.
#![tactic(auto)]

mod files;

ghost use Rattle.std.specs.Prelude.{◌≡◌, true, List, ℕ, ◌+◌, ◌^◌, ◌≤◌, ◌<◌, length};
ghost use Rattle.reel_state.specs.Reading.{StepPromise, Stands, AdvancePromise, blank};

use base::refusal::Refusal;
use command::ErrorOutput;
pub use files::Source;
use order::LIMIT;
pub use reel_state::{Advanced, Event, Reel};
use reel_state::{refused, stepped};
use relocking::{Feeder, Relocked, relock};
use std::io::Input;
use std::rt::{Env, Files};

// The program keeps the vote by bytes.
const RULE: u64 = 1;

// A reel of which nothing is read, in the files that the arguments from this one on name.
pub fn begin(strict: bool, file: usize) -> Reel
    ensures { Stands result blank × (result.frames ≡ 0) }
{
    let begun = reader::fresh(RULE);
    let tally = begun.tally;
    let feeder = Feeder {
        tally: tally,
        awaits: false,
        handed: 0,
    };
    Reel {
        feeder: feeder,
        strict: strict,
        taken: 0,
        frames: 0,
        file: file,
        at: 0,
        end: 0,
        wants: false,
        last: false,
    }
}

// Puts an operator on duty. A number above 7 changes nothing.
pub fn change_duty(reel: Reel, operator: u64) -> Reel
    ensures { ((a : List ℕ) → Stands reel a → Stands result a) × (result.frames ≡ reel.frames) }
{
    let f = reel.feeder;
    let Ok(tally) = reader::change_duty(f.tally, operator) else {
        return reel;
    };
    let feeder = Feeder {
        tally: tally,
        awaits: f.awaits,
        handed: f.handed,
    };
    let mut r = reel;
    r.feeder = feeder;
    r
}

// What comes next; of the reel no byte at `cut` or beyond is taken. The same source, buffer and area
// are lent each time, at first a source of which nothing is open. Lines on standard error begin with
// the name of the program.
pub fn advance<R: Env + Files + Input + ErrorOutput>(
    rt: &R,
    program: &[u8],
    reel: Reel,
    source: &mut Source<R::Reader, R::File>,
    cut: u64,
    buffer: &mut [u8],
    area: &mut [u8],
) -> Advanced
    ensures { AdvancePromise reel area.old result area.new }
{
    let at = reel.at;
    let end = least(reel.end, buffer.len());
    if reel.wants {
        return files::more(rt, program, reel, source, buffer);
    }
    if end <= at {
        return files::more(rt, program, reel, source, buffer);
    }
    if cut <= reel.taken {
        return Advanced {
            event: Event::Cut,
            reel: reel,
        };
    }
    let n = within(end - at, cut - reel.taken);
    let stop = at + n;
    on_piece(reel, &buffer[at..stop], stop == end, area)
}

// One step on a piece; `whole` says that it has all bytes of the buffer that are left, and that no cut ends it.
fn on_piece(reel: Reel, piece: &[u8], whole: bool, area: &mut [u8]) -> Advanced
    requires { (length piece.now < 2 ^ 63) × (reel.at + length piece.now < 2 ^ 64) }
    ensures { AdvancePromise reel area.old result area.new }
{
    if LIMIT < reel.taken {
        return refused(reel, Refusal::TooManyBytes);
    }
    if LIMIT < reel.frames {
        return refused(reel, Refusal::TooManyBytes);
    }
    let f = reel.feeder;
    match step(reel.strict, f, piece, reel.last & whole, area) {
        Ok(s) => stepped(reel, s, whole),
        Err(refusal) => refused(reel, refusal),
    }
}

// One step of the feeder that locks on a frame's own sync; or one call, as far as a complete major frame.
fn step(
    strict: bool,
    f: Feeder,
    piece: &[u8],
    ends: bool,
    area: &mut [u8],
) -> Result<Relocked, Refusal>
    ensures { StepPromise strict f piece.now area.old result area.new }
{
    if strict {
        return strict_step(f, piece, area);
    }
    relock(f, piece, ends, area)
}

fn strict_step(f: Feeder, piece: &[u8], area: &mut [u8]) -> Result<Relocked, Refusal>
    ensures { StepPromise true f piece.now area.old result area.new }
{
    let t = f.tally;
    let answer = reader::take(t, piece, area)?;
    let left = answer.tally;
    let next = Feeder {
        tally: left,
        awaits: f.awaits,
        handed: f.handed,
    };
    Ok(Relocked {
        taken: answer.taken,
        complete: answer.complete,
        more: false,
        feeder: next,
    })
}

fn least(a: usize, b: usize) -> usize
    ensures { result ≤ b }
{
    if a <= b {
        return a;
    }
    b
}

// So many bytes, or as many as are left before a cut.
fn within(n: usize, left: u64) -> usize
    ensures { result ≤ n }
{
    if left < n as u64 {
        return left as usize;
    }
    n
}
