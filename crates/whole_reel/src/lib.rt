// A whole reel by steps that lock on a frame's own sync, from a fresh tally.
#![tactic(auto)]

ghost use Rattle.std.specs.Prelude.{◌≡◌, length};
ghost use Rattle.base.specs.Refusals.{number_of};
ghost use Rattle.whole_reel.specs.Whole.{refusal_after, Begins, ReadAll, ReadPromise};

use base::format::MAJOR_FRAME;
use base::refusal::Refusal;
use feeding::number;
use relocking::{Feeder, relock};

// The answer of `read`. It is no Result of a reel: a refusal gives a feeder too, that with which a
// reel begins, and `ReadPromise` speaks of it.
#[derive(Clone, Copy)]
pub struct Reel {
    // Whether the reel is read, or why not. Refused 15: there is no such rule. Refused 2: the area
    // has another length than a major frame. Refused 3: too many bytes.
    pub answer: Result<(), Refusal>,
    // How many major frames were complete on the way. The area holds the last.
    pub paid: usize,
    pub feeder: Feeder,
}

// The most bytes of a reel that always fit into 2^40 with their lead-ins.
const LONGEST: usize = (1 << 39) - 12;

// A whole reel, from a fresh tally of this rule. Its contract is the claim: the frames paid are, in
// order, exactly the major frames of the reel's own words, cut where they lie. A refusal pays
// nothing and writes nothing, and gives the feeder with which a reel begins: that of rule 1 where
// there is no such rule.
pub fn read(rule: u64, stream: &[u8], area: &mut [u8]) -> Reel
    ensures { ReadPromise rule stream.now area.old result area.new }
{
    let begun = reader::fresh(rule);
    let t = begun.tally;
    let f = Feeder {
        tally: t,
        awaits: false,
        handed: 0,
    };
    match begun.answer.and(permitted(stream.len(), area.len())) {
        Ok(()) => read_all(f, stream, area),
        Err(refusal) => Reel {
            answer: Err(refusal),
            paid: 0,
            feeder: f,
        },
    }
}

// Whether a reading by a known rule is refused, by the lengths of the stream and of the area.
fn permitted(stream: usize, area: usize) -> Result<(), Refusal>
    ensures { number_of result ≡ refusal_after 0 stream area }
{
    if area != MAJOR_FRAME {
        return Err(Refusal::WrongLength);
    }
    if LONGEST < stream {
        return Err(Refusal::TooManyBytes);
    }
    Ok(())
}

// A step after the other, each on what is left of the stream. None is refused.
fn read_all(begun: Feeder, stream: &[u8], area: &mut [u8]) -> Reel
    requires { Begins begun (length stream.now) (length area.old) }
    ensures { ReadAll begun stream.now area.old result area.new }
{
    let mut f = begun;
    let mut at: usize = 0;
    let mut paid: usize = 0;
    while at < stream.len() {
        let r = relock(f, &stream[at..], true, &mut *area).unwrap();
        f = r.feeder;
        at += r.taken;
        paid += number(r.complete);
    }
    Reel {
        answer: Ok(()),
        paid: paid,
        feeder: f,
    }
}
