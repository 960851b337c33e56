// The three layers joined: what a word does, and what a byte does.
ghost use Rattle.std.specs.Prelude.{◌≡◌, true};
ghost use Rattle.std.proofs.Math.Option.{some};
ghost use Rattle.labelling.specs.Votes.{rule_vote};
ghost use Rattle.labelling.specs.Machine.{word_step, byte_step};
ghost use Rattle.labelling.specs.Order.{state_in_order};
ghost use Rattle.order.specs.Room.{FramingRoom, RunsRoom};
ghost use Rattle.layer_steps.specs.Shapes.{Lent};
ghost use Rattle.plain_steps.specs.Shapes.{state_with, now_of};

use labelling::{Framing, Groups, Runs, Word};
use layer_steps::{groups, major, minor};

// A state without its frame, which is lent beside it: so a byte copies counts and no frame.
#[derive(Clone, Copy, Debug, PartialEq, Eq)]
pub struct Layers {
    pub groups: Groups,
    pub framing: Framing,
    pub runs: Runs,
}

#[derive(Clone, Copy, Debug, PartialEq, Eq)]
pub struct Stepped {
    pub layers: Layers,
    // Whether a major frame is complete; the area holds it.
    pub complete: bool,
}

// A word that a closed group gave.
fn word_step(l: Layers, w: Word, frame: &mut [u8; 128], area: &mut [u8]) -> Stepped
    requires framing_room { FramingRoom l.framing × RunsRoom l.runs }
    requires lent { Lent frame.old area.old }
    ensures { now_of result frame.new area.new ≡ word_step (some w) l.groups (state_with l frame.old) area.old }
{
    let mut next = l;
    if l.framing.hunting {
        next.framing = minor::hunt(l.framing, w);
        return Stepped {
            layers: next,
            complete: false,
        };
    }
    let framed = minor::place(l.framing, w, frame);
    next.framing = framed.framing;
    match framed.closed {
        None => Stepped {
            layers: next,
            complete: false,
        },
        Some(class) => {
            let ended = major::end_frame(l.runs, class, frame, area);
            next.runs = ended.runs;
            Stepped {
                layers: next,
                complete: ended.complete,
            }
        }
    }
}

// A byte, by the rule of the tally. A leaf for the reader: the state is in order, and what is lent has its length.
pub fn byte_step(rule: u64, l: Layers, b: u8, frame: &mut [u8; 128], area: &mut [u8]) -> Stepped
    requires frame_value { state_in_order (state_with l frame.old) ≡ true }
    requires lent { Lent frame.old area.old }
    ensures { now_of result frame.new area.new ≡ byte_step (rule_vote rule) (state_with l frame.old) area.old b }
{
    let mut next = l;
    if l.groups.open < 3 {
        next.groups = groups::open_byte(l.groups, b);
        return Stepped {
            layers: next,
            complete: false,
        };
    }
    let v = votes::vote_by(rule, l.groups.first, l.groups.second, b);
    let w = v.word;
    next.groups = groups::close_group(l.groups, w, v.weak);
    word_step(next, w, frame, area)
}
