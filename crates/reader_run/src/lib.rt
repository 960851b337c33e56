// A piece, as far as the byte that completes a major frame, or that ends a hunt where that stops it: stretches, and plain steps between them.
#![tactic(auto)]

mod stretch;

ghost use Rattle.std.specs.Prelude.{◌≡◌, not, ◌&&◌, ◌<◌, length};
ghost use Rattle.base.specs.Format.{major_frame};
ghost use Rattle.labelling.specs.Votes.{rule_vote};
ghost use Rattle.plain_steps.specs.Shapes.{state_with};
ghost use Rattle.reader_run.specs.Onward.{Begun, from, fed, halts, Ahead, ran_of};

use plain_steps::Layers;

#[derive(Clone, Copy)]
pub struct Ran {
    pub layers: Layers,
    // How far into the piece it ran.
    pub at: usize,
    pub complete: bool,
}

// One byte of the piece, by the rule of the tally.
fn one_byte(
    rule: u64,
    l: Layers,
    piece: &[u8],
    at: usize,
    frame: &mut [u8; 128],
    area: &mut [u8],
) -> Ran
    requires { Begun piece.now at (state_with l frame.old) × (at < length piece.now) × (length area.old ≡ major_frame) }
    ensures { Ahead rule piece.now (from at l frame.old area.old) result frame.new area.new }
{
    let s = plain_steps::byte_step(rule, l, piece[at], frame, area);
    let left = s.layers;
    Ran {
        layers: left,
        at: at + 1,
        complete: s.complete,
    }
}

// A stretch, and the byte after it, by the plain step: so all that closes a frame goes one way.
fn advance(
    rule: u64,
    l: Layers,
    piece: &[u8],
    at: usize,
    frame: &mut [u8; 128],
    area: &mut [u8],
) -> Ran
    requires { Begun piece.now at (state_with l frame.old) × (at < length piece.now) × (length area.old ≡ major_frame) }
    ensures { Ahead rule piece.now (from at l frame.old area.old) result frame.new area.new }
{
    let r = stretch::reach(l, piece, at, frame);
    let next = r.layers;
    if piece.len() <= r.at {
        return Ran {
            layers: next,
            at: r.at,
            complete: false,
        };
    }
    one_byte(rule, next, piece, r.at, frame, area)
}

// Whether a call stops: a major frame is complete; or a hunt has ended, and that stops it.
fn stops(stop: bool, complete: bool, before: bool, after: bool) -> bool
    ensures { result ≡ halts stop complete (before && not after) }
{
    complete | (stop & (before & !after))
}

// A piece from its first byte on. A stretch ends no hunt, so that it is enough to look after each plain step. A leaf for those that have tested the
// call: the state is in order, the bytes fit, and the area has its length.
pub fn run(
    rule: u64,
    stop: bool,
    l: Layers,
    piece: &[u8],
    frame: &mut [u8; 128],
    area: &mut [u8],
) -> Ran
    requires { Begun piece.now 0 (state_with l frame.old) × (length area.old ≡ major_frame) }
    ensures { ran_of result frame.new area.new
        ≡ fed (rule_vote rule) stop piece.now (from 0 l frame.old area.old) }
{
    let mut next = l;
    let mut i: usize = 0;
    while i < piece.len() {
        let hunting = next.framing.hunting;
        let s = advance(rule, next, piece, i, frame, area);
        next = s.layers;
        i = s.at;
        if stops(stop, s.complete, hunting, next.framing.hunting) {
            return Ran {
                layers: next,
                at: i,
                complete: s.complete,
            };
        }
    }
    Ran {
        layers: next,
        at: i,
        complete: false,
    }
}
