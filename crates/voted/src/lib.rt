// Voted stretches of an unpacked stream, taken many bytes at a time: groups of which at least two copies are equal, with any bytes but SYNC between
// them, as a reel has them from a head that drops a copy or with bad bytes now and then. Each entry says how far a stretch goes and what it holds; what
// that does to a tally is so many plain steps of the labelling's machine under every vote that two equal copies decide (specs/Effect.antt,
// proofs/Effect.antt).
#![tactic(auto)]

mod blocks;
mod fill;
mod hunting;
mod placing;
mod votes;

pub use hunting::{Passed, pass};
pub use placing::{Filled, place};
pub use votes::group_stands;
