// The plain steps of the reader: the three layers and the vote joined (paper 01, "From bytes to words" to "From minor frames to major frames"). `vote` and
// `vote_bits` take anything. `byte_step` is a leaf for the reader, which calls it from a tally in order only, and so has a `requires`.
#![tactic(auto)]

mod layers;

pub use layers::{Layers, Stepped, byte_step};
pub use votes::{Voted, vote, vote_bits};
