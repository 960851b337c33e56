// The plain steps of each layer, a file each: a byte, a word, a closed minor frame (paper 01, "From bytes to words" to "From minor frames to major
// frames"). They are leaves for the steps that join the layers, which call them with room for their counts, and so they have a `requires`.
#![tactic(auto)]

pub mod groups;
pub mod major;
pub mod minor;
