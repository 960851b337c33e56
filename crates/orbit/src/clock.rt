// The terms of the clock, as the crate orbit_clock gives them.
pub use orbit_clock::{Clock, read};
