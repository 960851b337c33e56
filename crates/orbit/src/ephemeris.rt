// The ephemeris, as the crate orbit_ephemeris gives it.
pub use orbit_ephemeris::{Ephemeris, read};
