// The attitude, as the crate orbit_attitude gives it.
pub use orbit_attitude::{Attitude, read};
