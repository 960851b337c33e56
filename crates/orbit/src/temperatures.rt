// The temperatures of table 11, as the crate orbit_temperatures gives them.
pub use orbit_temperatures::{Temperatures, read};
