// The drift of the gyros, as the crate orbit_gyro_drift gives it.
pub use orbit_gyro_drift::{GyroDrift, read};
