// The years that a time code can be of, and the last day of each (paper 02, request 4).
pub use calendar::{in_span, last_day};
