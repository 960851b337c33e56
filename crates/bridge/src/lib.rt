// The reader and the writer for programs in other languages, one file for each. `bridge_c` exports
// these entries, and include/pcd.h declares them for C.
#![tactic(auto)]

mod reading;
mod writing;

pub use reading::{pcd_change_duty, pcd_fresh, pcd_relock, pcd_take, pcd_take_to_lock};
pub use writing::{pcd_write_lead_in, pcd_write_minor_frame};
