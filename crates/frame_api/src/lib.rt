// What goes with frames for programs in other languages: entries over VCDU headers, the data pointer
// and the frame store. `frame_api_c` exports them, and include/pcd.h declares them for C.
#![tactic(auto)]

mod headers;
mod pointer;
mod slots;

pub use headers::{pcd_check_header, pcd_encode_header, pcd_repair_header};
pub use pointer::{
    pcd_next_pointer, pcd_pointer_after, pcd_pointer_distance, pcd_previous_pointer,
};
pub use slots::{pcd_release, pcd_slot_refusal, pcd_store};
