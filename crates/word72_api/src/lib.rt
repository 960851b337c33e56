// Word 72 and its codecs for programs in other languages. `word72_api_c` exports these entries, and
// include/pcd.h declares them for C.
#![tactic(auto)]

mod codecs;
mod word72;

pub use codecs::{pcd_decode_number, pcd_decode_time, pcd_encode_number, pcd_encode_time};
pub use word72::{pcd_describe, pcd_gather, pcd_item_count, pcd_kind, pcd_part_refusal, pcd_read};
