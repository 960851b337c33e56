// The pay system's entries, for programs in C (paper 02, request 14): on numbers and byte slices alone, over the votes, the codecs and the lookup.
// `pay_api_c` exports them, and include/pcd.h declares them. Each returns the number of the refusal,
// 0 for none, and writes it and the result into a lent answer of 16 bytes.
#![tactic(auto)]

mod answers;
mod codecs;
mod finding;
mod voting;

pub use codecs::{pcd_pay_instant, pcd_pay_number};
pub use finding::pcd_pay_find;
pub use voting::{pcd_pay_vote_bits, pcd_pay_vote_bytes};
