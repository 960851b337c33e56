// A book of cycles (paper 02, request 7): one file for a year. It begins with the number of cycles and the year; then comes an entry for each
// cycle, its instant and its body's offset; then come the bodies. Here are its layout, its header and its faults. The crate book_writer writes it,
// book_parts hands out its entries and bodies, and book_view has a view that remembers the lent bytes.
#![tactic(auto)]

mod faults;
mod fields;
mod header;
mod layout;

pub use faults::{Fault, accept, first_bad_body, first_fault};
pub use header::{Header, cycles, read_header, year};
pub use layout::{ENTRY, ENTRY_AND_BODY, HEADER, MOST_CYCLES, body_start};
