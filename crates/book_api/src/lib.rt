// Books of cycles for programs in other languages: entries over a book and its check, how two
// differ, the lookup of an instant, and the records of a cycle. `book_api_c` exports them, and
// include/pcd.h declares them for C.
#![tactic(auto)]

mod books;
mod comparing;
mod finding;
mod records;

pub use books::{
    pcd_book_body, pcd_book_check, pcd_book_entry, pcd_book_header, pcd_book_view_refusal,
    pcd_book_write,
};
pub use comparing::pcd_book_compare;
pub use finding::pcd_find;
pub use records::{pcd_attitude, pcd_clock, pcd_ephemeris, pcd_gyro_drift, pcd_temperatures};
