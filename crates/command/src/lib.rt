// What the programs share: text in a lent buffer, numbers and refusals as text, the bytes of a file, what is said on standard error, and how a
// program ends.
#![tactic(auto)]

mod arguments;
mod books;
mod ending;
mod files;
mod lines;
mod numbers;
mod saying;
mod text;
mod words;

pub use arguments::{argument, argument_count};
pub use books::{Begun, LARGE_ROOM, Room, SMALL_ROOM, begin_book, read_book};
pub use ending::end;
pub use files::{ReadFailed, fill, open};
pub use lines::line;
pub use numbers::number;
pub use saying::{ErrorOutput, fail, refuse, say, show, write_error};
pub use text::{put, put_byte, put_field, put_joined, put_number};
pub use words::{put_meaning, put_words};
