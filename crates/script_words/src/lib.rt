//! The words of a line and what they stand for: fixed words, numbers, bytes in hex, actors; the form that
//! a line of a script has by its fixed words and its number of words; and which lines of a text count, and
//! how its first fault is told. Nothing here knows what other lines say.
//!
//! It stands on `board_text` for numbers and bytes. Its main clauses: `read_shape` is `shape_of`, by which a line
//! is known before its words are read; each reader of a word gives exactly what its definition gives, value or cause, and
//! takes no memory but for bytes that may be more than 256.
#![tactic(auto)]

mod cause;
mod forms;
mod hex_words;
mod plain;
mod shape;
mod texts;
mod values;
mod words;

pub use cause::{Cause, Fault};
pub use forms::read_shape;
pub use hex_words::{bytes, bytes_of_width, fill_piece, piece};
pub use shape::{Act, Member, Shape, Tail};
pub use texts::{ScriptFault, at_line, faults_cross_threads, is_ignored};
pub use values::{among, large_number, number, number_at, queue_size, width};
pub use words::{Head, Word, Words, are_plain};
