//! The input of `admin`: which texts it is, what they say, and where a text that is none has its first fault.
//!
//! It stands on `script_words` for the words of single lines, and on `board_text`. Its main clause is that of
//! `read_admin`: the answer is the list of the text's lines, or the number of the first line with a fault and
//! its cause, as `admin_text_of` gives them, unless memory runs out.
#![tactic(auto)]

mod limits;
mod line;
mod read;
mod shape;
mod text;

pub use line::AdminLine;
pub use read::read_admin;
pub use script_words::{Cause, ScriptFault};
pub use text::{AdminText, texts_cross_threads};
