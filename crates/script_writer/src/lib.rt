//! Writing a script as text.
//!
//! It stands on `board_script` for scripts, on `itoa` for numbers and on `hex` for the digits of bytes. Its main
//! clause is that of `write_script`: the text is `written` of the script, a list of lines, each a list of words,
//! unless memory runs out. That reading this text gives the script again is proved in `script_laws`.
#![tactic(auto)]

mod actors;
mod guests;
mod parts;
mod write;

pub use write::write_script;
