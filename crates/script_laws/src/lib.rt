//! Laws of the script language, which need no code: what is written of a script is read as that script again.
//!
//! It stands on `board_script` and `script_writer`, and on their definitions alone. Its main clause is that of
//! `written_is_read_again`.
#![tactic(auto)]

mod laws;

pub use laws::written_is_read_again;
