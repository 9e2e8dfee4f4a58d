//! The language of scripts: which texts they are, what they say, and where a text that is none has its first
//! fault.
//!
//! It stands on `script_words` for the words and forms of single lines, and on `board_text`. It passes on the
//! reader of the input of `admin`, which is `admin_script`. Its main
//! clause is that of `read_script`: the answer is the script of the text, or the number of the first line
//! with a fault and its cause, as `script_of` gives them, unless memory runs out. `script_of` goes by the table
//! of forms in `specs/Forms.antt`; what the words of each form say stands in `specs/Lines.antt`.
#![tactic(auto)]

mod draft;
mod go_lines;
mod guest_lines;
mod host_lines;
mod limits;
mod place;
mod read;
mod script;
mod setup_lines;
mod worker_lines;

pub use admin_script::{AdminLine, AdminText, read_admin};
pub use draft::Use;
pub use legacy_regs::Kind;
pub use limits::{ALONE_LIMIT, HOST, TURNS_LIMIT, WORKERS_FROM, limits_are_defined};
pub use read::{read_alone, read_script};
pub use script::{
    ActorLine, Board, Script, Setup, Turns, What, scripts_are_short, scripts_cross_threads,
};
pub use script_words::{Cause, ScriptFault};
