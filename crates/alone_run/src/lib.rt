//! A guest that is alone: the lines of a script of one guest, performed over a device that is attached directly, and
//! the transcript that the guest is shown.
//!
//! It stands on `board_script` for scripts, on `lone_device` for the device, of which the list of its events and replies
//! alone is kept, and on `io_bar` for what stays with the host. Its main clause is that of `run_alone`: the text is the
//! guest's transcript with the answers of a lone device, whatever the lines are.
#![tactic(auto)]

mod guest;
mod lines;
mod transcript;
mod words;

pub use transcript::run_alone;
