//! What the host of a group does to it (VIRTIO 1.3, 2.12): a frame comes for a member, a member is reset or disabled, and
//! the owner is reset.
//!
//! It stands on `group_calls`, whose asks and answers it speaks, and on `board_text` for frames and floors. Its main
//! clauses are those of `Host::next`, the ask of the stage, and of `Host::feed`, the stage after an answer. In `laws`
//! stands that what the machine asks for a line is that line by a grammar. Memory is taken only where a frame is copied,
//! and where a call has floors.
#![tactic(auto)]

mod host;
pub mod laws;
mod line;
mod stage;

pub use host::Host;
pub use line::HostLine;
pub use stage::{Stage, Underway};
