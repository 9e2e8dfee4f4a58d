//! Worked examples of what the owner, an administration queue, a member and a lone device answer, computed by the
//! checker from the definitions of `group_calls`.
//!
//! Each function has an empty body; its clauses are the facts. An example is a list of calls with the replies that are
//! expected, in `specs/`.
#![tactic(auto)]

mod block;
mod lives;
mod network;
mod owner;
mod queue;
mod registers;
mod rings;

pub use block::requests_are_served;
pub use lives::devices_boot_and_end;
pub use network::frames_are_carried;
pub use owner::commands_are_judged;
pub use queue::queues_are_answered;
pub use registers::registers_are_accessed;
pub use rings::rings_are_stepped;
