//! Objects that answer by their own histories.
//!
//! A history is the list of an object's entries: who called, the call, and the reply. Contracts see the latest entry
//! first. The crate stands on std alone. Its main clause is the one of `Serial::apply`: a call is answered by what stood
//! before it, and leaves one entry, or nothing where the reply is quiet.
#![tactic(auto)]

mod entry;
pub mod laws;
mod log;
mod serial;

pub use entry::{ACTOR_LIMIT, Entry, HISTORY_LIMIT, Placed, limits};
pub use log::Log;
pub use serial::Serial;
