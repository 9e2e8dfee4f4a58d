//! A run in threads: the actors of a script perform their lines side by side, each by keys of its own to shared cells.
//!
//! It stands on `actor_drive` for an actor's lines, on `group_cells` for keys and shared cells, and on `thread_laws` for the law
//! that what such actors leave is a legal journal. The main clause is that of `run_threads`: where memory sufficed, the cells,
//! the traces, the answers and the queues left are those of a legal journal of the script, whatever the threads' turns were.
#![tactic(auto)]

mod gathering;
mod job;
mod run;
mod starting;
#[cfg(test)]
mod tests;

pub use job::{Job, perform};
pub use run::run_threads;
