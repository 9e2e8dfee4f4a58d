//! Whole runs of a script on one thread, as the definition of whole runs has them.
//!
//! It stands on `actor_core` for what each actor asks and hears, on `group_cells` for the cells, and on `journal` for what
//! is said of whole runs. Its main clause is that of `run_steps`: the cells, the traces, the answers and the queues left are
//! those of the definition's run of the script. Each part of a run has a clause of its own: where the cells and the actors
//! are those of a journal, they are those of the journal behind that part.
#![tactic(auto)]

mod answering;
pub mod laws;
mod making;
mod one_turn;
mod phases;
mod run;

pub use run::{Ran, run_steps};
