//! The output of a run of a script that is made of a seed.
//!
//! It stands on `script_load` for the script, on `board_run` for its run, and on `journal` for what is said of whole runs. Its
//! main clause is that of `run_load`: the text is the summary of the definition's run of the script.
#![tactic(auto)]

mod counts;
mod load;
mod reads;

pub use load::run_load;
