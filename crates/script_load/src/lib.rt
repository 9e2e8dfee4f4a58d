//! Scripts that are made of a seed: those of `load SEED COUNT`.
//!
//! It stands on `board_script`. Its main clause is that of `load_script`: the script is `loaded` of the seed and
//! the count, unless memory runs out.
#![tactic(auto)]

mod generator;
mod guests;
mod load;

pub use load::{LOAD_LIMIT, load_limit_is_defined, load_script};
