//! Laws of runs in threads: what actors leave that shared the cells of a group, each with its own view of them, is a legal
//! journal.
//!
//! The crate has no code. Its functions have empty bodies, and their clauses are the laws.
#![tactic(auto)]

ghost use Rattle.thread_laws.specs.Gathered.{GatheredIsLegal};
ghost use Rattle.thread_laws.specs.Idle.{OthersAreIdle};

/// Where each actor has performed its lines and saw its own entries at their places, the board before and after all others,
/// the journal is legal, although nobody saw all cells together.
pub fn gathered_is_legal()
    ensures { GatheredIsLegal }
{}

/// A number that names no actor of a script has no lines.
pub fn others_are_idle()
    ensures { OthersAreIdle }
{}
