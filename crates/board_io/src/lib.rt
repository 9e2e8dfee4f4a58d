//! The outside, as the board sees it: where text comes from, where output goes, and a gate that is
//! asked before each step of an actor. Standard streams and memory stand behind the same traits, so
//! what is proved for any source and any sink holds for the program's own.
//!
//! It stands on the standard library alone. Its main clauses: where a source tells what is left,
//! `take` gives the next bytes of it and ends exactly where nothing is left; where a sink tells what
//! it holds, `put` appends all bytes, or a front of them when it fails; and the count of faults of
//! either rises where it fails and nowhere else.
#![tactic(auto)]

mod gate;
mod laws;
mod memory;
mod sink;
mod source;
mod streams;

pub use gate::{Gate, OpenGate};
pub use laws::{streams_cross_threads, the_outside_crosses_threads};
pub use memory::{MemSink, MemSource};
pub use sink::{PutAnswer, Sink};
pub use source::{Source, Taken};
pub use streams::{StdSink, StdSource};
