//! An actor is driven over the cells that it asks: its asks are performed one after another until its lines have ended.
//!
//! It stands on `actor_core` for what an actor asks and hears, and on `group_cells` for any cells. The main clause is that of
//! `drive`: where the actor wasn't short of memory its lines have ended, each ask was the next one and is answered by its
//! cell, and its entries in the cells are just what its asks left.
#![tactic(auto)]

mod driving;
mod within;

pub use driving::drive;
