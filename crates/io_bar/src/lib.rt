//! The I/O BAR that a guest sees of its member: where each access goes, and the configuration space.
//!
//! It stands on `legacy_regs` (kinds of devices, the length of the common structure), `admin_wire` (the commands of
//! register accesses) and `byte_fields`. Its main clauses are those of `Bar::route`, by which a driver goes, of `Bar::place`,
//! by which a guest that is alone goes, and of `Bar::config`, each one equation. Nothing here takes memory.
#![tactic(auto)]

mod access;
mod bar;
mod configuration;

pub use access::{Access, Place, Route};
pub use bar::{Bar, bars_cross_threads};
