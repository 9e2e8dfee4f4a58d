//! The driver of a guest's member (VIRTIO 1.3, 2.12 and 2.13): what it asks for each access of the guest to its BAR, and
//! what the access is answered; and bring-up, which posts the list commands and asks for notify information.
//!
//! It stands on `group_calls`, whose asks and answers it speaks, on `io_bar` for where an access goes, and on
//! `admin_wire` for the bytes of commands. Its main clauses are those of `next`, the ask of the stage, and of `hear`, the
//! stage, the knowledge and the answer after an answer of a cell. In `laws` stands that what the machines ask are an access
//! and bring-up by their grammars, and that what a driver knows and answers is a look back over what it was told. Nothing
//! here takes memory.
#![tactic(auto)]

mod access;
mod access_after;
mod bring;
mod bring_after;
mod bring_stage;
mod driver;
pub mod laws;

pub use access::{After, Answer, Known, Stage, Started};
pub use bring::BringUp;
pub use bring_stage::{BringCommand, BringStage, Brought};
pub use driver::Driver;
