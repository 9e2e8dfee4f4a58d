//! One service of an administration queue (VIRTIO 1.3, 2.12.1 and 2.13): a command is fetched, judged by the owner,
//! carried out by its member where the owner says so, and completed.
//!
//! It stands on `group_calls`, whose asks and answers it speaks, and on `admin_wire` for the bytes of completions. Its
//! main clauses are those of `Server::next`, the ask of the stage, and of `Server::feed`, the stage after an answer;
//! `owner_done` and `access_done` are the completion rule. In `laws` stands that what the machine asks is one service
//! by a grammar, why a completion has its status, and how long it is. Nothing here takes memory.
#![tactic(auto)]

mod completion;
pub mod laws;
mod server;
mod stage;
mod turn;

pub use completion::{access_done, owner_done};
pub use server::Server;
pub use stage::{Fetched, Stage};
