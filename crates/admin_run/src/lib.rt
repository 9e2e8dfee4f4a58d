//! The command `admin`: administration commands over an owner and its members, without a queue.
//!
//! It stands on `admin_script` for the lines, on `owner_core` and `member_core` for the group, and on `serve_machine` and
//! `admin_wire` for what a command is completed with. Its main clause is that of `run_admin`: the text is the line of each
//! command's completion, over the group that the lines before left.
#![tactic(auto)]

mod completion;
mod group;
mod run;

pub use run::run_admin;
