//! A member of the group: a virtual function together with its guest's memory, which answers by its own history.
//!
//! It stands on `member_device`, which answers over what a member holds at present, on `group_calls`, whose definitions say
//! every answer by looking back through the history, and on `history` for the history itself. Its main clause is that of
//! `Serial::apply` for `Member`: each reply is the definition over what stood before it. No call walks the history.
#![tactic(auto)]

mod entries;
mod member;
mod queues;
mod state;

pub use member::{Member, members_cross_threads};
