//! The calls of the owner, of administration queues and of members, their replies, and what each reply is.
//!
//! The definitions stand in `specs/`, over lists of entries with the latest first, and keep no register, flag, counter
//! or table. The main clause is the one of `Serial::apply`: the reply to a call is the definition over what stood
//! before it. The crate stands on `history`, on the wire format, the legacy registers, the ring layout and the two
//! engines, whose definitions it cites.
#![tactic(auto)]

mod ask;
pub mod laws;
mod lone;
mod member;
mod owner;
mod queue;

pub use ask::{Ask, Told};
pub use history::{ACTOR_LIMIT, Entry, HISTORY_LIMIT, Log, Placed, Serial};
pub use legacy_regs::{Irq, Kind};
pub use lone::{LoneEvent, LoneItem, LoneReply};
pub use member::{Halt, MemberCall, MemberMade, MemberReply, Why};
pub use owner::{OwnerCall, OwnerReply};
pub use queue::{RingCall, RingReply, Tag, WRITABLE_LIMIT};
