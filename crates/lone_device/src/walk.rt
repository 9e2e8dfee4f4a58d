//! The walk over the list of events and replies.
ghost use Rattle.std.specs.Prelude.{◌≡◌, IfOk};
ghost use Rattle.group_calls.specs.Member.{IsMemberMade};
ghost use Rattle.group_calls.specs.Lone.{as_history};
ghost use Rattle.lone_device.specs.Past.{AreReplies};
ghost use Rattle.lone_device.specs.Seen.{Stands};
ghost use Rattle.lone_device.specs.Service.{IsSized, Holds};

use crate::past::Past;
use crate::seen::Seen;
use crate::stored::Stored;
use group_calls::MemberMade;
use std::alloc::{AllocError as NoMemory, Global};

/// A device behind its events, with memory and disk.
#[derive(Drop)]
pub(crate) struct Whole {
    pub(crate) seen: Seen,
    pub(crate) stored: Stored,
}

/// What the events say of the device.
pub(crate) fn seen_after(alloc: Global, made: &MemberMade, past: &Past) -> Result<Seen, NoMemory>
    requires { AreReplies made.now past.now }
    ensures { IfOk result (λ seen. Stands made.now seen (as_history made.now past.now)) }
{
    let mut seen = Seen::new(alloc, made.kind);
    'items: for index in 0..past.length() {
        seen.note(index, past.item(index))?;
    }
    Ok(seen)
}

/// The same with memory and disk.
pub(crate) fn whole_after(alloc: Global, made: &MemberMade, past: &Past) -> Result<Whole, NoMemory>
    requires made { IsMemberMade made.now }
    requires past { AreReplies made.now past.now }
    ensures seen { IfOk result (λ whole. Stands made.now whole.seen (as_history made.now past.now)) }
    ensures stored { IfOk result (λ whole. Holds made.now whole.stored (as_history made.now past.now)) }
    ensures sized { IfOk result (λ whole. IsSized whole.stored) }
{
    let mut seen = Seen::new(alloc, made.kind);
    let mut stored = Stored::new(alloc, *made)?;
    'items: for index in 0..past.length() {
        let item = past.item(index);
        stored.note(&seen, item)?;
        seen.note(index, item)?;
    }
    Ok(Whole { seen, stored })
}
