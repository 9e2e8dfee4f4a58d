//! What an actor asks of a cell, and what it is told.
ghost use Rattle.std.specs.Prelude.{◌≡◌, IfOk};

use crate::member::{MemberCall, MemberReply};
use crate::owner::{OwnerCall, OwnerReply};
use crate::queue::{RingCall, RingReply};
use history::Placed;
use std::alloc::AllocError as NoMemory;

/// One call on one cell. An ask on a member is to stand at a place of at least its floor. Of this project.
#[derive(Debug, Drop, PartialEq, Eq)]
pub enum Ask {
    Owner(OwnerCall),
    Queue {
        index: u32,
        call: RingCall,
    },
    Member {
        id: u32,
        floor: u64,
        call: MemberCall,
    },
}

/// The answer to an ask. Of this project.
#[derive(Debug, Drop, PartialEq, Eq)]
pub enum Told {
    Owner(Placed<OwnerReply>),
    Queue(Placed<RingReply>),
    Member(Placed<MemberReply>),
    NoMemory,
}

impl Ask {
    /// The same ask once more.
    pub fn copy(&self) -> Result<Ask, NoMemory>
        ensures { IfOk result (λ ask. ask ≡ self.now) }
    {
        Ok(match self {
            Ask::Owner(call) => Ask::Owner(call.copy()),
            Ask::Queue { index, call } => Ask::Queue {
                index: *index,
                call: call.copy(),
            },
            Ask::Member { id, floor, call } => Ask::Member {
                id: *id,
                floor: *floor,
                call: call.copy()?,
            },
        })
    }
}

impl Told {
    /// The same answer once more.
    pub fn copy(&self) -> Result<Told, NoMemory>
        ensures { IfOk result (λ told. told ≡ self.now) }
    {
        Ok(match self {
            Told::Owner(placed) => Told::Owner(Placed {
                at: placed.at,
                reply: placed.reply.copy(),
            }),
            Told::Queue(placed) => Told::Queue(Placed {
                at: placed.at,
                reply: placed.reply.copy(),
            }),
            Told::Member(placed) => Told::Member(Placed {
                at: placed.at,
                reply: placed.reply.copy()?,
            }),
            Told::NoMemory => Told::NoMemory,
        })
    }
}
