//! A transitional device that is attached directly to a guest.
ghost use Rattle.std.specs.Prelude.{◌≡◌, IfOk};

use crate::member::{MemberCall, MemberReply};
use board_text::{Bytes, Piece};
use std::alloc::AllocError as NoMemory;

/// What the device is told. An access to its I/O BAR has 1, 2 or 4 bytes: VIRTIO 1.3, 4.1.4.10 (legacy interfaces).
#[derive(Debug, Drop, PartialEq, Eq)]
pub enum LoneEvent {
    Read { offset: u8, length: u32 },
    Write { offset: u8, bytes: Piece },
    /// A call of a member that is no register access.
    Other(MemberCall),
}

/// What the device answers.
#[derive(Debug, Drop, PartialEq, Eq)]
pub enum LoneReply {
    /// The bytes that were read.
    Data(Bytes),
    /// To every write, of which a guest sees no reply.
    Ignored,
    /// All ones are read.
    Ones,
    /// The reply to a call of a member.
    Other(MemberReply),
}

/// An event and its reply.
#[derive(Debug, Drop, PartialEq, Eq)]
pub struct LoneItem {
    pub event: LoneEvent,
    pub reply: LoneReply,
}

impl LoneEvent {
    /// The same event once more.
    pub fn copy(&self) -> Result<LoneEvent, NoMemory>
        ensures { IfOk result (λ event. event ≡ self.now) }
    {
        Ok(match self {
            LoneEvent::Read { offset, length } => LoneEvent::Read {
                offset: *offset,
                length: *length,
            },
            LoneEvent::Write { offset, bytes } => LoneEvent::Write {
                offset: *offset,
                bytes: bytes.copy(),
            },
            LoneEvent::Other(call) => LoneEvent::Other(call.copy()?),
        })
    }
}
