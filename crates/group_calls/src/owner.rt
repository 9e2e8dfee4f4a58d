//! The calls of the owner, which is the physical function of an SR-IOV group.
ghost use Rattle.std.specs.Prelude.{◌≡◌};

use admin_wire::LegacyCmd;
use board_text::{Floors, Piece};

/// What the owner is asked: VIRTIO 1.3, 2.12 (device groups).
#[derive(Debug, Drop, PartialEq, Eq)]
pub enum OwnerCall {
    /// So many virtual functions exist from now on, with the numbers from 1. At most as many as the owner was made for.
    SetVfs { count: u32 },
    /// What is to become of a command with these bytes and so many writable ones, at most 256: 2.12.1 (group
    /// administration commands).
    Judge { bytes: Piece, writable: u32 },
    /// The member was disabled, before this many entries of it. Of this project.
    Gone { member: u32, floor: u64 },
    /// The function reset of the physical function, which disables all members. The floors are those of the members.
    /// Of this project.
    Reset { floors: Floors },
}

/// What the owner answers: VIRTIO 1.3, 2.12.1 (group administration commands).
#[derive(Debug, Drop, PartialEq, Eq)]
pub enum OwnerReply {
    /// To every call but Judge.
    Done,
    /// The list of supported opcodes, as bits.
    List {
        bits: u64,
    },
    /// The command's list is in use from now on.
    Used,
    /// The command is refused with this status and qualifier. The floor is the one under which the command's member
    /// was disabled, else 0.
    Refused {
        status: u16,
        qualifier: u16,
        floor: u64,
    },
    /// The member has to carry out this register access.
    Legacy {
        member: u32,
        command: LegacyCmd,
    },
}

impl OwnerCall {
    /// The same call once more.
    pub fn copy(&self) -> OwnerCall
        ensures { result ≡ self.now }
    {
        match self {
            OwnerCall::SetVfs { count } => OwnerCall::SetVfs { count: *count },
            OwnerCall::Judge { bytes, writable } => OwnerCall::Judge {
                bytes: bytes.copy(),
                writable: *writable,
            },
            OwnerCall::Gone { member, floor } => OwnerCall::Gone {
                member: *member,
                floor: *floor,
            },
            OwnerCall::Reset { floors } => OwnerCall::Reset {
                floors: floors.copy(),
            },
        }
    }
}

impl OwnerReply {
    /// The same reply once more.
    pub fn copy(&self) -> OwnerReply
        ensures { result ≡ self.now }
    {
        match self {
            OwnerReply::Done => OwnerReply::Done,
            OwnerReply::List { bits } => OwnerReply::List { bits: *bits },
            OwnerReply::Used => OwnerReply::Used,
            OwnerReply::Refused {
                status,
                qualifier,
                floor,
            } => OwnerReply::Refused {
                status: *status,
                qualifier: *qualifier,
                floor: *floor,
            },
            OwnerReply::Legacy { member, command } => OwnerReply::Legacy {
                member: *member,
                command: command.copy(),
            },
        }
    }
}
