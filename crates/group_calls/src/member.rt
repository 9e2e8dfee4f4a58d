//! The calls of a member, which is a virtual function together with its guest's memory.
ghost use Rattle.std.specs.Prelude.{◌≡◌, IfOk};

use admin_wire::LegacyCmd;
use board_text::Bytes;
use legacy_regs::{Irq, Kind};
use std::alloc::AllocError as NoMemory;

/// What a member is made with: its number, the pages of 4,096 bytes of its guest's memory, and its kind.
#[derive(Clone, Copy, Debug, PartialEq, Eq)]
pub struct MemberMade {
    pub id: u32,
    pub pages: u32,
    pub kind: Kind,
}

/// What a member is asked.
#[derive(Debug, Drop, PartialEq, Eq)]
pub enum MemberCall {
    /// A register access by a command: VIRTIO 1.3, 2.12.1 (group administration commands, Legacy Interfaces).
    Act(LegacyCmd),
    /// A doorbell: a write of a queue's number to the notification address, 2.9 (driver notifications).
    Notify { queue: u16 },
    /// MSI-X is enabled or disabled: 4.1.5.1.2 (MSI-X vector configuration).
    Msix { on: bool },
    /// The guest writes its memory.
    MemWrite { addr: u64, bytes: Bytes },
    /// The guest reads its memory.
    MemRead { addr: u64, length: u32 },
    /// The guest takes the vectors that were raised. Of this project.
    TakeIrqs,
    /// The device works at a queue: 2.7 (split virtqueues). Of this project.
    Step { queue: u16 },
    /// A frame comes from the network: 5.1.6 (device operation of a network device).
    Arrive { frame: Bytes },
    /// The function level reset of the member.
    Flr,
    /// The member is disabled for good. Of this project.
    Kill,
}

/// Why a call was refused. Of this project.
#[derive(Clone, Copy, Debug, PartialEq, Eq)]
pub enum Why {
    /// The access has no byte, isn't wholly inside one field, or writes a part of queue notify.
    Field,
    /// The bytes don't lie in the memory.
    Range,
    /// The member is no network device, or the length is none of a frame.
    Frame,
}

/// Why a queue was halted. Of this project.
#[derive(Clone, Copy, Debug, PartialEq, Eq)]
pub enum Halt {
    /// The queue has no address, or its ring passes the memory.
    Ring,
    /// The available index lies further ahead than the ring has entries.
    Index,
    /// The available entry begins no chain.
    Chain,
    /// The chain holds no block request.
    Request,
}

/// What a member answers.
#[derive(Debug, Drop, PartialEq, Eq)]
pub enum MemberReply {
    /// The bytes that were read.
    Data(Bytes),
    Written,
    /// The member's notification address was asked for.
    Info,
    Refused(Why),
    /// The member was killed before this many entries.
    Gone { floor: u64 },
    /// A chain was used with this length. The frame is the one that was sent, or empty.
    Served { length: u32, irq: Irq, sent: Bytes },
    /// The queue has nothing to serve.
    Empty,
    /// The queue doesn't exist, is halted, or wasn't notified.
    NotPending,
    Halted(Halt),
    /// The first frame didn't fit its chain and is dropped.
    Dropped,
    /// The vectors that were raised, bit v for vector v.
    Irqs { mask: u32 },
    Arrived,
    /// As many frames wait as may; the frame is dropped.
    BacklogFull,
    Killed,
}

impl MemberCall {
    ghost use Rattle.group_calls.specs.Kept.{held_bytes};

    /// The bytes that lie outside the call, once more: those for the guest's memory, or a frame. `None`, which takes no
    /// memory, of a call without.
    pub fn copy_bytes(&self) -> Result<Option<Bytes>, NoMemory>
        ensures { IfOk result (λ bytes. bytes ≡ held_bytes self.now) }
    {
        match self {
            MemberCall::MemWrite { bytes, .. } => Ok(Some(bytes.copy()?)),
            MemberCall::Arrive { frame } => Ok(Some(frame.copy()?)),
            _ => Ok(None),
        }
    }

    /// The same call with these bytes, which are those that lie outside it. This takes no memory.
    pub fn with_bytes(&self, bytes: Option<Bytes>) -> MemberCall
        requires { bytes ≡ held_bytes self.now }
        ensures { result ≡ self.now }
    {
        // A read is made in one step, so that nothing as large as a write's data is moved.
        match self {
            MemberCall::Act(LegacyCmd::CommonRead { offset, length }) => MemberCall::Act(
                LegacyCmd::CommonRead {
                    offset: *offset,
                    length: *length,
                },
            ),
            MemberCall::Act(LegacyCmd::DevRead { offset, length }) => MemberCall::Act(
                LegacyCmd::DevRead {
                    offset: *offset,
                    length: *length,
                },
            ),
            MemberCall::Act(command) => MemberCall::Act(command.copy()),
            MemberCall::Notify { queue } => MemberCall::Notify { queue: *queue },
            MemberCall::Msix { on } => MemberCall::Msix { on: *on },
            MemberCall::MemWrite { addr, .. } => MemberCall::MemWrite {
                addr: *addr,
                bytes: bytes.unwrap(),
            },
            MemberCall::MemRead { addr, length } => MemberCall::MemRead {
                addr: *addr,
                length: *length,
            },
            MemberCall::TakeIrqs => MemberCall::TakeIrqs,
            MemberCall::Step { queue } => MemberCall::Step { queue: *queue },
            MemberCall::Arrive { .. } => MemberCall::Arrive {
                frame: bytes.unwrap(),
            },
            MemberCall::Flr => MemberCall::Flr,
            MemberCall::Kill => MemberCall::Kill,
        }
    }

    /// The same call once more.
    pub fn copy(&self) -> Result<MemberCall, NoMemory>
        ensures { IfOk result (λ call. call ≡ self.now) }
    {
        let bytes = self.copy_bytes()?;
        Ok(self.with_bytes(bytes))
    }
}

impl MemberReply {
    /// The same reply once more.
    pub fn copy(&self) -> Result<MemberReply, NoMemory>
        ensures { IfOk result (λ reply. reply ≡ self.now) }
    {
        Ok(match self {
            MemberReply::Data(bytes) => MemberReply::Data(bytes.copy()?),
            MemberReply::Written => MemberReply::Written,
            MemberReply::Info => MemberReply::Info,
            MemberReply::Refused(why) => MemberReply::Refused(*why),
            MemberReply::Gone { floor } => MemberReply::Gone { floor: *floor },
            MemberReply::Served { length, irq, sent } => MemberReply::Served {
                length: *length,
                irq: *irq,
                sent: sent.copy()?,
            },
            MemberReply::Empty => MemberReply::Empty,
            MemberReply::NotPending => MemberReply::NotPending,
            MemberReply::Halted(halt) => MemberReply::Halted(*halt),
            MemberReply::Dropped => MemberReply::Dropped,
            MemberReply::Irqs { mask } => MemberReply::Irqs { mask: *mask },
            MemberReply::Arrived => MemberReply::Arrived,
            MemberReply::BacklogFull => MemberReply::BacklogFull,
            MemberReply::Killed => MemberReply::Killed,
        })
    }
}
