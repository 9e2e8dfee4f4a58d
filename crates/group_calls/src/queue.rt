//! The calls of an administration queue.
ghost use Rattle.std.specs.Prelude.{◌≡◌};
ghost use Rattle.group_calls.specs.Queue.{is_quiet_reply};

use board_text::{Floors, Piece};

/// How many bytes a command's device has to answer in at most. Of this project.
pub const WRITABLE_LIMIT: u32 = 256;

/// Whose command it is, a guest or 0, and the floor that the guest knew of its member. Of this project.
#[derive(Clone, Copy, Debug, PartialEq, Eq)]
pub struct Tag {
    pub guest: u32,
    pub floor: u64,
}

/// What an administration queue is asked: VIRTIO 1.3, 2.13 (administration virtqueues). Commands are numbered from 0 in
/// the order in which they were posted.
#[derive(Debug, Drop, PartialEq, Eq)]
pub enum RingCall {
    /// The driver makes a command available, with at most 256 writable bytes.
    Post {
        bytes: Piece,
        writable: u32,
        tag: Tag,
    },
    /// The device fetches the next command.
    Pop,
    /// The device completes a command that it fetched, with these bytes. The floor is of the command's member.
    Complete {
        seq: u64,
        bytes: Piece,
        floor: u64,
    },
    /// The driver takes a completed command back.
    Take {
        seq: u64,
    },
    /// The owner was reset: the queue is closed from now on. The floors are those of the members. Of this project.
    Reset {
        floors: Floors,
    },
}

/// What an administration queue answers: VIRTIO 1.3, 2.13 (administration virtqueues). Full, Closed, Empty, InService,
/// Stale and NotYet are quiet: they leave no entry.
#[derive(Debug, Drop, PartialEq, Eq)]
pub enum RingReply {
    /// The command's number.
    Seq(u64),
    /// Half as many commands as the queue has entries are outstanding.
    Full,
    /// The queue was reset, under this floor of the tag's guest.
    Closed {
        floor: u64,
    },
    /// The earliest command that wasn't fetched, as it was posted.
    Fetched {
        seq: u64,
        bytes: Piece,
        writable: u32,
        tag: Tag,
    },
    /// There is nothing to fetch.
    Empty,
    /// This command was fetched and isn't completed.
    InService {
        seq: u64,
    },
    Completed,
    /// The command isn't in service, or wasn't posted, or was taken.
    Stale,
    /// The completion's bytes, as many as are writable, and its floor.
    Ready {
        bytes: Piece,
        floor: u64,
    },
    /// The command isn't completed.
    NotYet,
    /// The queue was reset before the command was completed, under this floor of the tag's guest.
    Lost {
        floor: u64,
    },
    ResetDone,
}

impl RingCall {
    /// The same call once more.
    pub fn copy(&self) -> RingCall
        ensures { result ≡ self.now }
    {
        match self {
            RingCall::Post {
                bytes,
                writable,
                tag,
            } => RingCall::Post {
                bytes: bytes.copy(),
                writable: *writable,
                tag: *tag,
            },
            RingCall::Pop => RingCall::Pop,
            RingCall::Complete { seq, bytes, floor } => RingCall::Complete {
                seq: *seq,
                bytes: bytes.copy(),
                floor: *floor,
            },
            RingCall::Take { seq } => RingCall::Take { seq: *seq },
            RingCall::Reset { floors } => RingCall::Reset {
                floors: floors.copy(),
            },
        }
    }
}

impl RingReply {
    /// Whether the reply leaves no entry.
    pub fn is_quiet(&self) -> bool
        ensures { result ≡ is_quiet_reply self.now }
    {
        matches!(
            self,
            RingReply::Full
                | RingReply::Closed { .. }
                | RingReply::Empty
                | RingReply::InService { .. }
                | RingReply::Stale
                | RingReply::NotYet
        )
    }

    /// The same reply once more.
    pub fn copy(&self) -> RingReply
        ensures { result ≡ self.now }
    {
        match self {
            RingReply::Seq(seq) => RingReply::Seq(*seq),
            RingReply::Full => RingReply::Full,
            RingReply::Closed { floor } => RingReply::Closed { floor: *floor },
            RingReply::Fetched {
                seq,
                bytes,
                writable,
                tag,
            } => RingReply::Fetched {
                seq: *seq,
                bytes: bytes.copy(),
                writable: *writable,
                tag: *tag,
            },
            RingReply::Empty => RingReply::Empty,
            RingReply::InService { seq } => RingReply::InService { seq: *seq },
            RingReply::Completed => RingReply::Completed,
            RingReply::Stale => RingReply::Stale,
            RingReply::Ready { bytes, floor } => RingReply::Ready {
                bytes: bytes.copy(),
                floor: *floor,
            },
            RingReply::NotYet => RingReply::NotYet,
            RingReply::Lost { floor } => RingReply::Lost { floor: *floor },
            RingReply::ResetDone => RingReply::ResetDone,
        }
    }
}
