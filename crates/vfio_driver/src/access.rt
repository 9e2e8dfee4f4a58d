//! How far an access is, what is known of the member, and what the access is answered.

use board_text::Piece;

/// What an access is answered. Of this project.
#[derive(Debug, Drop, PartialEq, Eq)]
pub enum Answer {
    /// The bytes that were read.
    Data(Piece),
    Written,
    /// A read gives all ones, and a write is ignored.
    Ones,
    /// The queue was full, after so many entries of it.
    RefusedFull { queue: u32, at: u64 },
    RefusedMemory,
}

/// Whether an access asks anything. Of this project.
#[derive(Clone, Copy, Debug, PartialEq, Eq)]
pub enum Started {
    /// It asks nothing: a read gives all ones, and a write is ignored.
    Local,
    Asks,
}

/// How far the open access is. Of this project.
#[derive(Debug, Drop, PartialEq, Eq)]
pub enum Stage {
    /// No access is open.
    Nothing,
    /// The member is to be notified: VIRTIO 1.3, 2.9 (driver notifications).
    Ringing {
        queue: u16,
    },
    /// The command is to be posted: 2.13 (administration virtqueues).
    Posting {
        queue: u32,
        bytes: Piece,
        writable: u32,
        reads: bool,
    },
    /// The command is to be taken back.
    Taking {
        queue: u32,
        seq: u64,
        reads: bool,
    },
}

/// What a driver knows of its member: the greatest floor that it was told, and whether the member is gone. Of this
/// project.
#[derive(Clone, Copy, Debug, PartialEq, Eq)]
pub struct Known {
    pub floor: u64,
    pub gone: bool,
}

/// After an answer: how far the access is, what is known, and the answer that ends the access. Of this project.
#[derive(Debug, Drop, PartialEq, Eq)]
pub struct After {
    pub stage: Stage,
    pub known: Known,
    pub answer: Option<Answer>,
}
