//! How far a service is.

use admin_wire::LegacyCmd;
use board_text::Piece;
use group_calls::Tag;

/// A fetched command: its number, how many bytes its completion may have, at most 256, and its tag. Of this project.
#[derive(Clone, Copy, Debug, PartialEq, Eq)]
pub struct Fetched {
    pub seq: u64,
    pub writable: u32,
    pub tag: Tag,
}

/// How far a service is. Of this project.
#[derive(Debug, Drop, PartialEq, Eq)]
pub enum Stage {
    /// The queue is to be asked for a command.
    Popping,
    /// The owner is to judge the command, which has these bytes: VIRTIO 1.3, 2.12.1 (group administration commands).
    Judging {
        command: Fetched,
        bytes: Piece,
    },
    /// The member is to carry out the register access: 2.12.1 (group administration commands, Legacy Interfaces).
    Acting {
        command: Fetched,
        member: u32,
        access: LegacyCmd,
    },
    /// The command is to be completed with these bytes: 2.13 (administration virtqueues).
    Completing {
        seq: u64,
        bytes: Piece,
        floor: u64,
    },
    /// Nothing is left to ask.
    Ended,
}
