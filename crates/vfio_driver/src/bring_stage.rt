//! How far bring-up is, and what it comes to.

/// What bring-up comes to. Of this project.
#[derive(Clone, Copy, Debug, PartialEq, Eq)]
pub enum Brought {
    /// The group can be used, or the member, whose floor is this one.
    Ready {
        floor: u64,
    },
    /// The status and qualifier of the completion, and the list of opcodes in it, else 0.
    Unfit {
        status: u16,
        qualifier: u16,
        bits: u64,
    },
}

/// The commands of bring-up: VIRTIO 1.3, 2.12.1 (group administration commands).
#[derive(Clone, Copy, Debug, PartialEq, Eq)]
pub enum BringCommand {
    /// LIST_QUERY.
    Query,
    /// LIST_USE of the opcodes 0 to 6.
    Use,
    /// LEGACY_NOTIFY_INFO.
    Info,
}

/// How far bring-up is. Of this project.
#[derive(Clone, Copy, Debug, PartialEq, Eq)]
pub enum BringStage {
    Posting { command: BringCommand },
    Taking { command: BringCommand, seq: u64 },
    Over { brought: Brought },
}
