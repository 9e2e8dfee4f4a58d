//! What a step will do, with all the memory that it wants.
use board_text::Bytes;
use group_calls::Halt;
use ring_device::Chain;
use ring_layout::Layout;

/// A chain that was found, and the ring in which it stands.
#[derive(Drop)]
pub(crate) struct Place {
    pub(crate) layout: Layout,
    pub(crate) chain: Chain,
}

/// What a step will do. The first three change nothing.
#[derive(Drop)]
pub(crate) enum Plan {
    NotPending,
    Empty,
    Halted(Halt),
    /// The first frame that waits is dropped.
    Drops,
    /// A request of a block device is answered, and its data goes onto the disk at this sector, or nowhere.
    Answers {
        place: Place,
        put_at: Option<u64>,
        request: Bytes,
        reply: Bytes,
    },
    /// The first frame that waits goes to the guest, behind its header.
    Receives {
        place: Place,
        reply: Bytes,
    },
    /// The guest's frame is sent, once to be told and once to be kept. It has no byte where the guest gave no frame.
    Transmits {
        place: Place,
        sent: Bytes,
        sent_again: Bytes,
    },
}
