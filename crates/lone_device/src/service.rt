//! What a step of a queue does (VIRTIO 1.3, 2.7).
use board_text::Bytes;
use group_calls::MemberReply;
use ring_device::Chain;
use ring_layout::Layout;

/// A request of a block device, and the sector at which its data goes onto the disk, if any does.
#[derive(Drop)]
pub(crate) struct Request {
    pub(crate) put_at: Option<u64>,
    pub(crate) bytes: Bytes,
}

/// A service: a chain in its ring, the reply into it, the request that the disk is told, and the frame that is sent, or no
/// byte.
#[derive(Drop)]
pub(crate) struct Service {
    pub(crate) layout: Layout,
    pub(crate) chain: Chain,
    pub(crate) reply: Bytes,
    pub(crate) request: Option<Request>,
    pub(crate) sent: Bytes,
}

/// What a step does: it stops with a reply and changes nothing, or serves.
#[derive(Drop)]
pub(crate) enum Outcome {
    Stops(MemberReply),
    Serves(Service),
}
