//! What the host is to do.

use board_text::Bytes;

/// A line of the host. Of this project.
#[derive(Debug, Drop, PartialEq, Eq)]
pub enum HostLine {
    /// A frame comes from the network for the member: VIRTIO 1.3, 5.1.6 (device operation of a network device).
    Frame { member: u32, frame: Bytes },
    /// The function level reset of the member.
    Flr { member: u32 },
    /// The member is disabled for good, and the owner is told so.
    Disable { member: u32 },
    /// The function reset of the physical function, which disables all members and closes all queues.
    Reset,
}
