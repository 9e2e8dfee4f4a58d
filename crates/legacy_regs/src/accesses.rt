//! The words of an access to the legacy registers.

/// The structure that an access goes to.
#[derive(Clone, Copy, Debug, PartialEq, Eq)]
pub enum Space {
    /// The common structure, 20 bytes with MSI-X disabled and 24 with it enabled: VIRTIO 1.3, 4.1.4.10.
    Common,
    /// The device-specific structure, 33 bytes of a block device (VIRTIO 1.3, 5.2.4) and 8 of a network device (5.1.4).
    Device,
}

/// What a write does beyond the registers.
#[derive(Clone, Copy, Debug, PartialEq, Eq)]
pub enum Effect {
    /// Nothing.
    Nothing,
    /// The queue of this number, which exists, was notified: VIRTIO 1.3, 4.1.5.2.
    Notify(u16),
    /// The device was reset: VIRTIO 1.3, 2.4.
    Reset,
    /// The address of the queue of this number, which exists, was written: VIRTIO 1.3, 4.1.5.1.3.1.
    Address(u16),
}

/// An access is refused, since it has no byte, isn't wholly inside one field, or writes a part of queue notify (of this
/// project).
#[derive(Clone, Copy, Debug, PartialEq, Eq)]
pub struct Field;
