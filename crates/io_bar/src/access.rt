//! A guest's access to its BAR, and where it goes.

use admin_wire::LegacyCmd;
use board_text::Piece;

/// An access of 1, 2 or 4 bytes from an offset of the BAR on.
#[derive(Debug, Drop)]
pub enum Access {
    /// A read of so many bytes.
    Read { offset: u8, length: u32 },
    Write { offset: u8, bytes: Piece },
}

/// Where an access goes.
#[derive(Debug, Drop)]
pub enum Route {
    /// To the group owner, as a group administration command: VIRTIO 1.3, 2.12.1.
    Command(LegacyCmd),
    /// To the member directly, as a notification of the queue of this number: VIRTIO 1.3, 4.1.5.2.
    Doorbell { queue: u16 },
    /// Nowhere: a read gives all ones, a write is ignored.
    Local,
}

/// Where bytes of the BAR lie. An offset counts from the beginning of the structure.
#[derive(Clone, Copy, Debug, PartialEq, Eq)]
pub enum Place {
    /// With the host: I/O is disabled, or they pass the BAR.
    Outside,
    /// In the common structure, if they lie in it whole.
    Common { offset: u8 },
    /// In the device-specific structure, if they lie in it whole.
    Device { offset: u8 },
}
