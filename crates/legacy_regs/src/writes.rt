//! What a write of the common structure does beyond the registers, whether it is refused or not.
ghost use Rattle.std.specs.Prelude.{◌≡◌, length};
ghost use Rattle.legacy_regs.specs.Fields.{touches, queue_address_field};
ghost use Rattle.legacy_regs.specs.Accesses.{is_reset_write as resets, notified_queue as notified};

use crate::fields::{QUEUE_ADDRESS, QUEUE_NOTIFY};
use crate::numbers::read_16;
use crate::regs;
use board_text::Piece;

/// Whether the write is a reset: it puts 0 at device status (VIRTIO 1.3, 2.1).
pub fn is_reset_write(offset: u8, bytes: &Piece) -> bool
    ensures { result ≡ resets offset bytes.now }
{
    regs::is_reset_write(offset, bytes.as_slice())
}

/// Whether a byte of the write is one of queue address (VIRTIO 1.3, 4.1.5.1.3.1).
pub fn is_address_write(offset: u8, bytes: &Piece) -> bool
    ensures { result ≡ touches queue_address_field offset (length bytes.now) }
{
    QUEUE_ADDRESS.meets(offset, bytes.as_slice().len() as u32)
}

/// The number of the queue that the write notifies: that in the 2 bytes of queue notify (VIRTIO 1.3, 4.1.5.2). `None`
/// exactly where the write is another. The queue needn't exist.
pub fn notified_queue(offset: u8, bytes: &Piece) -> Option<u16>
    ensures { result ≡ notified offset bytes.now }
{
    let bytes = bytes.as_slice();
    if offset == QUEUE_NOTIFY.offset && bytes.len() == usize::from(QUEUE_NOTIFY.size) {
        Some(read_16(bytes))
    } else {
        None
    }
}
