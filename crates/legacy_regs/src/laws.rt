//! Laws of the registers, which need no code.
ghost use Rattle.std.specs.Prelude.{◌≡◌, ◌^◌};
ghost use Rattle.legacy_regs.specs.Laws.{ReplacesItsBytes, LeavesOthers, KeepsReadOnly};
ghost use Rattle.legacy_regs.specs.Registers.{member_ring_size, indirect_bit, event_bit};

use crate::MEMBER_RING_SIZE;
use crate::features::Features;
use crate::regs::Regs;

/// A write that lies inside a field replaces just its own bytes, and leaves the fields that it doesn't reach.
pub fn partial_writes()
    ensures inside { ReplacesItsBytes }
    ensures apart { LeavesOthers }
{}

/// A write that lies inside a field that a guest only reads changes nothing.
pub fn read_only_fields()
    ensures { KeepsReadOnly }
{}

/// The size of a member's rings that callers read is that of the definitions.
pub fn sizes()
    ensures { MEMBER_RING_SIZE ≡ member_ring_size }
{}

/// The feature bits that callers read are those of VIRTIO 1.3, 5.2.3, 5.1.3, 6 and 6.3.
pub fn feature_bits()
    ensures read_only { Features.BLK_RO.0 ≡ 2 ^ 5 }
    ensures block_size { Features.BLK_SIZE.0 ≡ 2 ^ 6 }
    ensures flush { Features.BLK_FLUSH.0 ≡ 2 ^ 9 }
    ensures writeback { Features.BLK_CONFIG_WCE.0 ≡ 2 ^ 11 }
    ensures mac { Features.NET_MAC.0 ≡ 2 ^ 5 }
    ensures status { Features.NET_STATUS.0 ≡ 2 ^ 16 }
    ensures any_layout { Features.ANY_LAYOUT.0 ≡ 2 ^ 27 }
    ensures indirect { Features.INDIRECT_DESC.0 ≡ 2 ^ indirect_bit }
    ensures events { Features.EVENT_IDX.0 ≡ 2 ^ event_bit }
{}

fn crosses<T: Send + Sync>() {}

/// Registers may be sent to a thread, and shared by threads.
pub fn registers_cross_threads() {
    crosses::<Regs>();
}
