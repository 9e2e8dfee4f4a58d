//! Descriptors of a virtqueue's table (VIRTIO 1.3, 2.7.5).
ghost use Rattle.std.specs.Prelude.{⊤, ◌≡◌, ◌<◌, [], ◌∷◌, length, codes};
ghost use Rattle.ring_layout.specs.Layout.{LiesIn};
ghost use Rattle.ring_layout.specs.Chain.{descriptor};

use crate::layout::Layout;
use crate::table::Table;
use bitflags::{Flag, Flags, bitflag_items};
use guest_mem::GuestMem;

/// A descriptor's flags (VIRTIO 1.3, 2.7.5): `NEXT`, where another descriptor follows; `WRITE`, where the device writes the
/// buffer and doesn't read it; `INDIRECT`, where the buffer is a table of descriptors. All other bits are kept as they
/// were read, and mean nothing.
#[derive(Clone, Copy, Debug, PartialEq, Eq)]
pub struct DescFlags(u16);

bitflag_items! {
    impl DescFlags: u16 {
        const NEXT = 1;
        const WRITE = 2;
        const INDIRECT = 4;
    }
}

impl Flags for DescFlags {
    type Bits = u16;

    ghost exact = { ⊤ };

    ghost table = { (codes "NEXT", 1) ∷ (codes "WRITE", 2) ∷ (codes "INDIRECT", 4) ∷ [] };

    ghost set_of = { λ flags. flags.0 };

    fn flags<'a>() -> &'a [Flag<DescFlags>] {
        DescFlags::FLAGS
    }

    fn bits(&self) -> u16 {
        self.0
    }

    fn from_bits_retain(bits: u16) -> DescFlags {
        DescFlags(bits)
    }
}

/// A buffer in the guest's memory, and which descriptor follows it in a chain (VIRTIO 1.3, 2.7.5). It is what the guest
/// wrote, so nothing is known of its fields.
#[derive(Clone, Copy, Debug, PartialEq, Eq)]
pub struct Descriptor {
    /// The guest-physical address of the buffer's first byte.
    pub addr: u64,
    /// How many bytes the buffer has.
    pub len: u32,
    pub flags: DescFlags,
    /// The index of the descriptor that follows, where `NEXT` is set.
    pub next: u16,
}

/// The descriptor at an index of the ring's table, as the memory holds it now.
pub fn read_descriptor(mem: &GuestMem, layout: &Layout, index: u16) -> Descriptor
    requires layout { LiesIn (length mem.now) layout.now }
    requires index { index < layout.now.size }
    ensures { result ≡ descriptor mem.now layout.now.table index }
{
    Table::of_ring(mem, layout).read(mem, index)
}
