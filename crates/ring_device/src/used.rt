//! The used ring (VIRTIO 1.3, 2.7.8), whether an interrupt is wanted (2.7.7), and which notification (2.7.10).
ghost use Rattle.std.specs.Prelude.{◌≡◌, [], ◌∷◌, ◌++◌, length};
ghost use Rattle.byte_fields.specs.Places.{bytes_of};
ghost use Rattle.ring_layout.specs.Layout.{LiesIn};
ghost use Rattle.ring_layout.specs.Chain.{used_writes, event_write, written, wants_interrupt as is_interrupt_wanted};

use byteorder::{ByteOrder, LittleEndian};
use guest_mem::GuestMem;
use ring_layout::Layout;

// The flag of the available ring by which a driver asks for no interrupt.
const NO_INTERRUPT: u16 = 1;

// An element of the used ring: the head as le32, and the number of bytes that were put into the chain.
fn element_of(head: u16, count: u32) -> [u8; 8]
    ensures { result ≡ bytes_of 4 head ++ bytes_of 4 count }
{
    let mut element = [0; 8];
    LittleEndian::write_u32(&mut element, u32::from(head));
    LittleEndian::write_u32(&mut element[4..], count);
    element
}

/// Uses a chain: puts the head and the number of bytes that were put into it into the element at a position, and then the
/// next position into the used index. The position runs modulo 65,536, the element is that of the position modulo the
/// ring's size. The used ring's flags are never written. It takes no memory.
pub fn put_used(mem: &mut GuestMem, layout: &Layout, pos: u16, head: u16, count: u32)
    requires { LiesIn (length mem.old) layout.now }
    ensures written { mem.new ≡ written (used_writes layout.now pos head count) mem.old }
    ensures length { length mem.new ≡ length mem.old }
{
    let element = element_of(head, count);
    mem.write(layout.used + 4 + 8 * u64::from(pos % layout.size), &element);
    mem.put_u16(layout.used + 2, pos.wrapping_add(1));
}

/// Whether the driver wants an interrupt when the chain at a position is used (VIRTIO 1.3, 2.7.7). `event` says whether event
/// indices are used: then exactly where the driver left this position behind the entries of the available ring; else
/// exactly where the flag `NO_INTERRUPT` of that ring isn't set. It takes no memory.
pub fn wants_interrupt(mem: &GuestMem, layout: &Layout, pos: u16, event: bool) -> bool
    requires { LiesIn (length mem.now) layout.now }
    ensures { result ≡ is_interrupt_wanted event mem.now layout.now pos }
{
    if event {
        pos == mem.u16_at(layout.avail + 4 + 2 * u64::from(layout.size))
    } else {
        mem.u16_at(layout.avail) & NO_INTERRUPT != NO_INTERRUPT
    }
}

/// Asks the driver for a notification of the next position (VIRTIO 1.3, 2.7.10): puts it behind the elements of the used
/// ring. It takes no memory.
pub fn put_event(mem: &mut GuestMem, layout: &Layout, pos: u16)
    requires { LiesIn (length mem.old) layout.now }
    ensures written { mem.new ≡ written (event_write layout.now pos ∷ []) mem.old }
    ensures length { length mem.new ≡ length mem.old }
{
    let at = layout.used + 4 + 8 * u64::from(layout.size);
    mem.put_u16(at, pos.wrapping_add(1));
}
