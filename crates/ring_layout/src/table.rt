//! Tables of descriptors (VIRTIO 1.3, 2.7.5 and 2.7.5.3).
ghost use Rattle.std.specs.Prelude.{◌≡◌, ◌<◌, length, IfSome};
ghost use Rattle.ring_layout.specs.Layout.{LiesIn};
ghost use Rattle.ring_layout.specs.Chain.{descriptor, ring_table, named_table, TableLiesIn};

use crate::descriptor::{DescFlags, Descriptor};
use crate::layout::{DESCRIPTOR_SIZE, Layout};
use bitflags::Flags;
use guest_mem::GuestMem;

// How many bytes a descriptor of a table has.
const ENTRY_SIZE: u32 = 16;

// How many descriptors a table has at most that another descriptor names: a limit of this project.
const TABLE_LIMIT: u32 = 128;

/// A table of descriptors in the guest's memory: a ring's own (VIRTIO 1.3, 2.7.5), or one that a descriptor with `INDIRECT`
/// names (2.7.5.3).
#[derive(Clone, Copy, Debug, PartialEq, Eq)]
pub struct Table {
    /// The guest-physical address of the first byte.
    pub addr: u64,
    /// How many descriptors there are, of 16 bytes each.
    pub count: u16,
}

impl Table {
    // A table of so many descriptors at an address.
    fn new(addr: u64, count: u16) -> Table
        ensures { result ≡ record { addr = addr; count = count } }
    {
        Table { addr, count }
    }

    /// The ring's own table.
    pub fn of_ring(mem: &GuestMem, layout: &Layout) -> Table
        requires { LiesIn (length mem.now) layout.now }
        ensures value { result ≡ ring_table layout.now }
        ensures inside { TableLiesIn (length mem.now) result }
    {
        Table::new(layout.table, layout.size)
    }

    /// The table that is the buffer of a descriptor. `None` exactly where the buffer isn't in the memory, or hasn't 16 bytes
    /// for each of 1 to 128 descriptors.
    pub fn named_by(mem: &GuestMem, part: &Descriptor) -> Option<Table>
        ensures value { result ≡ named_table (length mem.now) part.now }
        ensures inside { IfSome result (TableLiesIn (length mem.now)) }
    {
        let count = part.len / ENTRY_SIZE;
        if mem.fits(part.addr, u64::from(part.len))
            && part.len % ENTRY_SIZE == 0
            && 1 <= count
            && count <= TABLE_LIMIT
        {
            Some(Table {
                addr: part.addr,
                count: count as u16,
            })
        } else {
            None
        }
    }

    /// The descriptor at an index, as the memory holds it now.
    #[tactic(auto, unfolding(crate::specs::Chain::descriptor))]
    pub fn read(&self, mem: &GuestMem, index: u16) -> Descriptor
        requires inside { TableLiesIn (length mem.now) self.now }
        requires index { index < self.now.count }
        ensures { result ≡ descriptor mem.now self.now.addr index }
    {
        let at = self.addr + DESCRIPTOR_SIZE * u64::from(index);
        Descriptor {
            addr: mem.u64_at(at),
            len: mem.u32_at(at + 8),
            flags: DescFlags::from_bits_retain(mem.u16_at(at + 12)),
            next: mem.u16_at(at + 14),
        }
    }
}
