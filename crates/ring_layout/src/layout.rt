//! Where the three parts of a legacy split virtqueue lie (VIRTIO 1.3, 2.7.2).
ghost use Rattle.std.specs.Prelude.{◌≡◌, ◌≤◌, ◌<◌, ◌+◌, ◌^◌, true, IfSome};
ghost use Rattle.byte_fields.specs.Sizes.{is_queue_size, page_size};
ghost use Rattle.ring_layout.specs.Layout.{LiesIn, layout_at as layout_of, legacy_layout, next_page as page_after};

use guest_mem::PAGE_SIZE;

/// A virtqueue's place in the guest's memory. All addresses are guest-physical.
#[derive(Clone, Copy, Debug, PartialEq, Eq)]
pub struct Layout {
    /// The first byte of the descriptor table (VIRTIO 1.3, 2.7.5).
    pub table: u64,
    /// The first byte of the available ring, right after the table (VIRTIO 1.3, 2.7.6).
    pub avail: u64,
    /// The first byte of the used ring, at the next multiple of 4,096 (VIRTIO 1.3, 2.7.8).
    pub used: u64,
    /// The first byte after the used ring.
    pub end: u64,
    /// How many descriptors, available entries and used elements there are.
    pub size: u16,
}

// How many bytes one descriptor, one entry of the available ring and one element of the used ring have.
pub(crate) const DESCRIPTOR_SIZE: u64 = 16;

const ENTRY_SIZE: u64 = 2;

const ELEMENT_SIZE: u64 = 8;

// Flags, index and event of either ring have two bytes each.
const RING_FIELDS: u64 = 3;

// The next multiple of the page size, which is the number itself where it is one.
fn next_page(addr: u64) -> u64
    requires { addr ≤ 2 ^ 63 }
    ensures value { result ≡ page_after addr }
    ensures bound { result < addr + page_size }
{
    (addr + PAGE_SIZE - 1) / PAGE_SIZE * PAGE_SIZE
}

// The virtqueue of a size at a page, wherever it ends.
fn layout_at(page: u32, size: u16) -> Layout
    ensures { result ≡ layout_of page size }
{
    let table = PAGE_SIZE * u64::from(page);
    let entries = u64::from(size);
    let avail = table + DESCRIPTOR_SIZE * entries;
    let used = next_page(avail + ENTRY_SIZE * (RING_FIELDS + entries));
    Layout {
        table,
        avail,
        used,
        end: used + ENTRY_SIZE * RING_FIELDS + ELEMENT_SIZE * entries,
        size,
    }
}

/// The virtqueue of a size at a page, in a memory of so many bytes. The size is a power of two from 4 to 256, as callers
/// have to show. `None` exactly where the page is 0 or the end passes the memory.
pub fn legacy(page: u32, size: u16, memory: u64) -> Option<Layout>
    requires { is_queue_size size ≡ true }
    ensures value { result ≡ legacy_layout page size memory }
    ensures inside { IfSome result (LiesIn memory) }
{
    if page == 0 {
        return None;
    }
    let layout = layout_at(page, size);
    if layout.end > memory {
        None
    } else {
        Some(layout)
    }
}
