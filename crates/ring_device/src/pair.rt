//! A chain of one buffer to read and one to write, which needs no list.
ghost use Rattle.std.specs.Prelude.{◌≡◌, false, length, not, ◌&&◌};
ghost use Rattle.ring_layout.specs.Layout.{LiesIn};
ghost use Rattle.ring_layout.specs.Chain.{has_next, is_written, ring_table};
ghost use Rattle.ring_device.specs.Buffers.{chain_buffers};
ghost use Rattle.ring_device.specs.Follow.{buffer_after};
ghost use Rattle.ring_device.specs.Pair.{pair_answer, pair_in, PairLiesIn};

use crate::available::{gap, head_at_position};
use crate::walk::{Met, meet};
use bitflags::Flags;
use guest_mem::GuestMem;
use ring_layout::{DescFlags, Descriptor, Layout, Table};

/// What stands at a position, for a device that takes only pairs of buffers.
#[derive(Clone, Copy, Debug, PartialEq, Eq)]
pub enum PairFound {
    /// A chain of two buffers in the memory, one to read and then one to write, each by its address and its length.
    Pair {
        head: u16,
        readable: u64,
        readable_len: u32,
        writable: u64,
        writable_len: u32,
    },
    /// No entry is available.
    Empty,
    /// Anything else: another chain, or a guest that broke a rule.
    Other,
}

// The buffer at an index of the ring's table, if there is one behind buffers to read.
fn buffer_at(mem: &GuestMem, layout: &Layout, index: u16) -> Option<Descriptor>
    requires { LiesIn (length mem.now) layout.now }
    ensures { result ≡ buffer_after mem.now (ring_table layout.now) false index }
{
    match meet(mem, &Table::of_ring(mem, layout), false, index) {
        Met::Buffer(part) => Some(part),
        Met::Named(_) | Met::Nothing => None,
    }
}

// Whether it is the first of a pair: a buffer to read, with another behind it.
fn is_first(part: &Descriptor) -> bool
    ensures { result ≡ (not (is_written part.now) && has_next part.now) }
{
    !part.flags.contains(DescFlags::WRITE) && part.flags.contains(DescFlags::NEXT)
}

// Whether it is the second of a pair: a buffer to write, with none behind it.
fn is_second(part: &Descriptor) -> bool
    ensures { result ≡ (is_written part.now && not (has_next part.now)) }
{
    part.flags.contains(DescFlags::WRITE) && !part.flags.contains(DescFlags::NEXT)
}

// The chain whose head stands at a position, if it is a pair.
fn pair_at(mem: &GuestMem, layout: &Layout, pos: u16) -> PairFound
    requires { LiesIn (length mem.now) layout.now }
    ensures pair { result ≡ pair_in (chain_buffers false mem.now layout.now pos) }
    ensures inside { PairLiesIn (length mem.now) result }
{
    let head = head_at_position(mem, layout, pos);
    let Some(first) = buffer_at(mem, layout, head) else {
        return PairFound::Other;
    };
    if !is_first(&first) {
        return PairFound::Other;
    }
    let Some(second) = buffer_at(mem, layout, first.next) else {
        return PairFound::Other;
    };
    if !is_second(&second) {
        return PairFound::Other;
    }
    PairFound::Pair {
        head,
        readable: first.addr,
        readable_len: first.len,
        writable: second.addr,
        writable_len: second.len,
    }
}

/// What stands at a position (VIRTIO 1.3, 2.7.5 and 2.7.6), which runs modulo 65,536: the pair exactly where `next_chain`,
/// without tables, finds a chain of two descriptors, the first without `WRITE` and the second with it; `Empty` exactly where it finds
/// `Empty`; `Other` in every other case. It takes no memory.
pub fn next_pair(mem: &GuestMem, layout: &Layout, pos: u16) -> PairFound
    requires { LiesIn (length mem.now) layout.now }
    ensures answer { result ≡ pair_answer mem.now layout.now pos }
    ensures inside { PairLiesIn (length mem.now) result }
{
    let gap = gap(mem, layout, pos);
    if gap == 0 {
        return PairFound::Empty;
    }
    if gap > layout.size {
        return PairFound::Other;
    }
    pair_at(mem, layout, pos)
}
