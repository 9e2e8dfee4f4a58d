//! Along a chain, one descriptor after another (VIRTIO 1.3, 2.7.5).
ghost use Rattle.std.specs.Prelude.{◌≡◌, ◌+◌, ◌≤◌, true, Bool, List, Option, length, IfOk, IfSome};
ghost use Rattle.byte_fields.specs.Sizes.{memory_limit};
ghost use Rattle.ring_layout.specs.declared.descriptor.Descriptor.{Descriptor};
ghost use Rattle.ring_layout.specs.Layout.{LiesIn};
ghost use Rattle.ring_layout.specs.Chain.{table_limit, TableLiesIn};
ghost use Rattle.ring_device.specs.Buffers.{LieIn, chain_buffers};
ghost use Rattle.ring_device.specs.Kept.{buffer_limit};
ghost use Rattle.ring_device.specs.Follow.{may_follow as may_follow_after, met_at, IsSmall, onto, walked, any_written, reached, AreFew, table_behind as table_behind_of, named_walked, under_head};

use crate::available::head_at_position;
use crate::chain::Chain;
use bitflags::Flags;
use guest_mem::GuestMem;
use ring_layout::{DescFlags, Descriptor, Layout, Table};
use std::alloc::{AllocError as NoMemory, Global};

/// What is met at an index of a table.
#[derive(Clone, Copy)]
pub(crate) enum Met {
    /// A buffer that may stand behind those before it.
    Buffer(Descriptor),
    /// A descriptor with `INDIRECT`.
    Named(Descriptor),
    /// No descriptor, or a buffer that breaks a rule.
    Nothing,
}

// How a walk along one table ends.
#[derive(Clone, Copy)]
enum End {
    // With the last descriptor of a chain.
    Last,
    // With a descriptor that has `INDIRECT`.
    Names(Descriptor),
    // With a broken rule.
    Broken,
}

// Whether the buffer may stand behind one with WRITE or without.
fn may_follow(mem: &GuestMem, after_written: bool, part: &Descriptor) -> bool
    ensures value { result ≡ may_follow_after (length mem.now) after_written part.now }
    ensures small { result ≡ true → part.now.len ≤ memory_limit }
{
    mem.fits(part.addr, u64::from(part.len))
        && !part.flags.contains(DescFlags::INDIRECT)
        && (!after_written || part.flags.contains(DescFlags::WRITE))
}

/// What is met at an index of a table, behind a buffer with `WRITE` or without. The descriptor is read once.
pub(crate) fn meet(mem: &GuestMem, table: &Table, after_written: bool, index: u16) -> Met
    requires { TableLiesIn (length mem.now) table.now }
    ensures value { result ≡ met_at mem.now table.now after_written index }
    ensures small { IsSmall result }
{
    if index >= table.count {
        return Met::Nothing;
    }
    let part = table.read(mem, index);
    if may_follow(mem, after_written, &part) {
        Met::Buffer(part)
    } else if part.flags.contains(DescFlags::INDIRECT) {
        Met::Named(part)
    } else {
        Met::Nothing
    }
}

// Goes along a table from an index on, and takes each buffer into the chain. Each descriptor is read once, and at most as
// many as the table has, so a loop ends.
fn walk_table(chain: &mut Chain, mem: &GuestMem, table: &Table, first: u16) -> Result<End, NoMemory>
    requires table { TableLiesIn (length mem.now) table.now }
    requires few { length chain.old.parts + table.now.count ≤ buffer_limit }
    ensures reached { IfOk result (λ end. (own : Bool → Descriptor → Option (List Descriptor)) → reached own end chain.new.parts
        ≡ onto chain.old.parts (walked own mem.now table.now table.now.count (any_written chain.old.parts) first)) }
    ensures head { IfOk result (λ end. chain.new.head ≡ chain.old.head) }
    ensures few { IfOk result (AreFew (length chain.old.parts) table.now.count (length chain.new.parts)) }
{
    let mut index = first;
    for _met in 0..table.count {
        match meet(mem, table, chain.has_writable(), index) {
            Met::Buffer(part) => {
                chain.push(part)?;
                if !part.flags.contains(DescFlags::NEXT) {
                    return Ok(End::Last);
                }
                index = part.next;
            }
            Met::Named(part) => return Ok(End::Names(part)),
            Met::Nothing => return Ok(End::Broken),
        }
    }
    Ok(End::Broken)
}

// The table that a last descriptor names, where tables may be used (VIRTIO 1.3, 2.7.5.3).
fn table_behind(mem: &GuestMem, part: &Descriptor, indirect: bool) -> Option<Table>
    ensures value { result ≡ table_behind_of indirect (length mem.now) part.now }
    ensures inside { IfSome result (TableLiesIn (length mem.now)) }
{
    if indirect && !part.flags.contains(DescFlags::NEXT) {
        Table::named_by(mem, part)
    } else {
        None
    }
}

// The chain whose descriptors in the ring's table end with one that has `INDIRECT`, if that names a table whose descriptors
// break no rule.
fn walk_named(
    mut chain: Chain,
    mem: &GuestMem,
    part: &Descriptor,
    indirect: bool,
) -> Result<Option<Chain>, NoMemory>
    requires { length chain.parts + table_limit ≤ buffer_limit }
    ensures { IfOk result (λ found. found ≡ under_head chain.head (onto chain.parts (named_walked indirect mem.now (any_written chain.parts) part.now))) }
{
    let Some(table) = table_behind(mem, part, indirect) else {
        return Ok(None);
    };
    match walk_table(&mut chain, mem, &table, 0)? {
        End::Last => Ok(Some(chain)),
        End::Names(_) | End::Broken => Ok(None),
    }
}

/// The chain whose head stands at a position, if none of its descriptors breaks a rule; `indirect` says whether tables may be
/// used. Each descriptor is read once.
pub(crate) fn walk(
    alloc: Global,
    mem: &GuestMem,
    layout: &Layout,
    pos: u16,
    indirect: bool,
) -> Result<Option<Chain>, NoMemory>
    requires { LiesIn (length mem.now) layout.now }
    ensures chain { IfOk result (λ chain. chain ≡ chain_buffers indirect mem.now layout.now pos) }
    ensures inside { IfOk result (λ chain. IfSome chain (λ found. LieIn (length mem.now) found.parts)) }
{
    let head = head_at_position(mem, layout, pos);
    let mut chain = Chain::new(alloc, head);
    match walk_table(&mut chain, mem, &Table::of_ring(mem, layout), head)? {
        End::Last => Ok(Some(chain)),
        End::Names(part) => walk_named(chain, mem, &part, indirect),
        End::Broken => Ok(None),
    }
}
