//! What stands at a position of the available ring.
ghost use Rattle.std.specs.Prelude.{◌≡◌, length, IfOk};
ghost use Rattle.ring_layout.specs.Layout.{LiesIn};
ghost use Rattle.ring_device.specs.Answer.{answer, LiesInside};

use crate::available::gap;
use crate::chain::Chain;
use crate::walk::walk;
use guest_mem::GuestMem;
use ring_layout::Layout;
use std::alloc::{AllocError as NoMemory, Global};

/// What is wrong in a ring.
#[derive(Clone, Copy, Debug, PartialEq, Eq)]
pub enum Bad {
    /// More entries are available than the ring has.
    Index,
    /// The entry is no head of a chain.
    Chain,
}

/// What stands at a position.
#[derive(Debug, Drop)]
pub enum Found {
    /// A chain of descriptors, all of whose buffers lie in the memory.
    Chain(Chain),
    /// No entry is available.
    Empty,
    /// The guest broke a rule.
    Bad(Bad),
}

/// What stands at a position (VIRTIO 1.3, 2.7.5 and 2.7.6), which runs modulo 65,536; `indirect` says whether tables of
/// descriptors may be used (2.7.5.3). The memory is the guest's and may hold anything. `Empty` exactly where no entry is
/// available; `Bad(Index)` exactly where more are than the ring has; `Bad(Chain)` exactly where an index isn't below the
/// size of its table, more descriptors of a table follow one another than it has, a buffer isn't in the memory, a buffer to
/// read follows one to write, or `INDIRECT` is set where it may not be: without `indirect`, beside `NEXT`, inside a table,
/// or with a buffer that isn't one of 1 to 128 descriptors; else the chain. `NoMemory` where the chain's list can't be had.
pub fn next_chain(
    alloc: Global,
    mem: &GuestMem,
    layout: &Layout,
    pos: u16,
    indirect: bool,
) -> Result<Found, NoMemory>
    requires { LiesIn (length mem.now) layout.now }
    ensures answer { IfOk result (λ found. found ≡ answer indirect mem.now layout.now pos) }
    ensures inside { IfOk result (LiesInside (length mem.now)) }
{
    let gap = gap(mem, layout, pos);
    if gap == 0 {
        return Ok(Found::Empty);
    }
    if gap > layout.size {
        return Ok(Found::Bad(Bad::Index));
    }
    match walk(alloc, mem, layout, pos, indirect)? {
        Some(chain) => Ok(Found::Chain(chain)),
        None => Ok(Found::Bad(Bad::Chain)),
    }
}
