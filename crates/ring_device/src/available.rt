//! Entries of the available ring (VIRTIO 1.3, 2.7.6).
ghost use Rattle.std.specs.Prelude.{◌≡◌, length};
ghost use Rattle.ring_layout.specs.Layout.{LiesIn};
ghost use Rattle.ring_layout.specs.Chain.{available as head_at, gap as gap_of};

use guest_mem::GuestMem;
use ring_layout::Layout;

/// How many entries are available from a position on.
#[tactic(auto, unfolding(ring_layout::specs::Chain::gap))]
pub(crate) fn gap(mem: &GuestMem, layout: &Layout, pos: u16) -> u16
    requires { LiesIn (length mem.now) layout.now }
    ensures { result ≡ gap_of mem.now layout.now pos }
{
    mem.u16_at(layout.avail + 2).wrapping_sub(pos)
}

/// The head that stands at a position.
#[tactic(auto, unfolding(ring_layout::specs::Chain::available))]
pub(crate) fn head_at_position(mem: &GuestMem, layout: &Layout, pos: u16) -> u16
    requires { LiesIn (length mem.now) layout.now }
    ensures { result ≡ head_at mem.now layout.now pos }
{
    mem.u16_at(layout.avail + 4 + 2 * u64::from(pos % layout.size))
}
