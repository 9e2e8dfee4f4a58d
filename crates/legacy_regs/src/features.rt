//! The feature bits that a device offers: VIRTIO 1.3, 2.2.
ghost use Rattle.std.specs.Prelude.{⊤, ◌≡◌, ◌^◌, ◌+◌, [], ◌∷◌, codes};
ghost use Rattle.legacy_regs.specs.Registers.{device_features, indirect_bit, event_bit};

use crate::device::Kind;
use bitflags::{Flag, Flags};

/// Feature bits of a legacy device. Bits 0 to 23 are of its kind, so a block and a network device may use the same.
#[derive(Clone, Copy)]
pub struct Features(u32);

impl Features {
    /// A block device is read-only: VIRTIO 1.3, 5.2.3.
    pub const BLK_RO: Features = Features(1 << 5);

    /// The block size of a block device is valid: VIRTIO 1.3, 5.2.3.
    pub const BLK_SIZE: Features = Features(1 << 6);

    /// A block device has the flush command: VIRTIO 1.3, 5.2.3.
    pub const BLK_FLUSH: Features = Features(1 << 9);

    /// A block device switches between writeback and writethrough: VIRTIO 1.3, 5.2.3.
    pub const BLK_CONFIG_WCE: Features = Features(1 << 11);

    /// A network device has a MAC: VIRTIO 1.3, 5.1.3.
    pub const NET_MAC: Features = Features(1 << 5);

    /// A network device has a link status: VIRTIO 1.3, 5.1.3.
    pub const NET_STATUS: Features = Features(1 << 16);

    /// A device takes descriptors of any layout: VIRTIO 1.3, 6.3.
    pub const ANY_LAYOUT: Features = Features(1 << 27);

    /// A chain may have a table of descriptors: VIRTIO 1.3, 6.
    pub const INDIRECT_DESC: Features = Features(1 << 28);

    /// Device and driver each name the position that they want to hear of: VIRTIO 1.3, 6.
    pub const EVENT_IDX: Features = Features(1 << 29);

    const NAMED: &'static [Flag<Features>] = &[
        Flag {
            name: "BLK_RO",
            value: Features::BLK_RO,
        },
        Flag {
            name: "BLK_SIZE",
            value: Features::BLK_SIZE,
        },
        Flag {
            name: "BLK_FLUSH",
            value: Features::BLK_FLUSH,
        },
        Flag {
            name: "BLK_CONFIG_WCE",
            value: Features::BLK_CONFIG_WCE,
        },
        Flag {
            name: "NET_MAC",
            value: Features::NET_MAC,
        },
        Flag {
            name: "NET_STATUS",
            value: Features::NET_STATUS,
        },
        Flag {
            name: "ANY_LAYOUT",
            value: Features::ANY_LAYOUT,
        },
        Flag {
            name: "INDIRECT_DESC",
            value: Features::INDIRECT_DESC,
        },
        Flag {
            name: "EVENT_IDX",
            value: Features::EVENT_IDX,
        },
    ];
}

impl Flags for Features {
    type Bits = u32;

    ghost exact = { ⊤ };

    ghost table = { (codes "BLK_RO", 32) ∷ (codes "BLK_SIZE", 64) ∷ (codes "BLK_FLUSH", 512) ∷ (codes "BLK_CONFIG_WCE", 2048) ∷ (codes "NET_MAC", 32) ∷ (codes "NET_STATUS", 65536) ∷ (codes "ANY_LAYOUT", 134217728) ∷ (codes "INDIRECT_DESC", 268435456) ∷ (codes "EVENT_IDX", 536870912) ∷ [] };

    ghost set_of = { λ f. f.0 };

    fn flags<'a>() -> &'a [Flag<Features>] {
        Features::NAMED
    }

    fn bits(&self) -> u32 {
        self.0
    }

    fn from_bits_retain(bits: u32) -> Features {
        Features(bits)
    }
}

/// The bits of the features that a device of this kind offers.
pub(crate) fn device_features(kind: &Kind) -> u32
    ensures { result ≡ device_features kind.now }
{
    let offered = match kind {
        Kind::Block { read_only, .. } => block_features(*read_only),
        Kind::Net { .. } => net_features(),
    };
    offered.bits()
}

// What a device of either kind offers.
fn every_device() -> Features
    ensures { result.0 ≡ 2 ^ 27 + 2 ^ indirect_bit + 2 ^ event_bit }
{
    Features::ANY_LAYOUT
        .union(Features::INDIRECT_DESC)
        .union(Features::EVENT_IDX)
}

fn block_features(read_only: bool) -> Features
    ensures { result.0 ≡ device_features (Kind.Block 0 read_only) }
{
    let always = Features::BLK_SIZE
        .union(Features::BLK_FLUSH)
        .union(Features::BLK_CONFIG_WCE)
        .union(every_device());
    if read_only {
        always.union(Features::BLK_RO)
    } else {
        always
    }
}

fn net_features() -> Features
    ensures { result.0 ≡ device_features (Kind.Net []) }
{
    Features::NET_MAC
        .union(Features::NET_STATUS)
        .union(every_device())
}
