//! What kinds of device have legacy registers.
ghost use Rattle.std.specs.Prelude.{◌≡◌, ◌≤◌};
ghost use Rattle.legacy_regs.specs.Registers.{queue_count};

/// The kind of a device, and what its configuration shows of it.
#[derive(Clone, Copy, Debug, PartialEq, Eq)]
pub enum Kind {
    /// A block device (VIRTIO 1.3, 5.2) of so many sectors of 512 bytes. Its request queue is queue 0.
    Block { sectors: u64, read_only: bool },
    /// A network device (VIRTIO 1.3, 5.1) with this initial MAC. It receives by queue 0 and transmits by queue 1.
    Net { mac: [u8; 6] },
}

/// How many queues a device has.
pub(crate) fn queue_count(kind: &Kind) -> u16
    ensures count { result ≡ queue_count kind.now }
    ensures few { result ≤ 2 }
{
    match kind {
        Kind::Block { .. } => 1,
        Kind::Net { .. } => 2,
    }
}
