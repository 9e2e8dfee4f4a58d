//! What an entry of the device's history is to queues, frames, interrupts and the end of the device.
ghost use Rattle.std.specs.Prelude.{◌≡◌, ◌==◌, ◌&&◌, ◌||◌};
ghost use Rattle.group_calls.specs.MemberEntries.{is_done as is_done_of, is_reset as is_reset_of, done_write};
ghost use Rattle.group_calls.specs.MemberQueues.{is_address_write as is_address_write_of, rings as rings_of, receives as receives_of, notifies as notifies_of, is_step, is_served as is_served_of, is_empty as is_empty_of, is_halt as is_halt_of, leaves_backlog as leaves_backlog_of, bit_raised as bit_raised_of, takes_irqs as takes_irqs_of};
ghost use Rattle.group_calls.specs.Member.{kills as kills_of};
ghost use Rattle.legacy_regs.specs.declared.accesses.Space.TheVariants.{Common};
ghost use Rattle.lone_device.specs.Entries.{entry, HasSmallVector, msix_then};

use admin_wire::LegacyCmd;
use group_calls::{Irq, Kind, MemberCall, MemberReply};
use legacy_regs::{is_address_write, is_reset_write, notified_queue};

/// Whether the reply is neither Gone nor Refused.
pub(crate) fn is_done(reply: &MemberReply) -> bool
    ensures { result ≡ is_done_of reply.now }
{
    !matches!(reply, MemberReply::Gone { .. } | MemberReply::Refused(_))
}

/// Whether the device begins afresh: a done write of 0 to device status, or a done function level reset (VIRTIO 1.3, 2.4).
pub(crate) fn is_reset(call: &MemberCall, reply: &MemberReply) -> bool
    ensures { result ≡ is_reset_of (entry call.now reply.now) }
{
    if !is_done(reply) {
        return false;
    }
    match call {
        MemberCall::Act(LegacyCmd::CommonWrite { offset, bytes }) => is_reset_write(*offset, bytes),
        MemberCall::Flr => true,
        _ => false,
    }
}

/// Whether the address of the selected queue is written (VIRTIO 1.3, 2.7.2).
pub(crate) fn moves_ring(call: &MemberCall, reply: &MemberReply) -> bool
    ensures { result ≡ is_address_write_of (done_write Common (entry call.now reply.now)) }
{
    if !is_done(reply) {
        return false;
    }
    match call {
        MemberCall::Act(LegacyCmd::CommonWrite { offset, bytes }) => {
            is_address_write(*offset, bytes)
        }
        _ => false,
    }
}

/// Whether the entry is a step of the queue that served a chain.
pub(crate) fn serves(queue: u16, call: &MemberCall, reply: &MemberReply) -> bool
    ensures { result ≡ is_step is_served_of queue (entry call.now reply.now) }
{
    match (call, reply) {
        (MemberCall::Step { queue: stepped }, MemberReply::Served { .. }) => *stepped == queue,
        _ => false,
    }
}

/// Whether it is a step of the queue that found nothing.
pub(crate) fn finds_nothing(queue: u16, call: &MemberCall, reply: &MemberReply) -> bool
    ensures { result ≡ is_step is_empty_of queue (entry call.now reply.now) }
{
    match (call, reply) {
        (MemberCall::Step { queue: stepped }, MemberReply::Empty) => *stepped == queue,
        _ => false,
    }
}

/// Whether it is a step that halted the queue.
pub(crate) fn halts(queue: u16, call: &MemberCall, reply: &MemberReply) -> bool
    ensures { result ≡ is_step is_halt_of queue (entry call.now reply.now) }
{
    match (call, reply) {
        (MemberCall::Step { queue: stepped }, MemberReply::Halted(_)) => *stepped == queue,
        _ => false,
    }
}

/// Whether a call notifies the queue (VIRTIO 1.3, 2.9).
fn rings(queue: u16, call: &MemberCall) -> bool
    ensures { result ≡ rings_of queue call.now }
{
    match call {
        MemberCall::Notify { queue: named } => *named == queue,
        MemberCall::Act(LegacyCmd::CommonWrite { offset, bytes }) => {
            notified_queue(*offset, bytes) == Some(queue)
        }
        _ => false,
    }
}

/// Whether the queue takes frames: queue 0 of a network device (VIRTIO 1.3, 5.1.2).
pub(crate) fn receives(kind: &Kind, queue: u16) -> bool
    ensures { result ≡ receives_of kind.now queue }
{
    match kind {
        Kind::Block { .. } => false,
        Kind::Net { .. } => queue == 0,
    }
}

/// Whether the entry counts as a notification of the queue.
pub(crate) fn notifies(kind: &Kind, queue: u16, call: &MemberCall, reply: &MemberReply) -> bool
    ensures { result ≡ notifies_of kind.now queue (entry call.now reply.now) }
{
    match (call, reply) {
        (MemberCall::Arrive { .. }, MemberReply::Arrived) => receives(kind, queue),
        _ => is_done(reply) && rings(queue, call),
    }
}

/// Whether the first of the frames that wait leaves.
pub(crate) fn leaves_backlog(call: &MemberCall, reply: &MemberReply) -> bool
    ensures { result ≡ leaves_backlog_of (entry call.now reply.now) }
{
    match (call, reply) {
        (MemberCall::Step { queue }, MemberReply::Served { .. }) => *queue == 0,
        (MemberCall::Step { .. }, MemberReply::Dropped) => true,
        _ => false,
    }
}

/// The vector that a service raised, as a bit (VIRTIO 1.3, 4.1.5.1.2). No device has a vector above 2.
pub(crate) fn bit_raised(call: &MemberCall, reply: &MemberReply) -> u32
    ensures { HasSmallVector reply.now → result ≡ bit_raised_of (entry call.now reply.now) }
{
    match (call, reply) {
        (
            MemberCall::Step { .. },
            MemberReply::Served {
                irq: Irq::Vector(vector),
                ..
            },
        ) if *vector <= 2 => 1 << *vector,
        _ => 0,
    }
}

/// Whether the guest took the vectors that were raised.
pub(crate) fn takes_irqs(call: &MemberCall, reply: &MemberReply) -> bool
    ensures { result ≡ takes_irqs_of (entry call.now reply.now) }
{
    matches!(
        (call, reply),
        (MemberCall::TakeIrqs, MemberReply::Irqs { .. })
    )
}

/// Whether MSI-X is enabled after the entry (VIRTIO 1.3, 4.1.5.1.2).
pub(crate) fn msix_after(msix: bool, call: &MemberCall, reply: &MemberReply) -> bool
    ensures { result ≡ msix_then (entry call.now reply.now) msix }
{
    match call {
        MemberCall::Msix { on } => { if is_done(reply) { *on } else { msix } }
        _ => msix,
    }
}

/// Whether the device was killed.
pub(crate) fn kills(call: &MemberCall, reply: &MemberReply) -> bool
    ensures { result ≡ kills_of (entry call.now reply.now) }
{
    matches!((call, reply), (MemberCall::Kill, MemberReply::Killed))
}
