//! What an entry is to queues, interrupts and the end of a member.
ghost use Rattle.std.specs.Prelude.{◌≡◌, ◌==◌, ◌&&◌, ◌||◌, ◌<◌, ℕ};
ghost use Rattle.group_calls.specs.MemberEntries.{is_done};
ghost use Rattle.group_calls.specs.MemberQueues.{is_address_write, rings, receives, notifies, bit_raised, takes_irqs};
ghost use Rattle.group_calls.specs.Member.{kills, is_memory_call};
ghost use Rattle.member_core.specs.Queues.{tells_queues, begins};
ghost use Rattle.member_core.specs.Vectors.{HasSmallVector};

use admin_wire::LegacyCmd;
use group_calls::{Irq, Kind, MemberCall, MemberReply};
use legacy_regs::{is_address_write, is_reset_write, notified_queue};

/// Whether a call goes to the guest's memory, which outlives the member.
pub(crate) fn is_memory_call(call: &MemberCall) -> bool
    ensures { result ≡ is_memory_call call.now }
{
    matches!(
        call,
        MemberCall::MemWrite { .. } | MemberCall::MemRead { .. }
    )
}

/// Whether a call may change what is kept of a queue.
pub(crate) fn tells_queues(call: &MemberCall) -> bool
    ensures { result ≡ tells_queues call.now }
{
    matches!(
        call,
        MemberCall::Act(LegacyCmd::CommonWrite { .. })
            | MemberCall::Notify { .. }
            | MemberCall::Step { .. }
            | MemberCall::Arrive { .. }
            | MemberCall::Flr
    )
}

/// Whether the reply is neither Gone nor Refused.
fn is_done(reply: &MemberReply) -> bool
    ensures { result ≡ is_done reply.now }
{
    !matches!(reply, MemberReply::Gone { .. } | MemberReply::Refused(_))
}

/// Whether a queue begins afresh with an entry, before which this one was selected.
pub(crate) fn begins(queue: u16, selected: u16, call: &MemberCall, reply: &MemberReply) -> bool
    ensures { (who : ℕ) → result ≡ begins queue selected record { who = who; call = call.now; reply = reply.now } }
{
    if !is_done(reply) {
        return false;
    }
    match call {
        MemberCall::Act(LegacyCmd::CommonWrite { offset, bytes }) => {
            is_reset_write(*offset, bytes)
                || (queue == selected && is_address_write(*offset, bytes))
        }
        MemberCall::Flr => true,
        _ => false,
    }
}

/// Whether a call is a notification of the queue.
fn rings(queue: u16, call: &MemberCall) -> bool
    ensures { result ≡ rings queue call.now }
{
    match call {
        MemberCall::Notify { queue: named } => *named == queue,
        MemberCall::Act(LegacyCmd::CommonWrite { offset, bytes }) => {
            notified_queue(*offset, bytes) == Some(queue)
        }
        _ => false,
    }
}

/// Whether the queue takes frames: queue 0 of a network device (VIRTIO 1.3, 5.1.2).
fn receives(kind: &Kind, queue: u16) -> bool
    ensures { result ≡ receives kind.now queue }
{
    match kind {
        Kind::Block { .. } => false,
        Kind::Net { .. } => queue == 0,
    }
}

/// Whether an entry counts as a notification of the queue.
pub(crate) fn notifies(kind: &Kind, queue: u16, call: &MemberCall, reply: &MemberReply) -> bool
    ensures { (who : ℕ) → result ≡ notifies kind.now queue record { who = who; call = call.now; reply = reply.now } }
{
    match (call, reply) {
        (MemberCall::Arrive { .. }, MemberReply::Arrived) => receives(kind, queue),
        _ => is_done(reply) && rings(queue, call),
    }
}

/// The vector that a service raised, as a bit.
pub(crate) fn bit_raised(call: &MemberCall, reply: &MemberReply) -> u32
    requires { HasSmallVector reply.now }
    ensures { (who : ℕ) → result ≡ bit_raised record { who = who; call = call.now; reply = reply.now } }
{
    match (call, reply) {
        (
            MemberCall::Step { .. },
            MemberReply::Served {
                irq: Irq::Vector(vector),
                ..
            },
        ) => { 1 << *vector }
        _ => 0,
    }
}

/// Whether the guest took the vectors that were raised.
pub(crate) fn takes_irqs(call: &MemberCall, reply: &MemberReply) -> bool
    ensures { (who : ℕ) → result ≡ takes_irqs record { who = who; call = call.now; reply = reply.now } }
{
    matches!(
        (call, reply),
        (MemberCall::TakeIrqs, MemberReply::Irqs { .. })
    )
}

/// Whether the member was killed.
pub(crate) fn kills(call: &MemberCall, reply: &MemberReply) -> bool
    ensures { (who : ℕ) → result ≡ kills record { who = who; call = call.now; reply = reply.now } }
{
    matches!((call, reply), (MemberCall::Kill, MemberReply::Killed))
}
