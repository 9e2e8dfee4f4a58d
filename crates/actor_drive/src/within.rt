//! Asks of a script's group.
ghost use Rattle.std.specs.Prelude.{◌↔◌, IsTrue};
ghost use Rattle.actor_drive.specs.Bounds.{IsOfGroup, OwnerNear, QueueNear};

use board_script::Script;
use group_calls::{Ask, OwnerCall, RingCall, WRITABLE_LIMIT};

// The ask's cell is one of the group's, and its numbers are within the limits.
pub(crate) fn is_of_group(script: &Script, ask: &Ask) -> bool
    ensures { IsTrue result ↔ IsOfGroup script.now ask.now }
{
    match ask {
        Ask::Owner(call) => owner_may_be_asked(script, call),
        Ask::Queue { index, call } => *index < script.queues() && queue_may_be_asked(call),
        Ask::Member { id, .. } => 1 <= *id && *id <= script.guests(),
    }
}

fn owner_may_be_asked(script: &Script, call: &OwnerCall) -> bool
    ensures { IsTrue result ↔ OwnerNear script.now call.now }
{
    match call {
        OwnerCall::SetVfs { count } => *count <= script.guests(),
        OwnerCall::Judge { writable, .. } => *writable <= WRITABLE_LIMIT,
        _ => true,
    }
}

fn queue_may_be_asked(call: &RingCall) -> bool
    ensures { IsTrue result ↔ QueueNear call.now }
{
    match call {
        RingCall::Post { writable, .. } => *writable <= WRITABLE_LIMIT,
        _ => true,
    }
}
