//! What is seen of a queue.
use crate::entries::{finds_nothing, halts, is_reset, moves_ring, notifies, serves};
use group_calls::{Kind, MemberCall, MemberReply};

/// Where a queue stands in its ring, as the number of its services modulo 65,536; whether a notification stands after every
/// step that found nothing; and whether it is halted. All of it since the latest reset, and since the latest write to the
/// queue's address.
#[derive(Clone, Copy)]
pub(crate) struct QueueSeen {
    pub(crate) position: u16,
    pub(crate) notified: bool,
    pub(crate) halted: bool,
}

impl QueueSeen {
    ghost use Rattle.std.specs.Prelude.{◌≡◌, ◌==◌, ◌&&◌, ◌||◌};
    ghost use Rattle.lone_device.specs.Entries.{entry};
    ghost use Rattle.lone_device.specs.Queues.{unseen, is_pending as is_pending_of, begins, goes_on, queue_then};

    /// Of a queue at first.
    pub(crate) fn new() -> QueueSeen
        ensures { result ≡ unseen }
    {
        QueueSeen {
            position: 0,
            notified: false,
            halted: false,
        }
    }

    /// Whether the queue is to be served.
    pub(crate) fn is_pending(self) -> bool
        ensures { result ≡ is_pending_of self }
    {
        !self.halted && self.notified
    }

    // After an entry with which the queue doesn't begin afresh.
    fn continued(self, kind: &Kind, queue: u16, call: &MemberCall, reply: &MemberReply) -> QueueSeen
        ensures { result ≡ goes_on kind.now queue (entry call.now reply.now) self }
    {
        QueueSeen {
            position: if serves(queue, call, reply) {
                self.position.wrapping_add(1)
            } else {
                self.position
            },
            notified: if finds_nothing(queue, call, reply) {
                false
            } else {
                notifies(kind, queue, call, reply) || self.notified
            },
            halted: halts(queue, call, reply) || self.halted,
        }
    }

    /// After an entry, before which this queue was selected.
    pub(crate) fn after(
        self,
        kind: &Kind,
        queue: u16,
        selected: u16,
        call: &MemberCall,
        reply: &MemberReply,
    ) -> QueueSeen
        ensures { result ≡ queue_then kind.now queue selected (entry call.now reply.now) self }
    {
        if is_reset(call, reply) || (queue == selected && moves_ring(call, reply)) {
            QueueSeen::new()
        } else {
            self.continued(kind, queue, call, reply)
        }
    }
}
