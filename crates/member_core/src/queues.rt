//! What is kept of a queue.
use crate::entries::{begins, notifies};
use group_calls::{Kind, MemberCall, MemberReply};

/// Where a queue stands in its ring, as the number of its services modulo 65,536; whether a notification stands after every
/// step that found nothing; and whether it is halted. All of it since the latest reset, and since the latest write to the
/// queue's address.
#[derive(Clone, Copy)]
pub(crate) struct QueueFacts {
    pub(crate) position: u16,
    pub(crate) notified: bool,
    pub(crate) halted: bool,
}

impl QueueFacts {
    ghost use Rattle.std.specs.Prelude.{◌≡◌, ℕ};
    ghost use Rattle.group_calls.specs.declared.member.MemberCall.TheVariants.{Step};
    ghost use Rattle.member_core.specs.Queues.{first_facts, is_pending, goes_on, queue_then};

    /// Of a queue at first.
    pub(crate) fn new() -> QueueFacts
        ensures { result ≡ first_facts }
    {
        QueueFacts {
            position: 0,
            notified: false,
            halted: false,
        }
    }

    /// Whether the queue is to be served.
    pub(crate) fn is_pending(self) -> bool
        ensures { result ≡ is_pending self }
    {
        !self.halted && self.notified
    }

    /// After a step of this queue.
    fn stepped(self, reply: &MemberReply) -> QueueFacts
        ensures { (kind : Kind) (queue who : ℕ) → result ≡ goes_on kind queue record { who = who; call = Step queue; reply = reply.now } self }
    {
        match reply {
            MemberReply::Served { .. } => QueueFacts {
                position: self.position.wrapping_add(1),
                ..self
            },
            MemberReply::Empty => QueueFacts {
                notified: false,
                ..self
            },
            MemberReply::Halted(_) => QueueFacts {
                halted: true,
                ..self
            },
            _ => self,
        }
    }

    /// After an entry with which the queue doesn't begin afresh.
    fn continued(
        self,
        kind: &Kind,
        queue: u16,
        call: &MemberCall,
        reply: &MemberReply,
    ) -> QueueFacts
        ensures { (who : ℕ) → result ≡ goes_on kind.now queue record { who = who; call = call.now; reply = reply.now } self }
    {
        match call {
            MemberCall::Step { queue: stepped } => {
                if *stepped == queue {
                    self.stepped(reply)
                } else {
                    self
                }
            }
            _ => QueueFacts {
                notified: notifies(kind, queue, call, reply) || self.notified,
                ..self
            },
        }
    }

    /// After an entry, before which this queue was selected.
    #[inline(always)]
    pub(crate) fn after(
        self,
        kind: &Kind,
        queue: u16,
        selected: u16,
        call: &MemberCall,
        reply: &MemberReply,
    ) -> QueueFacts
        ensures { (who : ℕ) → result ≡ queue_then kind.now queue selected record { who = who; call = call.now; reply = reply.now } self }
    {
        if begins(queue, selected, call, reply) {
            QueueFacts::new()
        } else {
            self.continued(kind, queue, call, reply)
        }
    }
}
