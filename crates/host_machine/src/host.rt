//! A line of the host as a machine.
ghost use Rattle.std.specs.Prelude.{◌≡◌, ◌+◌, ◌≤◌, false, length, IfOk, IsOk, IsSomeAnd, is_none};
ghost use Rattle.byte_fields.specs.Sizes.{guest_limit};
ghost use Rattle.group_calls.specs.Asks.{AnswersAsk};
ghost use Rattle.host_machine.specs.Machine.{first, next_ask, after};
ghost use Rattle.host_machine.specs.Within.{kills_in, queue_in, wants_memory};

use crate::line::HostLine;
use crate::stage::{Stage, Underway, after, first};
use board_text::Floors;
use group_calls::{Ask, MemberCall, OwnerCall, RingCall, Told};
use std::alloc::{AllocError as NoMemory, Global};

/// One line of the host, which it performs ask by ask. Whatever an answer is, the line goes on; want of memory shows no
/// floor. Of this project.
#[derive(Debug, Drop)]
pub struct Host {
    members: u32,
    queues: u32,
    line: Underway,
    ghost few: { members ≤ guest_limit },
    ghost room: { kills_in line.stage + length line.floors ≤ members },
    ghost some_queue: { queue_in line.stage ≤ queues },
}

// A call on a member of which the line knows no floor.
fn on_member(id: u32, call: MemberCall) -> Ask
    ensures { result ≡ Ask.Member id 0 call }
{
    Ask::Member { id, floor: 0, call }
}

impl Host {
    /// A line of a group of at most 16 members and so many queues, which begins.
    pub fn new(line: HostLine, members: u32, queues: u32) -> Host
        requires { members ≤ guest_limit }
        ensures members { result.members ≡ members }
        ensures queues { result.queues ≡ queues }
        ensures line { result.line ≡ first members line }
    {
        Host {
            members,
            queues,
            line: first(members, line),
        }
    }

    /// The next ask, or nothing once the line has ended. A frame is copied, and floors are, where a call has some; these alone
    /// may want memory.
    pub fn next(&self, alloc: Global) -> Result<Option<Ask>, NoMemory>
        ensures ok { IfOk result (λ ask. ask ≡ next_ask self.now.line) }
        ensures spares { wants_memory self.now.line.stage ≡ false → IsOk result }
    {
        let floors = &self.line.floors;
        Ok(match &self.line.stage {
            Stage::Delivering { member, frame } => Some(on_member(
                *member,
                MemberCall::Arrive {
                    frame: frame.copy()?,
                },
            )),
            Stage::Restarting { member } => Some(on_member(*member, MemberCall::Flr)),
            Stage::Disabling { member } => Some(on_member(*member, MemberCall::Kill)),
            Stage::Leaving { member, floor } => Some(Ask::Owner(OwnerCall::Gone {
                member: *member,
                floor: *floor,
            })),
            Stage::Killing => Some(on_member(floors.length() + 1, MemberCall::Kill)),
            Stage::Resetting => Some(Ask::Owner(OwnerCall::Reset {
                floors: Floors::of(alloc, floors)?,
            })),
            Stage::Closing { queue } => Some(Ask::Queue {
                index: *queue,
                call: RingCall::Reset {
                    floors: Floors::of(alloc, floors)?,
                },
            }),
            Stage::Ended => None,
        })
    }

    /// Goes on after the answer to the ask of `next`.
    pub fn feed(&mut self, told: Told)
        requires { IsSomeAnd (next_ask self.old.line) (λ ask. AnswersAsk ask told) }
        ensures members { self.new.members ≡ self.old.members }
        ensures queues { self.new.queues ≡ self.old.queues }
        ensures line { self.new.line ≡ after self.old.members self.old.queues self.old.line told }
    {
        self.hear(&told);
    }

    /// Goes on as `feed` does, after an answer that is only lent.
    pub fn hear(&mut self, told: &Told)
        requires { IsSomeAnd (next_ask self.old.line) (λ ask. AnswersAsk ask told.now) }
        ensures members { self.new.members ≡ self.old.members }
        ensures queues { self.new.queues ≡ self.old.queues }
        ensures line { self.new.line ≡ after self.old.members self.old.queues self.old.line told.now }
    {
        self.line = after(self.members, self.queues, &self.line, told);
    }

    /// Nothing is left to ask.
    pub fn has_ended(&self) -> bool
        ensures { result ≡ is_none (next_ask self.now.line) }
    {
        matches!(self.line.stage, Stage::Ended)
    }
}
