//! The service as a machine.
ghost use Rattle.std.specs.Prelude.{◌≡◌, ◌≤◌, Some, IsSomeAnd, IfSome, is_none};
ghost use Rattle.group_calls.specs.declared.ask.Ask.TheVariants.{Owner, Queue, Member};
ghost use Rattle.group_calls.specs.declared.owner.OwnerCall.TheVariants.{Judge};
ghost use Rattle.group_calls.specs.declared.queue.RingCall.TheVariants.{Pop, Complete};
ghost use Rattle.group_calls.specs.declared.member.MemberCall.TheVariants.{Act};
ghost use Rattle.group_calls.specs.Asks.{AnswersAsk};
ghost use Rattle.group_calls.specs.Limits.{writable_limit};
ghost use Rattle.serve_machine.specs.Service.{next_ask, after, is_serving};
ghost use Rattle.serve_machine.specs.Within.{writable_in, IsWithinAsk};

use crate::stage::Stage;
use crate::turn::{put_after_judge, put_after_pop, put_completing, put_ended};
use admin_wire::LegacyCmd;
use board_text::Piece;
use group_calls::{Ask, MemberCall, OwnerCall, RingCall, Told};

// The queue is asked for its next command.
fn put_pop(queue: u32, ask: &mut Option<Ask>)
    ensures { ask.new ≡ Some (Queue queue Pop) }
{
    *ask = Some(Ask::Queue {
        index: queue,
        call: RingCall::Pop,
    });
}

// The owner is asked to judge the command of these bytes.
fn put_judge(bytes: &Piece, writable: u32, ask: &mut Option<Ask>)
    ensures { ask.new ≡ Some (Owner (Judge bytes.now writable)) }
{
    *ask = Some(Ask::Owner(OwnerCall::Judge {
        bytes: bytes.copy(),
        writable,
    }));
}

// The member is asked for the register access.
fn put_act(id: u32, floor: u64, access: &LegacyCmd, ask: &mut Option<Ask>)
    ensures { ask.new ≡ Some (Member id floor (Act access.now)) }
{
    *ask = Some(Ask::Member {
        id,
        floor,
        call: MemberCall::Act(access.copy()),
    });
}

// The queue is asked to complete the command of this number.
fn put_complete(queue: u32, seq: u64, bytes: &Piece, floor: u64, ask: &mut Option<Ask>)
    ensures { ask.new ≡ Some (Queue queue (Complete seq bytes.now floor)) }
{
    *ask = Some(Ask::Queue {
        index: queue,
        call: RingCall::Complete {
            seq,
            bytes: bytes.copy(),
            floor,
        },
    });
}

/// One service of an administration queue: VIRTIO 1.3, 2.13 (administration virtqueues). Of this project.
#[derive(Debug, Drop)]
pub struct Server {
    queue: u32,
    stage: Stage,
    ghost few_writable: { writable_in stage ≤ writable_limit },
}

impl Server {
    /// A service of the queue of this number, which begins.
    pub fn new(queue: u32) -> Server
        ensures queue { result.queue ≡ queue }
        ensures stage { result.stage ≡ Stage.Popping }
    {
        Server {
            queue,
            stage: Stage::Popping,
        }
    }

    /// A service of the queue of this number, which has ended.
    pub fn ended(queue: u32) -> Server
        ensures queue { result.queue ≡ queue }
        ensures stage { result.stage ≡ Stage.Ended }
    {
        Server {
            queue,
            stage: Stage::Ended,
        }
    }

    /// The number of the queue.
    pub fn queue(&self) -> u32
        ensures { result ≡ self.now.queue }
    {
        self.queue
    }

    /// The next ask, or nothing once the service has ended. Judge is asked with at most 256 writable bytes.
    pub fn next(&self) -> Option<Ask>
        ensures value { result ≡ next_ask self.now.queue self.now.stage }
        ensures within { IfSome result IsWithinAsk }
    {
        let mut ask = None;
        self.put_next(&mut ask);
        ask
    }

    /// Puts the next ask in this place, or nothing once the service has ended. Judge is asked with at most 256 writable
    /// bytes.
    pub fn put_next(&self, ask: &mut Option<Ask>)
        ensures value { ask.new ≡ next_ask self.now.queue self.now.stage }
        ensures within { IfSome ask.new IsWithinAsk }
    {
        match &self.stage {
            Stage::Popping => put_pop(self.queue, ask),
            Stage::Judging { command, bytes } => put_judge(bytes, command.writable, ask),
            Stage::Acting {
                command,
                member,
                access,
            } => put_act(*member, command.tag.floor, access, ask),
            Stage::Completing { seq, bytes, floor } => put_complete(
                self.queue, *seq, bytes, *floor, ask,
            ),
            Stage::Ended => *ask = None,
        }
    }

    /// Goes on after the answer to the ask of `next`.
    pub fn feed(&mut self, told: Told)
        requires { IsSomeAnd (next_ask self.old.queue self.old.stage) (λ ask. AnswersAsk ask told) }
        ensures queue { self.new.queue ≡ self.old.queue }
        ensures stage { self.new.stage ≡ after self.old.stage told }
    {
        self.hear(&told);
    }

    /// Goes on as `feed` does, after an answer that is only lent.
    pub fn hear(&mut self, told: &Told)
        requires { IsSomeAnd (next_ask self.old.queue self.old.stage) (λ ask. AnswersAsk ask told.now) }
        ensures queue { self.new.queue ≡ self.old.queue }
        ensures stage { self.new.stage ≡ after self.old.stage told.now }
    {
        match &self.stage {
            Stage::Popping => put_after_pop(told, &mut self.stage),
            Stage::Judging { command, bytes: _ } => put_after_judge(
                *command,
                told,
                &mut self.stage,
            ),
            Stage::Acting { command, .. } => put_completing(*command, told, &mut self.stage),
            _ => put_ended(&mut self.stage),
        }
    }

    /// Nothing is left to ask.
    pub fn has_ended(&self) -> bool
        ensures { result ≡ is_none (next_ask self.now.queue self.now.stage) }
    {
        matches!(self.stage, Stage::Ended)
    }

    /// A command is fetched and its completion isn't answered yet.
    pub fn serving(&self) -> bool
        ensures { result ≡ is_serving self.now.stage }
    {
        !matches!(self.stage, Stage::Popping | Stage::Ended)
    }
}
