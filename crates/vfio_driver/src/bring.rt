//! Bring-up as a machine.
ghost use Rattle.std.specs.Prelude.{◌≡◌, true, Some, is_none, IsSomeAnd};
ghost use Rattle.group_calls.specs.Asks.{AnswersAsk};
ghost use Rattle.vfio_driver.specs.Bring.{command_bytes, command_room, first_stage, next_ask, after, brought_by};

use crate::bring_after::{after_post, after_take};
use crate::bring_stage::{BringCommand, BringStage, Brought};
use admin_wire::{
    LegacyCmd, QUERY_WRITABLE, USE_WRITABLE, writable_for, write_legacy, write_query, write_use,
};
use board_text::Piece;
use group_calls::{Ask, RingCall, Tag, Told};

/// The list commands, or the notify information of one member: VIRTIO 1.3, 2.12.1 (group administration commands).
#[derive(Debug, Drop)]
pub struct BringUp {
    member: u32,
    stage: BringStage,
}

// The bytes of a command.
fn command_bytes(member: u32, command: BringCommand) -> Piece
    ensures { result ≡ command_bytes member command }
{
    match command {
        BringCommand::Query => write_query(),
        BringCommand::Use => write_use(127),
        BringCommand::Info => write_legacy(u64::from(member), &LegacyCmd::Info),
    }
}

// How many bytes its completion may have.
fn command_room(command: BringCommand) -> u32
    ensures { result ≡ command_room command }
{
    match command {
        BringCommand::Query => QUERY_WRITABLE,
        BringCommand::Use => USE_WRITABLE,
        BringCommand::Info => writable_for(&LegacyCmd::Info),
    }
}

impl BringUp {
    /// The two list commands where the member is 0, else its notify information.
    pub fn new(member: u32) -> BringUp
        ensures member { result.member ≡ member }
        ensures stage { result.stage ≡ first_stage member }
    {
        let command = if member == 0 {
            BringCommand::Query
        } else {
            BringCommand::Info
        };
        BringUp {
            member,
            stage: BringStage::Posting { command },
        }
    }

    /// The next ask.
    pub fn next(&self) -> Ask
        requires { is_none (brought_by self.now.stage) ≡ true }
        ensures { Some result ≡ next_ask self.now.member self.now.stage }
    {
        match self.stage {
            BringStage::Posting { command } => Ask::Queue {
                index: 0,
                call: RingCall::Post {
                    bytes: command_bytes(self.member, command),
                    writable: command_room(command),
                    tag: Tag {
                        guest: self.member,
                        floor: 0,
                    },
                },
            },
            BringStage::Taking { command: _, seq } => Ask::Queue {
                index: 0,
                call: RingCall::Take { seq },
            },
            BringStage::Over { brought: _ } => unreachable!(),
        }
    }

    /// Goes on after the answer to the ask of `next`. Bring-up is over, or asks more.
    pub fn feed(&mut self, told: Told) -> Option<Brought>
        requires { IsSomeAnd (next_ask self.old.member self.old.stage) (λ ask. AnswersAsk ask told) }
        ensures member { self.new.member ≡ self.old.member }
        ensures stage { self.new.stage ≡ after self.old.stage told }
        ensures brought { result ≡ brought_by (after self.old.stage told) }
    {
        self.hear(&told)
    }

    /// Goes on as `feed` does, after an answer that is only lent.
    pub fn hear(&mut self, told: &Told) -> Option<Brought>
        requires { IsSomeAnd (next_ask self.old.member self.old.stage) (λ ask. AnswersAsk ask told.now) }
        ensures member { self.new.member ≡ self.old.member }
        ensures stage { self.new.stage ≡ after self.old.stage told.now }
        ensures brought { result ≡ brought_by (after self.old.stage told.now) }
    {
        self.stage = match self.stage {
            BringStage::Posting { command } => after_post(command, told),
            BringStage::Taking { command, seq } => after_take(command, seq, told),
            BringStage::Over { brought } => BringStage::Over { brought },
        };
        match self.stage {
            BringStage::Over { brought } => Some(brought),
            _ => None,
        }
    }
}
