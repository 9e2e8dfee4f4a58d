//! The stage after an answer, in the place of the stage before.
ghost use Rattle.std.specs.Prelude.{◌≡◌};
ghost use Rattle.serve_machine.specs.Service.{after_pop, completing, after_judge};
ghost use Rattle.serve_machine.specs.Within.{IsShort, IsLow};

use crate::completion::{completed_under, put_completed_with};
use crate::stage::{Fetched, Stage};
use admin_wire::LegacyCmd;
use board_text::Piece;
use group_calls::{OwnerReply, Placed, RingReply, Told};

/// Nothing is left to ask.
pub(crate) fn put_ended(stage: &mut Stage)
    ensures { stage.new ≡ Stage.Ended }
{
    *stage = Stage::Ended;
}

// The owner is to judge the command, which has these bytes.
fn put_judging(command: Fetched, bytes: &Piece, stage: &mut Stage)
    ensures { stage.new ≡ Stage.Judging command bytes.now }
{
    *stage = Stage::Judging {
        command,
        bytes: bytes.copy(),
    };
}

// The member is to carry out the register access.
fn put_acting(command: Fetched, member: u32, access: &LegacyCmd, stage: &mut Stage)
    ensures { stage.new ≡ Stage.Acting command member access.now }
{
    *stage = Stage::Acting {
        command,
        member,
        access: access.copy(),
    };
}

/// After the queue was asked for a command.
pub(crate) fn put_after_pop(told: &Told, stage: &mut Stage)
    ensures { stage.new ≡ after_pop told.now }
{
    match told {
        Told::Queue(
            Placed {
                reply: RingReply::Fetched {
                    seq,
                    bytes,
                    writable,
                    tag,
                },
                ..
            },
        ) => {
            let command = Fetched {
                seq: *seq,
                writable: *writable,
                tag: *tag,
            };
            put_judging(command, bytes, stage);
        }
        _ => put_ended(stage),
    }
}

/// After the answer that decides the command, which is completed by the completion rule.
pub(crate) fn put_completing(command: Fetched, told: &Told, stage: &mut Stage)
    requires short { IsShort told.now }
    requires low { IsLow told.now }
    ensures { stage.new ≡ completing command told.now }
{
    *stage = Stage::Completing {
        seq: command.seq,
        bytes: Piece::new(),
        floor: completed_under(command.tag.floor, told),
    };
    if let Stage::Completing { bytes, .. } = stage {
        put_completed_with(told, command.writable, bytes);
    }
}

/// After the owner was asked for its verdict: a register access goes to its member.
pub(crate) fn put_after_judge(command: Fetched, told: &Told, stage: &mut Stage)
    requires short { IsShort told.now }
    requires low { IsLow told.now }
    ensures { stage.new ≡ after_judge command told.now }
{
    match told {
        Told::Owner(placed) => match &placed.reply {
            OwnerReply::Legacy {
                member,
                command: access,
            } => put_acting(command, *member, access, stage),
            _ => put_completing(command, told, stage),
        },
        _ => put_completing(command, told, stage),
    }
}
