//! Bring-up after an answer.
ghost use Rattle.std.specs.Prelude.{◌≡◌, slice_index};
ghost use Rattle.admin_wire.specs.Numbers.{status_number};
ghost use Rattle.vfio_driver.specs.Bring.{after_post, after_take, after_completion, after_good};

use crate::bring_stage::{BringCommand, BringStage, Brought};
use admin_wire::{DoneParts, Status, read_done, read_supported};
use board_text::Piece;
use group_calls::{RingReply, Told};

// The flags of the first entry of the notify information.
fn first_byte(bytes: &Piece) -> u8
    ensures { result ≡ slice_index bytes.now 0 }
{
    let bytes = bytes.as_slice();
    if bytes.is_empty() { 0 } else { bytes[0] }
}

// A command is to be posted.
fn posting(command: BringCommand) -> BringStage
    ensures { result ≡ BringStage.Posting command }
{
    BringStage::Posting { command }
}

// The group, or the member, can be used.
fn ready(floor: u64) -> BringStage
    ensures { result ≡ BringStage.Over (Brought.Ready floor) }
{
    BringStage::Over {
        brought: Brought::Ready { floor },
    }
}

// It can't be used, with this status, qualifier and list of opcodes.
fn unfit(status: u16, qualifier: u16, bits: u64) -> BringStage
    ensures { result ≡ BringStage.Over (Brought.Unfit status qualifier bits) }
{
    BringStage::Over {
        brought: Brought::Unfit {
            status,
            qualifier,
            bits,
        },
    }
}

// The command never came to a completion.
fn never_completed(status: Status) -> BringStage
    ensures { result ≡ BringStage.Over (Brought.Unfit (status_number status) 0 0) }
{
    unfit(status.number(), 0, 0)
}

// After a completion with status 0.
fn after_good(command: BringCommand, done: &DoneParts, floor: u64) -> BringStage
    ensures { result ≡ after_good command done.now floor }
{
    match command {
        BringCommand::Query => {
            let bits = read_supported(&done.payload);
            if bits % 128 == 127 {
                posting(BringCommand::Use)
            } else {
                unfit(done.status, done.qualifier, bits)
            }
        }
        BringCommand::Use => ready(floor),
        BringCommand::Info => {
            if first_byte(&done.payload) == 2 {
                ready(floor)
            } else {
                unfit(done.status, done.qualifier, 0)
            }
        }
    }
}

// After a completion.
fn after_completion(command: BringCommand, bytes: &Piece, floor: u64) -> BringStage
    ensures { result ≡ after_completion command bytes.now floor }
{
    let done = read_done(bytes);
    if done.has_status(Status::Ok) {
        after_good(command, &done, floor)
    } else {
        unfit(done.status, done.qualifier, 0)
    }
}

/// After a Post.
pub(crate) fn after_post(command: BringCommand, told: &Told) -> BringStage
    ensures { result ≡ after_post command told.now }
{
    match told {
        Told::Queue(placed) => match &placed.reply {
            RingReply::Seq(seq) => BringStage::Taking { command, seq: *seq },
            RingReply::Closed { floor: _ } => never_completed(Status::Einval),
            _ => posting(command),
        },
        _ => never_completed(Status::Enomem),
    }
}

/// After a Take.
pub(crate) fn after_take(command: BringCommand, seq: u64, told: &Told) -> BringStage
    ensures { result ≡ after_take command seq told.now }
{
    match told {
        Told::Queue(placed) => match &placed.reply {
            RingReply::Ready { bytes, floor } => after_completion(command, bytes, *floor),
            RingReply::Lost { floor: _ } => never_completed(Status::Einval),
            _ => BringStage::Taking { command, seq },
        },
        _ => BringStage::Taking { command, seq },
    }
}
