//! The access after an answer. What has several hundred bytes is written where it stays, each by a function of its own.
ghost use Rattle.std.specs.Prelude.{◌≡◌, ℕ, Some};
ghost use Rattle.vfio_driver.specs.Access.{after_notify, after_post, after_take, after_completion, lost, IsRingTold};

use crate::access::{Answer, Known, Stage};
use admin_wire::{Qualifier, Status, read_done};
use board_text::Piece;
use group_calls::{MemberReply, RingReply, Told};

// The access is over.
fn close(stage: &mut Stage)
    ensures { stage.new ≡ Stage.Nothing }
{
    *stage = Stage::Nothing;
}

// The command is to be taken back.
fn take_back(queue: u32, seq: u64, reads: bool, stage: &mut Stage)
    ensures { stage.new ≡ Stage.Taking queue seq reads }
{
    *stage = Stage::Taking { queue, seq, reads };
}

// A read gives these bytes.
fn give_data(payload: Piece, answer: &mut Option<Answer>)
    ensures { answer.new ≡ Some (Answer.Data payload) }
{
    *answer = Some(Answer::Data(payload));
}

// A write is done.
fn give_written(answer: &mut Option<Answer>)
    ensures { answer.new ≡ Some Answer.Written }
{
    *answer = Some(Answer::Written);
}

// A read gives all ones, and a write is ignored.
fn give_ones(answer: &mut Option<Answer>)
    ensures { answer.new ≡ Some Answer.Ones }
{
    *answer = Some(Answer::Ones);
}

// The queue was full, after so many entries of it.
fn refuse_full(queue: u32, at: u64, answer: &mut Option<Answer>)
    ensures { answer.new ≡ Some (Answer.RefusedFull queue at) }
{
    *answer = Some(Answer::RefusedFull { queue, at });
}

// Memory ran out.
fn refuse_memory(answer: &mut Option<Answer>)
    ensures { answer.new ≡ Some Answer.RefusedMemory }
{
    *answer = Some(Answer::RefusedMemory);
}

// The member is gone.
fn lose(floor: u64, known: &mut Known, answer: &mut Option<Answer>)
    ensures known { known.new ≡ (lost known.old floor).known }
    ensures answer { answer.new ≡ (lost known.old floor).answer }
{
    *known = Known {
        floor: known.floor.max(floor),
        gone: true,
    };
    give_ones(answer);
}

/// After a doorbell.
pub(crate) fn after_notify(
    told: &Told,
    known: &mut Known,
    stage: &mut Stage,
    answer: &mut Option<Answer>,
)
    requires { IsRingTold told.now }
    ensures stage { stage.new ≡ (after_notify known.old told.now).stage }
    ensures known { known.new ≡ (after_notify known.old told.now).known }
    ensures answer { answer.new ≡ (after_notify known.old told.now).answer }
{
    close(stage);
    match told {
        Told::Member(placed) => match &placed.reply {
            MemberReply::Gone { floor } => lose((placed.at + 1).max(*floor), known, answer),
            _ => {
                known.floor = known.floor.max(placed.at + 1);
                give_written(answer);
            }
        },
        _ => refuse_memory(answer),
    }
}

/// After a Post. No answer stands in the place yet.
pub(crate) fn after_post(
    queue: u32,
    reads: bool,
    told: &Told,
    known: &mut Known,
    stage: &mut Stage,
    answer: &mut Option<Answer>,
)
    requires { answer.old ≡ None }
    ensures stage { stage.new ≡ (after_post known.old queue reads told.now).stage }
    ensures known { known.new ≡ (after_post known.old queue reads told.now).known }
    ensures answer { answer.new ≡ (after_post known.old queue reads told.now).answer }
{
    match told {
        Told::Queue(placed) => match &placed.reply {
            RingReply::Seq(seq) => take_back(queue, *seq, reads, stage),
            RingReply::Closed { floor } => {
                close(stage);
                lose(*floor, known, answer);
            }
            _ => {
                close(stage);
                refuse_full(queue, placed.at, answer);
            }
        },
        _ => {
            close(stage);
            refuse_memory(answer);
        }
    }
}

// After a completion.
fn after_completion(
    reads: bool,
    bytes: &Piece,
    known: &mut Known,
    stage: &mut Stage,
    answer: &mut Option<Answer>,
)
    ensures stage { stage.new ≡ (after_completion known.old reads bytes.now).stage }
    ensures known { known.new ≡ (after_completion known.old reads bytes.now).known }
    ensures answer { answer.new ≡ (after_completion known.old reads bytes.now).answer }
{
    close(stage);
    let done = read_done(bytes);
    if done.has_status(Status::Ok) {
        if reads {
            give_data(done.payload, answer);
        } else {
            give_written(answer);
        }
    } else if done.has_status(Status::Enomem) {
        refuse_memory(answer);
    } else if done.has_qualifier(Qualifier::InvalidField) {
        give_ones(answer);
    } else {
        lose(0, known, answer);
    }
}

/// After a Take. The command is taken back, and no answer stands in the place yet.
pub(crate) fn after_take(
    reads: bool,
    told: &Told,
    known: &mut Known,
    stage: &mut Stage,
    answer: &mut Option<Answer>,
)
    requires { answer.old ≡ None }
    ensures stage { (queue seq : ℕ) → stage.old ≡ Stage.Taking queue seq reads → stage.new ≡ (after_take known.old queue seq reads told.now).stage }
    ensures known { (queue seq : ℕ) → known.new ≡ (after_take known.old queue seq reads told.now).known }
    ensures answer { (queue seq : ℕ) → answer.new ≡ (after_take known.old queue seq reads told.now).answer }
{
    match told {
        Told::Queue(placed) => match &placed.reply {
            RingReply::Ready { bytes, floor } => {
                known.floor = known.floor.max(*floor);
                after_completion(reads, bytes, known, stage, answer);
            }
            RingReply::Lost { floor } => {
                close(stage);
                lose(*floor, known, answer);
            }
            _ => {}
        },
        _ => {}
    }
}
