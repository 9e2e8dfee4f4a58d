//! Where a line of an actor stands, whom and what it may name, and the one place that makes it.
ghost use Rattle.std.specs.Prelude.{◌≡◌, ◌≤◌, ◌<◌, IfOk, OnOk};
ghost use Rattle.script_words.specs.Values.{Gives, Steps};
ghost use Rattle.board_script.specs.Limits.{worker_limit};
ghost use Rattle.board_script.specs.SoFar.{queues_at, workers_at, guest_at, worker_at, queue_at};
ghost use Rattle.board_script.specs.Lines.{behind_board as behind_board_of, has_room as has_room_of, with_line, queue_named};
ghost use Rattle.board_script.specs.Bounds.{IsGuest, IsQueue, MayAsk};
ghost use Rattle.board_script.specs.Shapes.{AreBefore, Keeps};

use crate::draft::{Draft, Use};
use crate::script::{ActorLine, What};
use script_words::{Cause, Fault, Word, among};

// Where a line stands: what the script is read for, and the line's number.
#[derive(Clone, Copy, Debug, PartialEq, Eq)]
pub struct Place {
    pub used: Use,
    pub number: u32,
}

pub fn behind_board(draft: &Draft) -> Result<(), Fault>
    ensures { Gives result (behind_board_of draft.now) }
{
    if draft.has_board() {
        Ok(())
    } else {
        Err(Fault::Bad(Cause::Setup))
    }
}

fn has_room(used: Use, draft: &Draft) -> bool
    ensures { result ≡ has_room_of used draft.now }
{
    match used {
        Use::Group => true,
        Use::Alone => draft.has_room(),
    }
}

// Adds what an actor does as a line. The line is made where it is kept: one that is handed up through a result
// is copied each time.
#[inline(always)]
pub fn add(draft: &mut Draft, place: Place, who: u32, what: What) -> Result<(), Fault>
    requires may { MayAsk (queues_at draft.old.board) (workers_at draft.old.board) draft.old.guests who what }
    requires before { AreBefore place.number draft.old.lines }
    ensures value { Steps result draft.new (with_line place draft.old who what) }
    ensures kept { OnOk result (Keeps place.number draft.old draft.new) }
{
    if !has_room(place.used, draft) {
        return Err(Fault::Bad(Cause::Limit));
    }
    let line = ActorLine {
        number: place.number,
        who,
        what,
    };
    match draft.add_line(line) {
        Ok(()) => Ok(()),
        Err(_) => Err(Fault::NoMemory),
    }
}

pub fn guest(draft: &Draft, word: &Word) -> Result<u32, Fault>
    ensures value { Gives result (guest_at draft.now word.now) }
    ensures exists { IfOk result (IsGuest draft.now.guests) }
{
    among(word, 1, draft.guests() as u64 + 1)
}

pub fn worker(draft: &Draft, word: &Word) -> Result<u32, Fault>
    ensures value { Gives result (worker_at draft.now word.now) }
    ensures exists { IfOk result (λ n. n < workers_at draft.now.board) }
    ensures bound { IfOk result (λ n. n ≤ worker_limit) }
{
    among(word, 0, u64::from(draft.workers()))
}

pub fn queue(draft: &Draft, word: &Word) -> Result<u32, Fault>
    ensures value { Gives result (queue_at draft.now word.now) }
    ensures exists { IfOk result (λ n. n < queues_at draft.now.board) }
{
    among(word, 0, u64::from(draft.queues()))
}

pub fn queue_of_tail(draft: &Draft, word: &Option<Word>) -> Result<Option<u32>, Fault>
    ensures value { Gives result (queue_named draft.now word.now) }
    ensures exists { IfOk result (IsQueue (queues_at draft.now.board)) }
{
    match word {
        Some(word) => {
            let queue = queue(draft, word)?;
            Ok(Some(queue))
        }
        None => Ok(None),
    }
}
