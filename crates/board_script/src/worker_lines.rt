//! The lines of workers.
ghost use Rattle.std.specs.Prelude.{OnOk};
ghost use Rattle.script_words.specs.Values.{Steps};
ghost use Rattle.board_script.specs.Lines.{serve_says, worker_poll_says};
ghost use Rattle.board_script.specs.Shapes.{AreBefore, Keeps};

use crate::draft::Draft;
use crate::limits::{INDEX_LIMIT, WORKERS_FROM};
use crate::place::{Place, add, behind_board, guest, queue, worker};
use crate::script::What;
use script_words::{Fault, Word, number};

/// `wK serve Q`
pub fn serve(
    draft: &mut Draft,
    place: Place,
    worker_word: &Word,
    queue_word: &Word,
) -> Result<(), Fault>
    requires { AreBefore place.number draft.old.lines }
    ensures value { Steps result draft.new (serve_says place draft.old worker_word.now queue_word.now) }
    ensures kept { OnOk result (Keeps place.number draft.old draft.new) }
{
    behind_board(draft)?;
    let worker = worker(draft, worker_word)?;
    let queue = queue(draft, queue_word)?;
    add(draft, place, WORKERS_FROM + worker, What::Serve { queue })
}

/// `wK poll N V`
pub fn worker_poll(
    draft: &mut Draft,
    place: Place,
    worker_word: &Word,
    member: &Word,
    queue: &Word,
) -> Result<(), Fault>
    requires { AreBefore place.number draft.old.lines }
    ensures value { Steps result draft.new (worker_poll_says place draft.old worker_word.now member.now queue.now) }
    ensures kept { OnOk result (Keeps place.number draft.old draft.new) }
{
    behind_board(draft)?;
    let worker = worker(draft, worker_word)?;
    let member = guest(draft, member)?;
    let queue = number(queue, 0, INDEX_LIMIT)? as u16;
    let who = WORKERS_FROM + worker;
    add(draft, place, who, What::WorkerPoll { member, queue })
}
