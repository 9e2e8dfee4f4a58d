//! The lines of the schedule.
ghost use Rattle.std.specs.Prelude.{◌≡◌, ◌≤◌, IfOk, OnOk};
ghost use Rattle.script_words.specs.Values.{Gives, Steps};
ghost use Rattle.board_script.specs.Limits.{turns_limit};
ghost use Rattle.board_script.specs.SoFar.{workers_at, scheduled};
ghost use Rattle.board_script.specs.Lines.{actor_at, with_pair, with_pairs, go_says};
ghost use Rattle.board_script.specs.Bounds.{IsActor};

use crate::draft::Draft;
use crate::limits::{HOST, TURNS_LIMIT, WORKERS_FROM};
use crate::place::{behind_board, guest, worker};
use crate::script::Turns;
use script_words::{Cause, Fault, Head, Word, Words, number};

fn actor(draft: &Draft, head: &Head) -> Result<u32, Fault>
    ensures value { Gives result (actor_at draft.now head.now) }
    ensures exists { IfOk result (IsActor (workers_at draft.now.board) draft.now.guests) }
{
    match head {
        Head::Guest(digits) => guest(draft, digits),
        Head::Worker(digits) => {
            let worker = worker(draft, digits)?;
            Ok(WORKERS_FROM + worker)
        }
        Head::Name(_) => Ok(HOST),
    }
}

// An actor and its number of turns.
fn add_pair(draft: &mut Draft, actor_word: &Word, count: &Word) -> Result<(), Fault>
    ensures value { Steps result draft.new (with_pair draft.old actor_word.now count.now) }
    ensures lines { OnOk result (draft.new.lines ≡ draft.old.lines) }
{
    let who = actor(draft, &actor_word.head())?;
    let count = number(count, 0, TURNS_LIMIT)? as u32;
    match draft.add_turns(Turns { who, count }) {
        Ok(()) => Ok(()),
        Err(_) => Err(Fault::NoMemory),
    }
}

fn add_pairs(draft: &mut Draft, words: Words) -> Result<(), Fault>
    ensures value { Steps result draft.new (with_pairs draft.old words.entry) }
    ensures lines { OnOk result (draft.new.lines ≡ draft.old.lines) }
{
    let mut left = words;
    'pairs: while let Some((actor, rest)) = left.split() {
        let Some((count, rest)) = rest.split() else {
            return Ok(());
        };
        if let Err(fault) = add_pair(draft, &actor, &count) {
            return Err(fault);
        }
        left = rest;
    }
    Ok(())
}

/// `go ACTOR COUNT`, and further pairs.
pub fn add_go(draft: &mut Draft, words: Words) -> Result<(), Fault>
    ensures value { Steps result draft.new (go_says draft.old words.entry) }
    ensures lines { OnOk result (draft.new.lines ≡ draft.old.lines) }
    ensures limit { OnOk result (scheduled draft.new ≤ turns_limit) }
{
    behind_board(draft)?;
    add_pairs(draft, words)?;
    if draft.is_within_limit() {
        Ok(())
    } else {
        Err(Fault::Bad(Cause::Limit))
    }
}
