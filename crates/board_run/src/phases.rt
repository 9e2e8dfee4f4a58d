//! The parts of a run.
ghost use Rattle.std.specs.Prelude.{◌≡◌, ◌≤◌, ◌-◌, ℕ, Bool, true, List, length, map, IfOk};
ghost use Rattle.board_script.specs.Script.{Whole};
ghost use Rattle.journal.specs.Lines.{numbers};
ghost use Rattle.journal.specs.Performing.{Performed};
ghost use Rattle.journal.specs.Journals.{Journal};
ghost use Rattle.journal.specs.Worlds.{run, schedule};
ghost use Rattle.journal.specs.Settling.{enough, each_while, settled};
ghost use Rattle.actor_core.specs.Boards.{lines_now, lines_due};
ghost use Rattle.actor_core.specs.Actors.{StandsWhole};
ghost use Rattle.board_run.specs.Places.{who_at};
ghost use Rattle.board_run.specs.Running.{IsRunning, IsOneOf, AreRunning, HasTurnedOften};
ghost use Rattle.board_run.specs.Finishing.{test_due, test_of, MayRest, HasFinished};

use crate::making::place_of;
use crate::one_turn::turn;
use actor_core::Actor;
use board_script::Script;
use group_cells::PlainCells;
use std::alloc::AllocError as NoMemory;

/// The most steps that the drain asks of a member's queue. Of this project.
const STEP_LIMIT: u32 = 4096;

/// What an actor has to do. Of this project.
#[derive(Clone, Copy, Debug, PartialEq, Eq)]
pub enum Rest {
    /// The service that it has begun.
    Service,
    /// Its posted command.
    Command,
    /// Its lines.
    Lines,
}

// Whether the actor has this to do.
fn has_rest(rest: Rest, actor: &Actor) -> bool
    ensures { (s : Whole) (who : ℕ) (past : List Performed) → StandsWhole s who past actor.now → result ≡ test_due rest (lines_due s who actor.now.lines) s who past }
{
    match rest {
        Rest::Service => actor.serves(),
        Rest::Command => actor.waits(),
        Rest::Lines => actor.has_lines(),
    }
}

// At most so many turns of an actor while it has this to do.
fn finish_some(
    cells: &mut PlainCells,
    script: &Script,
    actor: &mut Actor,
    rest: Rest,
    most: u32,
) -> Result<(), NoMemory>
    requires run { (up : Bool) × ((j : Journal) × (IsRunning script.now up j cells.old × IsOneOf script.now up actor.old.performer.who j actor.old)) }
    requires rest { MayRest actor.old.performer.who rest }
    ensures finished { (up : Bool) (j : Journal) → IsRunning script.now up j cells.old → IsOneOf script.now up actor.old.performer.who j actor.old
        → IfOk result (λ unit. HasFinished script.now up actor.old.performer.who (test_due rest (lines_due script.now actor.old.performer.who actor.old.lines)) most j cells.new actor.new) }
    ensures due { (s : Whole) (who : ℕ) → lines_now s who actor.new.lines ≡ lines_now s who actor.old.lines }
{
    'turns: for turns in 0..most {
        if !has_rest(rest, actor) {
            return Ok(());
        }
        turn(cells, script, actor)?;
    }
    Ok(())
}

/// Turns of an actor while it has this to do. No line asks as often as the limit once no other actor has a turn.
pub fn finish(
    cells: &mut PlainCells,
    script: &Script,
    actor: &mut Actor,
    rest: Rest,
) -> Result<(), NoMemory>
    requires run { (up : Bool) × ((j : Journal) × (IsRunning script.now up j cells.old × IsOneOf script.now up actor.old.performer.who j actor.old)) }
    requires rest { MayRest actor.old.performer.who rest }
    ensures finished { (up : Bool) (j : Journal) → IsRunning script.now up j cells.old → IsOneOf script.now up actor.old.performer.who j actor.old
        → IfOk result (λ unit. HasFinished script.now up actor.old.performer.who (test_due rest (lines_due script.now actor.old.performer.who actor.old.lines)) (enough script.now actor.old.performer.who) j cells.new actor.new) }
    ensures due { (s : Whole) (who : ℕ) → lines_now s who actor.new.lines ≡ lines_now s who actor.old.lines }
{
    let count = actor.line_count(script);
    'lines: for lines in 0..count + 1 {
        finish_some(cells, script, actor, rest, STEP_LIMIT + 1)?;
    }
    Ok(())
}

// The same of one actor after another.
fn finish_each(
    cells: &mut PlainCells,
    script: &Script,
    actors: &mut Vec<Actor>,
    end: usize,
    rest: Rest,
) -> Result<(), NoMemory>
    requires some { 1 ≤ end }
    requires there { end ≤ length actors.old.items }
    requires all { (j : Journal) × AreRunning script.now j cells.old actors.old.items }
    ensures { (j : Journal) → AreRunning script.now j cells.old actors.old.items
        → IfOk result (λ unit. AreRunning script.now (each_while (test_of rest) script.now (map (who_at script.now) (numbers 1 (end - 1))) j) cells.new actors.new.items) }
{
    let _queues = script.queues();
    'actors: for place in 1..end {
        finish(cells, script, &mut actors[place], rest)?;
    }
    Ok(())
}

// So many turns of an actor.
fn turn_often(
    cells: &mut PlainCells,
    script: &Script,
    actor: &mut Actor,
    count: u32,
) -> Result<(), NoMemory>
    requires some { 1 ≤ actor.old.performer.who }
    requires run { (j : Journal) × (IsRunning script.now true j cells.old × IsOneOf script.now true actor.old.performer.who j actor.old) }
    ensures { (j : Journal) → IsRunning script.now true j cells.old → IsOneOf script.now true actor.old.performer.who j actor.old
        → IfOk result (λ unit. HasTurnedOften script.now true actor.old.performer.who count j cells.new actor.new) }
{
    'turns: for turns in 0..count {
        turn(cells, script, actor)?;
    }
    Ok(())
}

/// The turns of the script's schedule.
pub fn follow_schedule(
    cells: &mut PlainCells,
    script: &Script,
    actors: &mut Vec<Actor>,
) -> Result<(), NoMemory>
    requires { (j : Journal) × AreRunning script.now j cells.old actors.old.items }
    ensures { (j : Journal) → AreRunning script.now j cells.old actors.old.items
        → IfOk result (λ unit. AreRunning script.now (run script.now (schedule script.now) j) cells.new actors.new.items) }
{
    let _queues = script.queues();
    'pairs: for index in 0..script.turn_count() {
        let turns = script.turns(index);
        let place = place_of(script, turns.who);
        turn_often(cells, script, &mut actors[place], turns.count)?;
    }
    Ok(())
}

/// Services end, then the guests' posted commands, then all lines.
pub fn settle(
    cells: &mut PlainCells,
    script: &Script,
    actors: &mut Vec<Actor>,
) -> Result<(), NoMemory>
    requires { (j : Journal) × AreRunning script.now j cells.old actors.old.items }
    ensures { (j : Journal) → AreRunning script.now j cells.old actors.old.items
        → IfOk result (λ unit. AreRunning script.now (settled script.now j) cells.new actors.new.items) }
{
    let all = actors.len();
    let guests = script.guests() as usize + 1;
    finish_each(cells, script, actors, all, Rest::Service)?;
    finish_each(cells, script, actors, guests, Rest::Command)?;
    finish_each(cells, script, actors, all, Rest::Lines)
}
