//! The asks of an actor, one after another.
ghost use Rattle.std.specs.Prelude.{◌≡◌, ℕ, ◌≤◌, List, Option, None, false};
ghost use Rattle.board_script.specs.Script.{Whole};
ghost use Rattle.group_calls.specs.Asks.{AnswersAsk};
ghost use Rattle.journal.specs.Performing.{Performed};
ghost use Rattle.actor_core.specs.Found.{FitsActor};
ghost use Rattle.actor_core.specs.Boards.{lines_now};
ghost use Rattle.group_cells.specs.Cells.{IsSoundSight};
ghost use Rattle.actor_drive.specs.Shown.{shown_journal, frame_of, AreCellsOf};
ghost use Rattle.actor_drive.specs.Told.{MayAsk, IsTried, IsLeft, IsToldBy};
ghost use Rattle.actor_drive.specs.Driven.{IsBeside, HasEnded, IsFurther, AreOnward};

use crate::within::is_of_group;
use actor_core::Actor;
use board_io::Gate;
use board_script::Script;
use group_calls::{Ask, RingReply, Told};
use group_cells::{Asked, Cells};
use std::sync::Wait;
use std::thread;

// One try of an ask. None where the cell was busy.
fn try_ask<C: Cells>(cells: &mut C, ask: &Ask) -> Option<Told>
    requires { MayAsk (C.sight cells.old) ask.now }
    ensures tried { IsTried (C.sight cells.old) ask.now result (C.sight cells.new) }
    ensures sound { IsSoundSight (C.sight cells.new) }
    ensures group { C.group cells.new ≡ C.group cells.old }
{
    match ask {
        Ask::Owner(call) => match cells.owner(0, call) {
            Asked::Placed(placed) => Some(Told::Owner(placed)),
            Asked::Busy { word: _ } => None,
            Asked::NoMemory => Some(Told::NoMemory),
        },
        Ask::Queue { index, call } => match cells.queue(*index, 0, call) {
            Asked::Placed(placed) => Some(Told::Queue(placed)),
            Asked::Busy { word: _ } => None,
            Asked::NoMemory => Some(Told::NoMemory),
        },
        Ask::Member { id, floor, call } => match cells.member(*id, *floor, call) {
            Asked::Placed(placed) => Some(Told::Member(placed)),
            Asked::Busy { word: _ } => None,
            Asked::NoMemory => Some(Told::NoMemory),
        },
    }
}

// A queue serves another command: whoever fetched it has to go on first.
fn is_in_service(told: &Told) -> bool {
    match told {
        Told::Queue(placed) => matches!(placed.reply, RingReply::InService { .. }),
        _ => false,
    }
}

// The ask, once the cell isn't busy.
fn perform<C: Cells, G: Gate, R: Wait>(
    rt: &R,
    script: &Script,
    who: u32,
    ask: &Ask,
    cells: &mut C,
    gate: &G,
) -> Told
    requires cells { AreCellsOf script.now (frame_of (C.sight cells.old)) }
    requires may { MayAsk (C.sight cells.old) ask.now }
    ensures frame { frame_of (C.sight cells.new) ≡ frame_of (C.sight cells.old) }
    ensures left { IsLeft (C.sight cells.old).who ask.now result (shown_journal (C.sight cells.old)) (shown_journal (C.sight cells.new)) }
    ensures told { IsToldBy script.now (frame_of (C.sight cells.old)) (shown_journal (C.sight cells.old)) (shown_journal (C.sight cells.new)) ask.now result }
    ensures answers { AnswersAsk ask.now result }
    ensures sound { IsSoundSight (C.sight cells.new) }
    ensures group { C.group cells.new ≡ C.group cells.old }
{
    let _queues = script.queues();
    for _ in rt.forever() {
        gate.turn(who);
        if let Some(told) = try_ask(cells, ask) {
            return told;
        }
        thread::yield_now();
    }
    unreachable!()
}

/// Performs the asks of an actor until its lines have ended. The gate is called before each ask, and again where a cell was
/// busy. It may wait, and its thread yields where a cell was busy or a queue serves another command. An actor that is short
/// of memory goes on, too, as far as it asks for what the group has.
pub fn drive<C: Cells, G: Gate, R: Wait>(
    rt: &R,
    script: &Script,
    actor: &mut Actor,
    cells: &mut C,
    gate: &G,
)
    requires fits { FitsActor script.now actor.old }
    requires who { actor.old.performer.who ≡ (C.sight cells.old).who }
    requires cells { AreCellsOf script.now (frame_of (C.sight cells.old)) }
    requires beside { actor.old.short ≡ false → (past : List Performed) × IsBeside script.now past actor.old (C.sight cells.old) }
    ensures fits { FitsActor script.now actor.new }
    ensures who { actor.new.performer.who ≡ actor.old.performer.who }
    ensures due { (s : Whole) (who : ℕ) → lines_now s who actor.new.lines ≡ lines_now s who actor.old.lines }
    ensures short { actor.new.short ≡ false → actor.old.short ≡ false }
    ensures onward { AreOnward (C.sight cells.old) (C.sight cells.new) }
    ensures group { C.group cells.new ≡ C.group cells.old }
    ensures ended { (past : List Performed) → IsBeside script.now past actor.old (C.sight cells.old) → actor.new.short ≡ false
        → (now : List Performed) × (HasEnded script.now now actor.new (C.sight cells.new) × IsFurther past now) }
{
    let _queues = script.queues();
    let who = cells.who();
    for _ in rt.forever() {
        let asks = actor.next(script);
        if !asks {
            return;
        }
        let ask = actor.given();
        if !is_of_group(script, ask) {
            return;
        }
        let told = perform(rt, script, who, ask, cells, gate);
        if is_in_service(&told) {
            thread::yield_now();
        }
        actor.feed(told);
    }
    unreachable!()
}
