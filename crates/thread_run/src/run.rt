//! A whole run, each actor in a thread of its own.
ghost use Rattle.std.specs.Prelude.{◌≡◌, IfOk, Some, false, slice_get};
ghost use Rattle.std.specs.List.{list_any};
ghost use Rattle.group_cells.specs.Shared.{KeySet};
ghost use Rattle.group_cells.specs.Ring.{with_floors};
ghost use Rattle.group_cells.specs.Opening.{AreHome, IsMadeBy};
ghost use Rattle.thread_run.specs.Jobs.{IsReady};
ghost use Rattle.thread_run.specs.Through.{HasPerformed, HavePerformed};
ghost use Rattle.thread_run.specs.Runs.{IsLegalRun};

use crate::gathering::put_home;
use crate::job::{Job, perform};
use crate::starting::new_jobs;
use actor_core::{Actor, Actors};
use board_io::Gate;
use board_run::Ran;
use board_script::Script;
use group_cells::{Cells, Group, KeyRing, OpenGroup};
use std::alloc::{AllocError as NoMemory, Global};
use std::sync::Wait;
use std::thread;
use std::thread::Threads;
use thread_laws::{gathered_is_legal, others_are_idle};

// The board performs its lines by its keys, which are home before and after them. It may wait.
fn perform_own<G: Gate, R: Wait>(
    rt: &R,
    script: &Script,
    group: &Group,
    gate: &G,
    ring: &mut KeyRing,
    board: Actor,
) -> Actor
    requires group { ring.old.group ≡ group.now }
    requires ready { (h : KeySet) × (slice_get ring.old.keys 0 ≡ Some (Some h)) × IsReady script.now group.now board (with_floors ring.old.floors h) }
    ensures { (h : KeySet) → slice_get ring.old.keys 0 ≡ Some (Some h) → HasPerformed script.now ring.old h board ring.new result }
{
    let Some(keys) = ring.take(0) else {
        unreachable!();
    };
    let ready = Job { actor: board, keys };
    let Job { actor, keys } = perform(rt, script, group, gate, ready);
    ring.put_back(keys);
    actor
}

// All actors but the board perform their lines side by side, each in a thread of its own where one can be had. It may wait.
fn perform_others<G: Gate + Sync, R: Threads + Wait + Sync>(
    rt: &R,
    alloc: Global,
    script: &Script,
    group: &Group,
    gate: &G,
    ring: &mut KeyRing,
) -> Result<Vec<Actor>, NoMemory>
    requires made { IsMadeBy script.now group.now }
    requires group { ring.old.group ≡ group.now }
    requires home { AreHome group.now 1 ring.old.keys }
    ensures { IfOk result (λ actors. HavePerformed script.now ring.old ring.new actors.items) }
{
    let jobs = new_jobs(alloc, script, ring)?;
    let ends = thread::map_vec(rt, jobs, &|job: Job| perform(rt, script, group, gate, job))?;
    let mut actors = Vec::new(alloc);
    actors.reserve(ends.len() + 1)?;
    Ok(put_home(ring, ends, actors))
}

/// The run of a script, in which the actors perform their lines side by side, each in a thread of its own where one can be
/// had; before them the board brings the group up, and after them it drains it. It may wait. The schedule is ignored. Where an
/// actor was short of memory there is none.
pub fn run_threads<G: Gate + Sync, R: Threads + Wait + Sync>(
    rt: &R,
    alloc: Global,
    script: &Script,
    gate: &G,
) -> Result<Ran, NoMemory>
    ensures run { IfOk result (λ ran. IsLegalRun script.now ran.cells ran.actors.items.items ran.left.items.items) }
    ensures recorded { IfOk result (λ ran. list_any (λ actor. actor.short) ran.actors.items.items ≡ false) }
{
    let _queues = script.queues();
    // Their clauses are the laws that this contract stands on.
    gathered_is_legal();
    others_are_idle();
    let OpenGroup {
        group,
        keys: mut ring,
    } = Group::open(alloc, script)?;
    let board = Actor::new(alloc, script, 0, 1)?;
    let mut board = perform_own(rt, script, &group, gate, &mut ring, board);
    // Nobody waits for what a board that is short of memory hasn't brought up.
    if board.short() {
        return Err(NoMemory);
    }
    let mut actors = perform_others(rt, alloc, script, &group, gate, &mut ring)?;
    board.begin_drain();
    let mut board = perform_own(rt, script, &group, gate, &mut ring, board);
    let left = board.take_left();
    actors.insert(0, board)?;
    let actors = Actors::of(actors);
    if actors.is_one_short() {
        return Err(NoMemory);
    }
    let cells = group.close(ring);
    let _who = cells.who();
    Ok(Ran {
        cells,
        actors,
        left,
    })
}
