//! An actor with its keys.
ghost use Rattle.thread_run.specs.Jobs.{IsReady, IsDone};

use actor_core::Actor;
use actor_drive::drive;
use board_io::Gate;
use board_script::Script;
use group_cells::{Group, Keys, SharedCells};
use std::sync::Wait;

/// An actor, and its keys to the cells of a group.
#[derive(Drop)]
pub struct Job {
    pub actor: Actor,
    pub keys: Keys,
}

/// The actor's lines are performed over the cells of the group. It may wait.
pub fn perform<G: Gate, R: Wait>(rt: &R, script: &Script, group: &Group, gate: &G, job: Job) -> Job
    requires { IsReady script.now group.now job.actor job.keys }
    ensures { IsDone script.now group.now job.actor job.keys result.actor result.keys }
{
    let Job { mut actor, keys } = job;
    let mut cells = SharedCells::new(group, keys);
    drive(rt, script, &mut actor, &mut cells, gate);
    Job {
        actor,
        keys: cells.into_keys(),
    }
}
