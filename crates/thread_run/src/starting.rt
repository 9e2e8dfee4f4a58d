//! The jobs of a run.
ghost use Rattle.std.specs.Prelude.{◌≡◌, ◌-◌, ◌<◌, None, IfOk, OnOk, map, slice_set};
ghost use Rattle.std.specs.List.{All};
ghost use Rattle.history.specs.Limits.{actor_limit};
ghost use Rattle.journal.specs.Lines.{numbers};
ghost use Rattle.group_cells.specs.Opening.{AreHome, IsMadeBy};
ghost use Rattle.board_run.specs.Places.{actor_count, who_at};
ghost use Rattle.thread_run.specs.Jobs.{IsReady, IsNewJob};
ghost use Rattle.thread_run.specs.Homes.{AreTaken, acts};

use crate::job::Job;
use actor_core::Actor;
use board_script::{HOST, Script, WORKERS_FROM};
use group_calls::ACTOR_LIMIT;
use group_cells::KeyRing;
use std::alloc::{AllocError as NoMemory, Global};

/// An actor before its first line, with its keys, which were never used.
fn new_job(alloc: Global, script: &Script, ring: &mut KeyRing, who: u32) -> Result<Job, NoMemory>
    requires who { who < actor_limit }
    requires made { IsMadeBy script.now ring.old.group }
    requires home { AreHome ring.old.group who ring.old.keys }
    ensures ready { IfOk result (λ job. IsReady script.now ring.old.group job.actor job.keys) }
    ensures new { IfOk result (λ job. IsNewJob script.now ring.old.floors who job.actor job.keys) }
    ensures ring { OnOk result (ring.new ≡ record { group = ring.old.group; keys = slice_set ring.old.keys who None; floors = ring.old.floors }) }
{
    let Some(keys) = ring.take(who) else {
        unreachable!();
    };
    let actor = Actor::new(alloc, script, who, 1)?;
    Ok(Job { actor, keys })
}

// A guest, a worker or the host of the script has this number.
fn acts(script: &Script, who: u32) -> bool
    ensures { result ≡ acts script.now who }
{
    let _queues = script.queues();
    (1 <= who && who <= script.guests())
        || (WORKERS_FROM <= who && who < WORKERS_FROM + script.workers())
        || who == HOST
}

/// All actors of the script but the board, in their order, with their keys, which were never used.
pub(crate) fn new_jobs(
    alloc: Global,
    script: &Script,
    ring: &mut KeyRing,
) -> Result<Vec<Job>, NoMemory>
    requires made { IsMadeBy script.now ring.old.group }
    requires home { AreHome ring.old.group 1 ring.old.keys }
    ensures ready { IfOk result (λ jobs. All (λ job. IsReady script.now ring.old.group job.actor job.keys) jobs.items) }
    ensures order { IfOk result (λ jobs. map (λ job. job.keys.who) jobs.items ≡ map (who_at script.now) (numbers 1 (actor_count script.now - 1))) }
    ensures unused { IfOk result (λ jobs. All (λ job. IsNewJob script.now ring.old.floors job.keys.who job.actor job.keys) jobs.items) }
    ensures taken { OnOk result (AreTaken script.now ring.old.keys ring.new.keys) }
    ensures group { OnOk result (ring.new.group ≡ ring.old.group) }
    ensures floors { OnOk result (ring.new.floors ≡ ring.old.floors) }
{
    let _queues = script.queues();
    let mut jobs = Vec::new(alloc);
    for who in 1..ACTOR_LIMIT {
        if acts(script, who) {
            let job = new_job(alloc, script, ring, who)?;
            jobs.push(job)?;
        }
    }
    Ok(jobs)
}
