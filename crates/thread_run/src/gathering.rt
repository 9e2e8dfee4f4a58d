//! Keys come home.
ghost use Rattle.std.specs.Prelude.{◌≡◌, ◌≤◌, [], length, map, vec_capacity};
ghost use Rattle.std.specs.List.{All};
ghost use Rattle.group_cells.specs.Shared.{IsKeySetOf};
ghost use Rattle.thread_run.specs.Homes.{with_homes};

use crate::job::Job;
use actor_core::Actor;
use group_cells::KeyRing;

/// The keys of all jobs come home. Their actors, in order, in the room for them. This takes no memory.
pub(crate) fn put_home(ring: &mut KeyRing, jobs: Vec<Job>, actors: Vec<Actor>) -> Vec<Actor>
    requires of { All (λ job. IsKeySetOf ring.old.group job.keys) jobs.items }
    requires room { (actors.items ≡ []) × (length jobs.items ≤ vec_capacity actors) }
    ensures ring { ring.new ≡ with_homes jobs.items ring.old }
    ensures actors { result.items ≡ map (λ job. job.actor) jobs.items }
{
    let mut jobs = jobs;
    let mut actors = actors;
    while 0 < jobs.len() {
        let Job { actor, keys } = jobs.remove(0);
        ring.put_back(keys);
        actors.push_reserved(actor);
    }
    actors
}
