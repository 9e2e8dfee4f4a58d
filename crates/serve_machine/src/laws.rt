//! What a service asks, as a grammar, why its completion has its status, and how long it is.
ghost use Rattle.std.specs.Prelude.{ℕ, ◌+◌, ◌≡◌, ◌≤◌, List, ◌∷◌, ◌↔◌, length};
ghost use Rattle.byte_fields.specs.Places.{le16};
ghost use Rattle.admin_wire.specs.Numbers.{fixed_size, info_size};
ghost use Rattle.group_calls.specs.declared.ask.Ask.TheVariants.{Queue};
ghost use Rattle.group_calls.specs.declared.queue.RingCall.TheVariants.{Complete};
ghost use Rattle.group_calls.specs.Asks.{Exchange};
ghost use Rattle.serve_machine.specs.Grammar.{IsAnsweredService, BeginsService};
ghost use Rattle.serve_machine.specs.Floors.{AreAtFloors};
ghost use Rattle.serve_machine.specs.Runs.{IsWholeRun, IsOpenRun};
ghost use Rattle.serve_machine.specs.Causes.{HasItsCause};

use crate::server::Server;
use crate::stage::{Fetched, Stage};

/// What `Server` asks until nothing is left is a service by the grammar, and what it has asked before is the beginning of
/// one, each ask on a member at the floor of the fetched command's tag. The machine asks every service that the grammar
/// has with these floors.
pub fn the_machine_asks_what_the_grammar_has()
    ensures whole { (queue : ℕ) (xs : List Exchange) → IsWholeRun queue xs ↔ (IsAnsweredService queue xs × AreAtFloors xs) }
    ensures begun { (queue : ℕ) (xs : List Exchange) → IsOpenRun queue xs ↔ (BeginsService queue xs × AreAtFloors xs) }
{}

/// A command is completed with ENOMEM exactly where there was no memory for its Judge or its Act, with OK exactly where it
/// was performed, and with EINVAL exactly where it was refused, wherever the status is writable.
pub fn a_status_has_its_cause()
    ensures { (queue seq floor : ℕ) (bytes : List ℕ) (complete decides : Exchange) (past : List Exchange)
        → IsAnsweredService queue (complete ∷ decides ∷ past) → complete.0 ≡ Queue queue (Complete seq bytes floor) → 2 ≤ length bytes
        → HasItsCause (le16 0 bytes) decides.1 }
{}

/// A command is completed with at most 72 bytes, which are those of the notify information.
pub fn completions_are_short()
    ensures { (queue seq floor : ℕ) (bytes : List ℕ) (complete : Exchange) (past : List Exchange)
        → IsAnsweredService queue (complete ∷ past) → complete.0 ≡ Queue queue (Complete seq bytes floor) → length bytes ≤ fixed_size + info_size }
{}

fn crosses<T: Send + Sync>() {}

/// A service may be sent to a thread, and shared by threads.
pub fn services_cross_threads() {
    crosses::<Server>();
    crosses::<Stage>();
    crosses::<Fetched>();
}
