//! What the host asks, as a grammar.
ghost use Rattle.std.specs.Prelude.{ℕ, List, ◌↔◌};
ghost use Rattle.group_calls.specs.Asks.{Exchange};
ghost use Rattle.host_machine.specs.declared.line.HostLine.{HostLine};
ghost use Rattle.host_machine.specs.Grammar.{IsAnsweredLine, BeginsLine};
ghost use Rattle.host_machine.specs.Floors.{AreAtFloors};
ghost use Rattle.host_machine.specs.Runs.{IsWholeRun, IsOpenRun};

use crate::host::Host;
use crate::line::HostLine;
use crate::stage::{Stage, Underway};

/// What `Host` asks until nothing is left is its line by the grammar, and what it has asked before is the beginning of it,
/// each ask on a member at the floor 0. The machine asks every line that the grammar has with these floors.
pub fn the_machine_asks_what_the_grammar_has()
    ensures whole { (members queues : ℕ) (line : HostLine) (xs : List Exchange) → IsWholeRun members queues line xs ↔ (IsAnsweredLine members queues line xs × AreAtFloors xs) }
    ensures begun { (members queues : ℕ) (line : HostLine) (xs : List Exchange) → IsOpenRun members queues line xs ↔ (BeginsLine members queues line xs × AreAtFloors xs) }
{}

fn crosses<T: Send + Sync>() {}

/// A line of the host may be sent to a thread, and shared by threads.
pub fn lines_cross_threads() {
    crosses::<Host>();
    crosses::<HostLine>();
    crosses::<Underway>();
    crosses::<Stage>();
}
