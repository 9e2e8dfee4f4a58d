//! An object that answers by its own history.
ghost use Rattle.std.specs.Prelude.{◌≡◌, ◌<◌, ◌≤◌, List, ℕ, Bool, true, Some, length, IfOk, IsOk, OnErr};
ghost use Rattle.history.specs.declared.entry.Entry.{Entry};
ghost use Rattle.history.specs.Limits.{history_limit};
ghost use Rattle.history.specs.Places.{entry_at};
ghost use Rattle.history.specs.Legal.{IsLegal, IsAnswered};

use crate::entry::{Entry, Placed};
use std::alloc::AllocError as NoMemory;

/// An object whose replies follow from its history, the list of its entries. Contracts see the latest entry first, and
/// beside the history what the object was made with, which no call changes. Of this project.
pub trait Serial {
    type Call;

    type Reply;

    /// What an object is made with.
    type Made;

    // What the object was made with.
    ghost made: { Self → Self.Made };
    // Its entries, the latest first.
    ghost history: { Self → List (Entry Self.Call Self.Reply) };
    // The reply to a call over a history.
    ghost answer: { Self.Made → List (Entry Self.Call Self.Reply) → Self.Call → Self.Reply };
    // A quiet reply leaves no entry.
    ghost is_quiet: { Self.Reply → Bool };
    // The condition under which an actor may make a call.
    ghost may_call: { Self.Made → ℕ → Self.Call → Type 0 };
    // A call that takes no memory over a history.
    ghost spares: { Self.Made → List (Entry Self.Call Self.Reply) → Self.Call → Type 0 };

    /// Answers a call of an actor. The error is want of memory; then nothing changed.
    fn apply(&mut self, who: u32, call: &Self::Call) -> Result<Placed<Self::Reply>, NoMemory>
        requires { may_call (made self.old) who call.now }
        ensures answered { IfOk result (IsAnswered (answer (made self.old)) is_quiet (history self.old) (history self.new) who call.now) }
        ensures quiet { IfOk result (λ placed. is_quiet placed.reply ≡ true → self.new ≡ self.old) }
        ensures made { made self.new ≡ made self.old }
        ensures err { OnErr result (self.new ≡ self.old) }
        ensures spares { spares (made self.old) (history self.old) call.now → IsOk result }
        ensures most { length (history self.old) ≤ history_limit → length (history self.new) ≤ history_limit };

    /// How many entries the history has.
    fn length(&self) -> u64
        ensures length { result ≡ length (history self.now) }
        ensures legal { IsLegal (answer (made self.now)) is_quiet (may_call (made self.now)) (history self.now) }
        ensures most { length (history self.now) ≤ history_limit };

    /// The entry at a place, counted from 0.
    fn entry(&self, at: u64) -> &Entry<Self::Call, Self::Reply>
        requires { at < length (history self.now) }
        ensures { entry_at at (history self.now) ≡ Some result.now };
}
