//! What a legal history says of each of its places.
ghost use Rattle.std.specs.Prelude.{◌≡◌, ℕ, false, List, Some};
ghost use Rattle.history.specs.declared.entry.Entry.{Entry};
ghost use Rattle.history.specs.Places.{entry_at, before, IsEarlier};
ghost use Rattle.history.specs.Legal.{IsLegal};

use crate::entry::{Entry, Placed};
use crate::log::Log;
use crate::serial::Serial;

/// At each place of a legal history the reply is the answer to the call over the entries before the place, it isn't
/// quiet, and its actor could make the call.
pub fn each_entry_is_answered<S: Serial>()
    ensures { (made : S.Made) (h : List (Entry S.Call S.Reply)) (p : ℕ) (e : Entry S.Call S.Reply) → IsLegal (S.answer made) S.is_quiet (S.may_call made) h → entry_at p h ≡ Some e → (e.reply ≡ S.answer made (before p h) e.call) × (S.is_quiet e.reply ≡ false) × S.may_call made e.who e.call }
{}

/// What stood before a place of a legal history is legal, and an earlier history of the same object.
pub fn what_stood_before_is_legal<S: Serial>()
    ensures { (made : S.Made) (h : List (Entry S.Call S.Reply)) (p : ℕ) → IsLegal (S.answer made) S.is_quiet (S.may_call made) h → IsLegal (S.answer made) S.is_quiet (S.may_call made) (before p h) × IsEarlier (before p h) h }
{}

fn is_shared<T: Send + Sync>() {}

/// What can be sent to threads and shared by them can be so in an entry, in a placed reply and in a log.
pub fn histories_cross_threads<Call: Send + Sync, Reply: Send + Sync>() {
    is_shared::<Entry<Call, Reply>>();
    is_shared::<Placed<Reply>>();
    is_shared::<Log<Call, Reply>>();
}
