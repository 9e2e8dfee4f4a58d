//! What follows from the definitions alone.
ghost use Rattle.std.specs.Prelude.{◌≡◌, ◌<◌, ℕ, List, ◌∷◌, length};
ghost use Rattle.legacy_regs.specs.declared.device.Kind.{Kind};
ghost use Rattle.group_calls.specs.declared.member.MemberMade.{MemberMade};
ghost use Rattle.group_calls.specs.declared.member.MemberCall.{MemberCall};
ghost use Rattle.group_calls.specs.declared.member.MemberReply.{MemberReply};
ghost use Rattle.group_calls.specs.Queue.{RingEntry, posted, IsNumbered, is_closed, is_old, IsLegalQueue};
ghost use Rattle.group_calls.specs.MemberEntries.{MemberEntry};
ghost use Rattle.group_calls.specs.MemberRegisters.{registers_after};
ghost use Rattle.group_calls.specs.RegisterSteps.{registers_then};
ghost use Rattle.group_calls.specs.Facts.{facts};
ghost use Rattle.group_calls.specs.Limits.{writable_limit};
ghost use Rattle.group_calls.specs.Storage.{Stored, memory_from, disk_from, memory_after, disk_after};
ghost use Rattle.group_calls.specs.Replay.{memory_replayed, disk_replayed};
ghost use Rattle.group_calls.specs.Member.{is_killed, gone_floor, member_answer};

use crate::ask::{Ask, Told};
use crate::lone::LoneItem;
use crate::member::{MemberCall, MemberMade, MemberReply};
use crate::owner::{OwnerCall, OwnerReply};
use crate::queue::{RingCall, RingReply, WRITABLE_LIMIT};
use history::{Log, Placed};

/// Commands are numbered from 0 in the order in which they were posted.
pub fn commands_are_numbered()
    ensures { (size : ℕ) (h : List RingEntry) → IsLegalQueue size h → IsNumbered (posted h) }
{}

/// The looks back for the registers give what the legacy registers do call by call, in any history.
pub fn registers_follow_each_entry()
    ensures { (kind : Kind) (who : ℕ) (call : MemberCall) (reply : MemberReply) (past : List MemberEntry) → registers_after kind (record { who = who; call = call; reply = reply } ∷ past) ≡ registers_then kind call reply (registers_after kind past) }
{}

/// A member's answer depends on the facts, the memory, the disk, and whether and where it was killed alone.
pub fn the_same_facts_give_the_same_answer()
    ensures { (made : MemberMade) (g h : List MemberEntry) (call : MemberCall) → is_killed g ≡ is_killed h → gone_floor g ≡ gone_floor h → facts made g ≡ facts made h → memory_after made g ≡ memory_after made h → disk_after made g ≡ disk_after made h → member_answer made g call ≡ member_answer made h call }
{}

/// The look back for the disk gives what each entry leaves of it, in any history and whatever the member began with;
/// and so does the one for the memory.
pub fn the_disk_is_replayed()
    ensures memory { (first : Stored) (made : MemberMade) (h : List MemberEntry) → memory_from first made h ≡ memory_replayed first made h }
    ensures disk { (first : Stored) (made : MemberMade) (h : List MemberEntry) → disk_from first made h ≡ disk_replayed first made h }
{}

/// In a legal history a posted command is old exactly where its queue is closed.
pub fn a_closed_queue_makes_old()
    ensures { (size : ℕ) (h : List RingEntry) (s : ℕ) → IsLegalQueue size h → s < length (posted h) → is_old h s ≡ is_closed h }
{}

/// The limit that callers read is that of the definitions.
pub fn limits()
    ensures { WRITABLE_LIMIT ≡ writable_limit }
{}

fn is_shared<T: Send + Sync>() {}

/// What is asked and what is told may be sent to threads and shared by them.
pub fn asks_cross_threads() {
    is_shared::<Ask>();
    is_shared::<Told>();
    is_shared::<Placed<OwnerReply>>();
    is_shared::<Placed<RingReply>>();
    is_shared::<Placed<MemberReply>>();
    is_shared::<MemberMade>();
}

/// So may the histories of the three kinds of cells, and a lone device's items.
pub fn histories_cross_threads() {
    is_shared::<Log<OwnerCall, OwnerReply>>();
    is_shared::<Log<RingCall, RingReply>>();
    is_shared::<Log<MemberCall, MemberReply>>();
    is_shared::<LoneItem>();
}
