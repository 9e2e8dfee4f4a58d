//! Looks back through the whole history, for members that no group of 16 has.
ghost use Rattle.std.specs.Prelude.{◌≡◌};
ghost use Rattle.board_text.specs.Floors.{number_for};
ghost use Rattle.group_calls.specs.Owner.{names, is_away, floor_told, refusal_floor};

use board_text::{FLOOR_LIMIT, Floors};
use group_calls::{Entry, Log, OwnerCall, OwnerReply};

/// The floor of a member, whose number may be any.
pub(crate) fn floor_in(floors: &Floors, member: u64) -> u64
    ensures { result ≡ number_for member floors.now }
{
    let _count = floors.length();
    if member > FLOOR_LIMIT as u64 {
        0
    } else {
        floors.at(member as u32)
    }
}

// What the entry tells of the member's floor.
fn floor_told(entry: &Entry<OwnerCall, OwnerReply>, member: u64) -> Option<u64>
    ensures { result ≡ floor_told member entry.now }
{
    match &entry.call {
        OwnerCall::Gone {
            member: named,
            floor,
        } => {
            if u64::from(*named) == member {
                Some(*floor)
            } else {
                None
            }
        }
        OwnerCall::Reset { floors } => Some(floor_in(floors, member)),
        _ => None,
    }
}

// Whether the entry is a Gone of the member.
fn names(entry: &Entry<OwnerCall, OwnerReply>, member: u64) -> bool
    ensures { result ≡ names member entry.now }
{
    match &entry.call {
        OwnerCall::Gone { member: named, .. } => u64::from(*named) == member,
        _ => false,
    }
}

/// The floor of a refusal of the member's commands.
#[tactic(auto, using(history::proofs::PlaceLemmas::places))]
pub(crate) fn floor_found(log: &Log<OwnerCall, OwnerReply>, member: u64) -> u64
    ensures { result ≡ refusal_floor log.now.entries member }
{
    let mut floor = 0;
    for at in 0..log.length() {
        if let Some(told) = floor_told(log.entry(at), member) {
            floor = told;
        }
    }
    floor
}

/// Whether a Gone names the member.
#[tactic(auto, using(history::proofs::PlaceLemmas::places))]
pub(crate) fn away_found(log: &Log<OwnerCall, OwnerReply>, member: u64) -> bool
    ensures { result ≡ is_away log.now.entries member }
{
    let mut away = false;
    for at in 0..log.length() {
        away = names(log.entry(at), member) || away;
    }
    away
}
