//! What the owner keeps after one call more, for whatever history it was right before.
ghost use Rattle.std.specs.Prelude.{◌≡◌, ◌-◌, ◌<◌, ◌≤◌, ◌∷◌, ℕ, List, slice_index};
ghost use Rattle.board_text.specs.Floors.{number_for};
ghost use Rattle.byte_fields.specs.Sizes.{guest_limit};
ghost use Rattle.group_calls.specs.declared.owner.OwnerReply.{OwnerReply};
ghost use Rattle.group_calls.specs.Owner.{OwnerEntry, vf_count};
ghost use Rattle.owner_core.specs.Kept.{AreFloors, AreAway, AreNear};

use board_text::{FLOOR_LIMIT, Floors};
use group_calls::OwnerCall;

/// The number of virtual functions.
pub(crate) fn count_after(count: u32, call: &OwnerCall) -> u32
    ensures { (h : List OwnerEntry) (who : ℕ) (reply : OwnerReply) → count ≡ vf_count h → result ≡ vf_count (record { who = who; call = call.now; reply = reply } ∷ h) }
{
    match call {
        OwnerCall::SetVfs { count } => *count,
        OwnerCall::Reset { floors: _ } => 0,
        _ => count,
    }
}

// The floors of a Reset, one for each member.
fn spread(floors: &Floors) -> [u64; FLOOR_LIMIT]
    ensures { (m : ℕ) → 0 < m → m ≤ guest_limit → slice_index result (m - 1) ≡ number_for m floors.now }
{
    let mut told = [0; FLOOR_LIMIT];
    for at in 0..FLOOR_LIMIT {
        told[at] = floors.at(at as u32 + 1);
    }
    told
}

/// The floor of each member.
pub(crate) fn note_told(told: &mut [u64; FLOOR_LIMIT], call: &OwnerCall)
    ensures { (h : List OwnerEntry) (who : ℕ) (reply : OwnerReply) → AreFloors told.old h → AreFloors told.new (record { who = who; call = call.now; reply = reply } ∷ h) }
{
    match call {
        OwnerCall::Gone { member, floor } => {
            if 0 < *member && *member <= FLOOR_LIMIT as u32 {
                told[*member as usize - 1] = *floor;
            }
        }
        OwnerCall::Reset { floors } => *told = spread(floors),
        _ => {}
    }
}

/// Which members are away.
pub(crate) fn note_away(away: &mut [bool; FLOOR_LIMIT], call: &OwnerCall)
    ensures { (h : List OwnerEntry) (who : ℕ) (reply : OwnerReply) → AreAway away.old h → AreAway away.new (record { who = who; call = call.now; reply = reply } ∷ h) }
{
    if let OwnerCall::Gone { member, floor: _ } = call {
        if 0 < *member && *member <= FLOOR_LIMIT as u32 {
            away[*member as usize - 1] = true;
        }
    }
}

/// Whether a Gone has named a member that no group of 16 has.
pub(crate) fn strays_after(strays: bool, call: &OwnerCall) -> bool
    ensures { (h : List OwnerEntry) (who : ℕ) (reply : OwnerReply) → AreNear strays h → AreNear result (record { who = who; call = call.now; reply = reply } ∷ h) }
{
    match call {
        OwnerCall::Gone { member, floor: _ } => {
            strays || *member == 0 || *member > FLOOR_LIMIT as u32
        }
        OwnerCall::Reset { floors } => {
            let _count = floors.length();
            strays
        }
        _ => strays,
    }
}
