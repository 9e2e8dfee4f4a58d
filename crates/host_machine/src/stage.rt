//! The stages of a line, and the stage after an answer.
ghost use Rattle.std.specs.Prelude.{◌≡◌, ◌+◌, ◌<◌, ◌≤◌, [], ◌∷◌, ◌++◌, length};
ghost use Rattle.byte_fields.specs.Sizes.{guest_limit};
ghost use Rattle.host_machine.specs.Machine.{floor_of, first, killing, closing, after};
ghost use Rattle.host_machine.specs.Within.{IsLow, kills_in, queue_in};

use crate::line::HostLine;
use board_text::{Bytes, FloorList};
use group_calls::{MemberReply, Told};

/// What a line asks next. Of this project.
#[derive(Debug, Drop, PartialEq, Eq)]
pub enum Stage {
    /// The frame is to come to the member.
    Delivering { member: u32, frame: Bytes },
    /// The member is to be reset.
    Restarting { member: u32 },
    /// The member is to be killed.
    Disabling { member: u32 },
    /// The owner is to be told that the member is disabled, under this floor.
    Leaving { member: u32, floor: u64 },
    /// The next member is to be killed: the first whose floor isn't known yet.
    Killing,
    /// The owner is to be reset.
    Resetting,
    /// The queue is to be reset.
    Closing { queue: u32 },
    /// Nothing is left to ask.
    Ended,
}

/// A line that was begun: its stage, and the floors of the members that it has killed so far, in order. Of this project.
#[derive(Debug, Drop, PartialEq, Eq)]
pub struct Underway {
    pub stage: Stage,
    pub floors: FloorList,
}

// The floor of the member that its answer shows.
fn floor_of(told: &Told) -> u64
    requires { IsLow told.now }
    ensures { result ≡ floor_of told.now }
{
    match told {
        Told::Member(placed) => match &placed.reply {
            MemberReply::Gone { floor } => (placed.at + 1).max(*floor),
            _ => placed.at + 1,
        },
        _ => 0,
    }
}

// Each member is killed, and then the owner is reset.
fn killing(members: u32, floors: &FloorList) -> Stage
    ensures { result ≡ killing members floors.now }
{
    if floors.length() < members {
        Stage::Killing
    } else {
        Stage::Resetting
    }
}

// Each queue from this one on is reset.
fn closing(queues: u32, queue: u32) -> Stage
    ensures { result ≡ closing queues queue }
{
    if queue < queues {
        Stage::Closing { queue }
    } else {
        Stage::Ended
    }
}

/// The beginning of a line.
pub(crate) fn first(members: u32, line: HostLine) -> Underway
    ensures { result ≡ first members line }
{
    let floors = FloorList::new();
    let stage = match line {
        HostLine::Frame { member, frame } => Stage::Delivering { member, frame },
        HostLine::Flr { member } => Stage::Restarting { member },
        HostLine::Disable { member } => Stage::Disabling { member },
        HostLine::Reset => killing(members, &floors),
    };
    Underway { stage, floors }
}

// One member more was killed.
fn killed(members: u32, floors: &FloorList, floor: u64) -> Underway
    requires { length floors.now < guest_limit }
    ensures floors { result.floors ≡ floors.now ++ floor ∷ [] }
    ensures stage { result.stage ≡ killing members (floors.now ++ floor ∷ []) }
{
    let mut floors = floors.copy();
    floors.push(floor);
    Underway {
        stage: killing(members, &floors),
        floors,
    }
}

/// After the answer to the ask.
pub(crate) fn after(members: u32, queues: u32, line: &Underway, told: &Told) -> Underway
    requires few { members ≤ guest_limit }
    requires room { kills_in line.now.stage + length line.now.floors ≤ members }
    requires queue { queue_in line.now.stage ≤ queues }
    requires low { IsLow told.now }
    ensures { result ≡ after members queues line.now told.now }
{
    let floors = &line.floors;
    let stage = match &line.stage {
        Stage::Disabling { member } => Stage::Leaving {
            member: *member,
            floor: floor_of(told),
        },
        Stage::Killing => return killed(members, floors, floor_of(told)),
        Stage::Resetting => closing(queues, 0),
        Stage::Closing { queue } => closing(queues, *queue + 1),
        _ => Stage::Ended,
    };
    Underway {
        stage,
        floors: floors.copy(),
    }
}
