//! The owner and its members.
ghost use Rattle.std.specs.Prelude.{◌≡◌, ◌≤◌, ◌<◌, ◌++◌, ◌-◌, [], ◌∷◌, ℕ, List, map, length, IfOk, OnOk, Some};
ghost use Rattle.std.specs.List.{slice_get};
ghost use Rattle.group_calls.specs.declared.owner.OwnerCall.TheVariants.{SetVfs, Judge};
ghost use Rattle.group_calls.specs.declared.member.MemberCall.TheVariants.{Act, Kill};
ghost use Rattle.group_calls.specs.Owner.{owner_answer, owner_may};
ghost use Rattle.admin_run.specs.Group.{first_group, fresh_member, kind_of as kind_for, called, called_at, member_of, acted, after_line, asked, floor_after_kill};
ghost use Rattle.admin_run.specs.Completion.{completion as completion_of};
ghost use Rattle.admin_run.specs.Kept.{reply_at, acted_on, done_for};
ghost use Rattle.admin_script.specs.declared.line.AdminLine.TheVariants as AdminLine;

use admin_wire::LegacyCmd;
use board_text::{FloorList, Floors, Piece};
use group_calls::{Kind, MemberCall, MemberReply, OwnerCall, OwnerReply, Serial};
use member_core::Member;
use owner_core::Owner;
use serve_machine::{access_done, owner_done};
use std::alloc::{AllocError as NoMemory, Global};
use std::marker::Model;

/// An owner that was made for 16 members, and the members, of which number 1 stands first. Contracts see the owner's
/// history and the members.
#[derive(Drop)]
pub(crate) struct DeviceGroup {
    owner: Owner,
    members: Vec<Member>,
}

impl Model for DeviceGroup {
    ghost use Rattle.admin_run.specs.Group.{Group};
    ghost use Rattle.admin_run.specs.Kept.{IsWhole};

    ghost Value = { Group };

    ghost view = { λ g. record { owner = g.owner.history; members = g.members.items } };

    ghost invariant = { λ g. IsWhole g.owner.made g.members.items };
}

// How many members there are.
const MEMBER_COUNT: u32 = 16;

// All calls are made by this actor, the board.
const BOARD: u32 = 0;

// What a member is: one with an odd number a block device, one with an even number a network device.
fn kind_of(number: u32) -> Kind
    requires { number ≤ 16 }
    ensures { result ≡ kind_for number }
{
    if number % 2 == 1 {
        Kind::Block {
            sectors: 8,
            read_only: false,
        }
    } else {
        Kind::Net {
            mac: [2, 0, 0, 0, 0, number as u8],
        }
    }
}

fn fresh_member(alloc: Global, number: u32) -> Result<Member, NoMemory>
    requires { number ≤ 16 }
    ensures { IfOk result (λ member. member ≡ fresh_member number) }
{
    Member::new(alloc, number, 1, kind_of(number))
}

// Kills a member, and says what floor that shows.
fn kill(member: &mut Member) -> Result<u64, NoMemory>
    ensures member { OnOk result (member.new ≡ called Kill member.old) }
    ensures floor { IfOk result (λ floor. floor ≡ floor_after_kill member.old) }
{
    let place = member.length();
    member.apply(BOARD, &MemberCall::Kill)?;
    Ok(place + 1)
}

// Kills all members, of which there are at most 16, and says what floors that shows.
fn kill_all(members: &mut Vec<Member>) -> Result<FloorList, NoMemory>
    requires { length members.old.items ≤ 16 }
    ensures length { length members.new.items ≡ length members.old.items }
    ensures members { OnOk result (members.new.items ≡ map (called Kill) members.old.items) }
    ensures floors { IfOk result (λ floors. floors ≡ map floor_after_kill members.old.items) }
{
    let mut floors = FloorList::new();
    'members: for index in 0..members.len() {
        floors.push(kill(&mut members[index])?);
    }
    Ok(floors)
}

// A register access of a member, if there is one of this number.
fn act(
    members: &mut Vec<Member>,
    number: u32,
    command: LegacyCmd,
) -> Result<Option<MemberReply>, NoMemory>
    ensures length { length members.new.items ≡ length members.old.items }
    ensures members { OnOk result (members.new.items ≡ called_at (Act command) (number - 1) members.old.items (slice_get members.old.items (number - 1))) }
    ensures reply { IfOk result (λ reply. reply ≡ reply_at (Act command) (slice_get members.old.items (number - 1))) }
{
    let index = number.saturating_sub(1) as usize;
    if index >= members.len() {
        return Ok(None);
    }
    let placed = members[index].apply(BOARD, &MemberCall::Act(command))?;
    Ok(Some(placed.reply))
}

// What a verdict is completed with; a register access is carried out at its member.
fn carry_out(
    members: &mut Vec<Member>,
    verdict: OwnerReply,
    writable: u32,
) -> Result<Piece, NoMemory>
    ensures length { length members.new.items ≡ length members.old.items }
    ensures members { OnOk result (members.new.items ≡ acted_on members.old.items verdict) }
    ensures done { IfOk result (λ done. done ≡ done_for members.old.items writable verdict) }
{
    match verdict {
        OwnerReply::Legacy { member, command } => match act(members, member, command)? {
            Some(reply) => Ok(access_done(&reply, writable)),
            None => Ok(Piece::new()),
        },
        verdict => Ok(owner_done(&verdict, writable)),
    }
}

impl DeviceGroup {
    /// The group before the first line, with room for the owner's history of so many lines.
    pub fn new(alloc: Global, lines: u64) -> Result<DeviceGroup, NoMemory>
        ensures { IfOk result (λ group. group ≡ first_group) }
    {
        let mut members = Vec::with_capacity(alloc, MEMBER_COUNT as usize)?;
        'members: for before in 0..MEMBER_COUNT {
            members.push(fresh_member(alloc, before + 1)?)?;
        }
        let mut owner = Owner::new(alloc, MEMBER_COUNT);
        owner.reserve(lines)?;
        Ok(DeviceGroup { owner, members })
    }

    /// Sets the number of virtual functions, at most 16.
    pub fn set_functions(&mut self, count: u32) -> Result<(), NoMemory>
        requires { count ≤ 16 }
        ensures { OnOk result (self.new ≡ after_line self.old (AdminLine.Vfs count)) }
    {
        self.owner.apply(BOARD, &OwnerCall::SetVfs { count })?;
        Ok(())
    }

    /// Kills every member, and resets the owner.
    pub fn reset(&mut self) -> Result<(), NoMemory>
        ensures { OnOk result (self.new ≡ after_line self.old AdminLine.Reset) }
    {
        let list = kill_all(&mut self.members)?;
        let floors = Floors::of(*self.members.allocator(), &list)?;
        self.owner.apply(BOARD, &OwnerCall::Reset { floors })?;
        Ok(())
    }

    /// Judges a command, carries it out at its member where the owner lets it through, and says what it is completed
    /// with. At most 256 bytes are writable.
    pub fn serve(&mut self, bytes: &Piece, writable: u32) -> Result<Piece, NoMemory>
        requires { writable ≤ 256 }
        ensures group { OnOk result (self.new ≡ after_line self.old (AdminLine.Cmd writable bytes.now)) }
        ensures done { IfOk result (λ done. done ≡ completion_of self.old writable bytes.now) }
    {
        let judge = OwnerCall::Judge {
            bytes: bytes.copy(),
            writable,
        };
        let placed = self.owner.apply(BOARD, &judge)?;
        carry_out(&mut self.members, placed.reply, writable)
    }
}
