//! The bytes that register accesses read.
ghost use Rattle.std.specs.Prelude.{◌≡◌, ◌+◌, IfOk, sum};
ghost use Rattle.board_script.specs.Script.{Whole};
ghost use Rattle.journal.specs.Lines.{numbers, members_of};
ghost use Rattle.journal.specs.Journals.{Journal};
ghost use Rattle.board_run.specs.Standing.{HoldsJournal};
ghost use Rattle.load_run.specs.Load.{bytes_of as bytes_of_entry, total_of as total_of_history, total_in};

use group_calls::{Entry, MemberCall, MemberReply, Serial};
use group_cells::PlainCells;
use member_core::Member;
use std::alloc::AllocError as NoMemory;

// The sum with these bytes. An error where it is more than a number may say.
fn add_bytes(total: u64, bytes: &[u8]) -> Result<u64, NoMemory>
    ensures { IfOk result (λ n. n ≡ total + sum bytes.now) }
{
    let mut total = total;
    'bytes: for byte in bytes {
        total = total.checked_add(u64::from(*byte)).ok_or(NoMemory)?;
    }
    Ok(total)
}

// The sum with the bytes that an entry read.
fn add_entry(total: u64, entry: &Entry<MemberCall, MemberReply>) -> Result<u64, NoMemory>
    ensures { IfOk result (λ n. n ≡ total + sum (bytes_of_entry entry.now)) }
{
    match (&entry.call, &entry.reply) {
        (MemberCall::Act(_), MemberReply::Data(bytes)) => add_bytes(total, bytes.as_slice()),
        _ => Ok(total),
    }
}

// The sum of the bytes that were read of a member.
fn total_of(member: &Member) -> Result<u64, NoMemory>
    ensures { IfOk result (λ n. n ≡ total_of_history member.now.history) }
{
    let mut total = 0;
    'entries: for place in 0..member.length() {
        total = add_entry(total, member.entry(place))?;
    }
    Ok(total)
}

/// The sum of the bytes that were read of all members. An error where it is more than a number may say.
pub(crate) fn total(cells: &PlainCells) -> Result<u64, NoMemory>
    ensures { (s : Whole) (j : Journal) → HoldsJournal s j cells.now → IfOk result (λ n. n ≡ total_in j (numbers 1 (members_of s))) }
{
    let mut total: u64 = 0;
    'members: for index in 0..cells.members() {
        total = total
            .checked_add(total_of(cells.member_cell(index + 1))?)
            .ok_or(NoMemory)?;
    }
    Ok(total)
}
