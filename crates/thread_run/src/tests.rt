use crate::run_threads;
use actor_core::Actors;
use board_io::OpenGate;
use board_script::{HOST, read_script};
use group_calls::{MemberCall, MemberReply, OwnerCall};
use group_cells::PlainCells;
use history::Serial;
use std::test::Fail;

const TWO_GUESTS: &str = "board 2 4 1
guest 1 block 1 8
guest 2 net 1 020000000002
g1 in 18 1
g2 in 18 1
g1 out 18 01
g2 out 18 03
g1 in 12 2
w0 serve 0
w0 serve 1
g1 in 19 1
g2 in 18 1
";

const DISABLED: &str = "board 1 4 1
guest 1 block 1 8
guest 2 block 1 8
g1 in 18 1
g2 in 18 1
host disable 1
w0 serve 0
g1 in 18 1
g2 in 18 1
";

const MEMORY: &str = "board 1 4 0
guest 1 block 1 8
g1 mem 0 c0ffee
g1 in 18 1
g1 peek 0 3
";

// How many entries the actors' traces have in all.
fn traced(actors: &Actors) -> u64 {
    let mut count: u64 = 0;
    for index in 0..actors.length() {
        count = count.wrapping_add(actors.item(index).trace().length() as u64);
    }
    count
}

// How many entries the histories of the cells have in all.
fn kept(cells: &PlainCells) -> u64 {
    let mut count = cells.owner_cell().length();
    for index in 0..cells.queues() {
        count = count.wrapping_add(cells.queue_cell(index).length());
    }
    for index in 0..cells.members() {
        count = count.wrapping_add(cells.member_cell(index + 1).length());
    }
    count
}

#[test]
fn each_entry_of_two_guests_and_a_worker_is_in_one_trace(rt: HostRuntime) -> Result<(), Fail> {
    let script = read_script(rt.alloc(), TWO_GUESTS.as_bytes())?;
    let ran = run_threads(&rt, rt.alloc(), &script, &OpenGate)?;
    assert_eq!(&rt; ran.actors.length(), 5);
    assert_eq!(&rt; ran.cells.queues(), 2);
    assert_eq!(&rt; ran.cells.members(), 2);
    assert_eq!(&rt; kept(&ran.cells), traced(&ran.actors));
    assert_eq!(&rt; ran.left.length(), 0);
    Ok(())
}

#[test]
fn a_member_is_disabled_once_whatever_its_guest_asks(rt: HostRuntime) -> Result<(), Fail> {
    let script = read_script(rt.alloc(), DISABLED.as_bytes())?;
    let ran = run_threads(&rt, rt.alloc(), &script, &OpenGate)?;
    assert_eq!(&rt; kept(&ran.cells), traced(&ran.actors));
    let owner = ran.cells.owner_cell();
    let mut away: u32 = 0;
    for at in 0..owner.length() {
        let entry = owner.entry(at);
        if let OwnerCall::Gone { member, .. } = &entry.call {
            assert_eq!(&rt; *member, 1);
            assert_eq!(&rt; entry.who, HOST);
            away = away.wrapping_add(1);
        }
    }
    assert_eq!(&rt; away, 1);
    assert_eq!(&rt; ran.left.length(), 0);
    Ok(())
}

#[test]
fn closed_cells_have_their_histories(rt: HostRuntime) -> Result<(), Fail> {
    let script = read_script(rt.alloc(), MEMORY.as_bytes())?;
    let ran = run_threads(&rt, rt.alloc(), &script, &OpenGate)?;
    assert!(&rt; ran.cells.members() == 1);
    let member = ran.cells.member_cell(1);
    let mut reads: u32 = 0;
    for at in 0..member.length() {
        let entry = member.entry(at);
        if !matches!(&entry.call, MemberCall::MemRead { .. }) {
            continue;
        }
        assert_eq!(&rt; entry.who, 1);
        if let MemberReply::Data(bytes) = &entry.reply {
            assert!(&rt; *bytes.as_slice() == *[0xc0, 0xff, 0xee].as_slice());
            reads = reads.wrapping_add(1);
        }
    }
    assert_eq!(&rt; reads, 1);
    Ok(())
}
