//! The lines of the board and of the guests.
ghost use Rattle.std.specs.Prelude.{◌≡◌, ◌+◌, ◌≤◌, ◌∷◌, ◌++◌, [], IfOk, OnOk, length, false};
ghost use Rattle.byte_fields.specs.Sizes.{guest_limit};
ghost use Rattle.script_words.specs.Values.{Gives, Steps};
ghost use Rattle.board_script.specs.Limits.{mac_length};
ghost use Rattle.board_script.specs.SoFar.{has_begun, is_out_of_turn};
ghost use Rattle.board_script.specs.Lines.{in_turn as in_turn_of, next_guest as next_guest_of, board_says, block_says, net_says};
ghost use Rattle.board_script.specs.Bounds.{IsSetup};
ghost use Rattle.board_script.specs.Shapes.{member_says, Keeps};

use crate::draft::Draft;
use crate::limits::{GUEST_LIMIT, MAC_LENGTH, PAGE_LIMIT, QUEUE_LIMIT, SECTOR_LIMIT, WORKER_LIMIT};
use crate::script::{Board, Setup};
use legacy_regs::Kind;
use script_words::{Cause, Fault, Member, Word, number, piece, queue_size};
use std::alloc::Global;

/// Adds the line `board Q S K`.
pub fn add_board(draft: &mut Draft, queues: &Word, size: &Word, workers: &Word) -> Result<(), Fault>
    ensures value { Steps result draft.new (board_says draft.old queues.now size.now workers.now) }
    ensures lines { OnOk result (draft.new.lines ≡ draft.old.lines) }
    ensures turns { OnOk result (draft.new.turns ≡ draft.old.turns) }
{
    if draft.has_board() {
        return Err(Fault::Bad(Cause::Setup));
    }
    let queues = number(queues, 1, QUEUE_LIMIT)? as u32;
    let queue_size = queue_size(size)?;
    let workers = number(workers, 0, WORKER_LIMIT)? as u32;
    draft.set_board(Board {
        queues,
        queue_size,
        workers,
    });
    Ok(())
}

fn in_turn(draft: &Draft, guest: &Word) -> Result<(), Fault>
    ensures value { Gives result (in_turn_of draft.now guest.now) }
    ensures first { OnOk result (has_begun draft.now ≡ false) }
    ensures turn { OnOk result (is_out_of_turn draft.now guest.now ≡ false) }
{
    if !draft.has_board() || draft.has_begun() || draft.is_out_of_turn(guest) {
        Err(Fault::Bad(Cause::Setup))
    } else {
        Ok(())
    }
}

fn next_guest(draft: &Draft, guest: &Word) -> Result<u64, Fault>
    ensures value { Gives result (next_guest_of draft.now guest.now) }
    ensures first { OnOk result (has_begun draft.now ≡ false) }
    ensures fits { OnOk result (length draft.now.guests + 1 ≤ guest_limit) }
{
    in_turn(draft, guest)?;
    number(guest, 1, GUEST_LIMIT)
}

fn keep_guest(draft: &mut Draft, setup: Setup) -> Result<(), Fault>
    requires fits { length draft.old.guests + 1 ≤ guest_limit }
    requires first { has_begun draft.old ≡ false }
    requires bounds { IsSetup setup }
    ensures value { Steps result draft.new (Ok (record draft.old { guests = draft.old.guests ++ setup ∷ [] })) }
    ensures lines { OnOk result (draft.new.lines ≡ draft.old.lines) }
    ensures turns { OnOk result (draft.new.turns ≡ draft.old.turns) }
{
    match draft.add_guest(setup) {
        Ok(()) => Ok(()),
        Err(_) => Err(Fault::NoMemory),
    }
}

fn add_block(
    draft: &mut Draft,
    guest: &Word,
    pages: &Word,
    sectors: &Word,
    read_only: bool,
) -> Result<(), Fault>
    ensures value { Steps result draft.new (block_says draft.old guest.now pages.now sectors.now read_only) }
    ensures lines { OnOk result (draft.new.lines ≡ draft.old.lines) }
    ensures turns { OnOk result (draft.new.turns ≡ draft.old.turns) }
{
    next_guest(draft, guest)?;
    let pages = number(pages, 1, PAGE_LIMIT)? as u32;
    let sectors = number(sectors, 0, SECTOR_LIMIT)?;
    keep_guest(
        draft,
        Setup {
            pages,
            kind: Kind::Block { sectors, read_only },
        },
    )
}

fn mac_of(bytes: &[u8]) -> [u8; 6]
    requires { length bytes.now ≡ mac_length }
    ensures { result ≡ bytes.now }
{
    let mut mac = [0; 6];
    mac.copy_from_slice(bytes);
    mac
}

fn add_net(
    alloc: Global,
    draft: &mut Draft,
    guest: &Word,
    pages: &Word,
    mac: &Word,
) -> Result<(), Fault>
    ensures value { Steps result draft.new (net_says draft.old guest.now pages.now mac.now) }
    ensures lines { OnOk result (draft.new.lines ≡ draft.old.lines) }
    ensures turns { OnOk result (draft.new.turns ≡ draft.old.turns) }
{
    next_guest(draft, guest)?;
    let pages = number(pages, 1, PAGE_LIMIT)? as u32;
    let bytes = piece(alloc, mac, MAC_LENGTH, MAC_LENGTH)?;
    keep_guest(
        draft,
        Setup {
            pages,
            kind: Kind::Net {
                mac: mac_of(bytes.as_slice()),
            },
        },
    )
}

/// Adds a `guest` line.
pub fn add_guest(
    alloc: Global,
    draft: &mut Draft,
    guest: &Word,
    member: &Member,
) -> Result<(), Fault>
    ensures value { Steps result draft.new (member_says draft.old guest.now member.now) }
    ensures lines { OnOk result (draft.new.lines ≡ draft.old.lines) }
    ensures turns { OnOk result (draft.new.turns ≡ draft.old.turns) }
{
    match member {
        Member::Block {
            pages,
            sectors,
            read_only,
        } => add_block(draft, guest, pages, sectors, *read_only),
        Member::Net { pages, mac } => add_net(alloc, draft, guest, pages, mac),
    }
}
