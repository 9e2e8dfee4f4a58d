//! The lines of guests.
ghost use Rattle.std.specs.Prelude.{◌≡◌, ◌+◌, nat_le, OnOk};
ghost use Rattle.script_words.specs.Values.{Steps};
ghost use Rattle.board_script.specs.Lines.{in_says, out_says, mem_says, peek_says, guest_says, cfg_says, poll_says};
ghost use Rattle.board_script.specs.Shapes.{AreBefore, Keeps};

use crate::draft::Draft;
use crate::limits::{INDEX_LIMIT, OFFSET_LIMIT, RANGE_LIMIT};
use crate::place::{Place, add, behind_board, guest, queue_of_tail};
use crate::script::What;
use script_words::{Cause, Fault, Tail, Word, bytes, bytes_of_width, large_number, number, width};
use std::alloc::Global;

/// `gN in OFF LEN [@K] [once]`
pub fn read_bar(
    draft: &mut Draft,
    place: Place,
    guest_word: &Word,
    offset: &Word,
    length: &Word,
    tail: &Tail,
) -> Result<(), Fault>
    requires { AreBefore place.number draft.old.lines }
    ensures value { Steps result draft.new (in_says place draft.old guest_word.now offset.now length.now tail.now) }
    ensures kept { OnOk result (Keeps place.number draft.old draft.new) }
{
    behind_board(draft)?;
    let who = guest(draft, guest_word)?;
    let offset = number(offset, 0, OFFSET_LIMIT)? as u8;
    let length = width(length)?;
    let queue = queue_of_tail(draft, &tail.queue)?;
    let once = tail.once;
    add(
        draft,
        place,
        who,
        What::BarRead {
            offset,
            length,
            queue,
            once,
        },
    )
}

/// `gN out OFF HEX [@K] [once]`
pub fn write_bar(
    alloc: Global,
    draft: &mut Draft,
    place: Place,
    guest_word: &Word,
    offset: &Word,
    hex: &Word,
    tail: &Tail,
) -> Result<(), Fault>
    requires { AreBefore place.number draft.old.lines }
    ensures value { Steps result draft.new (out_says place draft.old guest_word.now offset.now hex.now tail.now) }
    ensures kept { OnOk result (Keeps place.number draft.old draft.new) }
{
    behind_board(draft)?;
    let who = guest(draft, guest_word)?;
    let offset = number(offset, 0, OFFSET_LIMIT)? as u8;
    let bytes = bytes_of_width(alloc, hex)?;
    let queue = queue_of_tail(draft, &tail.queue)?;
    let once = tail.once;
    add(
        draft,
        place,
        who,
        What::BarWrite {
            offset,
            bytes,
            queue,
            once,
        },
    )
}

// Whether a range lies in a memory.
fn lies_in(addr: u64, length: u64, memory: u64) -> bool
    ensures { result ≡ nat_le (addr + length) memory }
{
    match addr.checked_add(length) {
        Some(end) => end <= memory,
        None => false,
    }
}

/// `gN mem ADDR HEX`
pub fn mem(
    alloc: Global,
    draft: &mut Draft,
    place: Place,
    guest_word: &Word,
    addr: &Word,
    hex: &Word,
) -> Result<(), Fault>
    requires { AreBefore place.number draft.old.lines }
    ensures value { Steps result draft.new (mem_says place draft.old guest_word.now addr.now hex.now) }
    ensures kept { OnOk result (Keeps place.number draft.old draft.new) }
{
    behind_board(draft)?;
    let who = guest(draft, guest_word)?;
    let addr = large_number(addr)?;
    let bytes = bytes(alloc, hex, 1, RANGE_LIMIT)?;
    if !lies_in(addr, bytes.as_slice().len() as u64, draft.memory(who)) {
        return Err(Fault::Bad(Cause::Range));
    }
    add(draft, place, who, What::Mem { addr, bytes })
}

/// `gN peek ADDR LEN`
pub fn peek(
    draft: &mut Draft,
    place: Place,
    guest_word: &Word,
    addr: &Word,
    length: &Word,
) -> Result<(), Fault>
    requires { AreBefore place.number draft.old.lines }
    ensures value { Steps result draft.new (peek_says place draft.old guest_word.now addr.now length.now) }
    ensures kept { OnOk result (Keeps place.number draft.old draft.new) }
{
    behind_board(draft)?;
    let who = guest(draft, guest_word)?;
    let addr = large_number(addr)?;
    let length = number(length, 1, RANGE_LIMIT as u64)?;
    if !lies_in(addr, length, draft.memory(who)) {
        return Err(Fault::Bad(Cause::Range));
    }
    let length = length as u32;
    add(draft, place, who, What::Peek { addr, length })
}

/// `gN msix on` and `gN msix off`
pub fn msix(draft: &mut Draft, place: Place, guest_word: &Word, on: bool) -> Result<(), Fault>
    requires { AreBefore place.number draft.old.lines }
    ensures value { Steps result draft.new (guest_says place draft.old guest_word.now (What.Msix on)) }
    ensures kept { OnOk result (Keeps place.number draft.old draft.new) }
{
    behind_board(draft)?;
    let who = guest(draft, guest_word)?;
    add(draft, place, who, What::Msix { on })
}

/// `gN io on` and `gN io off`
pub fn io(draft: &mut Draft, place: Place, guest_word: &Word, on: bool) -> Result<(), Fault>
    requires { AreBefore place.number draft.old.lines }
    ensures value { Steps result draft.new (guest_says place draft.old guest_word.now (What.Io on)) }
    ensures kept { OnOk result (Keeps place.number draft.old draft.new) }
{
    behind_board(draft)?;
    let who = guest(draft, guest_word)?;
    add(draft, place, who, What::Io { on })
}

/// `gN cfg OFF LEN`
pub fn cfg(
    draft: &mut Draft,
    place: Place,
    guest_word: &Word,
    offset: &Word,
    length: &Word,
) -> Result<(), Fault>
    requires { AreBefore place.number draft.old.lines }
    ensures value { Steps result draft.new (cfg_says place draft.old guest_word.now offset.now length.now) }
    ensures kept { OnOk result (Keeps place.number draft.old draft.new) }
{
    behind_board(draft)?;
    let who = guest(draft, guest_word)?;
    let offset = number(offset, 0, OFFSET_LIMIT)? as u8;
    let length = width(length)?;
    add(draft, place, who, What::Cfg { offset, length })
}

/// `gN irqs`
pub fn irqs(draft: &mut Draft, place: Place, guest_word: &Word) -> Result<(), Fault>
    requires { AreBefore place.number draft.old.lines }
    ensures value { Steps result draft.new (guest_says place draft.old guest_word.now What.Irqs) }
    ensures kept { OnOk result (Keeps place.number draft.old draft.new) }
{
    behind_board(draft)?;
    let who = guest(draft, guest_word)?;
    add(draft, place, who, What::Irqs)
}

/// `gN poll V`
pub fn poll(draft: &mut Draft, place: Place, guest_word: &Word, queue: &Word) -> Result<(), Fault>
    requires { AreBefore place.number draft.old.lines }
    ensures value { Steps result draft.new (poll_says place draft.old guest_word.now queue.now) }
    ensures kept { OnOk result (Keeps place.number draft.old draft.new) }
{
    behind_board(draft)?;
    let who = guest(draft, guest_word)?;
    let queue = number(queue, 0, INDEX_LIMIT)? as u16;
    add(draft, place, who, What::Poll { queue })
}
