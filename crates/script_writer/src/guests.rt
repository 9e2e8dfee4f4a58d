//! The lines of the board and of the guests.
ghost use Rattle.std.specs.Prelude.{◌≡◌, ◌++◌, OnOk};
ghost use Rattle.script_writer.specs.Written.{board_words, read_only_words, member_words, guest_words, spaced, line_text};

use crate::parts::{end_line, put_named_hex, put_named_numbers, put_number, put_word};
use board_script::{Board, Kind, Setup};
use board_text::Bytes;
use std::alloc::AllocError as NoMemory;

// The `board` line.
pub(crate) fn put_board(
    text: &mut Bytes,
    queues: u32,
    queue_size: u32,
    workers: u32,
) -> Result<(), NoMemory>
    ensures { OnOk result (text.new ≡ text.old ++ line_text (board_words (record { queues = queues; queue_size = queue_size; workers = workers }))) }
{
    text.extend(b"board")?;
    put_number(text, u64::from(queues))?;
    put_number(text, u64::from(queue_size))?;
    put_number(text, u64::from(workers))?;
    end_line(text)
}

fn put_read_only(text: &mut Bytes, read_only: bool) -> Result<(), NoMemory>
    ensures { OnOk result (text.new ≡ text.old ++ spaced (read_only_words read_only)) }
{
    if read_only {
        put_word(text, b"ro")
    } else {
        Ok(())
    }
}

fn put_member(text: &mut Bytes, pages: u32, kind: &Kind) -> Result<(), NoMemory>
    ensures { OnOk result (text.new ≡ text.old ++ spaced (member_words pages kind.now)) }
{
    match kind {
        Kind::Block { sectors, read_only } => {
            put_named_numbers(text, b"block", u64::from(pages), *sectors)?;
            put_read_only(text, *read_only)
        }
        Kind::Net { mac } => put_named_hex(text, b"net", u64::from(pages), mac),
    }
}

// A `guest` line.
pub(crate) fn put_guest(text: &mut Bytes, number: u32, setup: Setup) -> Result<(), NoMemory>
    ensures { OnOk result (text.new ≡ text.old ++ line_text (guest_words number setup)) }
{
    text.extend(b"guest")?;
    put_number(text, u64::from(number))?;
    put_member(text, setup.pages, &setup.kind)?;
    end_line(text)
}
