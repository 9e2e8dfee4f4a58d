//! Writing a script.
ghost use Rattle.std.specs.Prelude.{◌≡◌, ◌++◌, map, OnOk, IfOk};
ghost use Rattle.std.specs.List.{flat_map};
ghost use Rattle.script_writer.specs.Written.{actor_words, turns_words, guest_lines, line_text, written};

use crate::actors::{put_actor_line, put_turns};
use crate::guests::{put_board, put_guest};
use board_script::Script;
use board_text::Bytes;
use std::alloc::{AllocError as NoMemory, Global};

fn put_guests(text: &mut Bytes, script: &Script) -> Result<(), NoMemory>
    ensures { OnOk result (text.new ≡ text.old ++ flat_map line_text (guest_lines 1 script.now.guests)) }
{
    'guests: for number in 0..script.guests() {
        put_guest(text, number + 1, script.setup(number + 1))?;
    }
    Ok(())
}

fn put_lines(text: &mut Bytes, script: &Script) -> Result<(), NoMemory>
    ensures { OnOk result (text.new ≡ text.old ++ flat_map line_text (map actor_words script.now.lines)) }
{
    'lines: for index in 0..script.line_count() {
        put_actor_line(text, script.line(index))?;
    }
    Ok(())
}

fn put_schedule(text: &mut Bytes, script: &Script) -> Result<(), NoMemory>
    ensures { OnOk result (text.new ≡ text.old ++ flat_map line_text (map turns_words script.now.turns)) }
{
    'turns: for index in 0..script.turn_count() {
        put_turns(text, script.turns(index))?;
    }
    Ok(())
}

/// The text of a script: the `board` line, the `guest` lines, the lines of the actors in their order, and then a
/// `go` line for each pair of the schedule. It has no comments, and numbers and bytes are written as short as
/// they can be, with small letters in hex.
pub fn write_script(alloc: Global, script: &Script) -> Result<Bytes, NoMemory>
    ensures { IfOk result (λ text. text ≡ written script.now) }
{
    let mut text = Bytes::new(alloc);
    put_board(
        &mut text,
        script.queues(),
        script.queue_size(),
        script.workers(),
    )?;
    put_guests(&mut text, script)?;
    put_lines(&mut text, script)?;
    put_schedule(&mut text, script)?;
    Ok(text)
}
