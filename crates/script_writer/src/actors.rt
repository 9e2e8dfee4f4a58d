//! The lines of actors and of the schedule.
ghost use Rattle.std.specs.Prelude.{◌≡◌, ◌++◌, OnOk};
ghost use Rattle.board_script.specs.declared.script.What.TheVariants.{BarRead, BarWrite};
ghost use Rattle.script_writer.specs.Written.{actor_word, at_words, once_words, what_words, actor_words, turns_words, spaced, line_text};

use crate::parts::{
    end_line, put_decimal, put_named, put_named_hex, put_named_numbers, put_named_switch,
    put_number, put_word,
};
use board_script::{ActorLine, HOST, Turns, WORKERS_FROM, What};
use board_text::Bytes;
use std::alloc::AllocError as NoMemory;

fn put_actor(text: &mut Bytes, who: u32) -> Result<(), NoMemory>
    ensures { OnOk result (text.new ≡ text.old ++ actor_word who) }
{
    if who == HOST {
        return text.extend(b"host");
    }
    if WORKERS_FROM <= who {
        text.push(b'w')?;
        put_decimal(text, u64::from(who - WORKERS_FROM))
    } else {
        text.push(b'g')?;
        put_decimal(text, u64::from(who))
    }
}

fn put_at(text: &mut Bytes, queue: Option<u32>) -> Result<(), NoMemory>
    ensures { OnOk result (text.new ≡ text.old ++ spaced (at_words queue)) }
{
    match queue {
        Some(queue) => {
            put_word(text, b"@")?;
            put_decimal(text, u64::from(queue))
        }
        None => Ok(()),
    }
}

fn put_once(text: &mut Bytes, once: bool) -> Result<(), NoMemory>
    ensures { OnOk result (text.new ≡ text.old ++ spaced (once_words once)) }
{
    if once {
        put_word(text, b"once")
    } else {
        Ok(())
    }
}

// What may stand at the end of an access.
fn put_tail(text: &mut Bytes, queue: Option<u32>, once: bool) -> Result<(), NoMemory>
    ensures { OnOk result (text.new ≡ text.old ++ spaced (at_words queue ++ once_words once)) }
{
    put_at(text, queue)?;
    put_once(text, once)
}

// A read of the BAR.
fn put_in(
    text: &mut Bytes,
    offset: u8,
    length: u32,
    queue: Option<u32>,
    once: bool,
) -> Result<(), NoMemory>
    ensures { OnOk result (text.new ≡ text.old ++ spaced (what_words (BarRead offset length queue once))) }
{
    put_named_numbers(text, b"in", u64::from(offset), u64::from(length))?;
    put_tail(text, queue, once)
}

// A write of the BAR.
fn put_out(
    text: &mut Bytes,
    offset: u8,
    bytes: &Bytes,
    queue: Option<u32>,
    once: bool,
) -> Result<(), NoMemory>
    ensures { OnOk result (text.new ≡ text.old ++ spaced (what_words (BarWrite offset bytes.now queue once))) }
{
    put_named_hex(text, b"out", u64::from(offset), bytes.as_slice())?;
    put_tail(text, queue, once)
}

// What follows the actor.
fn put_what(text: &mut Bytes, what: &What) -> Result<(), NoMemory>
    ensures { OnOk result (text.new ≡ text.old ++ spaced (what_words what.now)) }
{
    match what {
        What::BarRead {
            offset,
            length,
            queue,
            once,
        } => put_in(text, *offset, *length, *queue, *once),
        What::BarWrite {
            offset,
            bytes,
            queue,
            once,
        } => put_out(text, *offset, bytes, *queue, *once),
        What::Mem { addr, bytes } => put_named_hex(text, b"mem", *addr, bytes.as_slice()),
        What::Peek { addr, length } => {
            put_named_numbers(text, b"peek", *addr, u64::from(*length))
        }
        What::Msix { on } => put_named_switch(text, b"msix", *on),
        What::Io { on } => put_named_switch(text, b"io", *on),
        What::Cfg { offset, length } => {
            put_named_numbers(text, b"cfg", u64::from(*offset), u64::from(*length))
        }
        What::Irqs => put_word(text, b"irqs"),
        What::Poll { queue } => put_named(text, b"poll", u64::from(*queue)),
        What::Serve { queue } => put_named(text, b"serve", u64::from(*queue)),
        What::WorkerPoll { member, queue } => {
            put_named_numbers(text, b"poll", u64::from(*member), u64::from(*queue))
        }
        What::Frame { member, frame } => {
            put_named_hex(text, b"frame", u64::from(*member), frame.as_slice())
        }
        What::Flr { member } => put_named(text, b"flr", u64::from(*member)),
        What::Disable { member } => put_named(text, b"disable", u64::from(*member)),
        What::Reset => put_word(text, b"reset"),
    }
}

// A line of an actor.
pub(crate) fn put_actor_line(text: &mut Bytes, line: &ActorLine) -> Result<(), NoMemory>
    ensures { OnOk result (text.new ≡ text.old ++ line_text (actor_words line.now)) }
{
    put_actor(text, line.who)?;
    put_what(text, &line.what)?;
    end_line(text)
}

// A `go` line.
pub(crate) fn put_turns(text: &mut Bytes, turns: Turns) -> Result<(), NoMemory>
    ensures { OnOk result (text.new ≡ text.old ++ line_text (turns_words turns)) }
{
    text.extend(b"go ")?;
    put_actor(text, turns.who)?;
    put_number(text, u64::from(turns.count))?;
    end_line(text)
}
