//! Answers in words.
ghost use Rattle.std.specs.Prelude.{◌≡◌, ◌++◌, ◌≤◌, codes, length, true, OnOk};
ghost use Rattle.guest_lines.specs.Lines.{halt_words, reply_words, ones, read_count as read_count_of, lone_words, outside_words, answer_words};
ghost use Rattle.guest_lines.specs.Widths.{HasWidth};

use board_script::What;
use group_calls::{Halt, LoneReply, MemberReply};
use io_bar::Bar;
use std::alloc::AllocError as NoMemory;
use text_out::push_hex;

// Appends all ones for a read of so many bytes.
fn push_ones(output: &mut Vec<u8>, length: u32) -> Result<(), NoMemory>
    requires { length ≤ 4 }
    ensures { OnOk result (output.new.items ≡ output.old.items ++ ones length) }
{
    push_hex(output, &[0xff; 4][..length as usize])
}

// Why a queue was halted.
fn halt_name(halt: &Halt) -> &'static [u8]
    ensures { result.now ≡ halt_words halt.now }
{
    match halt {
        Halt::Ring => b"halted ring".as_slice(),
        Halt::Index => b"halted index".as_slice(),
        Halt::Chain => b"halted chain".as_slice(),
        Halt::Request => b"halted request".as_slice(),
    }
}

// Appends the words for a reply.
fn push_reply(output: &mut Vec<u8>, reply: &MemberReply) -> Result<(), NoMemory>
    ensures { OnOk result (output.new.items ≡ output.old.items ++ reply_words reply.now) }
{
    match reply {
        MemberReply::Data(bytes) => push_hex(output, bytes.as_slice()),
        MemberReply::Gone { .. } => output.extend_from_slice(b"gone"),
        MemberReply::Irqs { mask } => push_hex(output, &[(*mask % 256) as u8]),
        MemberReply::Served { .. } => output.extend_from_slice(b"served"),
        MemberReply::Empty => output.extend_from_slice(b"empty"),
        MemberReply::NotPending => output.extend_from_slice(b"idle"),
        MemberReply::Halted(halt) => output.extend_from_slice(halt_name(halt)),
        MemberReply::Dropped => output.extend_from_slice(b"dropped"),
        _ => output.extend_from_slice(b"ok"),
    }
}

// How many bytes a read of the BAR has.
fn read_count(what: &What) -> u32
    requires { HasWidth what.now }
    ensures value { result ≡ read_count_of what.now }
    ensures few { result ≤ 4 }
{
    match what {
        What::BarRead { length, .. } => *length,
        _ => 0,
    }
}

// Appends the words for the device's reply to a line.
fn push_told(output: &mut Vec<u8>, what: &What, reply: &LoneReply) -> Result<(), NoMemory>
    requires { HasWidth what.now }
    ensures { OnOk result (output.new.items ≡ output.old.items ++ lone_words what.now reply.now) }
{
    match reply {
        LoneReply::Data(bytes) => push_hex(output, bytes.as_slice()),
        LoneReply::Ignored => output.extend_from_slice(b"ok"),
        LoneReply::Ones => push_ones(output, read_count(what)),
        LoneReply::Other(told) => push_reply(output, told),
    }
}

// Appends the words for a line that asks nothing of the device.
fn push_outside(output: &mut Vec<u8>, bar: &Bar, io: bool, what: &What) -> Result<(), NoMemory>
    requires { HasWidth what.now }
    ensures { OnOk result (output.new.items ≡ output.old.items ++ outside_words bar.now io what.now) }
{
    match what {
        What::BarRead { length, .. } => push_ones(output, *length),
        What::Cfg { offset, length } => {
            push_hex(output, bar.config(io, *offset, *length).as_slice())
        }
        _ => output.extend_from_slice(b"ok"),
    }
}

/// Appends the words for a line and the device's reply to it, if it asked the device.
pub(crate) fn push_words(
    output: &mut Vec<u8>,
    bar: &Bar,
    io: bool,
    what: &What,
    reply: &Option<LoneReply>,
) -> Result<(), NoMemory>
    requires { HasWidth what.now }
    ensures { OnOk result (output.new.items ≡ output.old.items ++ answer_words bar.now io what.now reply.now) }
{
    match reply {
        Some(reply) => push_told(output, what, reply),
        None => push_outside(output, bar, io, what),
    }
}
