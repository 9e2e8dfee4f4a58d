//! Reading a script.
ghost use Rattle.std.specs.Prelude.{◌≡◌, ◌<◌, ◌-◌, ◌^◌, ◌≤◌, length, OnOk, IfOk};
ghost use Rattle.board_text.specs.Line.{lines_of};
ghost use Rattle.script_words.specs.Texts.{Reads};
ghost use Rattle.script_words.specs.Values.{Steps};
ghost use Rattle.board_script.specs.Limits.{turns_limit};
ghost use Rattle.board_script.specs.SoFar.{nothing, scheduled};
ghost use Rattle.board_script.specs.Bounds.{IsScript, IsServed};
ghost use Rattle.board_script.specs.Script.{with_text, with_lines, serves as serves_of, script_of};
ghost use Rattle.board_script.specs.Shapes.{act_says, shape_says, form_says, AreBefore, Keeps};

use crate::draft::{Draft, Use};
use crate::go_lines::add_go;
use crate::guest_lines::{cfg, io, irqs, mem, msix, peek, poll, read_bar, write_bar};
use crate::host_lines::{disable, flr, frame, reset};
use crate::place::Place;
use crate::script::Script;
use crate::setup_lines::{add_board, add_guest};
use crate::worker_lines::{serve, worker_poll};
use board_text::next_line;
use script_words::{Act, Cause, Fault, ScriptFault, Shape, at_line, is_ignored, read_shape};
use std::alloc::Global;

// A line of an actor.
fn add_act(alloc: Global, draft: &mut Draft, place: Place, act: &Act) -> Result<(), Fault>
    requires { AreBefore place.number draft.old.lines }
    ensures value { Steps result draft.new (act_says place draft.old act.now) }
    ensures kept { OnOk result (Keeps place.number draft.old draft.new) }
{
    match act {
        Act::In {
            guest,
            offset,
            length,
            tail,
        } => read_bar(draft, place, guest, offset, length, tail),
        Act::Out {
            guest,
            offset,
            bytes,
            tail,
        } => write_bar(alloc, draft, place, guest, offset, bytes, tail),
        Act::Mem { guest, addr, bytes } => mem(alloc, draft, place, guest, addr, bytes),
        Act::Peek {
            guest,
            addr,
            length,
        } => peek(draft, place, guest, addr, length),
        Act::Msix { guest, on } => msix(draft, place, guest, *on),
        Act::Io { guest, on } => io(draft, place, guest, *on),
        Act::Cfg {
            guest,
            offset,
            length,
        } => cfg(draft, place, guest, offset, length),
        Act::Irqs { guest } => irqs(draft, place, guest),
        Act::Poll { guest, queue } => poll(draft, place, guest, queue),
        Act::Serve { worker, queue } => serve(draft, place, worker, queue),
        Act::WorkerPoll {
            worker,
            member,
            queue,
        } => worker_poll(draft, place, worker, member, queue),
        Act::Frame { member, frame: hex } => frame(alloc, draft, place, member, hex),
        Act::Flr { member } => flr(draft, place, member),
        Act::Disable { member } => disable(draft, place, member),
        Act::Reset => reset(draft, place),
    }
}

fn add_shape(alloc: Global, draft: &mut Draft, place: Place, shape: Shape) -> Result<(), Fault>
    requires { AreBefore place.number draft.old.lines }
    ensures value { Steps result draft.new (shape_says place draft.old shape.entry) }
    ensures kept { OnOk result (Keeps place.number draft.old draft.new) }
{
    match shape {
        Shape::Board {
            queues,
            size,
            workers,
        } => add_board(draft, &queues, &size, &workers),
        Shape::Guest { number, member } => add_guest(alloc, draft, &number, &member),
        Shape::Acts(act) => add_act(alloc, draft, place, &act),
        Shape::Go(words) => add_go(draft, words),
    }
}

fn add_form(
    alloc: Global,
    draft: &mut Draft,
    place: Place,
    shape: Option<Shape>,
) -> Result<(), Fault>
    requires { AreBefore place.number draft.old.lines }
    ensures value { Steps result draft.new (form_says place draft.old shape.entry) }
    ensures kept { OnOk result (Keeps place.number draft.old draft.new) }
{
    match shape {
        None => Err(Fault::Bad(Cause::Word)),
        Some(shape) => add_shape(alloc, draft, place, shape),
    }
}

fn add_text(alloc: Global, draft: &mut Draft, place: Place, text: &[u8]) -> Result<(), Fault>
    requires { AreBefore place.number draft.old.lines }
    ensures value { Steps result draft.new (with_text place draft.old text.now) }
    ensures kept { OnOk result (Keeps place.number draft.old draft.new) }
{
    if is_ignored(text) {
        return Ok(());
    }
    add_form(alloc, draft, place, read_shape(text))
}

fn serves(used: Use, draft: &Draft) -> bool
    ensures { result ≡ serves_of used draft.now }
{
    match used {
        Use::Group => true,
        Use::Alone => draft.guests() == 1,
    }
}

fn read_lines(alloc: Global, used: Use, text: &[u8]) -> Result<Draft, ScriptFault>
    requires { length text.now < 2 ^ 32 - 1 }
    ensures value { Reads result (with_lines used 1 nothing (lines_of text.now)) }
    ensures limit { IfOk result (λ draft. scheduled draft ≤ turns_limit) }
{
    let mut draft = Draft::new(alloc);
    if draft.reserve(text.len()).is_err() {
        return Err(ScriptFault::NoMemory);
    }
    let mut from = 0;
    let mut number = 1;
    'lines: while let Some(line) = next_line(text, from) {
        let place = Place { used, number };
        if let Err(fault) = add_text(alloc, &mut draft, place, &text[line.start..line.end]) {
            return Err(at_line(number, fault));
        }
        from = line.next;
        number += 1;
    }
    Ok(draft)
}

fn read(alloc: Global, used: Use, text: &[u8]) -> Result<Script, ScriptFault>
    requires { length text.now < 2 ^ 32 - 1 }
    ensures value { Reads result (script_of used text.now) }
    ensures bounds { IfOk result IsScript }
    ensures served { IfOk result (IsServed used) }
{
    let draft = read_lines(alloc, used, text)?;
    let serves = serves(used, &draft);
    match draft.into_script() {
        None => Err(ScriptFault::Bad {
            line: 1,
            cause: Cause::Setup,
        }),
        Some(script) => {
            if serves {
                Ok(script)
            } else {
                Err(ScriptFault::Bad {
                    line: 1,
                    cause: Cause::Limit,
                })
            }
        }
    }
}

/// The script of a text, or its first fault: the number of the first line with a fault, and the first cause
/// there. A text without a `board` line that has no other fault is `setup` at line 1.
pub fn read_script(alloc: Global, text: &[u8]) -> Result<Script, ScriptFault>
    requires { length text.now < 2 ^ 32 - 1 }
    ensures value { Reads result (script_of Use.Group text.now) }
    ensures bounds { IfOk result IsScript }
{
    read(alloc, Use::Group, text)
}

/// The same for one guest alone: the 4,097th line of an actor is `limit` too, and a script without exactly
/// one guest that has no other fault is `limit` at line 1.
pub fn read_alone(alloc: Global, text: &[u8]) -> Result<Script, ScriptFault>
    requires { length text.now < 2 ^ 32 - 1 }
    ensures value { Reads result (script_of Use.Alone text.now) }
    ensures bounds { IfOk result IsScript }
    ensures alone { IfOk result (λ s. length s.guests ≡ 1) }
{
    read(alloc, Use::Alone, text)
}
