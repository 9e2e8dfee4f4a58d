//! Reading the input of `admin`.
ghost use Rattle.std.specs.Prelude.{◌≡◌, ◌<◌, ◌-◌, ◌^◌, ◌++◌, ◌∷◌, [], length};
ghost use Rattle.script_words.specs.Texts.{Reads};
ghost use Rattle.script_words.specs.Values.{Steps};
ghost use Rattle.admin_script.specs.declared.shape.AdminShape.TheVariants as shape_of;
ghost use Rattle.admin_script.specs.Bounds.{IsAdminLine};
ghost use Rattle.admin_script.specs.Admin.{breaks_admin, command_bytes, with_admin_row, with_admin_form, with_admin_text, admin_text_of};

use crate::limits::{COMMAND_LIMIT, FUNCTION_LIMIT, ROOM_LIMIT};
use crate::line::AdminLine;
use crate::shape::{AdminShape, read_shape};
use crate::text::AdminText;
use board_text::{Piece, next_line};
use script_words::{Cause, Fault, ScriptFault, Word, at_line, fill_piece, is_ignored, number};
use std::alloc::Global;

fn breaks_setup(earlier: &AdminText, shape: &AdminShape) -> bool
    ensures { result ≡ breaks_admin earlier.now shape.now }
{
    match shape {
        AdminShape::Vfs { .. } => earlier.has_begun(),
        AdminShape::Reset => false,
        AdminShape::Cmd { .. } => false,
    }
}

// Puts the bytes of a command into a piece that has none yet.
fn fill_command(alloc: Global, word: &Word, piece: &mut Piece) -> Result<(), Fault>
    requires { piece.old ≡ [] }
    ensures { Steps result piece.new (command_bytes word.now) }
{
    if word.is(b"-") {
        return Ok(());
    }
    fill_piece(alloc, word, 0, COMMAND_LIMIT, piece)
}

fn add_line(text: &mut AdminText, line: AdminLine) -> Result<(), Fault>
    requires { IsAdminLine line }
    ensures { Steps result text.new (Ok (text.old ++ line ∷ [])) }
{
    match text.push(line) {
        Ok(()) => Ok(()),
        Err(_) => Err(Fault::NoMemory),
    }
}

fn add_command(
    alloc: Global,
    text: &mut AdminText,
    writable: &Word,
    bytes: &Word,
) -> Result<(), Fault>
    ensures { Steps result text.new (with_admin_row text.old (shape_of.Cmd writable.now bytes.now)) }
{
    let writable = number(writable, 0, ROOM_LIMIT)? as u32;
    let mut piece = Piece::new();
    fill_command(alloc, bytes, &mut piece)?;
    add_line(
        text,
        AdminLine::Cmd {
            writable,
            bytes: piece,
        },
    )
}

fn add_row(alloc: Global, text: &mut AdminText, shape: &AdminShape) -> Result<(), Fault>
    ensures { Steps result text.new (with_admin_row text.old shape.now) }
{
    match shape {
        AdminShape::Vfs { count } => {
            let count = number(count, 0, FUNCTION_LIMIT)? as u32;
            add_line(text, AdminLine::Vfs { count })
        }
        AdminShape::Reset => add_line(text, AdminLine::Reset),
        AdminShape::Cmd { writable, bytes } => add_command(alloc, text, writable, bytes),
    }
}

fn add_form(alloc: Global, text: &mut AdminText, shape: Option<AdminShape>) -> Result<(), Fault>
    ensures { Steps result text.new (with_admin_form text.old shape.entry) }
{
    match shape {
        None => Err(Fault::Bad(Cause::Word)),
        Some(shape) => {
            if breaks_setup(text, &shape) {
                Err(Fault::Bad(Cause::Setup))
            } else {
                add_row(alloc, text, &shape)
            }
        }
    }
}

fn add_text(alloc: Global, text: &mut AdminText, line: &[u8]) -> Result<(), Fault>
    ensures { Steps result text.new (with_admin_text text.old line.now) }
{
    if is_ignored(line) {
        return Ok(());
    }
    add_form(alloc, text, read_shape(line))
}

/// The lines of a text for `admin`, or its first fault: the number of the first line with a fault, and the
/// first cause there.
pub fn read_admin(alloc: Global, text: &[u8]) -> Result<AdminText, ScriptFault>
    requires { length text.now < 2 ^ 32 - 1 }
    ensures { Reads result (admin_text_of text.now) }
{
    let mut admin = AdminText::new(alloc);
    if admin.reserve(text.len()).is_err() {
        return Err(ScriptFault::NoMemory);
    }
    let mut from = 0;
    let mut number = 1;
    'lines: while let Some(line) = next_line(text, from) {
        if let Err(fault) = add_text(alloc, &mut admin, &text[line.start..line.end]) {
            return Err(at_line(number, fault));
        }
        from = line.next;
        number += 1;
    }
    Ok(admin)
}
