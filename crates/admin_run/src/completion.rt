//! The line of a completion.
ghost use Rattle.std.specs.Prelude.{◌≡◌, ◌++◌, OnOk};
ghost use Rattle.admin_run.specs.Answers.{done_line};

use board_text::Piece;
use std::alloc::AllocError as NoMemory;
use text_out::push_hex;

/// Appends the line of a completion of these bytes.
pub(crate) fn push_done(output: &mut Vec<u8>, bytes: &Piece) -> Result<(), NoMemory>
    ensures { OnOk result (output.new.items ≡ output.old.items ++ done_line bytes.now) }
{
    output.extend_from_slice(b"done ")?;
    let bytes = bytes.as_slice();
    if bytes.is_empty() {
        output.push(b'-')?;
    } else {
        push_hex(output, bytes)?;
    }
    output.push(b'\n')?;
    Ok(())
}
