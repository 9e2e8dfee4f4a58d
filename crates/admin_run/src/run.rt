//! The lines of a text, one after another.
ghost use Rattle.std.specs.Prelude.{◌≡◌, ◌++◌, IfOk, OnOk};
ghost use Rattle.admin_script.specs.Bounds.{IsAdminLine};
ghost use Rattle.admin_run.specs.Group.{after_line};
ghost use Rattle.admin_run.specs.Answers.{answer_to, admin_output};

use crate::completion::push_done;
use crate::group::DeviceGroup;
use admin_script::{AdminLine, AdminText};
use board_text::Bytes;
use std::alloc::{AllocError as NoMemory, Global};

// Performs a line, and appends its answer.
fn answer(group: &mut DeviceGroup, output: &mut Vec<u8>, line: &AdminLine) -> Result<(), NoMemory>
    requires { IsAdminLine line.now }
    ensures group { OnOk result (group.new ≡ after_line group.old line.now) }
    ensures output { OnOk result (output.new.items ≡ output.old.items ++ answer_to group.old line.now) }
{
    match line {
        AdminLine::Vfs { count } => group.set_functions(*count),
        AdminLine::Reset => group.reset(),
        AdminLine::Cmd { writable, bytes } => {
            let done = group.serve(bytes, *writable)?;
            push_done(output, &done)
        }
    }
}

/// The output of `admin` for the lines of its input: for each command its completion in hex. Each line finds the owner and
/// the members as the lines before left them.
pub fn run_admin(alloc: Global, text: &AdminText) -> Result<Bytes, NoMemory>
    ensures { IfOk result (λ output. output ≡ admin_output text.now) }
{
    let mut group = DeviceGroup::new(alloc, text.length() as u64)?;
    let mut output = Vec::new(alloc);
    'lines: for index in 0..text.length() {
        answer(&mut group, &mut output, text.line(index))?;
    }
    Ok(Bytes::from(output))
}
