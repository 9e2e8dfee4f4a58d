//! What a command makes of a text.
ghost use Rattle.std.specs.Prelude.{◌≡◌, ◌<◌, ◌-◌, ◌^◌, length, IfOk};
ghost use Rattle.script_words.specs.Texts.{Reads};
ghost use Rattle.admin_script.specs.Admin.{admin_text_of};
ghost use Rattle.admin_run.specs.Answers.{admin_output};
ghost use Rattle.board_script.specs.Script.{script_of};
ghost use Rattle.board_script.specs.declared.draft.Use.TheVariants as Use;
ghost use Rattle.alone_run.specs.Transcript.{alone_text};
ghost use Rattle.group_board.specs.Output.{output_for, output_of, step_text};
ghost use Rattle.group_board.specs.Putting.{Makes};
ghost use Rattle.group_board.specs.Headline.{HasStepHeadline, HasItsHeadline};

use crate::words::Command;
use admin_run::run_admin;
use alone_run::run_alone;
use board_run::{Ran, run_steps};
use board_script::{ScriptFault, read_admin, read_alone, read_script};
use board_text::Bytes;
use std::alloc::Global;

/// What a command makes: a text, or a run whose text is put piece by piece.
#[derive(Drop)]
pub enum Output {
    Text(Bytes),
    Run(Ran),
}

fn admin(alloc: Global, text: &[u8]) -> Result<Bytes, ScriptFault>
    requires { length text.now < 2 ^ 32 - 1 }
    ensures { Reads result (output_for admin_output (admin_text_of text.now)) }
{
    let lines = read_admin(alloc, text)?;
    match run_admin(alloc, &lines) {
        Ok(output) => Ok(output),
        Err(_) => Err(ScriptFault::NoMemory),
    }
}

fn alone(alloc: Global, text: &[u8]) -> Result<Bytes, ScriptFault>
    requires { length text.now < 2 ^ 32 - 1 }
    ensures { Reads result (output_for alone_text (script_of Use.Alone text.now)) }
{
    let script = read_alone(alloc, text)?;
    match run_alone(alloc, &script) {
        Ok(output) => Ok(output),
        Err(_) => Err(ScriptFault::NoMemory),
    }
}

fn step(alloc: Global, text: &[u8]) -> Result<Output, ScriptFault>
    requires { length text.now < 2 ^ 32 - 1 }
    ensures made { Makes result (output_for step_text (script_of Use.Group text.now)) }
    ensures headline { IfOk result (λ output. HasStepHeadline text.now) }
{
    let script = read_script(alloc, text)?;
    match run_steps(alloc, &script) {
        Ok(ran) => Ok(Output::Run(ran)),
        Err(_) => Err(ScriptFault::NoMemory),
    }
}

/// The output of a command for a text, or the text's first fault.
pub fn perform(alloc: Global, command: Command, text: &[u8]) -> Result<Output, ScriptFault>
    requires { length text.now < 2 ^ 32 - 1 }
    ensures made { Makes result (output_of command text.now) }
    ensures headline { IfOk result (λ output. HasItsHeadline command text.now) }
{
    match command {
        Command::Admin => Ok(Output::Text(admin(alloc, text)?)),
        Command::Step => step(alloc, text),
        Command::Alone => Ok(Output::Text(alone(alloc, text)?)),
    }
}
