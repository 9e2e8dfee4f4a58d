//! The run of a script that is made of a seed, and its summary.
ghost use Rattle.std.specs.Prelude.{◌≡◌, ◌≤◌, ◌++◌, IfOk, OnOk};
ghost use Rattle.board_script.specs.Script.{Whole};
ghost use Rattle.journal.specs.Journals.{Journal};
ghost use Rattle.journal.specs.Words.{and_number};
ghost use Rattle.journal.specs.Texts.{line_of};
ghost use Rattle.board_run.specs.Standing.{HoldsJournal};
ghost use Rattle.script_load.specs.Loaded.{load_limit};
ghost use Rattle.load_run.specs.Load.{load_summary, load_text};

use crate::counts::{commands, reads, writes};
use crate::reads::total;
use board_run::run_steps;
use board_script::Script;
use board_text::Bytes;
use group_cells::PlainCells;
use script_load::load_script;
use std::alloc::{AllocError as NoMemory, Global};
use text_out::push_number;

// Appends a line of a name and a number.
fn push_line(output: &mut Vec<u8>, name: &[u8], number: u64) -> Result<(), NoMemory>
    ensures { OnOk result (output.new.items ≡ output.old.items ++ line_of (name.now ++ and_number number)) }
{
    output.extend_from_slice(name)?;
    output.push(b' ')?;
    push_number(output, number)?;
    output.push(b'\n')?;
    Ok(())
}

// The summary of a run.
fn summary(alloc: Global, script: &Script, cells: &PlainCells) -> Result<Bytes, NoMemory>
    ensures { (j : Journal) → HoldsJournal script.now j cells.now → IfOk result (λ text. text ≡ load_summary script.now j) }
{
    let mut output = Vec::new(alloc);
    push_line(&mut output, b"commands", commands(cells)?)?;
    push_line(&mut output, b"reads", reads(script))?;
    push_line(&mut output, b"writes", writes(script))?;
    push_line(&mut output, b"sum", total(cells)?)?;
    output.extend_from_slice(b"end\n")?;
    Ok(Bytes::from(output))
}

/// The output of the run of a script that is made of a seed, with so many lines, at most 100,000: how many commands were
/// posted, how many lines read and write, and the sum of the bytes that were read. `NoMemory` where the run can't be had.
pub fn run_load(alloc: Global, seed: u64, count: u32) -> Result<Bytes, NoMemory>
    requires { count ≤ load_limit }
    ensures { IfOk result (λ text. text ≡ load_text seed count) }
{
    let script = load_script(alloc, seed, count)?;
    let ran = run_steps(alloc, &script)?;
    summary(alloc, &script, &ran.cells)
}
