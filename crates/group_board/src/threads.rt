//! The command `run`: a script of a group, each actor in a thread of its own.
ghost use Rattle.std.specs.Prelude.{◌≡◌, ◌<◌, ◌≤◌, ◌-◌, ◌^◌, ◌⊎◌, ◌↔◌, true, false, length, max, IfSome};
ghost use Rattle.board_io.specs.Faults.{Rose};
ghost use Rattle.group_board.specs.Limits.{transfer_limit};
ghost use Rattle.group_board.specs.Words.{is_run as are_run};
ghost use Rattle.group_board.specs.Outcome.{PutsNothing, ReadsToEnd};
ghost use Rattle.group_board.specs.Threads.{RunSays, MakesRun, run_status};

use crate::commands::Output;
use crate::reading::{ReadFailure, read_text};
use crate::status::Status;
use crate::words::is_run;
use crate::writing::put_made;
use board_io::{Gate, Sink, Source};
use board_script::{ScriptFault, read_script};
use std::alloc::Global;
use std::sync::Wait;
use std::thread::Threads;
use thread_run::run_threads;

// The run of a text's script, or the text's first fault.
fn run<G: Gate + Sync, Rt: Threads + Wait + Sync>(
    rt: &Rt,
    alloc: Global,
    text: &[u8],
    gate: &G,
) -> Result<Output, ScriptFault>
    requires { length text.now < 2 ^ 32 - 1 }
    ensures { MakesRun text.now result }
{
    let script = read_script(alloc, text)?;
    match run_threads(rt, alloc, &script, gate) {
        Ok(ran) => Ok(Output::Run(ran)),
        Err(_) => Err(ScriptFault::NoMemory),
    }
}

// Runs the script that the source gives, and puts its text into the sink.
fn answer_run<R: Source, W: Sink, G: Gate + Sync, Rt: Threads + Wait + Sync>(
    rt: &Rt,
    alloc: Global,
    source: &mut R,
    sink: &mut W,
    gate: &G,
) -> Status
    ensures used { result ≡ Status.Usage → ⊥ }
    ensures says { RunSays result (R.left source.old) (W.held sink.old) (W.held sink.new) }
    ensures nothing { PutsNothing result (W.held sink.old) (W.held sink.new) }
    ensures to_end { IfSome (R.left source.old) (λ text. ReadsToEnd result (R.left source.new)) }
    ensures read_fault { result ≡ Status.ReadFault → Rose (R.faults source.old) (R.faults source.new) }
    ensures source_failures_alone { (result ≡ Status.ReadFault) ⊎ (R.faults source.new ≡ R.faults source.old) }
    ensures write_fault { result ≡ Status.WriteFault → Rose (W.faults sink.old) (W.faults sink.new) }
    ensures sink_failures_alone { (result ≡ Status.WriteFault) ⊎ (W.faults sink.new ≡ W.faults sink.old) }
    ensures pieces_read { R.widest source.new ≤ max (R.widest source.old) transfer_limit }
    ensures pieces_put { W.widest sink.new ≤ max (W.widest sink.old) transfer_limit }
    ensures complete { IfSome (R.left source.old) (λ text.
        (Rose (R.faults source.old) (R.faults source.new) → ⊥) → (Rose (W.faults sink.old) (W.faults sink.new) → ⊥)
        → (result ≡ run_status text) ⊎ (result ≡ Status.NoMemory)) }
{
    let text = match read_text(alloc, source) {
        Ok(text) => text,
        Err(ReadFailure::Fault) => return Status::ReadFault,
        Err(ReadFailure::TooLong) => return Status::TooLong,
        Err(ReadFailure::NoMemory) => return Status::NoMemory,
    };
    let made = run(rt, alloc, text.as_slice(), gate);
    put_made(alloc, made, sink)
}

/// Performs `run`, from what the source gives to what the sink takes: the lines of each actor of the script in a thread of
/// its own, where one can be had. The gate is asked before each step of an actor. It may wait. That there were several
/// threads no clause says.
pub fn board_threads<R: Source, W: Sink, G: Gate + Sync, Rt: Threads + Wait + Sync>(
    rt: &Rt,
    alloc: Global,
    words: &[String],
    source: &mut R,
    sink: &mut W,
    gate: &G,
) -> Status
    ensures usage { (result ≡ Status.Usage) ↔ (are_run words.now ≡ false) }
    ensures untouched { result ≡ Status.Usage → (source.new ≡ source.old) × (sink.new ≡ sink.old) }
    ensures says { RunSays result (R.left source.old) (W.held sink.old) (W.held sink.new) }
    ensures nothing { PutsNothing result (W.held sink.old) (W.held sink.new) }
    ensures to_end { IfSome (R.left source.old) (λ text. ReadsToEnd result (R.left source.new)) }
    ensures read_fault { result ≡ Status.ReadFault → Rose (R.faults source.old) (R.faults source.new) }
    ensures source_failures_alone { (result ≡ Status.ReadFault) ⊎ (R.faults source.new ≡ R.faults source.old) }
    ensures write_fault { result ≡ Status.WriteFault → Rose (W.faults sink.old) (W.faults sink.new) }
    ensures sink_failures_alone { (result ≡ Status.WriteFault) ⊎ (W.faults sink.new ≡ W.faults sink.old) }
    ensures pieces_read { R.widest source.new ≤ max (R.widest source.old) transfer_limit }
    ensures pieces_put { W.widest sink.new ≤ max (W.widest sink.old) transfer_limit }
    ensures complete { are_run words.now ≡ true → IfSome (R.left source.old) (λ text.
        (Rose (R.faults source.old) (R.faults source.new) → ⊥) → (Rose (W.faults sink.old) (W.faults sink.new) → ⊥)
        → (result ≡ run_status text) ⊎ (result ≡ Status.NoMemory)) }
{
    if !is_run(words) {
        return Status::Usage;
    }
    answer_run(rt, alloc, source, sink, gate)
}
