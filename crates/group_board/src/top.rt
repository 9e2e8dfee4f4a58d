//! The top call, which does all that the program does.
ghost use Rattle.std.specs.Prelude.{◌≡◌, ◌≤◌, ◌⊎◌, ◌↔◌, true, false, max, IfSome, Some, None};
ghost use Rattle.board_io.specs.Faults.{Rose};
ghost use Rattle.group_board.specs.Limits.{transfer_limit};
ghost use Rattle.group_board.specs.Words.{IsBounded, command_named as named, is_run as are_run, load_named as named_load};
ghost use Rattle.group_board.specs.Headline.{PutsHeadline};
ghost use Rattle.group_board.specs.Outcome.{SaysOf, PutsOf, PutsNothing, ReadsToEnd, LoadSays, status_of};
ghost use Rattle.group_board.specs.Threads.{RunSays, run_status};

use crate::commands::perform;
use crate::reading::{ReadFailure, read_text};
use crate::status::Status;
use crate::threads::board_threads;
use crate::words::{Command, Load, command_named, is_run, load_named};
use crate::writing::{put_all, put_made};
use board_io::{Gate, PutAnswer, Sink, Source};
use load_run::run_load;
use std::alloc::Global;
use std::sync::Wait;
use std::thread::Threads;

/// The longest input, in bytes.
pub const TEXT_LIMIT: usize = 1_048_576;

/// The longest piece that is read or put at once, in bytes.
pub const TRANSFER_LIMIT: usize = 4096;

// Performs a command from what the source gives to what the sink takes.
fn answer_text<R: Source, W: Sink>(
    alloc: Global,
    command: Command,
    source: &mut R,
    sink: &mut W,
) -> Status
    ensures used { result ≡ Status.Usage → ⊥ }
    ensures text { IfSome (R.left source.old) (λ text. SaysOf command result text (W.held sink.old) (W.held sink.new)) }
    ensures headline { result ≡ Status.Done → PutsHeadline (Some command) (R.left source.old) (W.held sink.old) (W.held sink.new) }
    ensures put { PutsOf command result (W.held sink.old) (W.held sink.new) }
    ensures nothing { PutsNothing result (W.held sink.old) (W.held sink.new) }
    ensures to_end { IfSome (R.left source.old) (λ text. ReadsToEnd result (R.left source.new)) }
    ensures read_fault { result ≡ Status.ReadFault → Rose (R.faults source.old) (R.faults source.new) }
    ensures source_failures_alone { (result ≡ Status.ReadFault) ⊎ (R.faults source.new ≡ R.faults source.old) }
    ensures write_fault { result ≡ Status.WriteFault → Rose (W.faults sink.old) (W.faults sink.new) }
    ensures sink_failures_alone { (result ≡ Status.WriteFault) ⊎ (W.faults sink.new ≡ W.faults sink.old) }
    ensures pieces_read { R.widest source.new ≤ max (R.widest source.old) transfer_limit }
    ensures pieces_put { W.widest sink.new ≤ max (W.widest sink.old) transfer_limit }
    ensures complete { IfSome (R.left source.old) (λ text.
        (Rose (R.faults source.old) (R.faults source.new) → ⊥) → (Rose (W.faults sink.old) (W.faults sink.new) → ⊥)
        → (result ≡ status_of command text) ⊎ (result ≡ Status.NoMemory)) }
{
    let text = match read_text(alloc, source) {
        Ok(text) => text,
        Err(ReadFailure::Fault) => return Status::ReadFault,
        Err(ReadFailure::TooLong) => return Status::TooLong,
        Err(ReadFailure::NoMemory) => return Status::NoMemory,
    };
    let made = perform(alloc, command, text.as_slice());
    put_made(alloc, made, sink)
}

// Puts the summary of the run of a script that is made of a seed.
fn answer_load<W: Sink>(alloc: Global, load: Load, sink: &mut W) -> Status
    requires { IsBounded load }
    ensures load { LoadSays load result (W.held sink.old) (W.held sink.new) }
    ensures nothing { PutsNothing result (W.held sink.old) (W.held sink.new) }
    ensures write_fault { result ≡ Status.WriteFault → Rose (W.faults sink.old) (W.faults sink.new) }
    ensures failures_alone { (result ≡ Status.WriteFault) ⊎ (W.faults sink.new ≡ W.faults sink.old) }
    ensures pieces_put { W.widest sink.new ≤ max (W.widest sink.old) transfer_limit }
    ensures complete { (Rose (W.faults sink.old) (W.faults sink.new) → ⊥) → (result ≡ Status.Done) ⊎ (result ≡ Status.NoMemory) }
{
    let Ok(summary) = run_load(alloc, load.seed, load.count) else {
        return Status::NoMemory;
    };
    if let PutAnswer::Failed = put_all(sink, summary.as_slice()) {
        return Status::WriteFault;
    }
    Status::Done
}

/// Performs the command that the words name, from what the source gives to what the sink takes. `load` reads no input.
pub fn board_once<R: Source, W: Sink>(
    alloc: Global,
    words: &[String],
    source: &mut R,
    sink: &mut W,
) -> Status
    ensures usage { (result ≡ Status.Usage) ↔ ((named words.now ≡ None) × (named_load words.now ≡ None)) }
    ensures untouched { result ≡ Status.Usage → (source.new ≡ source.old) × (sink.new ≡ sink.old) }
    ensures text { IfSome (R.left source.old) (λ text. IfSome (named words.now) (λ command. SaysOf command result text (W.held sink.old) (W.held sink.new))) }
    ensures headline { result ≡ Status.Done → PutsHeadline (named words.now) (R.left source.old) (W.held sink.old) (W.held sink.new) }
    ensures put { IfSome (named words.now) (λ command. PutsOf command result (W.held sink.old) (W.held sink.new)) }
    ensures nothing { PutsNothing result (W.held sink.old) (W.held sink.new) }
    ensures to_end { IfSome (R.left source.old) (λ text. IfSome (named words.now) (λ command. ReadsToEnd result (R.left source.new))) }
    ensures read_fault { result ≡ Status.ReadFault → Rose (R.faults source.old) (R.faults source.new) }
    ensures source_failures_alone { (result ≡ Status.ReadFault) ⊎ (R.faults source.new ≡ R.faults source.old) }
    ensures write_fault { result ≡ Status.WriteFault → Rose (W.faults sink.old) (W.faults sink.new) }
    ensures sink_failures_alone { (result ≡ Status.WriteFault) ⊎ (W.faults sink.new ≡ W.faults sink.old) }
    ensures pieces_read { R.widest source.new ≤ max (R.widest source.old) transfer_limit }
    ensures pieces_put { W.widest sink.new ≤ max (W.widest sink.old) transfer_limit }
    ensures complete { IfSome (R.left source.old) (λ text. IfSome (named words.now) (λ command.
        (Rose (R.faults source.old) (R.faults source.new) → ⊥) → (Rose (W.faults sink.old) (W.faults sink.new) → ⊥)
        → (result ≡ status_of command text) ⊎ (result ≡ Status.NoMemory))) }
    ensures load { IfSome (named_load words.now) (λ load. LoadSays load result (W.held sink.old) (W.held sink.new)) }
    ensures load_unread { IfSome (named_load words.now) (λ load. source.new ≡ source.old) }
    ensures load_complete { IfSome (named_load words.now) (λ load. (Rose (W.faults sink.old) (W.faults sink.new) → ⊥) → (result ≡ Status.Done) ⊎ (result ≡ Status.NoMemory)) }
{
    if let Some(command) = command_named(words) {
        return answer_text(alloc, command, source, sink);
    }
    match load_named(words) {
        Some(load) => answer_load(alloc, load, sink),
        None => Status::Usage,
    }
}

/// Performs the command that the words name: `run` as `board_threads` does, which may wait, and each other as `board_once`
/// does.
pub fn board<R: Source, W: Sink, G: Gate + Sync, Rt: Threads + Wait + Sync>(
    rt: &Rt,
    alloc: Global,
    words: &[String],
    source: &mut R,
    sink: &mut W,
    gate: &G,
) -> Status
    ensures usage { (result ≡ Status.Usage) ↔ ((named words.now ≡ None) × (named_load words.now ≡ None) × (are_run words.now ≡ false)) }
    ensures untouched { result ≡ Status.Usage → (source.new ≡ source.old) × (sink.new ≡ sink.old) }
    ensures text { IfSome (R.left source.old) (λ text. IfSome (named words.now) (λ command. SaysOf command result text (W.held sink.old) (W.held sink.new))) }
    ensures headline { result ≡ Status.Done → PutsHeadline (named words.now) (R.left source.old) (W.held sink.old) (W.held sink.new) }
    ensures put { IfSome (named words.now) (λ command. PutsOf command result (W.held sink.old) (W.held sink.new)) }
    ensures nothing { PutsNothing result (W.held sink.old) (W.held sink.new) }
    ensures to_end { IfSome (R.left source.old) (λ text. IfSome (named words.now) (λ command. ReadsToEnd result (R.left source.new))) }
    ensures read_fault { result ≡ Status.ReadFault → Rose (R.faults source.old) (R.faults source.new) }
    ensures source_failures_alone { (result ≡ Status.ReadFault) ⊎ (R.faults source.new ≡ R.faults source.old) }
    ensures write_fault { result ≡ Status.WriteFault → Rose (W.faults sink.old) (W.faults sink.new) }
    ensures sink_failures_alone { (result ≡ Status.WriteFault) ⊎ (W.faults sink.new ≡ W.faults sink.old) }
    ensures pieces_read { R.widest source.new ≤ max (R.widest source.old) transfer_limit }
    ensures pieces_put { W.widest sink.new ≤ max (W.widest sink.old) transfer_limit }
    ensures complete { IfSome (R.left source.old) (λ text. IfSome (named words.now) (λ command.
        (Rose (R.faults source.old) (R.faults source.new) → ⊥) → (Rose (W.faults sink.old) (W.faults sink.new) → ⊥)
        → (result ≡ status_of command text) ⊎ (result ≡ Status.NoMemory))) }
    ensures load { IfSome (named_load words.now) (λ load. LoadSays load result (W.held sink.old) (W.held sink.new)) }
    ensures load_unread { IfSome (named_load words.now) (λ load. source.new ≡ source.old) }
    ensures load_complete { IfSome (named_load words.now) (λ load. (Rose (W.faults sink.old) (W.faults sink.new) → ⊥) → (result ≡ Status.Done) ⊎ (result ≡ Status.NoMemory)) }
    ensures run { are_run words.now ≡ true → RunSays result (R.left source.old) (W.held sink.old) (W.held sink.new) }
    ensures run_to_end { are_run words.now ≡ true → IfSome (R.left source.old) (λ text. ReadsToEnd result (R.left source.new)) }
    ensures run_complete { are_run words.now ≡ true → IfSome (R.left source.old) (λ text.
        (Rose (R.faults source.old) (R.faults source.new) → ⊥) → (Rose (W.faults sink.old) (W.faults sink.new) → ⊥)
        → (result ≡ run_status text) ⊎ (result ≡ Status.NoMemory)) }
{
    if is_run(words) {
        return board_threads(rt, alloc, words, source, sink, gate);
    }
    board_once(alloc, words, source, sink)
}
