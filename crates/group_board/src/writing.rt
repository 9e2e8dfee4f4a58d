//! Putting a whole text into a sink.
ghost use Rattle.std.specs.Prelude.{◌≡◌, ◌≤◌, ◌⊎◌, max};
ghost use Rattle.board_io.specs.Faults.{Rose};
ghost use Rattle.board_io.specs.Sink.{PutsOn};
ghost use Rattle.group_board.specs.Putting.{text_of, made_status, IsWhole, IsWholeMade, MadeSays};
ghost use Rattle.group_board.specs.Outcome.{PutsNothing};
ghost use Rattle.group_board.specs.Limits.{transfer_limit};

use crate::commands::Output;
use crate::output::fault_text;
use crate::status::Status;
use crate::top::TRANSFER_LIMIT;
use board_io::{PutAnswer, Sink};
use board_render::render;
use script_words::ScriptFault;
use std::alloc::Global;

/// Puts all bytes, or a front of them and fails.
pub fn put_all<W: Sink>(sink: &mut W, bytes: &[u8]) -> PutAnswer
    ensures held { PutsOn (W.held sink.old) (W.held sink.new) result bytes.now }
    ensures never_falls { W.faults sink.old ≤ W.faults sink.new }
    ensures widest { W.widest sink.new ≤ max (W.widest sink.old) transfer_limit }
    ensures failures_alone { (result ≡ PutAnswer.Failed) ⊎ (W.faults sink.new ≡ W.faults sink.old) }
    ensures failed { result ≡ PutAnswer.Failed → Rose (W.faults sink.old) (W.faults sink.new) }
{
    let mut at = 0;
    'pieces: while at < bytes.len() {
        let count = (bytes.len() - at).min(TRANSFER_LIMIT);
        match sink.put(&bytes[at..at + count]) {
            PutAnswer::Put => at += count,
            PutAnswer::Failed => return PutAnswer::Failed,
        }
    }
    PutAnswer::Put
}

/// Puts what a command made, or a front of it and fails.
pub fn put_output<W: Sink>(sink: &mut W, output: &Output) -> PutAnswer
    requires { IsWhole output.now }
    ensures held { PutsOn (W.held sink.old) (W.held sink.new) result (text_of output.now) }
    ensures never_falls { W.faults sink.old ≤ W.faults sink.new }
    ensures widest { W.widest sink.new ≤ max (W.widest sink.old) transfer_limit }
    ensures failures_alone { (result ≡ PutAnswer.Failed) ⊎ (W.faults sink.new ≡ W.faults sink.old) }
    ensures failed { result ≡ PutAnswer.Failed → Rose (W.faults sink.old) (W.faults sink.new) }
{
    match output {
        Output::Text(text) => put_all(sink, text.as_slice()),
        Output::Run(ran) => render(&ran.cells, &ran.actors, &ran.left, sink),
    }
}

/// Puts what was made of a text, or the line of its first fault. How the command then ends.
pub fn put_made<W: Sink>(alloc: Global, made: Result<Output, ScriptFault>, sink: &mut W) -> Status
    requires { IsWholeMade made }
    ensures says { MadeSays made result (W.held sink.old) (W.held sink.new) }
    ensures nothing { PutsNothing result (W.held sink.old) (W.held sink.new) }
    ensures write_fault { result ≡ Status.WriteFault → Rose (W.faults sink.old) (W.faults sink.new) }
    ensures failures_alone { (result ≡ Status.WriteFault) ⊎ (W.faults sink.new ≡ W.faults sink.old) }
    ensures widest { W.widest sink.new ≤ max (W.widest sink.old) transfer_limit }
    ensures complete { (Rose (W.faults sink.old) (W.faults sink.new) → ⊥) → (result ≡ made_status made) ⊎ (result ≡ Status.NoMemory) }
{
    match made {
        Ok(output) => match put_output(sink, &output) {
            PutAnswer::Put => Status::Done,
            PutAnswer::Failed => Status::WriteFault,
        },
        Err(ScriptFault::Bad { line, cause }) => match fault_text(alloc, line, cause) {
            Ok(message) => match put_all(sink, message.as_bytes()) {
                PutAnswer::Put => Status::BadScript { line, cause },
                PutAnswer::Failed => Status::WriteFault,
            },
            Err(_) => Status::NoMemory,
        },
        Err(ScriptFault::NoMemory) => Status::NoMemory,
    }
}
