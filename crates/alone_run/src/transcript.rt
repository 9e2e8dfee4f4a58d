//! The transcript of a guest that is alone.
ghost use Rattle.std.specs.Prelude.{◌≡◌, IfOk, length};
ghost use Rattle.alone_run.specs.Transcript.{alone_text};

use crate::guest::Guest;
use board_script::Script;
use board_text::Bytes;
use std::alloc::{AllocError as NoMemory, Global};

// The transcript.
fn transcript(alloc: Global, script: &Script) -> Result<Vec<u8>, NoMemory>
    requires { length script.now.guests ≡ 1 }
    ensures { IfOk result (λ text. text.items ≡ alone_text script.now) }
{
    let mut guest = Guest::new(alloc, script.setup(1));
    let mut output = Vec::from_slice(alloc, b"guest 1\n")?;
    'lines: for index in 0..script.line_count() {
        guest.show(&mut output, script.line(index))?;
    }
    output.extend_from_slice(b"end\n")?;
    Ok(output)
}

/// What a guest that is alone is shown: its transcript over a lone device, to which the lines of the script come in the
/// order of the text. `go`, `serve`, `@K` and `once` have no effect; `host disable` and `host reset` kill the device. The
/// script has one guest.
pub fn run_alone(alloc: Global, script: &Script) -> Result<Bytes, NoMemory>
    requires { length script.now.guests ≡ 1 }
    ensures { IfOk result (λ text. text ≡ alone_text script.now) }
{
    let text = transcript(alloc, script)?;
    Ok(Bytes::from(text))
}
