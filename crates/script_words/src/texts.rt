//! Texts line by line: which lines are ignored, and why a text was not read.
ghost use Rattle.std.specs.Prelude.{◌≡◌};
ghost use Rattle.script_words.specs.Texts.{fault_at, fault_words, is_ignored as is_ignored_of};

use crate::cause::{Cause, Fault};
use std::error::Error;
use std::fmt;

/// Why a text was not read.
#[derive(Debug, Drop)]
pub enum ScriptFault {
    /// The number of the first line with a fault, from 1, and what is wrong with it.
    Bad { line: u32, cause: Cause },
    NoMemory,
}

impl fmt::Display for ScriptFault {
    ghost use Rattle.std.specs.Prelude.{Some};

    ghost output = { λ fault. Some (fault_words fault) };

    fn fmt<W: fmt::Write>(&self, f: &mut fmt::Formatter<W>) -> fmt::Result {
        match self {
            ScriptFault::Bad { line, cause } => write!(f, "bad line {line}: {cause}"),
            ScriptFault::NoMemory => write!(f, "out of memory"),
        }
    }
}

impl Error for ScriptFault {}

fn crosses<T: Send + Sync>() {}

/// A fault may be sent to a thread, and shared by threads.
pub fn faults_cross_threads() {
    crosses::<Cause>();
    crosses::<Fault>();
    crosses::<ScriptFault>();
}

/// Why a line with this number was not read.
pub fn at_line(number: u32, fault: Fault) -> ScriptFault
    ensures { result ≡ fault_at number fault }
{
    match fault {
        Fault::Bad(cause) => ScriptFault::Bad {
            line: number,
            cause,
        },
        Fault::NoMemory => ScriptFault::NoMemory,
    }
}

/// Whether a line is empty or a comment.
pub fn is_ignored(text: &[u8]) -> bool
    ensures { result ≡ is_ignored_of text.now }
{
    text.is_empty() || text[0] == b'#'
}
