//! What can be wrong with a line.
ghost use Rattle.script_words.specs.Causes.{cause_name};

use std::fmt;

/// What is wrong with a line: the causes of this project's input texts, in the order in which they count
/// within one line. Causes from `Number` to `Actor` are those of single words, and count from left to right.
#[derive(Clone, Copy, Debug, PartialEq, Eq)]
pub enum Cause {
    /// No form has these words and this number of words; or a space stands at an end of the line or next to
    /// another; or a byte isn't printable ASCII.
    Word,
    /// A number is malformed or out of its bounds.
    Number,
    /// Bytes in hex are malformed: an odd number of digits, no digit, or another byte.
    Hex,
    /// The line stands at the wrong place: before the `board` line, after others, or out of turn.
    Setup,
    /// A guest, worker, queue of the board or member doesn't exist.
    Actor,
    /// The number of bytes is out of its bounds, or they lie outside the memory of the guest.
    Range,
    /// The member is of the other kind of device.
    Kind,
    /// The turns of all `go` lines pass 1,000,000, or one guest alone has more than 4,096 lines.
    Limit,
}

impl fmt::Display for Cause {
    ghost use Rattle.std.specs.Prelude.{Some};

    ghost output = { λ cause. Some (cause_name cause) };

    fn fmt<W: fmt::Write>(&self, f: &mut fmt::Formatter<W>) -> fmt::Result {
        match self {
            Cause::Word => write!(f, "word"),
            Cause::Number => write!(f, "number"),
            Cause::Hex => write!(f, "hex"),
            Cause::Setup => write!(f, "setup"),
            Cause::Actor => write!(f, "actor"),
            Cause::Range => write!(f, "range"),
            Cause::Kind => write!(f, "kind"),
            Cause::Limit => write!(f, "limit"),
        }
    }
}

/// Why a line was not read.
#[derive(Clone, Copy, Debug, PartialEq, Eq)]
pub enum Fault {
    Bad(Cause),
    NoMemory,
}
