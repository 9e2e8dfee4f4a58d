//! A reply that is told and kept.
ghost use Rattle.std.specs.Prelude.{◌≡◌, IfOk};

use board_text::Bytes;
use group_calls::{Halt, MemberReply, Why};
use std::alloc::{AllocError as NoMemory, Global};

/// A reply for the caller, and the same reply for the history: both are had before anything changes.
#[derive(Debug, Drop)]
pub struct Answer {
    pub told: MemberReply,
    pub kept: MemberReply,
}

impl Answer {
    /// A refusal.
    pub(crate) fn refused(why: Why) -> Answer
        ensures told { result.told ≡ MemberReply.Refused why }
        ensures kept { result.kept ≡ result.told }
    {
        Answer {
            told: MemberReply::Refused(why),
            kept: MemberReply::Refused(why),
        }
    }

    /// The queue has nothing to be worked at.
    pub(crate) fn not_pending() -> Answer
        ensures told { result.told ≡ MemberReply.NotPending }
        ensures kept { result.kept ≡ result.told }
    {
        Answer {
            told: MemberReply::NotPending,
            kept: MemberReply::NotPending,
        }
    }

    /// The queue has nothing to serve.
    pub(crate) fn empty() -> Answer
        ensures told { result.told ≡ MemberReply.Empty }
        ensures kept { result.kept ≡ result.told }
    {
        Answer {
            told: MemberReply::Empty,
            kept: MemberReply::Empty,
        }
    }

    /// The queue is halted.
    pub(crate) fn halted(halt: Halt) -> Answer
        ensures told { result.told ≡ MemberReply.Halted halt }
        ensures kept { result.kept ≡ result.told }
    {
        Answer {
            told: MemberReply::Halted(halt),
            kept: MemberReply::Halted(halt),
        }
    }

    /// The first frame that waits is dropped.
    pub(crate) fn dropped() -> Answer
        ensures told { result.told ≡ MemberReply.Dropped }
        ensures kept { result.kept ≡ result.told }
    {
        Answer {
            told: MemberReply::Dropped,
            kept: MemberReply::Dropped,
        }
    }

    /// Bytes that were read, once for either. `NoMemory` where they can't be had.
    pub(crate) fn bytes(alloc: Global, bytes: &[u8]) -> Result<Answer, NoMemory>
        ensures told { IfOk result (λ answer. answer.told ≡ MemberReply.Data bytes.now) }
        ensures kept { IfOk result (λ answer. answer.kept ≡ answer.told) }
    {
        let told = Bytes::from_slice(alloc, bytes)?;
        let kept = Bytes::from_slice(alloc, bytes)?;
        Ok(Answer {
            told: MemberReply::Data(told),
            kept: MemberReply::Data(kept),
        })
    }
}
