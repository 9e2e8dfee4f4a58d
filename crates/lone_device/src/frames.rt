//! The frames that came from the network (VIRTIO 1.3, 5.1.6).
ghost use Rattle.std.specs.Prelude.{◌≡◌, ◌<◌, ◌++◌, [], ◌∷◌, length, drop, IfOk, OnOk};
ghost use Rattle.net_engine.specs.Frames.{with_header as with_header_of, first_with_header};
ghost use Rattle.lone_device.specs.Entries.{entry, kept_then, left_then};
ghost use Rattle.lone_device.specs.Seen.{waiting};

use crate::entries::{is_reset, leaves_backlog};
use board_text::Bytes;
use group_calls::{MemberCall, MemberReply};
use net_engine::HEADER_SIZE;
use std::alloc::{AllocError as NoMemory, Global};

/// The frames that were kept since the latest reset, in order, and how many of them left. The others wait.
#[derive(Drop)]
pub(crate) struct Frames {
    pub(crate) kept: Vec<Bytes>,
    pub(crate) left: usize,
}

// A header of zeros and the frame (VIRTIO 1.3, 5.1.6.4).
fn with_header(alloc: Global, frame: &[u8]) -> Result<Bytes, NoMemory>
    ensures { IfOk result (λ bytes. bytes ≡ with_header_of frame.now) }
{
    let mut bytes = Vec::from_slice(alloc, &[0; HEADER_SIZE])?;
    bytes.extend_from_slice(frame)?;
    Ok(Bytes::from(bytes))
}

impl Frames {
    /// None. This takes no memory.
    pub(crate) fn new(alloc: Global) -> Frames
        ensures kept { result.kept.items ≡ [] }
        ensures left { result.left ≡ 0 }
    {
        Frames {
            kept: Vec::new(alloc),
            left: 0,
        }
    }

    /// How many wait.
    pub(crate) fn count(&self) -> usize
        ensures { result ≡ length (waiting self.now) }
    {
        self.kept.len().saturating_sub(self.left)
    }

    /// The first that waits, behind its header. There has to be one.
    pub(crate) fn front_with_header(&self, alloc: Global) -> Result<Bytes, NoMemory>
        requires { 0 < length (waiting self.now) }
        ensures { IfOk result (λ bytes. bytes ≡ first_with_header (waiting self.now)) }
    {
        with_header(alloc, self.kept[self.left].as_slice())
    }

    /// After an entry.
    pub(crate) fn note(&mut self, call: &MemberCall, reply: &MemberReply) -> Result<(), NoMemory>
        requires { self.old.left < usize.MAX }
        ensures kept { OnOk result (self.new.kept.items ≡ kept_then (entry call.now reply.now) self.old.kept.items) }
        ensures left { OnOk result (self.new.left ≡ left_then (entry call.now reply.now) self.old.left) }
    {
        if is_reset(call, reply) {
            self.kept.clear();
            self.left = 0;
            return Ok(());
        }
        if let (MemberCall::Arrive { frame }, MemberReply::Arrived) = (call, reply) {
            self.kept.push(frame.copy()?)?;
        }
        if leaves_backlog(call, reply) {
            self.left += 1;
        }
        Ok(())
    }
}
