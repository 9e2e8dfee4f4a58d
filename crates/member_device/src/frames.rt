//! Frames from the network (VIRTIO 1.3, 5.1.6).
ghost use Rattle.std.specs.Prelude.{◌≡◌, ◌<◌, length, drop, IfOk, OnErr};
ghost use Rattle.group_calls.specs.Member.{arrive_answer};
ghost use Rattle.member_device.specs.Device.{left_by_arrival};

use crate::device::Device;
use board_text::Bytes;
use group_calls::{MemberReply, Why};
use net_engine::{BACKLOG_LIMIT, is_frame_length};
use std::alloc::AllocError as NoMemory;

impl Device {
    /// A frame comes from the network. `Refused` exactly where the member is no network device or the frame hasn't 14 to 1,514
    /// bytes; `BacklogFull` exactly where 64 wait; else the frame waits behind all others. `NoMemory` where the frame can't be
    /// had; then nothing changes.
    pub fn arrive(&mut self, frame: &Bytes) -> Result<MemberReply, NoMemory>
        ensures told { IfOk result (λ told. told ≡ arrive_answer self.old.made.kind self.old.waiting frame.now) }
        ensures left { IfOk result (λ told. self.new ≡ left_by_arrival frame.now told self.old) }
        ensures err { OnErr result (self.new ≡ self.old) }
    {
        if !self.receives(0) || !is_frame_length(frame.as_slice().len()) {
            return Ok(MemberReply::Refused(Why::Frame));
        }
        if self.backlog.length() >= BACKLOG_LIMIT {
            return Ok(MemberReply::BacklogFull);
        }
        let frame = frame.copy()?;
        let _ = self.backlog.arrive(frame);
        Ok(MemberReply::Arrived)
    }

    /// The first frame leaves, of which there has to be one.
    pub(crate) fn drop_first(&mut self)
        requires { 0 < length self.old.waiting }
        ensures { self.new ≡ record self.old { waiting = drop 1 self.old.waiting } }
    {
        self.backlog.drop_front();
    }
}
