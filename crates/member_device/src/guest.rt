//! The guest's own accesses to its memory.
ghost use Rattle.std.specs.Prelude.{◌≡◌, length, IfOk, if◌then◌else◌};
ghost use Rattle.byte_fields.specs.Places.{overwrite};
ghost use Rattle.group_calls.specs.Member.{fits, mem_write_answer, mem_read_answer};

use crate::answer::Answer;
use crate::device::Device;
use board_text::Bytes;
use group_calls::{MemberReply, Why};
use std::alloc::AllocError as NoMemory;

impl Device {
    /// The guest writes these bytes from an address on. `Refused` exactly where they don't lie in the memory; then nothing
    /// changes. It takes no memory.
    pub fn write_memory(&mut self, addr: u64, bytes: &Bytes) -> MemberReply
        ensures told { result ≡ mem_write_answer self.old.made addr bytes.now }
        ensures left { self.new ≡ record self.old { memory = if fits self.old.made addr (length bytes.now) then overwrite addr bytes.now self.old.memory else self.old.memory } }
    {
        let bytes = bytes.as_slice();
        if !self.memory.fits(addr, bytes.len() as u64) {
            return MemberReply::Refused(Why::Range);
        }
        self.memory.write(addr, bytes);
        MemberReply::Written
    }

    /// The guest reads so many bytes from an address on. `Refused` exactly where they don't lie in the memory. `NoMemory` where
    /// they can't be had twice.
    pub fn read_memory(&self, addr: u64, length: u32) -> Result<Answer, NoMemory>
        ensures told { IfOk result (λ answer. answer.told ≡ mem_read_answer self.now.made self.now.memory addr length) }
        ensures kept { IfOk result (λ answer. answer.kept ≡ answer.told) }
    {
        let length = u64::from(length);
        if !self.memory.fits(addr, length) {
            return Ok(Answer::refused(Why::Range));
        }
        Answer::bytes(self.alloc, self.memory.part(addr, length))
    }
}
