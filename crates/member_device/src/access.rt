//! Register accesses (VIRTIO 1.3, 2.12.1, Legacy Interfaces, and 4.1.4.10).
ghost use Rattle.std.specs.Prelude.{◌≡◌, length, IfOk, OnErr, Ok};
ghost use Rattle.group_calls.specs.Member.{act_answer};
ghost use Rattle.group_calls.specs.declared.member.MemberReply.{MemberReply};
ghost use Rattle.admin_wire.specs.declared.command.LegacyCmd.TheVariants.{CommonRead, CommonWrite, DevRead, DevWrite};
ghost use Rattle.member_device.specs.Device.{left_by_act};
ghost use Rattle.member_device.specs.Access.{read_command, write_command, waiting_after};

use crate::answer::Answer;
use crate::device::Device;
use admin_wire::LegacyCmd;
use board_text::Piece;
use group_calls::{MemberReply, Why};
use legacy_regs::{Effect, Space};
use std::alloc::AllocError as NoMemory;

impl Device {
    /// Answers a register access. `Refused` exactly where the access has no byte, isn't wholly inside one field, or writes a
    /// part of queue notify; then nothing changes. A read of ISR clears it, and a write of 0 to device status is a reset,
    /// after which no frame waits. `NoMemory` where the bytes that are read can't be had twice; then nothing changes.
    pub fn act(&mut self, command: &LegacyCmd) -> Result<Answer, NoMemory>
        ensures told { IfOk result (λ answer. answer.told ≡ act_answer self.old.made.kind self.old.registers command.now) }
        ensures kept { IfOk result (λ answer. answer.kept ≡ answer.told) }
        ensures left { IfOk result (λ answer. self.new ≡ left_by_act command.now answer.told self.old) }
        ensures err { OnErr result (self.new ≡ self.old) }
    {
        match command {
            LegacyCmd::CommonWrite { offset, bytes } => Ok(self.write(
                Space::Common,
                *offset,
                bytes,
            )),
            LegacyCmd::CommonRead { offset, length } => self.read(Space::Common, *offset, *length),
            LegacyCmd::DevWrite { offset, bytes } => Ok(self.write(Space::Device, *offset, bytes)),
            LegacyCmd::DevRead { offset, length } => self.read(Space::Device, *offset, *length),
            LegacyCmd::Info => Ok(Answer {
                told: MemberReply::Info,
                kept: MemberReply::Info,
            }),
        }
    }

    /// Reads a structure.
    #[inline(always)]
    fn read(&mut self, space: Space, offset: u8, length: u32) -> Result<Answer, NoMemory>
        ensures told { IfOk result (λ answer. answer.told ≡ act_answer self.old.made.kind self.old.registers (read_command space offset length)) }
        ensures kept { IfOk result (λ answer. answer.kept ≡ answer.told) }
        ensures left { IfOk result (λ answer. self.new ≡ left_by_act (read_command space offset length) answer.told self.old) }
        ensures err { OnErr result (self.new ≡ self.old) }
    {
        let Ok(bytes) = self.regs.peek(space, offset, length) else {
            return Ok(Answer::refused(Why::Field));
        };
        let answer = Answer::bytes(self.alloc, bytes.as_slice())?;
        self.regs.note_read(space, offset, length);
        Ok(answer)
    }

    /// Writes a structure.
    fn write(&mut self, space: Space, offset: u8, bytes: &Piece) -> Answer
        ensures told { result.told ≡ act_answer self.old.made.kind self.old.registers (write_command space offset bytes.now) }
        ensures kept { result.kept ≡ result.told }
        ensures left { self.new ≡ left_by_act (write_command space offset bytes.now) result.told self.old }
    {
        match self.regs.write(space, offset, bytes) {
            Ok(effect) => {
                self.let_go(effect);
                Answer {
                    told: MemberReply::Written,
                    kept: MemberReply::Written,
                }
            }
            Err(_) => Answer::refused(Why::Field),
        }
    }

    /// After a reset no frame waits.
    fn let_go(&mut self, effect: Effect)
        ensures { self.new ≡ record self.old { waiting = waiting_after effect self.old.waiting } }
    {
        if effect == Effect::Reset {
            self.backlog.clear();
        }
    }
}
