//! The legacy registers (VIRTIO 1.3, 4.1.4.10).
ghost use Rattle.std.specs.Prelude.{◌≡◌, IfOk};
ghost use Rattle.admin_wire.specs.declared.command.LegacyCmd.{LegacyCmd};
ghost use Rattle.admin_wire.specs.declared.command.LegacyCmd.TheVariants.{CommonRead, CommonWrite, DevRead, DevWrite};
ghost use Rattle.group_calls.specs.declared.member.MemberCall.TheVariants.{Act};
ghost use Rattle.group_calls.specs.Member.{act_answer};
ghost use Rattle.lone_device.specs.Past.{IsOther};
ghost use Rattle.lone_device.specs.Seen.{bank_then, FitsRegisters};
ghost use Rattle.lone_device.specs.Spaces.{read_of, write_of};

use crate::entries::is_done;
use admin_wire::LegacyCmd;
use board_text::{Bytes, Piece};
use group_calls::{Irq, MemberCall, MemberReply, Why};
use legacy_regs::{Regs, Space};
use std::alloc::{AllocError as NoMemory, Global};

// Reads a structure.
fn read(
    alloc: Global,
    regs: &mut Regs,
    space: Space,
    offset: u8,
    length: u32,
) -> Result<MemberReply, NoMemory>
    ensures told { IfOk result (λ told. told ≡ act_answer regs.old.kind regs.old.registers (read_of space offset length)) }
    ensures left { IfOk result (λ told. regs.new ≡ bank_then (Act (read_of space offset length)) told regs.old) }
{
    let Ok(bytes) = regs.peek(space, offset, length) else {
        return Ok(MemberReply::Refused(Why::Field));
    };
    let bytes = Bytes::from_slice(alloc, bytes.as_slice())?;
    regs.note_read(space, offset, length);
    Ok(MemberReply::Data(bytes))
}

// Writes a structure.
fn write(regs: &mut Regs, space: Space, offset: u8, bytes: &Piece) -> MemberReply
    ensures told { result ≡ act_answer regs.old.kind regs.old.registers (write_of space offset bytes.now) }
    ensures left { regs.new ≡ bank_then (Act (write_of space offset bytes.now)) result regs.old }
{
    match regs.write(space, offset, bytes) {
        Ok(_) => MemberReply::Written,
        Err(_) => MemberReply::Refused(Why::Field),
    }
}

/// Performs a register access on a device that lives.
pub(crate) fn perform(
    alloc: Global,
    regs: &mut Regs,
    command: &LegacyCmd,
) -> Result<MemberReply, NoMemory>
    ensures told { IfOk result (λ told. told ≡ act_answer regs.old.kind regs.old.registers command.now) }
    ensures left { IfOk result (λ told. regs.new ≡ bank_then (Act command.now) told regs.old) }
{
    match command {
        LegacyCmd::CommonRead { offset, length } => {
            read(alloc, regs, Space::Common, *offset, *length)
        }
        LegacyCmd::CommonWrite { offset, bytes } => {
            Ok(write(regs, Space::Common, *offset, bytes))
        }
        LegacyCmd::DevRead { offset, length } => {
            read(alloc, regs, Space::Device, *offset, *length)
        }
        LegacyCmd::DevWrite { offset, bytes } => { Ok(write(regs, Space::Device, *offset, bytes)) }
        LegacyCmd::Info => Ok(MemberReply::Info),
    }
}

/// After a call that is no register access, and its reply. A service whose interrupt is that of ISR sets it, since MSI-X is
/// disabled then (VIRTIO 1.3, 4.1.4.5).
pub(crate) fn note(regs: &mut Regs, call: &MemberCall, reply: &MemberReply)
    requires { IsOther call.now }
    ensures { FitsRegisters reply.now regs.old.registers → regs.new ≡ bank_then call.now reply.now regs.old }
{
    match (call, reply) {
        (MemberCall::Msix { on }, _) if is_done(reply) => regs.set_msix(*on),
        (MemberCall::Flr, _) if is_done(reply) => regs.flr(),
        (MemberCall::Step { queue }, MemberReply::Served { irq: Irq::Isr, .. }) => {
            regs.raise(*queue);
        }
        _ => {}
    }
}
