//! Commands as a driver writes them.
ghost use Rattle.std.specs.Prelude.{◌≡◌, ◌+◌, ◌≤◌, ℕ, length, IsOk, IfOk};
ghost use Rattle.admin_wire.specs.Numbers.{data_limit, fixed_size, place_data_limit, result_limit, wire_limit};
ghost use Rattle.admin_wire.specs.Command.{command_of};
ghost use Rattle.admin_wire.specs.Writing.{fixed_part, opcode_for, bytes_written, result_length, query_bytes, use_bytes, legacy_bytes, query_command, use_command, legacy_command};

use crate::command::LegacyCmd;
use crate::numbers::{
    FIXED_SIZE, INFO_SIZE, LEGACY_COMMON_CFG_READ, LEGACY_COMMON_CFG_WRITE, LEGACY_DEV_CFG_READ,
    LEGACY_DEV_CFG_WRITE, LEGACY_NOTIFY_INFO, LIST_QUERY, LIST_USE, SR_IOV,
};
use board_text::Piece;
use byteorder::{ByteOrder, LittleEndian};
use std::alloc::{AllocError as NoMemory, Global};

// The first 24 bytes of a command.
fn write_fixed_part(opcode: u16, member: u64) -> Piece
    ensures bytes { result ≡ fixed_part opcode member }
    ensures length { length result ≡ 24 }
{
    let mut fixed = [0; 24];
    LittleEndian::write_u16(&mut fixed, opcode);
    LittleEndian::write_u16(&mut fixed[2..], SR_IOV);
    LittleEndian::write_u64(&mut fixed[16..], member);
    Piece::short(&fixed)
}

fn opcode_of(command: &LegacyCmd) -> u16
    ensures { result ≡ opcode_for command.now }
{
    match command {
        LegacyCmd::CommonWrite { .. } => LEGACY_COMMON_CFG_WRITE,
        LegacyCmd::CommonRead { .. } => LEGACY_COMMON_CFG_READ,
        LegacyCmd::DevWrite { .. } => LEGACY_DEV_CFG_WRITE,
        LegacyCmd::DevRead { .. } => LEGACY_DEV_CFG_READ,
        LegacyCmd::Info => LEGACY_NOTIFY_INFO,
    }
}

/// LIST_QUERY, which names no member.
pub fn write_query() -> Piece
    ensures bytes { result ≡ query_bytes }
    ensures read_again { (writable : ℕ) → command_of result writable ≡ query_command }
{
    write_fixed_part(LIST_QUERY, 0)
}

/// LIST_USE of the opcodes whose bits are set. It names no member.
pub fn write_use(bits: u64) -> Piece
    ensures bytes { result ≡ use_bytes bits }
    ensures read_again { (writable : ℕ) → command_of result writable ≡ use_command bits }
{
    let mut bytes = write_fixed_part(LIST_USE, 0);
    bytes.extend(&bits.to_le_bytes());
    bytes
}

/// An access to the registers of a member. A write has at most 7 bytes of data, so that the command lies in the piece
/// itself. With as many writable bytes as `writable_for` says it is read again as the same access.
pub fn write_legacy(member: u64, command: &LegacyCmd) -> Piece
    requires { length (bytes_written command.now) ≤ place_data_limit }
    ensures bytes { result ≡ legacy_bytes member command.now }
    ensures read_again { command_of result (fixed_size + result_length command.now) ≡ legacy_command member command.now }
{
    let mut bytes = write_fixed_part(opcode_of(command), member);
    match command {
        LegacyCmd::CommonWrite {
            offset,
            bytes: data,
        }
        | LegacyCmd::DevWrite {
            offset,
            bytes: data,
        } => {
            bytes.extend(&[*offset, 0, 0, 0, 0, 0, 0, 0]);
            bytes.extend(data.as_slice());
        }
        LegacyCmd::CommonRead { offset, .. } | LegacyCmd::DevRead { offset, .. } => bytes.push(
            *offset,
        ),
        LegacyCmd::Info => {}
    }
    bytes
}

/// As `write_legacy`, of an access that writes at most 224 bytes, which fill a command. One that writes at most 7 takes no
/// memory.
pub fn write_long_legacy(alloc: Global, member: u64, command: &LegacyCmd) -> Result<Piece, NoMemory>
    requires { length (bytes_written command.now) ≤ data_limit }
    ensures bytes { IfOk result (λ bytes. bytes ≡ legacy_bytes member command.now) }
    ensures read_again { IfOk result (λ bytes. command_of bytes (fixed_size + result_length command.now) ≡ legacy_command member command.now) }
    ensures memory { length (bytes_written command.now) ≤ place_data_limit → IsOk result }
{
    match command {
        LegacyCmd::CommonWrite {
            offset,
            bytes: data,
        }
        | LegacyCmd::DevWrite {
            offset,
            bytes: data,
        } => {
            let mut front = write_fixed_part(opcode_of(command), member);
            front.extend(&[*offset, 0, 0, 0, 0, 0, 0, 0]);
            Piece::joined(alloc, front.as_slice(), data.as_slice())
        }
        command => Ok(write_legacy(member, command)),
    }
}

/// How many bytes the completion of an access may have: the fixed 8, and those of its result. A read is
/// of at most 248 bytes.
pub fn writable_for(command: &LegacyCmd) -> u32
    requires { result_length command.now ≤ result_limit }
    ensures value { result ≡ fixed_size + result_length command.now }
    ensures fits { result ≤ wire_limit }
{
    let count = match command {
        LegacyCmd::CommonWrite { .. } | LegacyCmd::DevWrite { .. } => 0,
        LegacyCmd::CommonRead { length, .. } | LegacyCmd::DevRead { length, .. } => *length,
        LegacyCmd::Info => INFO_SIZE as u32,
    };
    FIXED_SIZE as u32 + count
}
