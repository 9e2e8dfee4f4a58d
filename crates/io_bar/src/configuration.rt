//! The 64 bytes of the configuration space.
ghost use Rattle.std.specs.Prelude.{◌≡◌, ◌+◌, ◌≤◌, ◌++◌, length};
ghost use Rattle.arrayvec.specs.ArrayVec.{array_vec_len};
ghost use Rattle.io_bar.specs.Configuration.{device_id as device_id_of, subsystem_id as subsystem_id_of, base_class as base_class_of, command_register as command_register_of, configuration as configuration_of};

use arrayvec::ArrayVec;
use legacy_regs::Kind;

/// How many bytes of the configuration space are there: of this project.
pub(crate) const CONFIGURATION_SIZE: usize = 64;

const VENDOR_ID: u16 = 0x1af4;

fn device_id(kind: &Kind) -> u16
    ensures { result ≡ device_id_of kind.now }
{
    match kind {
        Kind::Block { .. } => 0x1001,
        Kind::Net { .. } => 0x1000,
    }
}

fn subsystem_id(kind: &Kind) -> u16
    ensures { result ≡ subsystem_id_of kind.now }
{
    match kind {
        Kind::Block { .. } => 2,
        Kind::Net { .. } => 1,
    }
}

fn base_class(kind: &Kind) -> u8
    ensures { result ≡ base_class_of kind.now }
{
    match kind {
        Kind::Block { .. } => 1,
        Kind::Net { .. } => 2,
    }
}

fn command_register(io: bool) -> u16
    ensures { result ≡ command_register_of io }
{
    if io { 1 } else { 0 }
}

pub(crate) type Configuration = ArrayVec<u8, CONFIGURATION_SIZE>;

// Puts a field's bytes after those that stand there.
fn append(bytes: &mut Configuration, field: &[u8])
    requires { array_vec_len bytes.old + length field.now ≤ CONFIGURATION_SIZE }
    ensures bytes { bytes.new.items ≡ bytes.old.items ++ field.now }
    ensures len { array_vec_len bytes.new ≡ array_vec_len bytes.old + length field.now }
{
    bytes.try_extend_from_slice(field).unwrap();
}

/// The bytes, in order.
pub(crate) fn configuration(kind: &Kind, io: bool) -> Configuration
    ensures value { result.items ≡ configuration_of kind.now io }
    ensures size { array_vec_len result ≡ 64 }
{
    let mut bytes = ArrayVec::new();
    append(&mut bytes, &VENDOR_ID.to_le_bytes());
    append(&mut bytes, &device_id(kind).to_le_bytes());
    append(&mut bytes, &command_register(io).to_le_bytes());
    append(&mut bytes, &[0; 5]);
    append(&mut bytes, &[base_class(kind)]);
    append(&mut bytes, &[0; 4]);
    append(&mut bytes, &1u32.to_le_bytes());
    append(&mut bytes, &[0; 24]);
    append(&mut bytes, &VENDOR_ID.to_le_bytes());
    append(&mut bytes, &subsystem_id(kind).to_le_bytes());
    append(&mut bytes, &[0; 16]);
    bytes
}
