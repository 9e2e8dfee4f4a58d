//! Numbers as bytes, the lowest first.
ghost use Rattle.std.specs.Prelude.{◌≡◌, ◌≤◌, length};
ghost use Rattle.byte_fields.specs.Places.{bytes_of, le16, le32};

use byteorder::{ByteOrder, LittleEndian};

#[tactic(auto, unfolding(byte_fields::specs::Places::bytes_of))]
pub(crate) fn bytes_of_16(number: u16) -> [u8; 2]
    ensures { result ≡ bytes_of 2 number }
{
    number.to_le_bytes()
}

#[tactic(auto, unfolding(byte_fields::specs::Places::bytes_of))]
pub(crate) fn bytes_of_32(number: u32) -> [u8; 4]
    ensures { result ≡ bytes_of 4 number }
{
    number.to_le_bytes()
}

#[tactic(auto, unfolding(byte_fields::specs::Places::bytes_of))]
pub(crate) fn bytes_of_64(number: u64) -> [u8; 8]
    ensures { result ≡ bytes_of 8 number }
{
    number.to_le_bytes()
}

/// The number in the first 2 bytes.
#[tactic(auto, unfolding(byte_fields::specs::Places::number_at))]
pub(crate) fn read_16(bytes: &[u8]) -> u16
    requires { 2 ≤ length bytes.now }
    ensures { result ≡ le16 0 bytes.now }
{
    LittleEndian::read_u16(bytes)
}

/// The number in the first 4 bytes.
#[tactic(auto, unfolding(byte_fields::specs::Places::number_at))]
pub(crate) fn read_32(bytes: &[u8]) -> u32
    requires { 4 ≤ length bytes.now }
    ensures { result ≡ le32 0 bytes.now }
{
    LittleEndian::read_u32(bytes)
}
