//! Little-endian numbers in a guest's memory (VIRTIO 1.3, 1.4), at any address: no alignment is asked for.
ghost use Rattle.std.specs.Prelude.{◌≡◌, ◌+◌, ◌≤◌, length};
ghost use Rattle.byte_fields.specs.Places.{overwrite, le16, le32, le64, bytes_of};

use crate::memory::GuestMem;
use byteorder::{ByteOrder, LittleEndian};

impl GuestMem {
    /// The le16 at an address, whose two bytes lie in the memory.
    pub fn u16_at(&self, addr: u64) -> u16
        requires { addr + 2 ≤ length self.now }
        ensures { result ≡ le16 addr self.now }
    {
        LittleEndian::read_u16(self.part(addr, 2))
    }

    /// The le32 at an address, whose four bytes lie in the memory.
    pub fn u32_at(&self, addr: u64) -> u32
        requires { addr + 4 ≤ length self.now }
        ensures { result ≡ le32 addr self.now }
    {
        LittleEndian::read_u32(self.part(addr, 4))
    }

    /// The le64 at an address, whose eight bytes lie in the memory.
    pub fn u64_at(&self, addr: u64) -> u64
        requires { addr + 8 ≤ length self.now }
        ensures { result ≡ le64 addr self.now }
    {
        LittleEndian::read_u64(self.part(addr, 8))
    }

    /// Puts a number as le16 at an address, whose two bytes lie in the memory. Every other byte stays.
    pub fn put_u16(&mut self, addr: u64, number: u16)
        requires { addr + 2 ≤ length self.old }
        ensures written { self.new ≡ overwrite addr (bytes_of 2 number) self.old }
        ensures length { length self.new ≡ length self.old }
    {
        let mut bytes = [0; 2];
        LittleEndian::write_u16(&mut bytes, number);
        self.write(addr, &bytes);
    }
}
