//! A guest's memory as bytes.
ghost use Rattle.std.specs.Prelude.{◌≡◌, ◌+◌, ◌*◌, ◌≤◌, length, replicate, nat_le, IfOk};
ghost use Rattle.byte_fields.specs.Places.{bytes_at, overwrite};
ghost use Rattle.byte_fields.specs.Sizes.{page_size, page_limit, memory_limit};

use std::alloc::{AllocError as NoMemory, Global};
use std::marker::Model;

/// How many bytes a page has. It is also the alignment of a legacy virtqueue (VIRTIO 1.3, 2.7.2).
pub const PAGE_SIZE: u64 = 4096;

/// How many pages a memory has at most: a limit of this project.
pub const PAGE_LIMIT: u32 = 64;

/// A guest's memory, at most 262,144 bytes. Its first byte has the guest-physical address 0. Contracts see the list of
/// its bytes.
#[derive(Debug, Drop)]
pub struct GuestMem {
    bytes: Vec<u8>,
}

impl Model for GuestMem {
    ghost use Rattle.std.specs.Prelude.{ℕ, ◌≤◌, List, length};
    ghost use Rattle.byte_fields.specs.Sizes.{memory_limit};

    ghost Value = { List ℕ };

    ghost view = { λ m. m.bytes.items };

    ghost invariant = { λ m. length m.bytes.items ≤ memory_limit };
}

// How many zeros are added at once.
const PART_SIZE: usize = 1024;

const PARTS_IN_PAGE: u32 = PAGE_SIZE as u32 / PART_SIZE as u32;

// So many parts of zeros.
fn zeros(alloc: Global, parts: u32) -> Result<Vec<u8>, NoMemory>
    requires { parts ≤ 4 * page_limit }
    ensures { IfOk result (λ bytes. bytes.items ≡ replicate (1024 * parts) 0) }
{
    let mut bytes = Vec::with_capacity(alloc, PART_SIZE * parts as usize)?;
    'parts: for _part in 0..parts {
        bytes.extend_from_slice(&[0; PART_SIZE])?;
    }
    Ok(bytes)
}

impl GuestMem {
    /// A memory of 1 to 64 pages of zeros. `NoMemory` where the bytes can't be had.
    pub fn new(alloc: Global, pages: u32) -> Result<GuestMem, NoMemory>
        requires some { 1 ≤ pages }
        requires most { pages ≤ page_limit }
        ensures { IfOk result (λ mem. mem ≡ replicate (page_size * pages) 0) }
    {
        let bytes = zeros(alloc, PARTS_IN_PAGE * pages)?;
        Ok(GuestMem { bytes })
    }

    /// How many bytes there are: 4,096 times the pages.
    pub fn length(&self) -> u64
        ensures length { result ≡ length self.now }
        ensures most { length self.now ≤ memory_limit }
    {
        self.bytes.len() as u64
    }

    /// Whether `addr + len` doesn't pass the length. A part of no byte fits at the length too. The sum is over unbounded
    /// numbers, so it is false where it would wrap.
    pub fn fits(&self, addr: u64, len: u64) -> bool
        ensures value { result ≡ nat_le (addr + len) (length self.now) }
        ensures most { length self.now ≤ memory_limit }
    {
        let length = self.length();
        len <= length && addr <= length - len
    }

    /// The `len` bytes from `addr` on, lent in place.
    pub fn part(&self, addr: u64, len: u64) -> &[u8]
        requires { addr + len ≤ length self.now }
        ensures bytes { result.now ≡ bytes_at addr len self.now }
        ensures length { length result.now ≡ len }
    {
        &self.bytes[addr as usize..(addr + len) as usize]
    }

    /// Copies the bytes from `addr` on, as many as `into` has. Any part that fits may be read, whatever its length.
    pub fn read(&self, addr: u64, into: &mut [u8])
        requires { addr + length into.old ≤ length self.now }
        ensures { into.new ≡ bytes_at addr (length into.old) self.now }
    {
        into.copy_from_slice(self.part(addr, into.len() as u64));
    }

    /// Puts bytes from `addr` on. Every other byte stays, and the length does. Any part that fits may be written,
    /// whatever its length.
    pub fn write(&mut self, addr: u64, bytes: &[u8])
        requires { addr + length bytes.now ≤ length self.old }
        ensures written { self.new ≡ overwrite addr bytes.now self.old }
        ensures length { length self.new ≡ length self.old }
    {
        let start = addr as usize;
        self.bytes[start..start + bytes.len()].copy_from_slice(bytes);
    }
}
