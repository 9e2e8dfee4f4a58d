//! Sectors of 512 bytes (VIRTIO 1.3, 5.2.4).
ghost use Rattle.std.specs.Prelude.{◌≡◌, ◌+◌, ◌*◌, ◌≤◌, length, replicate, IfOk};
ghost use Rattle.byte_fields.specs.Places.{bytes_at, overwrite};
ghost use Rattle.byte_fields.specs.Sizes.{sector_size, sector_limit};
ghost use Rattle.blk_engine.specs.Block.{capacity};

use std::alloc::{AllocError as NoMemory, Global};
use std::marker::Model;

/// How many bytes a sector has, whatever the block size is (VIRTIO 1.3, 5.2.4).
pub const SECTOR_SIZE: u64 = 512;

/// How many sectors a disk has at most: a limit of this project.
pub const SECTOR_LIMIT: u64 = 4096;

/// A disk, at most 2,097,152 bytes. Contracts see the list of its bytes, sector after sector.
#[derive(Debug, Drop)]
pub struct Disk {
    bytes: Vec<u8>,
}

impl Model for Disk {
    ghost use Rattle.std.specs.Prelude.{ℕ, ◌≤◌, List, length};

    ghost Value = { List ℕ };

    ghost use Rattle.byte_fields.specs.Sizes.{disk_limit};

    ghost view = { λ d. d.bytes.items };

    ghost invariant = { λ d. length d.bytes.items ≤ disk_limit };
}

impl Disk {
    /// A disk of at most 4,096 sectors of zeros. `NoMemory` where the bytes can't be had.
    pub fn new(alloc: Global, sectors: u64) -> Result<Disk, NoMemory>
        requires { sectors ≤ sector_limit }
        ensures { IfOk result (λ disk. disk ≡ replicate (sector_size * sectors) 0) }
    {
        let mut bytes = Vec::new(alloc);
        bytes.resize((SECTOR_SIZE * sectors) as usize, 0)?;
        Ok(Disk { bytes })
    }

    /// How many sectors there are.
    pub fn capacity(&self) -> u64
        ensures { result ≡ capacity self.now }
    {
        self.bytes.len() as u64 / SECTOR_SIZE
    }

    /// So many bytes from a sector on, lent in place.
    pub(crate) fn read(&self, sector: u64, count: u64) -> &[u8]
        requires { sector_size * sector + count ≤ length self.now }
        ensures { result.now ≡ bytes_at (sector_size * sector) count self.now }
    {
        let bytes = self.bytes.as_slice();
        let start = (SECTOR_SIZE * sector) as usize;
        &bytes[start..start + count as usize]
    }

    /// Puts bytes from a sector on. Every other byte stays, and the length does.
    pub(crate) fn write(&mut self, sector: u64, bytes: &[u8])
        requires { sector_size * sector + length bytes.now ≤ length self.old }
        ensures written { self.new ≡ overwrite (sector_size * sector) bytes.now self.old }
        ensures length { length self.new ≡ length self.old }
    {
        let limit = self.bytes.len();
        prove!(limit <= 2_097_152);
        let start = (SECTOR_SIZE * sector) as usize;
        self.bytes[start..start + bytes.len()].copy_from_slice(bytes);
    }
}
