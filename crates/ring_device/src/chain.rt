//! A chain of buffers in a guest's memory (VIRTIO 1.3, 2.7.5).
ghost use Rattle.std.specs.Prelude.{◌≡◌, ◌+◌, ◌<◌, ◌≤◌, ◌^◌, [], ◌∷◌, ◌++◌, length, OnOk, OnErr};
ghost use Rattle.ring_layout.specs.Chain.{total_length, readable_part, writable_part};
ghost use Rattle.byte_fields.specs.Sizes.{memory_limit};
ghost use Rattle.ring_device.specs.Buffers.{Buffers};
ghost use Rattle.ring_device.specs.Follow.{any_written};
ghost use Rattle.ring_device.specs.Kept.{buffer_limit};

use bitflags::Flags;
use ring_layout::{DescFlags, Descriptor};
use std::alloc::{AllocError as NoMemory, Global};
use std::marker::Model;

/// The buffers of a chain in their order, those that the device reads and then those that it writes, and the index of the
/// first descriptor, by which the chain is used. Contracts see the head and the list of the parts.
#[derive(Debug, Drop)]
pub struct Chain {
    head: u16,
    parts: Vec<Descriptor>,
    has_writable: bool,
    readable: u64,
    writable: u64,
}

impl Model for Chain {
    ghost use Rattle.ring_device.specs.Buffers.{Buffers};

    ghost Value = { Buffers };

    ghost use Rattle.ring_device.specs.Kept.{AreKept};

    ghost view = { λ c. record { head = c.head; parts = c.parts.items } };

    ghost invariant = { AreKept };
}

impl Chain {
    /// No buffers yet.
    pub(crate) fn new(alloc: Global, head: u16) -> Chain
        ensures { result ≡ record { head = head; parts = [] } }
    {
        Chain {
            head,
            parts: Vec::new(alloc),
            has_writable: false,
            readable: 0,
            writable: 0,
        }
    }

    /// One buffer more.
    pub(crate) fn push(&mut self, part: Descriptor) -> Result<(), NoMemory>
        requires few { length self.old.parts < buffer_limit }
        requires small { part.len ≤ memory_limit }
        ensures ok { OnOk result (self.new
            ≡ record { head = self.old.head; parts = self.old.parts ++ part ∷ [] }) }
        ensures err { OnErr result (self.new ≡ self.old) }
    {
        self.parts.push(part)?;
        let length = u64::from(part.len);
        if part.flags.contains(DescFlags::WRITE) {
            self.has_writable = true;
            self.writable += length;
        } else {
            self.readable += length;
        }
        Ok(())
    }

    /// Whether the device writes one of the buffers, be it empty.
    pub(crate) fn has_writable(&self) -> bool
        ensures { result ≡ any_written self.now.parts }
    {
        self.has_writable
    }

    /// The buffers in order.
    pub(crate) fn parts(&self) -> &[Descriptor]
        ensures { result.now ≡ self.now.parts }
    {
        self.parts.as_slice()
    }

    /// The index of the first descriptor, which names the chain in the used ring (VIRTIO 1.3, 2.7.8).
    pub fn head(&self) -> u16
        ensures { result ≡ self.now.head }
    {
        self.head
    }

    /// How many bytes the device may read: the buffers' lengths together, less than 2^27.
    pub fn readable(&self) -> u64
        ensures value { result ≡ total_length (readable_part self.now.parts) }
        ensures bound { result < 2 ^ 27 }
    {
        self.readable
    }

    /// How many bytes the device may write: the buffers' lengths together, less than 2^27.
    pub fn writable(&self) -> u64
        ensures value { result ≡ total_length (writable_part self.now.parts) }
        ensures bound { result < 2 ^ 27 }
    {
        self.writable
    }
}
