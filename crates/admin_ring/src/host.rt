//! The memory of a queue, in which its commands stand: a split ring and slots.
ghost use Rattle.std.specs.Prelude.{◌≡◌, ◌+◌, ◌-◌, ◌*◌, ◌/◌, ◌%◌, ◌^◌, ◌<◌, ◌≤◌, ℕ, length, take, IfOk, None, Some};
ghost use Rattle.byte_fields.specs.Places.{bytes_at};
ghost use Rattle.byte_fields.specs.Sizes.{is_queue_size};
ghost use Rattle.group_calls.specs.Queue.{IsQueueSize};
ghost use Rattle.ring_layout.specs.Chain.{index_modulus};
ghost use Rattle.ring_driver.specs.Driver.{free_descriptors};
ghost use Rattle.ring_driver.specs.Same.{SameBytes};
ghost use Rattle.ring_driver.specs.Between.{Ring, new_ring};
ghost use Rattle.admin_ring.specs.Slots.{command_at, answer_at};
ghost use Rattle.admin_ring.specs.Host.{IsHost, IsNewHost, HasRing, HasPosted, HasFetched, IsOfSlot, SamePlaces, OthersStay, slot_count, with_completed};

use guest_mem::{GuestMem, PAGE_LIMIT, PAGE_SIZE};
use ring_device::{PairFound, next_pair, put_used};
use ring_driver::{RingDriver, Span, TakenUsed};
use ring_layout::{Layout, legacy, read_descriptor};
use std::alloc::{AllocError as NoMemory, Global};

// A slot has 512 bytes: its first half is for the command, its second for the answer.
const SLOT_SIZE: u64 = 512;

const HALF_SLOT: u64 = 256;

// The largest memory.
const MEMORY_LIMIT: u64 = PAGE_SIZE * PAGE_LIMIT as u64;

/// A chain of two buffers as the device finds it: its head, the buffer with the command, and the one for the answer.
#[derive(Clone, Copy, Debug, PartialEq, Eq)]
pub struct Chain {
    pub head: u16,
    pub readable: Span,
    pub writable: Span,
}

/// The ring at page 1 of the host's memory, and the slots from the next page behind it on. The driver half posts commands
/// and takes them back; the device half fetches them and answers the one that it serves.
#[derive(Drop)]
pub struct Host {
    pub mem: GuestMem,
    pub layout: Layout,
    pub slots: u64,
    pub driver: RingDriver,
    pub serving: Option<Chain>,
}

impl Host {
    /// The memory of a queue of this size, with nothing in it: the ring, and half as many slots as it has descriptors. That
    /// are 4 pages for size 4, and 20 for size 256.
    pub fn new(alloc: Global, size: u16) -> Result<Host, NoMemory>
        requires { IsQueueSize size }
        ensures { IfOk result (IsNewHost size) }
    {
        let Some(layout) = legacy(1, size, MEMORY_LIMIT) else {
            unreachable!();
        };
        let slots = (layout.end + PAGE_SIZE - 1) / PAGE_SIZE * PAGE_SIZE;
        let end = slots + SLOT_SIZE * u64::from(size / 2);
        let mem = GuestMem::new(alloc, ((end + PAGE_SIZE - 1) / PAGE_SIZE) as u32)?;
        let driver = RingDriver::new(alloc, layout)?;
        Ok(Host {
            mem,
            layout,
            slots,
            driver,
            serving: None,
        })
    }

    /// The slot of which this is the address.
    fn slot_at(&self, addr: u64) -> usize
        requires { self.now.slots ≤ addr }
        ensures { result ≡ (addr - self.now.slots) / 512 }
    {
        ((addr - self.slots) / SLOT_SIZE) as usize
    }

    /// The driver puts a command into a slot, and posts the chain of the slot's two halves.
    pub fn post(&mut self, key: usize, command: &[u8], writable: u32)
        requires host { IsHost self.old }
        requires ring { (r : Ring) × HasRing self.old r }
        requires key { key < slot_count self.old }
        requires command { length command.now ≤ 256 }
        requires writable { writable ≤ 256 }
        requires free { 2 ≤ free_descriptors self.old.driver }
        ensures posted { (r : Ring) → HasRing self.old r → HasPosted self.old self.new r key (length command.now) writable }
        ensures command { bytes_at (command_at self.old.slots key) (length command.now) self.new.mem ≡ command.now }
        ensures others { OthersStay self.old self.new key }
        ensures places { SamePlaces self.old self.new }
    {
        let slot = self.slots + SLOT_SIZE * key as u64;
        self.mem.write(slot, command);
        let readable = Span {
            addr: slot,
            len: command.len() as u32,
        };
        let writable = Span {
            addr: slot + HALF_SLOT,
            len: writable,
        };
        let _ = self.driver.post(&mut self.mem, readable, writable);
    }

    /// The device, which serves none, fetches the chain that waits longest, at its position. From now on it serves it.
    pub fn fetch(&mut self, pos: u16) -> Option<Chain>
        requires host { IsHost self.old }
        requires ring { (r : Ring) × HasRing self.old r × (pos ≡ r.fetched % index_modulus) }
        requires idle { self.old.serving ≡ None }
        ensures { (r : Ring) → HasRing self.old r → pos ≡ r.fetched % index_modulus → HasFetched result self.old self.new r }
    {
        match next_pair(&self.mem, &self.layout, pos) {
            PairFound::Pair {
                head,
                readable,
                readable_len,
                writable,
                writable_len,
            } => {
                self.serving = Some(Chain {
                    head,
                    readable: Span {
                        addr: readable,
                        len: readable_len,
                    },
                    writable: Span {
                        addr: writable,
                        len: writable_len,
                    },
                });
                self.serving
            }
            PairFound::Empty => None,
            PairFound::Other => unreachable!(),
        }
    }

    /// The slot and the bytes of the command in a chain, lent in place.
    pub fn command(&self, chain: &Chain) -> (usize, &[u8])
        requires behind { self.now.slots ≤ chain.now.readable.addr }
        requires inside { chain.now.readable.addr + chain.now.readable.len ≤ length self.now.mem }
        ensures slot { result.0 ≡ (chain.now.readable.addr - self.now.slots) / 512 }
        ensures bytes { result.1.now ≡ bytes_at chain.now.readable.addr chain.now.readable.len self.now.mem }
        ensures count { length result.1.now ≡ chain.now.readable.len }
    {
        let Span { addr, len } = chain.readable;
        (self.slot_at(addr), self.mem.part(addr, u64::from(len)))
    }

    /// The device answers the chain that it serves with as many bytes of the reply as there is room for, and uses it; the
    /// driver takes it back. The slot of its command, and how many bytes these are.
    pub fn complete(&mut self, pos: u16, chain: Chain, reply: &[u8]) -> (usize, u32)
        requires host { IsHost self.old }
        requires ring { (r : Ring) × HasRing self.old r × (pos ≡ r.taken % index_modulus) }
        requires serving { self.old.serving ≡ Some chain }
        requires slot { (key : ℕ) × IsOfSlot self.old key chain }
        ensures ring { (r : Ring) → HasRing self.old r → pos ≡ r.taken % index_modulus → HasRing self.new (with_completed r) }
        ensures slot { (key : ℕ) → IsOfSlot self.old key chain → result.0 ≡ key }
        ensures count { result.1 ≡ length (take chain.writable.len reply.now) }
        ensures answer { bytes_at chain.writable.addr result.1 self.new.mem ≡ take chain.writable.len reply.now }
        ensures before { SameBytes self.old.slots chain.writable.addr self.old.mem self.new.mem }
        ensures behind { SameBytes (chain.writable.addr + chain.writable.len) (length self.old.mem) self.old.mem self.new.mem }
        ensures places { SamePlaces self.old self.new }
    {
        let count = reply.len().min(chain.writable.len as usize);
        self.mem.write(chain.writable.addr, &reply[..count]);
        put_used(&mut self.mem, &self.layout, pos, chain.head, count as u32);
        self.serving = None;
        let TakenUsed::Used { head, length } = self.driver.take_used(&self.mem) else {
            unreachable!();
        };
        let command = read_descriptor(&self.mem, &self.layout, head).addr;
        (self.slot_at(command), length)
    }

    /// So many bytes of a slot's answer, lent in place.
    pub fn answer(&self, key: usize, count: u32) -> &[u8]
        requires host { IsHost self.now }
        requires key { key < slot_count self.now }
        requires count { count ≤ 256 }
        ensures bytes { result.now ≡ bytes_at (answer_at self.now.slots key) count self.now.mem }
        ensures count { length result.now ≡ count }
    {
        let addr = self.slots + SLOT_SIZE * key as u64 + HALF_SLOT;
        self.mem.part(addr, u64::from(count))
    }
}
