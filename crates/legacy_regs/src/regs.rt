//! The registers of one device.
ghost use Rattle.std.specs.Prelude.{◌≡◌};
ghost use Rattle.legacy_regs.specs.Registers.{initial_mac};
ghost use Rattle.legacy_regs.specs.Accesses.{is_reset_write};
ghost use Rattle.legacy_regs.specs.Kept.{kept_mac};

use crate::MEMBER_RING_SIZE;
use crate::accesses::{Effect, Field, Space};
use crate::bytes::{byte_put, put};
use crate::device::{Kind, queue_count};
use crate::features::{Features, device_features};
use crate::field_bytes::FieldBytes;
use crate::fields::{
    DEVICE_STATUS, ISR, MAC, QUEUE_ADDRESS, QUEUE_NOTIFY, WRITEBACK, is_refused_read,
    is_refused_write,
};
use crate::image::{Image, append};
use crate::interrupts::Irq;
use crate::numbers::{bytes_of_16, bytes_of_32, bytes_of_64, read_16, read_32};
use crate::state::{NO_QUEUE, NO_VECTOR, QueueState, State};
use arrayvec::ArrayVec;
use bitflags::Flags;
use board_text::Piece;
use std::marker::Model;

/// The legacy registers of one device: the common structure (VIRTIO 1.3, 4.1.4.10, "Legacy Interfaces: A Note on PCI
/// Device Layout") and its device-specific structure (5.2.4 of a block device, 5.1.4 of a network device). Contracts see
/// its kind and one record of what its fields hold. No call takes memory.
#[derive(Drop)]
pub struct Regs {
    kind: Kind,
    mac: [u8; 6],
    msix: bool,
    state: State,
}

impl Model for Regs {
    ghost use Rattle.legacy_regs.specs.Registers.{Bank};
    ghost use Rattle.legacy_regs.specs.Kept.{registers_of};

    ghost Value = { Bank };

    ghost view = { λ r. record { kind = r.kind; registers = registers_of r.kind r.mac r.msix r.state } };
}

impl Regs {
    ghost use Rattle.std.specs.Prelude.{◌≡◌, ◌≤◌, ◌+◌, ◌==◌, length, false};
    ghost use Rattle.std.specs.Int.RustNames.{bit_and};
    ghost use Rattle.arrayvec.specs.ArrayVec.{array_vec_len};
    ghost use Rattle.legacy_regs.specs.declared.accesses.Space.TheVariants.{Common};
    ghost use Rattle.legacy_regs.specs.Fields.{common_size, device_size, structure_size};
    ghost use Rattle.legacy_regs.specs.Registers.{initial_registers, reset_of, flr_of, queue_count, queue_size, queue_address, queue_vector, page_number, driver_features, uses_tables, uses_events, selected, common_structure, device_structure, structure};
    ghost use Rattle.legacy_regs.specs.Accesses.{read_answer, HasBytes, read_structure, after_read, write_answer, after_write, notifies_in_part, write_effect, common_effect, write_common, write_device};
    ghost use Rattle.legacy_regs.specs.Interrupts.{queue_irq, raise_queue};

    /// The registers of a new device, with MSI-X disabled. The initial values are those after a reset (VIRTIO 1.3, 2.4),
    /// and of a network device the MAC of its kind.
    pub fn new(kind: Kind) -> Regs
        ensures { result ≡ record { kind = kind; registers = initial_registers kind } }
    {
        Regs {
            kind,
            mac: initial_mac(&kind),
            msix: false,
            state: State::new(),
        }
    }

    /// The number of queues: 1 of a block device (VIRTIO 1.3, 5.2.2), 2 of a network device (5.1.2).
    pub fn queues(&self) -> u16
        ensures { result ≡ queue_count self.now.kind }
    {
        queue_count(&self.kind)
    }

    /// The page number of a queue, which is its address in pages of 4,096 bytes (VIRTIO 1.3, 4.1.5.1.3.1). It is 0 for a
    /// queue that doesn't exist.
    pub fn address(&self, queue: u16) -> u32
        ensures { result ≡ page_number self.now.registers queue }
    {
        read_32(&self.queue(queue).address)
    }

    /// The number of the selected queue (VIRTIO 1.3, 4.1.5.1.3.1), which may be one that doesn't exist.
    pub fn selected(&self) -> u16
        ensures { result ≡ selected self.now.registers }
    {
        self.state.selected()
    }

    /// The driver's features (VIRTIO 1.3, 4.1.4.10): what the driver wrote there since the latest reset, else 0. Bits that
    /// the device doesn't offer are among them where the driver set them.
    pub fn driver_features(&self) -> u32
        ensures { result ≡ driver_features self.now.registers }
    {
        read_32(&self.state.features)
    }

    /// Whether chains may have tables of descriptors (VIRTIO 1.3, 2.7.5.3): whether the driver accepted INDIRECT_DESC.
    pub fn uses_tables(&self) -> bool
        ensures { result ≡ uses_tables self.now.registers }
    {
        self.has_accepted(Features::INDIRECT_DESC)
    }

    /// Whether device and driver each name the position that they want to hear of (VIRTIO 1.3, 2.7.7 and 2.7.10): whether
    /// the driver accepted EVENT_IDX.
    pub fn uses_events(&self) -> bool
        ensures { result ≡ uses_events self.now.registers }
    {
        self.has_accepted(Features::EVENT_IDX)
    }

    // Whether the driver has set these bits.
    fn has_accepted(&self, features: Features) -> bool
        ensures { result ≡ (bit_and (driver_features self.now.registers) features.0 == features.0) }
    {
        Features::from_bits_retain(self.driver_features()).contains(features)
    }

    /// What a read of `length` bytes from `offset` on would answer, counted in bytes from the structure's start. Nothing
    /// changes. Exactly where the read has no byte or isn't wholly inside one field, the answer is Field (of this project).
    pub fn peek(&self, space: Space, offset: u8, length: u32) -> Result<FieldBytes, Field>
        ensures answer { result ≡ read_answer self.now space offset length }
        ensures bytes { HasBytes length result }
    {
        if is_refused_read(&self.kind, self.msix, space, offset, length) {
            return Err(Field);
        }
        Ok(FieldBytes::new(self.structure(space), offset, length))
    }

    /// What a read that isn't refused does to the registers: one of ISR clears it (VIRTIO 1.3, 4.1.4.5).
    pub fn note_read(&mut self, space: Space, offset: u8, length: u32)
        ensures { self.new ≡ record self.old { registers = read_structure space offset length self.old.registers } }
    {
        if space == Space::Common && ISR.meets(offset, length) {
            self.state.isr = 0;
        }
    }

    /// Reads `length` bytes from `offset` on, counted in bytes from the structure's start. A read of ISR clears it
    /// (VIRTIO 1.3, 4.1.4.5). Exactly where the read has no byte or isn't wholly inside one field, the answer is Field and
    /// nothing changes (of this project).
    pub fn read(&mut self, space: Space, offset: u8, length: u32) -> Result<Piece, Field>
        ensures answer { result ≡ read_answer self.old space offset length }
        ensures bytes { HasBytes length result }
        ensures registers { self.new ≡ record self.old { registers = after_read self.old space offset length } }
    {
        if is_refused_read(&self.kind, self.msix, space, offset, length) {
            return Err(Field);
        }
        let bytes = FieldBytes::new(self.structure(space), offset, length);
        self.note_read(space, offset, length);
        Ok(Piece::short(bytes.as_slice()))
    }

    /// Writes these bytes from `offset` on, counted in bytes from the structure's start, and says what that does beyond
    /// the registers. Of a field just the bytes written change, and none of a field that a guest only reads. A write of 0
    /// to device status is a reset (VIRTIO 1.3, 2.1). A vector of at least queues + 1 is kept as 0xffff, writeback keeps
    /// the lowest bit, and with a selected queue that doesn't exist its address and its vector can't be written (of this
    /// project). Exactly where the write has no byte, isn't wholly inside one field, or writes a part of queue notify, the
    /// answer is Field and nothing changes (of this project).
    pub fn write(&mut self, space: Space, offset: u8, bytes: &Piece) -> Result<Effect, Field>
        ensures answer { result ≡ write_answer self.old space offset bytes.now }
        ensures registers { self.new ≡ record self.old { registers = after_write self.old space offset bytes.now } }
    {
        let bytes = bytes.as_slice();
        if is_refused_write(&self.kind, self.msix, space, offset, bytes) {
            return Err(Field);
        }
        let effect = self.effect(space, offset, bytes);
        match space {
            Space::Common => self.write_common(offset, bytes),
            Space::Device => self.write_device(offset, bytes),
        }
        Ok(effect)
    }

    /// Enables or disables MSI-X, with which the two vectors are part of the common structure (VIRTIO 1.3, 4.1.4.10). The
    /// vectors stay as they are (of this project).
    pub fn set_msix(&mut self, on: bool)
        ensures { self.new ≡ record self.old { registers = record self.old.registers { msix = on } } }
    {
        self.msix = on;
    }

    /// Raises a queue's interrupt: with MSI-X disabled bit 0 of ISR is set (VIRTIO 1.3, 4.1.4.5), else the interrupt is the
    /// queue's vector, and Silent where that is 0xffff (4.1.5.1.2).
    pub fn raise(&mut self, queue: u16) -> Irq
        ensures irq { result ≡ queue_irq self.old.registers queue }
        ensures registers { self.new ≡ record self.old { registers = raise_queue self.old.registers } }
    {
        if !self.msix {
            self.state.isr = 1;
            return Irq::Isr;
        }
        match self.queue(queue).vector {
            NO_VECTOR => Irq::Silent,
            vector => Irq::Vector(vector),
        }
    }

    /// A reset (VIRTIO 1.3, 2.4): every field of the common structure and writeback get their initial value. MSI-X and the
    /// MAC stay as they are (of this project).
    pub fn reset(&mut self)
        ensures { self.new ≡ record self.old { registers = reset_of self.old.kind self.old.registers } }
    {
        self.state = State::new();
    }

    /// A function level reset: a reset, after which a network device has its initial MAC again (of this project).
    pub fn flr(&mut self)
        ensures { self.new ≡ record self.old { registers = flr_of self.old.kind self.old.registers } }
    {
        self.reset();
        self.mac = initial_mac(&self.kind);
    }

    /// The registers of a queue. One that doesn't exist has address 0 and no vector.
    fn queue(&self, queue: u16) -> QueueState
        ensures address { result.address ≡ queue_address self.now.registers queue }
        ensures vector { result.vector ≡ queue_vector self.now.registers queue }
    {
        if queue < queue_count(&self.kind) {
            self.state.queues[usize::from(queue)]
        } else {
            NO_QUEUE
        }
    }

    /// The common structure as bytes.
    fn common_structure(&self) -> Image
        ensures bytes { result.items ≡ common_structure self.now.kind self.now.registers }
        ensures len { array_vec_len result ≡ common_size self.now.registers.msix }
    {
        let selected = self.state.selected();
        let queue = self.queue(selected);
        let mut image = ArrayVec::new();
        append(&mut image, &bytes_of_32(device_features(&self.kind)));
        append(&mut image, &self.state.features);
        append(&mut image, &queue.address);
        append(&mut image, &bytes_of_16(self.queue_size(selected)));
        append(&mut image, &self.state.select);
        append(&mut image, &[0, 0, self.state.status, self.state.isr]);
        if self.msix {
            append(&mut image, &bytes_of_16(self.state.config_vector));
            append(&mut image, &bytes_of_16(queue.vector));
        }
        image
    }

    /// The device-specific structure as bytes.
    fn device_structure(&self) -> Image
        ensures bytes { result.items ≡ device_structure self.now.kind self.now.registers }
        ensures len { array_vec_len result ≡ device_size self.now.kind }
    {
        let mut image = ArrayVec::new();
        match &self.kind {
            Kind::Block { sectors, .. } => {
                append(&mut image, &bytes_of_64(*sectors));
                append(&mut image, &[0; 12]);
                append(&mut image, &bytes_of_32(512));
                append(&mut image, &[0; 8]);
                append(&mut image, &[self.state.writeback]);
            }
            Kind::Net { .. } => {
                append(&mut image, &self.mac);
                append(&mut image, &[1, 0]);
            }
        }
        image
    }

    /// A structure as bytes.
    fn structure(&self, space: Space) -> Image
        ensures bytes { result.items ≡ structure self.now.kind self.now.registers space }
        ensures len { array_vec_len result ≡ structure_size self.now.kind self.now.registers.msix space }
    {
        match space {
            Space::Common => self.common_structure(),
            Space::Device => self.device_structure(),
        }
    }

    /// The number of descriptors of a queue, and 0 for one that doesn't exist.
    fn queue_size(&self, queue: u16) -> u16
        ensures { result ≡ queue_size self.now.kind queue }
    {
        if queue < self.queues() {
            MEMBER_RING_SIZE
        } else {
            0
        }
    }

    /// What a write that isn't refused does beyond the registers.
    fn effect(&self, space: Space, offset: u8, bytes: &[u8]) -> Effect
        requires few { length bytes.now ≤ 256 }
        requires whole { notifies_in_part space offset (length bytes.now) ≡ false }
        ensures { result ≡ write_effect self.now.kind self.now.registers space offset bytes.now }
    {
        match space {
            Space::Common => self.common_effect(offset, bytes),
            Space::Device => Effect::Nothing,
        }
    }

    /// What a write of the common structure does beyond the registers: it notifies an existing queue, is a reset, or
    /// writes the address of an existing queue.
    fn common_effect(&self, offset: u8, bytes: &[u8]) -> Effect
        requires few { length bytes.now ≤ 256 }
        requires whole { notifies_in_part Common offset (length bytes.now) ≡ false }
        ensures { result ≡ common_effect self.now.kind self.now.registers offset bytes.now }
    {
        let count = bytes.len() as u32;
        if QUEUE_NOTIFY.meets(offset, count) {
            let queue = read_16(bytes);
            if queue < self.queues() {
                return Effect::Notify(queue);
            }
        }
        if is_reset_write(offset, bytes) {
            return Effect::Reset;
        }
        let selected = self.state.selected();
        if QUEUE_ADDRESS.meets(offset, count) && selected < self.queues() {
            return Effect::Address(selected);
        }
        Effect::Nothing
    }

    /// Writes the common structure, where that isn't refused.
    fn write_common(&mut self, offset: u8, bytes: &[u8])
        requires { length bytes.now ≤ 256 }
        ensures { self.new ≡ record self.old { registers = write_common self.old.kind offset bytes.now self.old.registers } }
    {
        if is_reset_write(offset, bytes) {
            self.reset();
        } else {
            self.state.write(queue_count(&self.kind), offset, bytes);
        }
    }

    /// Writes the device-specific structure, where that isn't refused.
    fn write_device(&mut self, offset: u8, bytes: &[u8])
        requires { offset + length bytes.now ≤ device_size self.old.kind }
        ensures { self.new ≡ record self.old { registers = write_device offset bytes.now self.old.registers } }
    {
        match &self.kind {
            Kind::Block { .. } => {
                if let Some(byte) = byte_put(usize::from(WRITEBACK.offset), offset, bytes) {
                    self.state.writeback = byte % 2;
                }
            }
            Kind::Net { .. } => put(&mut self.mac, MAC.offset, offset, bytes),
        }
    }
}

/// The MAC that a network device begins with; a block device has none.
fn initial_mac(kind: &Kind) -> [u8; 6]
    ensures { kept_mac kind.now result ≡ initial_mac kind.now }
{
    match kind {
        Kind::Block { .. } => [0; 6],
        Kind::Net { mac } => *mac,
    }
}

/// Whether a write puts 0 at device status.
pub(crate) fn is_reset_write(offset: u8, bytes: &[u8]) -> bool
    ensures { result ≡ is_reset_write offset bytes.now }
{
    byte_put(usize::from(DEVICE_STATUS.offset), offset, bytes) == Some(0)
}
