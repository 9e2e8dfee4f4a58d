//! What a reset clears: the fields of the common structure, and writeback.
ghost use Rattle.std.specs.Prelude.{◌≡◌, ◌≤◌, ◌+◌, nat_lt, ◌&&◌, if◌then◌else◌, length};
ghost use Rattle.byte_fields.specs.Places.{bytes_of, le16};
ghost use Rattle.legacy_regs.specs.Accesses.{bytes_put, kept_vector};

use crate::bytes::{byte_put, put};
use crate::fields::{
    CONFIG_VECTOR, DEVICE_STATUS, DRIVER_FEATURES, Place, QUEUE_ADDRESS, QUEUE_SELECT, QUEUE_VECTOR,
};
use crate::numbers::{bytes_of_16, read_16};

/// The vector that is none.
pub(crate) const NO_VECTOR: u16 = 0xffff;

/// The registers of one queue.
#[derive(Clone, Copy)]
pub(crate) struct QueueState {
    pub(crate) address: [u8; 4],
    pub(crate) vector: u16,
}

/// The registers of a queue that has none written, and of one that doesn't exist.
pub(crate) const NO_QUEUE: QueueState = QueueState {
    address: [0; 4],
    vector: NO_VECTOR,
};

#[derive(Drop)]
pub(crate) struct State {
    pub(crate) features: [u8; 4],
    pub(crate) select: [u8; 2],
    pub(crate) status: u8,
    pub(crate) isr: u8,
    pub(crate) config_vector: u16,
    pub(crate) queues: [QueueState; 2],
    pub(crate) writeback: u8,
}

/// A vector after a write, in a device of so many queues.
fn put_vector(vector: u16, place: Place, queues: u16, offset: u8, bytes: &[u8]) -> u16
    requires { length bytes.now ≤ 256 }
    ensures { result ≡ (if nat_lt offset (place.offset + place.size) && nat_lt place.offset (offset + length bytes.now) then kept_vector queues (le16 0 (bytes_put place.offset offset bytes.now (bytes_of 2 vector))) else vector) }
{
    if !place.meets(offset, bytes.len() as u32) {
        return vector;
    }
    let mut halves = bytes_of_16(vector);
    put(&mut halves, place.offset, offset, bytes);
    let written = read_16(&halves);
    if written > queues { NO_VECTOR } else { written }
}

impl QueueState {
    ghost use Rattle.std.specs.Prelude.{◌≡◌, ◌≤◌, length};
    ghost use Rattle.legacy_regs.specs.Kept.{queue_put};

    /// The registers of this queue after a write while it is selected, in a device of so many queues.
    fn written(self, queues: u16, offset: u8, bytes: &[u8]) -> QueueState
        requires { length bytes.now ≤ 256 }
        ensures { result ≡ queue_put queues offset bytes.now self }
    {
        let mut address = self.address;
        put(&mut address, QUEUE_ADDRESS.offset, offset, bytes);
        QueueState {
            address,
            vector: put_vector(self.vector, QUEUE_VECTOR, queues, offset, bytes),
        }
    }
}

impl State {
    ghost use Rattle.std.specs.Prelude.{◌≡◌, ◌≤◌, length, replicate, unwrap_or};
    ghost use Rattle.byte_fields.specs.Places.{le16};
    ghost use Rattle.legacy_regs.specs.Fields.{driver_features_field, queue_select_field, device_status_field, config_vector_field};
    ghost use Rattle.legacy_regs.specs.Accesses.{byte_put, bytes_put, vector_put};
    ghost use Rattle.legacy_regs.specs.Registers.{no_vector};
    ghost use Rattle.legacy_regs.specs.Kept.{queues_put};

    /// The fields of a new device, and after a reset.
    pub(crate) fn new() -> State
        ensures { result ≡ record { features = replicate 4 0; select = replicate 2 0; status = 0; isr = 0; config_vector = no_vector; queues = replicate 2 (record { address = replicate 4 0; vector = no_vector }); writeback = 1 } }
    {
        State {
            features: [0; 4],
            select: [0; 2],
            status: 0,
            isr: 0,
            config_vector: NO_VECTOR,
            queues: [NO_QUEUE; 2],
            writeback: 1,
        }
    }

    /// The number of the selected queue.
    pub(crate) fn selected(&self) -> u16
        ensures { result ≡ le16 0 self.now.select }
    {
        read_16(&self.select)
    }

    /// Writes the registers of the selected queue, where it exists.
    fn write_selected(&mut self, queues: u16, offset: u8, bytes: &[u8])
        requires few { length bytes.now ≤ 256 }
        requires two { queues ≤ 2 }
        ensures { self.new ≡ record self.old { queues = queues_put queues offset bytes.now (le16 0 self.old.select) self.old.queues } }
    {
        let selected = self.selected();
        if selected < queues {
            let at = usize::from(selected);
            self.queues[at] = self.queues[at].written(queues, offset, bytes);
        }
    }

    /// Writes the common structure of a device of so many queues, where that isn't a reset.
    pub(crate) fn write(&mut self, queues: u16, offset: u8, bytes: &[u8])
        requires few { length bytes.now ≤ 256 }
        requires two { queues ≤ 2 }
        ensures features { self.new.features ≡ bytes_put driver_features_field.offset offset bytes.now self.old.features }
        ensures select { self.new.select ≡ bytes_put queue_select_field.offset offset bytes.now self.old.select }
        ensures status { self.new.status ≡ unwrap_or (byte_put device_status_field.offset offset bytes.now) self.old.status }
        ensures isr { self.new.isr ≡ self.old.isr }
        ensures config_vector { self.new.config_vector ≡ vector_put queues config_vector_field offset bytes.now self.old.config_vector }
        ensures queues { self.new.queues ≡ queues_put queues offset bytes.now (le16 0 self.old.select) self.old.queues }
        ensures writeback { self.new.writeback ≡ self.old.writeback }
    {
        self.write_selected(queues, offset, bytes);
        put(&mut self.features, DRIVER_FEATURES.offset, offset, bytes);
        put(&mut self.select, QUEUE_SELECT.offset, offset, bytes);
        self.status = byte_put(usize::from(DEVICE_STATUS.offset), offset, bytes).unwrap_or(
            self.status,
        );
        self.config_vector = put_vector(self.config_vector, CONFIG_VECTOR, queues, offset, bytes);
    }
}
