//! The legacy registers of one virtio device, as a transitional device shows them in BAR 0: the common structure, and
//! the configuration of a block or a network device. It stands on `byte_fields` (numbers and parts of lists of bytes) and
//! `board_text` (lists of bytes). Its main clauses are those of `Regs::read` and `Regs::write`: the answer, and the
//! registers afterwards, each as one equation over the registers before.
#![tactic(auto)]

mod accesses;
mod bytes;
mod device;
mod features;
mod field_bytes;
mod fields;
mod image;
mod interrupts;
pub mod laws;
mod numbers;
mod regs;
mod state;
#[cfg(test)]
mod tests;
mod writes;

pub use accesses::{Effect, Field, Space};
pub use device::Kind;
pub use features::Features;
pub use field_bytes::FieldBytes;
pub use interrupts::Irq;
pub use regs::Regs;
pub use writes::{is_address_write, is_reset_write, notified_queue};

/// The number of descriptors of each queue of a member: the number `member_ring_size` of the definitions (of this project).
pub const MEMBER_RING_SIZE: u16 = 16;
