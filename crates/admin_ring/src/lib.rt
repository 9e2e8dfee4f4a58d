//! An administration queue (VIRTIO 1.3, 2.13): commands are posted, fetched, completed and taken, each once, by any number
//! of actors.
//!
//! Its commands stand in a split ring in the host's memory, as the standard has it. It stands on `group_calls`, whose
//! definitions say every answer by looking back through the queue's history, on `history` for the history itself, on
//! `ring_driver` and `ring_device` for the two halves of the ring, and on `slab` for the notes of the commands that are
//! outstanding. Its main clause is that of `Serial::apply` for `AdminRing`: each reply is the definition over what stood
//! before it. `specs/Bytes.antt` says how the bytes of the ring and of the slots belong to the history, which is the
//! invariant of the type. Post takes the memory that the later Pop, Complete and Take of its command need, so these never
//! want any. No call walks the history.
#![tactic(auto)]

mod host;
pub mod laws;
mod ring;
mod room;
mod table;
#[cfg(test)]
mod tests;

pub use ring::AdminRing;
