//! The disk of a block member, and what a request for it is answered (VIRTIO 1.3, 5.2.6).
//!
//! `specs/Block.antt` says which status a request gets, the reply in bytes and the disk after it. It stands on
//! `board_text` for lists of bytes, on `byte_fields` and on `byteorder`. Its main clause is that of `serve`: the reply
//! exactly, as many bytes as the guest lets the device write, and the disk exactly; after `NoMemory` the disk is as before.
//! A request costs its own bytes and those of its reply.
#![tactic(auto)]

mod disk;
mod laws;
mod reply;
mod request;
mod service;
#[cfg(test)]
mod tests;

pub use disk::{Disk, SECTOR_LIMIT, SECTOR_SIZE};
pub use laws::{disks_cross_threads, sizes};
pub use service::{BlkAnswer, BlkPlan, plan, put, serve};
