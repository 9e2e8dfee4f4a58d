//! The memory of a guest: 1 to 64 pages that begin as zeros, seen by contracts as a list of bytes.
//!
//! A read is `bytes_at`, a write is `overwrite`, and a number is `le16`, `le32` or `le64` of `byte_fields`, on which this
//! crate stands with `byteorder`. Its main clause is that of `write`: just the bytes of its range change. Only `new`
//! takes memory.
#![tactic(auto)]

mod laws;
mod memory;
mod numbers;

pub use laws::{memories_cross_threads, sizes};
pub use memory::{GuestMem, PAGE_LIMIT, PAGE_SIZE};
