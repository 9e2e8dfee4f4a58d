//! Frames on their way to a network member's guest and from it (VIRTIO 1.3, 5.1.6).
//!
//! `Backlog` holds the frames that wait for the guest, at most 64, in the order in which they came; `transmit` takes a frame
//! out of what the guest gave. It stands on `board_text` for lists of bytes, on `byte_fields` for sizes and on
//! `circular_buffer`. Its main clauses are
//! those of `arrive`, `receive` and `transmit`: the list of frames and the bytes exactly. Only `Backlog::new`, `receive` and
//! `transmit` take memory.
#![tactic(auto)]

mod backlog;
mod frame;
mod laws;
#[cfg(test)]
mod tests;

pub use backlog::{Arrival, BACKLOG_LIMIT, Backlog};
pub use frame::{HEADER_SIZE, LONGEST_FRAME, SHORTEST_FRAME, is_frame_length, transmit};
pub use laws::{backlogs_cross_threads, sizes};
