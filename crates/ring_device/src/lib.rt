//! The device half of a legacy split virtqueue: which chain stands at a position of the available ring, the bytes that the
//! guest put into it, the reply back into it, the used ring, and whether an interrupt is wanted.
//!
//! It stands on `ring_layout`, whose words it speaks, on `guest_mem`, and on `board_text` for lists of bytes. Its main
//! clause is that of `next_chain`: the answer exactly, whatever the guest wrote. Whether tables of descriptors and event
//! indices are used is handed in. `next_chain` and `gather` are the calls that take memory; both read each descriptor once
//! and each byte once. A device reads before it writes: `gather` and `wants_interrupt` come before `scatter`; `put_used`
//! comes behind that, and `put_event` last.
#![tactic(auto)]

mod available;
mod buffers;
mod chain;
mod next;
mod pair;
#[cfg(test)]
mod tests;
mod used;
mod walk;

pub use buffers::{gather, scatter};
pub use chain::Chain;
pub use next::{Bad, Found, next_chain};
pub use pair::{PairFound, next_pair};
pub use used::{put_event, put_used, wants_interrupt};
