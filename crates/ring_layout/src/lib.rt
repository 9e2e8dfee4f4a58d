//! Where a legacy split virtqueue lies in a guest's memory, its descriptors, and the words of its rings.
//!
//! `specs/Chain.antt` says what a table of descriptors is and a chain of them, what a device finds at a position of the
//! available ring, and which bytes it reads and writes; the crates above speak by these words. It stands on `guest_mem`,
//! `byte_fields` and `bitflags`. Its main clause is that of `legacy`: the three addresses and the end exactly, and `None`
//! exactly where the page is 0 or the ring passes the memory. Nothing here takes memory.
#![tactic(auto)]

mod descriptor;
mod laws;
mod layout;
mod table;

pub use descriptor::{DescFlags, Descriptor, read_descriptor};
pub use laws::{a_chain_is_found, only_one_chain};
pub use layout::{Layout, legacy};
pub use table::Table;
