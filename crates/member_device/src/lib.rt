//! A member's device without its history: legacy registers, guest memory, disk, and the frames that wait.
//!
//! Each call answers over what the device holds, and a step over what it is told of its queue: where the queue stands, and
//! whether it is to be served. The crate stands on `group_calls`, whose definitions say every answer, and on the parts of
//! a device: `legacy_regs`, `guest_mem`, `ring_device`, `blk_engine` and `net_engine`. Its main clause is that of
//! `Device::step`: the reply is that of the defined outcome, and registers, memory, disk and frames are as it leaves them.
//! Every call has all its memory before it changes anything, so `NoMemory` leaves the device as it was.
#![tactic(auto)]

mod access;
mod answer;
mod chains;
mod device;
mod frames;
mod guest;
mod perform;
mod plan;
mod step;

pub use answer::Answer;
pub use device::{Device, devices_cross_threads};
