//! What threads may share and send. There is nothing to run here.
use crate::gate::OpenGate;
use crate::memory::{MemSink, MemSource};
use crate::sink::PutAnswer;
use crate::source::Taken;
use crate::streams::{StdSink, StdSource};
use std::io::{Read, Write};

fn is_shared<T: Send + Sync>() {}

/// The gate, sources and sinks over memory and what they answer may be shared by threads and sent to them.
pub fn the_outside_crosses_threads() {
    is_shared::<OpenGate>();
    is_shared::<MemSource>();
    is_shared::<MemSink>();
    is_shared::<Taken>();
    is_shared::<PutAnswer>();
}

/// A reader as a source and a writer as a sink may be, where the reader and the writer may.
pub fn streams_cross_threads<R: Read + Drop + Send + Sync, W: Write + Drop + Send + Sync>() {
    is_shared::<StdSource<R>>();
    is_shared::<StdSink<W>>();
}
