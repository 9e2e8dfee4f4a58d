//! Frames that wait for a guest (VIRTIO 1.3, 5.1.6.4).
ghost use Rattle.std.specs.Prelude.{◌≡◌, ◌<◌, ◌≤◌, [], ◌∷◌, ◌++◌, length, drop, IfOk, OnOk, OnErr, if◌then◌else◌, nat_lt, slice_get, option_map};
ghost use Rattle.net_engine.specs.Frames.{backlog_limit, first_with_header};

use crate::frame::{HEADER_SIZE, with_header};
use board_text::Bytes;
use circular_buffer::HeapCircularBuffer;
use std::alloc::{AllocError as NoMemory, Global};
use std::marker::Model;

/// How many frames wait at most: a limit of this project.
pub const BACKLOG_LIMIT: usize = 64;

/// Frames that wait for a guest, in the order in which they came, at most 64. Contracts see the list of frames, the one that
/// came first at its front.
#[derive(Debug, Drop)]
pub struct Backlog {
    frames: HeapCircularBuffer<Bytes>,
    alloc: Global,
}

impl Model for Backlog {
    ghost use Rattle.std.specs.Prelude.{ℕ, ◌≡◌, List};
    ghost use Rattle.net_engine.specs.Frames.{backlog_limit};

    ghost Value = { List (List ℕ) };

    ghost view = { λ b. b.frames.items };

    ghost invariant = { λ b. b.frames.capacity ≡ backlog_limit };
}

/// What became of a frame.
#[derive(Debug, Drop)]
pub enum Arrival {
    /// It waits, behind all others.
    Kept,
    /// As many wait as may. The frame is given back.
    Full(Bytes),
}

impl Backlog {
    /// No frame waits. `NoMemory` where the room for 64 can't be had.
    pub fn new(alloc: Global) -> Result<Backlog, NoMemory>
        ensures { IfOk result (λ backlog. backlog ≡ []) }
    {
        let frames = HeapCircularBuffer::with_capacity(alloc, BACKLOG_LIMIT)?;
        Ok(Backlog { frames, alloc })
    }

    /// How many frames wait.
    pub fn length(&self) -> usize
        ensures value { result ≡ length self.now }
        ensures most { length self.now ≤ backlog_limit }
    {
        self.frames.len()
    }

    /// Lets a frame wait. `Full` exactly where 64 wait; then nothing changes. Of the frame's length nothing is asked. It takes
    /// no memory.
    pub fn arrive(&mut self, frame: Bytes) -> Arrival
        ensures answer { result ≡ (if nat_lt (length self.old) backlog_limit then Arrival.Kept
            else Arrival.Full frame) }
        ensures frames { self.new ≡ (if nat_lt (length self.old) backlog_limit then self.old ++ frame ∷ []
            else self.old) }
    {
        if self.frames.len() >= BACKLOG_LIMIT {
            return Arrival::Full(frame);
        }
        let _ = self.frames.push_back(frame);
        Arrival::Kept
    }

    /// A header of ten zeros and the first frame, of which there has to be one. Nothing changes. `NoMemory` where the bytes
    /// can't be had.
    pub fn front_with_header(&self) -> Result<Bytes, NoMemory>
        requires { 0 < length self.now }
        ensures { IfOk result (λ bytes. bytes ≡ first_with_header self.now) }
    {
        match self.frames.front() {
            Some(frame) => with_header(self.alloc, frame.as_slice()),
            None => unreachable!(),
        }
    }

    /// How many bytes the first frame has with a header, of which frames there has to be one.
    pub fn front_length_with_header(&self) -> u64
        requires { 0 < length self.now }
        ensures { result ≡ length (first_with_header self.now) }
    {
        match self.frames.front() {
            Some(frame) => (HEADER_SIZE + frame.as_slice().len()) as u64,
            None => unreachable!(),
        }
    }

    /// How many bytes the first frame has, without a header. `None` exactly where no frame waits.
    pub fn front_length(&self) -> Option<usize>
        ensures { result ≡ option_map length (slice_get self.now 0) }
    {
        let frame = self.frames.front()?;
        Some(frame.as_slice().len())
    }

    /// Drops the first frame, of which there has to be one.
    pub fn drop_front(&mut self)
        requires { 0 < length self.old }
        ensures { self.new ≡ drop 1 self.old }
    {
        let _ = self.frames.pop_front();
    }

    /// Drops all frames.
    pub fn clear(&mut self)
        ensures { self.new ≡ [] }
    {
        self.frames.clear();
    }

    /// A header of ten zeros and the first frame, of which there has to be one. The frame leaves the backlog. `NoMemory` where
    /// the bytes can't be had; then nothing changes.
    pub fn receive(&mut self) -> Result<Bytes, NoMemory>
        requires { 0 < length self.old }
        ensures bytes { IfOk result (λ bytes. bytes ≡ first_with_header self.old) }
        ensures ok { OnOk result (self.new ≡ drop 1 self.old) }
        ensures err { OnErr result (self.new ≡ self.old) }
    {
        let bytes = self.front_with_header()?;
        self.drop_front();
        Ok(bytes)
    }
}
