//! A source and a sink over memory, which fail at the calls that they are told to.
ghost use Rattle.std.specs.Prelude.{◌≡◌, ℕ, ◌+◌, ◌<◌, ◌≤◌, ◌↔◌, ◌⊎◌, [], ◌++◌, length, take, drop, max, min, Contains, IfOk, Some};
ghost use Rattle.board_io.specs.Faults.{Rose, next_count};
ghost use Rattle.board_io.specs.Source.{FitsRoom, TakesFrom};
ghost use Rattle.board_io.specs.Sink.{PutsOn};
ghost use Rattle.board_io.specs.Memory.{FillsRoom};

use crate::sink::{PutAnswer, Sink};
use crate::source::{Source, Taken};
use std::alloc::{AllocError as NoMemory, Global};
use std::marker::Model;

/// A source of some bytes, which gives as many of them at a time as the buffer has room for. Contracts
/// see it as a `SourceState`.
#[derive(Debug, Drop)]
pub struct MemSource {
    bytes: Vec<u8>,
    at: usize,
    failing: Vec<u64>,
    calls: u64,
    faults: u64,
    widest: usize,
}

impl Model for MemSource {
    ghost use Rattle.std.specs.Prelude.{◌≤◌, drop, length};
    ghost use Rattle.board_io.specs.Memory.{SourceState};

    ghost Value = { SourceState };

    ghost view = { λ s. record { left = drop s.at s.bytes.items; calls = s.calls; failing = s.failing.items; faults = s.faults; widest = s.widest } };

    ghost invariant = { λ s. s.at ≤ length s.bytes.items };
}

// Copies from the front of `rest` to the front of `buf` what both have room for.
fn fill_front(buf: &mut [u8], rest: &[u8]) -> usize
    ensures count { result ≡ min (length buf.old) (length rest.now) }
    ensures copied { take result buf.new ≡ take result rest.now }
{
    let count = buf.len().min(rest.len());
    buf[..count].copy_from_slice(&rest[..count]);
    count
}

impl MemSource {
    /// A source of these bytes. Its calls with the numbers in `failing`, counted from 0, fail. It takes
    /// no memory.
    pub fn new(bytes: Vec<u8>, failing: Vec<u64>) -> MemSource
        ensures left { result.left ≡ bytes.items }
        ensures calls { result.calls ≡ 0 }
        ensures failing { result.failing ≡ failing.items }
        ensures faults { result.faults ≡ 0 }
        ensures widest { result.widest ≡ 0 }
    {
        MemSource {
            bytes,
            at: 0,
            failing,
            calls: 0,
            faults: 0,
            widest: 0,
        }
    }
}

impl Source for MemSource {
    ghost left = { λ s. Some s.left };

    ghost faults = { λ s. s.faults };

    ghost widest = { λ s. s.widest };

    fn take(&mut self, buf: &mut [u8]) -> Taken
        requires { 0 < length buf.old }
        ensures room { FitsRoom result (length buf.new) }
        ensures left { TakesFrom (Some self.old.left) (Some self.new.left) result buf.new }
        ensures never_falls { self.old.faults ≤ self.new.faults }
        ensures failed { result ≡ Taken.Failed → Rose self.old.faults self.new.faults }
        ensures fails_at { (result ≡ Taken.Failed) ↔ Contains self.old.failing self.old.calls }
        ensures widest { self.new.widest ≡ max self.old.widest (length buf.old) }
        ensures fills { FillsRoom result (length buf.new) (length self.old.left) }
        ensures calls { self.new.calls ≡ next_count self.old.calls }
        ensures failing { self.new.failing ≡ self.old.failing }
        ensures failures_alone { (result ≡ Taken.Failed) ⊎ (self.new.faults ≡ self.old.faults) }
        ensures counted { result ≡ Taken.Failed → self.new.faults ≡ next_count self.old.faults }
    {
        self.widest = self.widest.max(buf.len());
        let fails = self.failing.contains(&self.calls);
        self.calls = self.calls.saturating_add(1);
        if fails {
            self.faults = self.faults.saturating_add(1);
            return Taken::Failed;
        }
        if self.at == self.bytes.len() {
            return Taken::End;
        }
        let count = fill_front(buf, &self.bytes[self.at..]);
        self.at += count;
        Taken::Bytes(count)
    }
}

/// A sink that holds what was put. Contracts see it as a `SinkState`.
#[derive(Debug, Drop)]
pub struct MemSink {
    held: Vec<u8>,
    room: usize,
    failing: Vec<u64>,
    calls: u64,
    faults: u64,
    widest: usize,
}

impl Model for MemSink {
    ghost use Rattle.std.specs.Prelude.{◌≤◌, vec_capacity, length};
    ghost use Rattle.board_io.specs.Memory.{SinkState};

    ghost Value = { SinkState };

    ghost view = { λ s. record { held = s.held.items; room = s.room; calls = s.calls; failing = s.failing.items; faults = s.faults; widest = s.widest } };

    ghost invariant = { λ s. (length s.held.items ≤ s.room) × (s.room ≤ vec_capacity s.held) };
}

impl MemSink {
    /// A sink for at most `room` bytes, whose memory it takes now: `put` takes none. A call fails, and
    /// appends nothing, exactly where its number, counted from 0, is in `failing`, or the bytes don't fit
    /// what is left of the room.
    pub fn new(alloc: Global, room: usize, failing: Vec<u64>) -> Result<MemSink, NoMemory>
        ensures held { IfOk result (λ sink. sink.held ≡ []) }
        ensures room { IfOk result (λ sink. sink.room ≡ room) }
        ensures calls { IfOk result (λ sink. sink.calls ≡ 0) }
        ensures failing { IfOk result (λ sink. sink.failing ≡ failing.items) }
        ensures faults { IfOk result (λ sink. sink.faults ≡ 0) }
        ensures widest { IfOk result (λ sink. sink.widest ≡ 0) }
    {
        let held = Vec::with_capacity(alloc, room)?;
        Ok(MemSink {
            held,
            room,
            failing,
            calls: 0,
            faults: 0,
            widest: 0,
        })
    }

    /// What was put so far.
    pub fn held(&self) -> &[u8]
        ensures { result.now ≡ self.now.held }
    {
        self.held.as_slice()
    }
}

impl Sink for MemSink {
    ghost held = { λ s. Some s.held };

    ghost faults = { λ s. s.faults };

    ghost widest = { λ s. s.widest };

    fn put(&mut self, bytes: &[u8]) -> PutAnswer
        requires { 0 < length bytes.now }
        ensures held { PutsOn (Some self.old.held) (Some self.new.held) result bytes.now }
        ensures never_falls { self.old.faults ≤ self.new.faults }
        ensures failed { result ≡ PutAnswer.Failed → Rose self.old.faults self.new.faults }
        ensures fails_at { (result ≡ PutAnswer.Failed)
            ↔ (Contains self.old.failing self.old.calls ⊎ (self.old.room < length self.old.held + length bytes.now)) }
        ensures nothing { result ≡ PutAnswer.Failed → self.new.held ≡ self.old.held }
        ensures widest { self.new.widest ≡ max self.old.widest (length bytes.now) }
        ensures calls { self.new.calls ≡ next_count self.old.calls }
        ensures room { self.new.room ≡ self.old.room }
        ensures failing { self.new.failing ≡ self.old.failing }
        ensures failures_alone { (result ≡ PutAnswer.Failed) ⊎ (self.new.faults ≡ self.old.faults) }
        ensures counted { result ≡ PutAnswer.Failed → self.new.faults ≡ next_count self.old.faults }
    {
        self.widest = self.widest.max(bytes.len());
        let fails = self.failing.contains(&self.calls);
        self.calls = self.calls.saturating_add(1);
        if fails || self.room - self.held.len() < bytes.len() {
            self.faults = self.faults.saturating_add(1);
            return PutAnswer::Failed;
        }
        self.held.extend_from_slice(bytes).unwrap();
        PutAnswer::Put
    }
}
