//! Readers and writers of the standard library as a source and a sink. They tell of content what the
//! reader or the writer itself tells, which is nothing for standard input and output, and count no
//! lengths.
ghost use Rattle.std.specs.Prelude.{◌≡◌, ◌≢◌, ◌<◌, ◌≤◌, ◌⊎◌, ◌↔◌, IsTrue, IfErr, length};
ghost use Rattle.std.specs.IoError.{error_kind};
ghost use Rattle.std.specs.Io.{ReadsAtMost};
ghost use Rattle.std.specs.Io.KnownBytes.{ReadConsumes};
ghost use Rattle.board_io.specs.Faults.{Rose, next_count};
ghost use Rattle.board_io.specs.Source.{FitsRoom, TakesFrom};
ghost use Rattle.board_io.specs.Sink.{PutsOn, AppendsPart};

use crate::sink::{PutAnswer, Sink};
use crate::source::{Source, Taken};
use std::io;
use std::io::{ErrorKind, Read, Write};
use std::marker::Model;

// How many reads or writes one call makes at most, since signals may interrupt each of them. The
// standard library's own loops have the same number.
const TRIES: u64 = u64::MAX;

fn is_interrupted(fault: &io::Error) -> bool
    ensures { IsTrue result ↔ (error_kind fault.now ≡ ErrorKind.Interrupted) }
{
    fault.kind() == ErrorKind::Interrupted
}

// One read, which is tried again where a signal interrupted it. Where all tries are used up the time is out.
fn read_on<R: Read>(reader: &mut R, buf: &mut [u8]) -> io::Result<usize>
    ensures bound { ReadsAtMost result buf.new }
    ensures bytes { ReadConsumes (R.remaining reader.old) (R.remaining reader.new) result buf.new }
    ensures not_interrupted { IfErr result (λ fault. error_kind fault ≢ ErrorKind.Interrupted) }
{
    'tries: for _ in 0..TRIES {
        match reader.read(buf) {
            Err(fault) if is_interrupted(&fault) => {}
            answer => return answer,
        }
    }
    Err(io::Error::from(ErrorKind::TimedOut))
}

// Writes of the bytes, one after another, until all are written. A write that a signal interrupted is
// tried again, and one of no bytes is a failure. A failure leaves a part unwritten.
fn write_on<W: Write>(writer: &mut W, bytes: &[u8]) -> PutAnswer
    ensures held { PutsOn (W.contents writer.old) (W.contents writer.new) result bytes.now }
    ensures failed { result ≡ PutAnswer.Failed → AppendsPart (W.contents writer.old) (W.contents writer.new) bytes.now }
{
    let mut at = 0;
    'tries: for _ in 0..TRIES {
        if at == bytes.len() {
            return PutAnswer::Put;
        }
        match writer.write(&bytes[at..]) {
            Ok(0) => return PutAnswer::Failed,
            Ok(count) => at += count,
            Err(fault) if is_interrupted(&fault) => {}
            Err(_) => return PutAnswer::Failed,
        }
    }
    if at == bytes.len() {
        PutAnswer::Put
    } else {
        PutAnswer::Failed
    }
}

// Writes all bytes, and then what the writer may have kept back of them.
fn write_through<W: Write>(writer: &mut W, bytes: &[u8]) -> PutAnswer
    ensures { PutsOn (W.contents writer.old) (W.contents writer.new) result bytes.now }
{
    match write_on(writer, bytes) {
        PutAnswer::Put => match writer.flush() {
            Ok(()) => PutAnswer::Put,
            Err(_) => PutAnswer::Failed,
        },
        PutAnswer::Failed => PutAnswer::Failed,
    }
}

/// A reader as a source. A read that a signal interrupted is tried again, with 2^64 - 1 reads in all at
/// most; every other error is a failure, and so are 2^64 - 1 interruptions in a row. Each failure counts
/// once.
#[derive(Drop)]
pub struct StdSource<R: Read + Drop> {
    reader: R,
    faults: u64,
}

impl<R: Read + Drop> Model for StdSource<R> {
    ghost use Rattle.board_io.specs.Streams.{StreamState};

    ghost Value = { StreamState R };

    ghost view = { λ s. record { stream = s.reader; faults = s.faults } };
}

impl<R: Read + Drop> StdSource<R> {
    /// A source over the reader, with no fault so far.
    pub fn new(reader: R) -> StdSource<R>
        ensures stream { result.stream ≡ reader }
        ensures faults { result.faults ≡ 0 }
    {
        StdSource { reader, faults: 0 }
    }
}

impl<R: Read + Drop> Source for StdSource<R> {
    ghost left = { λ s. R.remaining s.stream };

    ghost faults = { λ s. s.faults };

    ghost widest = { λ _. 0 };

    fn take(&mut self, buf: &mut [u8]) -> Taken
        requires { 0 < length buf.old }
        ensures room { FitsRoom result (length buf.new) }
        ensures left { TakesFrom (R.remaining self.old.stream) (R.remaining self.new.stream) result buf.new }
        ensures never_falls { self.old.faults ≤ self.new.faults }
        ensures failed { result ≡ Taken.Failed → Rose self.old.faults self.new.faults }
        ensures failures_alone { (result ≡ Taken.Failed) ⊎ (self.new.faults ≡ self.old.faults) }
        ensures counted { result ≡ Taken.Failed → self.new.faults ≡ next_count self.old.faults }
    {
        match read_on(&mut self.reader, buf) {
            Ok(0) => Taken::End,
            Ok(count) => Taken::Bytes(count),
            Err(_) => {
                self.faults = self.faults.saturating_add(1);
                Taken::Failed
            }
        }
    }
}

/// A writer as a sink. A short write goes on with the rest, and a write that a signal interrupted is
/// tried again, with 2^64 - 1 writes in all at most. After the last of the bytes the writer is flushed. A
/// write of no bytes is a failure, and so is every other error. Each failure counts once.
#[derive(Drop)]
pub struct StdSink<W: Write + Drop> {
    writer: W,
    faults: u64,
}

impl<W: Write + Drop> Model for StdSink<W> {
    ghost use Rattle.board_io.specs.Streams.{StreamState};

    ghost Value = { StreamState W };

    ghost view = { λ s. record { stream = s.writer; faults = s.faults } };
}

impl<W: Write + Drop> StdSink<W> {
    /// A sink over the writer, with no fault so far.
    pub fn new(writer: W) -> StdSink<W>
        ensures stream { result.stream ≡ writer }
        ensures faults { result.faults ≡ 0 }
    {
        StdSink { writer, faults: 0 }
    }
}

impl<W: Write + Drop> Sink for StdSink<W> {
    ghost held = { λ s. W.contents s.stream };

    ghost faults = { λ s. s.faults };

    ghost widest = { λ _. 0 };

    fn put(&mut self, bytes: &[u8]) -> PutAnswer
        requires { 0 < length bytes.now }
        ensures held { PutsOn (W.contents self.old.stream) (W.contents self.new.stream) result bytes.now }
        ensures never_falls { self.old.faults ≤ self.new.faults }
        ensures failed { result ≡ PutAnswer.Failed → Rose self.old.faults self.new.faults }
        ensures failures_alone { (result ≡ PutAnswer.Failed) ⊎ (self.new.faults ≡ self.old.faults) }
        ensures counted { result ≡ PutAnswer.Failed → self.new.faults ≡ next_count self.old.faults }
    {
        let answer = write_through(&mut self.writer, bytes);
        if answer == PutAnswer::Failed {
            self.faults = self.faults.saturating_add(1);
        }
        answer
    }
}
