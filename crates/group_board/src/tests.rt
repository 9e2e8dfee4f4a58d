ghost use Rattle.std.specs.Prelude.{None};

use crate::status::Status;
use crate::top::{TEXT_LIMIT, board_once};
use board_io::{MemSink, MemSource, Sink, Source, Taken};
use script_words::Cause;
use std::alloc::{AllocError, Global};
use std::test::Fail;

const QUERY: &str = "cmd 16 000001000000000000000000000000000000000000000000\n";

const QUERIED: &str = "done 00000000000000007f00000000000000\n";

// A source that gives pieces of several lengths, one after another and again.
#[derive(Drop)]
struct Pieces<'a> {
    whole: MemSource,
    lengths: &'a [usize],
    next: usize,
}

impl Source for Pieces<'_> {
    ghost left = { λ _. None };

    ghost faults = { λ s. s.whole.faults };

    ghost widest = { λ _. 0 };

    fn take(&mut self, buf: &mut [u8]) -> Taken {
        let length = match self.lengths.get(self.next) {
            Some(length) => *length,
            None => buf.len(),
        };
        self.next = self.next.wrapping_add(1) % self.lengths.len().max(1);
        let length = length.max(1).min(buf.len());
        self.whole.take(&mut buf[..length])
    }
}

fn repeated(alloc: Global, line: &str, count: usize) -> Result<Vec<u8>, AllocError> {
    let mut text = Vec::new(alloc);
    for _ in 0..count {
        text.extend_from_slice(line.as_bytes())?;
    }
    Ok(text)
}

// What `admin` answers.
fn admin<R: Source, W: Sink>(
    alloc: Global,
    source: &mut R,
    sink: &mut W,
) -> Result<Status, AllocError> {
    let words = vec![in alloc; String::from_str(alloc, "admin")?]?;
    Ok(board_once(alloc, &words, source, sink))
}

#[test]
fn pieces_of_any_length_give_the_same(rt: HostRuntime) -> Result<(), Fail> {
    let alloc = rt.alloc();
    let sizes: [&[usize]; 4] = [&[1], &[7], &[4096], &[1, 4096, 7, 100, 4095]];
    let mut text = repeated(alloc, QUERY, 300)?;
    text.extend_from_slice(b"#\n\ncmd 4 -")?;
    let mut expected = repeated(alloc, QUERIED, 300)?;
    expected.extend_from_slice(b"done 16000300\n")?;
    for lengths in sizes {
        let whole = MemSource::new(text.clone()?, Vec::new(alloc));
        let mut source = Pieces {
            whole,
            lengths,
            next: 0,
        };
        let mut sink = MemSink::new(alloc, 20_000, Vec::new(alloc))?;
        let status = admin(alloc, &mut source, &mut sink)?;
        assert_eq!(rt; status, Status::Done);
        assert_eq!(rt; sink.held(), expected.as_slice());
    }
    Ok(())
}

#[test]
fn the_limit_is_met_at_any_piece(rt: HostRuntime) -> Result<(), Fail> {
    let alloc = rt.alloc();
    let rows: [(&[usize], usize, Status); 6] = [
        (&[4096], 0, Status::Done),
        (&[4096], 1, Status::TooLong),
        (&[1], 0, Status::Done),
        (&[1], 1, Status::TooLong),
        (&[7, 4000], 0, Status::Done),
        (&[7, 4000], 5000, Status::TooLong),
    ];
    for (lengths, more, expected) in rows.iter() {
        let text = repeated(alloc, "#", TEXT_LIMIT + *more)?;
        let whole = MemSource::new(text, Vec::new(alloc));
        let mut source = Pieces {
            whole,
            lengths,
            next: 0,
        };
        let mut sink = MemSink::new(alloc, 10, Vec::new(alloc))?;
        let status = admin(alloc, &mut source, &mut sink)?;
        assert_eq!(rt; status, *expected);
        assert!(rt; sink.held().is_empty());
    }
    Ok(())
}

#[test]
fn each_call_of_the_outside_fails_once(rt: HostRuntime) -> Result<(), Fail> {
    let alloc = rt.alloc();
    let text = repeated(alloc, QUERY, 400)?;
    let output = repeated(alloc, QUERIED, 400)?;
    for call in 0..31 {
        let failing = vec![in alloc; call]?;
        let mut source = MemSource::new(text.clone()?, failing.clone()?);
        let mut sink = MemSink::new(alloc, 20_000, Vec::new(alloc))?;
        let status = admin(alloc, &mut source, &mut sink)?;
        let reached = call < 7;
        assert_eq!(rt; status == Status::ReadFault, reached);
        assert_eq!(rt; sink.held().is_empty(), reached);

        let mut source = MemSource::new(text.clone()?, Vec::new(alloc));
        let mut sink = MemSink::new(alloc, 20_000, failing)?;
        let status = admin(alloc, &mut source, &mut sink)?;
        let put = output.len().min(call as usize * 4096);
        assert_eq!(rt; status == Status::WriteFault, call < 4);
        assert_eq!(rt; sink.held().len(), put);
        assert_eq!(rt; sink.held(), &output[..put]);
    }
    Ok(())
}

#[test]
fn a_fault_is_told_and_may_fail_to_be_put(rt: HostRuntime) -> Result<(), Fail> {
    let alloc = rt.alloc();
    let bad = Status::BadScript {
        line: 3,
        cause: Cause::Word,
    };
    let rows = [(0, bad, "bad line 3: word\n"), (1, Status::WriteFault, "")];
    for (failures, expected, put) in rows.iter() {
        let text = Vec::from_slice(alloc, b"#\ncmd 0 -\ncmd 0\n")?;
        let mut source = MemSource::new(text, Vec::new(alloc));
        let mut failing = Vec::new(alloc);
        if *failures == 1 {
            failing.push(0)?;
        }
        let mut sink = MemSink::new(alloc, 100, failing)?;
        let status = admin(alloc, &mut source, &mut sink)?;
        assert_eq!(rt; status, *expected);
        assert_eq!(rt; sink.held(), put.as_bytes());
    }
    Ok(())
}
