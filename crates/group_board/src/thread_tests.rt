//! That the actors of `run` have threads of their own. No clause says it: a gate that holds one actor back shows it.
use crate::status::Status;
use crate::threads::board_threads;
use crate::top::board;
use board_io::{Gate, MemSink, MemSource, OpenGate};
use script_words::Cause;
use std::alloc::{AllocError, Global};
use std::sync::Wait;
use std::sync::atomic::AtomicU64;
use std::sync::atomic::Ordering::SeqCst;
use std::test::Fail;
use std::thread;
use std::thread::Threads;

const TWO_GUESTS: &str = "board 1 4 0
guest 1 block 1 8
guest 2 block 1 8
g1 in 18 1
g2 in 18 1
";

const TRIES: u32 = 10_000_000;

// A guest at the gate: how often it came, how many turns of the other it waits for at its first, and whether it gave up.
#[derive(Drop)]
struct Side {
    turns: AtomicU64,
    waits_for: u64,
    late: AtomicU64,
}

impl Side {
    fn new(waits_for: u64) -> Side {
        Side {
            turns: AtomicU64::new(0),
            waits_for,
            late: AtomicU64::new(0),
        }
    }

    fn come(&self, other: &Side) {
        if self.turns.fetch_add(1, SeqCst) > 0 {
            return;
        }
        for _ in 0..TRIES {
            if other.turns.load(SeqCst) >= self.waits_for {
                return;
            }
            thread::yield_now();
        }
        self.late.store(1, SeqCst);
    }

    fn was_in_time(&self) -> bool {
        self.turns.load(SeqCst) > 0 && self.late.load(SeqCst) == 0
    }
}

// Holds each of guests 1 and 2 at its first turn until the other has come to so many turns.
#[derive(Drop)]
struct Holding {
    first: Side,
    second: Side,
}

impl Holding {
    fn new(first: u64, second: u64) -> Holding {
        Holding {
            first: Side::new(first),
            second: Side::new(second),
        }
    }
}

impl Gate for Holding {
    fn turn(&self, who: u32) {
        match who {
            1 => self.first.come(&self.second),
            2 => self.second.come(&self.first),
            _ => {}
        }
    }
}

// What `run` puts for the two guests.
fn run<G: Gate + Sync, R: Threads + Wait + Sync>(
    rt: &R,
    alloc: Global,
    gate: &G,
) -> Result<(Status, MemSink), AllocError> {
    let words = vec![in alloc; String::from_str(alloc, "run")?]?;
    let text = Vec::from_slice(alloc, TWO_GUESTS.as_bytes())?;
    let mut source = MemSource::new(text, Vec::new(alloc));
    let mut sink = MemSink::new(alloc, 10_000, Vec::new(alloc))?;
    let status = board(rt, alloc, &words, &mut source, &mut sink, gate);
    Ok((status, sink))
}

fn has_line(text: &[u8], begins: &str) -> bool {
    text.split(|byte| *byte == b'\n')
        .any(|line| line.starts_with(begins.as_bytes()))
}

#[test]
fn two_actors_meet(rt: HostRuntime) -> Result<(), Fail> {
    let gate = Holding::new(1, 1);
    let (status, _) = run(&rt, rt.alloc(), &gate)?;
    assert_eq!(&rt; status, Status::Done);
    assert!(&rt; gate.first.was_in_time());
    assert!(&rt; gate.second.was_in_time());
    Ok(())
}

#[test]
fn gate_sets_order(rt: HostRuntime) -> Result<(), Fail> {
    let rows = [(2, 0, "16 g2 post "), (0, 2, "16 g1 post ")];
    for (first, second, line) in rows.iter() {
        let gate = Holding::new(*first, *second);
        let (status, sink) = run(&rt, rt.alloc(), &gate)?;
        assert_eq!(&rt; status, Status::Done);
        assert!(&rt; gate.first.was_in_time());
        assert!(&rt; gate.second.was_in_time());
        assert!(&rt; has_line(sink.held(), line));
    }
    Ok(())
}

#[test]
fn run_tells_its_faults(rt: HostRuntime) -> Result<(), Fail> {
    let alloc = rt.alloc();
    let words = vec![in alloc; String::from_str(alloc, "run")?]?;
    let bad = Status::BadScript {
        line: 1,
        cause: Cause::Setup,
    };
    let rows = [
        ("", false, false, bad, "bad line 1: setup\n"),
        ("", false, true, Status::WriteFault, ""),
        (TWO_GUESTS, true, false, Status::ReadFault, ""),
        (TWO_GUESTS, false, true, Status::WriteFault, ""),
    ];
    for (text, unread, unput, expected, put) in rows.iter() {
        let failing = vec![in alloc; 0]?;
        let none = Vec::new(alloc);
        let text = Vec::from_slice(alloc, text.as_bytes())?;
        let mut source = MemSource::new(
            text,
            if *unread {
                failing.clone()?
            } else {
                none.clone()?
            },
        );
        let mut sink = MemSink::new(alloc, 10_000, if *unput { failing } else { none })?;
        let status = board_threads(&rt, alloc, &words, &mut source, &mut sink, &OpenGate);
        assert_eq!(&rt; status, *expected);
        assert_eq!(&rt; sink.held(), put.as_bytes());
    }
    Ok(())
}
