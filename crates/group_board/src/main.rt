//! The program: administration commands of a device group, and scripts of guests, from the bytes that come in to the bytes
//! that go out.
//!
//! It stands on `admin_run`, `alone_run`, `board_run`, `load_run` and `thread_run` for what each command does, and on
//! `board_io` for the outside. Its main clauses are those of `board_once` and `board_threads`: what is put out for an input,
//! and when each status comes.
#![tactic(auto)]

mod commands;
mod laws;
mod output;
mod reading;
mod status;
#[cfg(test)]
mod tests;
#[cfg(test)]
mod thread_tests;
mod threads;
mod top;
#[cfg(test)]
mod wire_tests;
mod words;
mod writing;

use board_io::{OpenGate, StdSink, StdSource};
pub use laws::limits_are_the_definitions;
pub use script_words::Cause;
pub use status::{Status, code};
use std::io;
use std::process::ExitCode;
pub use threads::board_threads;
pub use top::{board, board_once};

// The words after the program's name.
fn own_words(rt: &HostRuntime) -> io::Result<Vec<String>> {
    let mut words = Vec::new(rt.alloc());
    for word in std::env::args(rt)?.skip(1) {
        words.push(word)?;
    }
    Ok(words)
}

// How the program ends where its words can't be had: one that isn't UTF-8 is no command.
fn wordless(fault: &io::Error) -> Status {
    match fault.kind() {
        io::ErrorKind::InvalidData => Status::Usage,
        _ => Status::NoMemory,
    }
}

// The line on standard error.
fn explain(status: &Status) -> &'static str {
    match status {
        Status::Done | Status::BadScript { .. } => "",
        Status::Usage => "group_board: usage\n",
        Status::NoMemory => "group_board: no memory\n",
        Status::ReadFault => "group_board: read fault\n",
        Status::WriteFault => "group_board: write fault\n",
        Status::TooLong => "group_board: input too long\n",
    }
}

fn main(rt: HostRuntime) -> ExitCode {
    let status = match own_words(&rt) {
        Ok(words) => {
            let mut source = StdSource::new(rt.reader());
            let mut sink = StdSink::new(io::writer(&rt));
            board(&rt, rt.alloc(), &words, &mut source, &mut sink, &OpenGate)
        }
        Err(fault) => wordless(&fault),
    };
    let _ = eprint!(rt; "{}", explain(&status));
    ExitCode::from(code(&status))
}
