//! The queue over a list, as a plain program: what the queue was before its commands stood in a ring.
ghost use Rattle.std.specs.Prelude.{◌<◌, IfSome, vec_len};

use board_text::{Floors, Piece};
use group_calls::{RingCall, RingReply, Tag};
use std::alloc::{AllocError as NoMemory, Global};

// An outstanding command, and its completion once it has one.
#[derive(Drop)]
struct Command {
    seq: u64,
    bytes: Piece,
    writable: u32,
    tag: Tag,
    completion: Option<(Piece, u64)>,
}

fn first_bytes(bytes: &Piece, most: u32) -> Piece {
    let mut bytes = bytes.copy();
    bytes.truncate(most);
    bytes
}

#[derive(Drop)]
pub struct PlainQueue {
    most: usize,
    pub posted: u64,
    pub fetched: u64,
    pub completed: u64,
    floors: Option<Floors>,
    commands: Vec<Command>,
}

impl PlainQueue {
    pub fn new(alloc: Global, size: u16) -> PlainQueue {
        PlainQueue {
            most: usize::from(size / 2),
            posted: 0,
            fetched: 0,
            completed: 0,
            floors: None,
            commands: Vec::new(alloc),
        }
    }

    pub fn apply(&mut self, call: &RingCall) -> Result<RingReply, NoMemory> {
        match call {
            RingCall::Post {
                bytes,
                writable,
                tag,
            } => self.post(bytes, *writable, *tag),
            RingCall::Pop => Ok(self.pop()),
            RingCall::Complete { seq, bytes, floor } => Ok(self.complete(*seq, bytes, *floor)),
            RingCall::Take { seq } => Ok(self.take(*seq)),
            RingCall::Reset { floors } => {
                self.floors = Some(floors.copy());
                Ok(RingReply::ResetDone)
            }
        }
    }

    fn place(&self, seq: u64) -> Option<usize>
        ensures { IfSome result (λ place. place < vec_len self.now.commands) }
    {
        for place in 0..self.commands.len() {
            if self.commands[place].seq == seq {
                return Some(place);
            }
        }
        None
    }

    fn post(&mut self, bytes: &Piece, writable: u32, tag: Tag) -> Result<RingReply, NoMemory> {
        if let Some(floors) = &self.floors {
            let floor = floors.at(tag.guest);
            return Ok(RingReply::Closed { floor });
        }
        if self.commands.len() >= self.most {
            return Ok(RingReply::Full);
        }
        let seq = self.posted;
        self.commands.push(Command {
            seq,
            bytes: bytes.copy(),
            writable,
            tag,
            completion: None,
        })?;
        self.posted = seq.wrapping_add(1);
        Ok(RingReply::Seq(seq))
    }

    fn pop(&mut self) -> RingReply {
        if self.floors.is_some() {
            return RingReply::Empty;
        }
        if self.completed < self.fetched {
            return RingReply::InService {
                seq: self.completed,
            };
        }
        let Some(place) = self.place(self.fetched) else {
            return RingReply::Empty;
        };
        let command = &self.commands[place];
        let reply = RingReply::Fetched {
            seq: command.seq,
            bytes: command.bytes.copy(),
            writable: command.writable,
            tag: command.tag,
        };
        self.fetched = self.fetched.wrapping_add(1);
        reply
    }

    fn complete(&mut self, seq: u64, bytes: &Piece, floor: u64) -> RingReply {
        if self.floors.is_some() || seq != self.completed || self.completed >= self.fetched {
            return RingReply::Stale;
        }
        let Some(place) = self.place(seq) else {
            return RingReply::Stale;
        };
        self.commands[place].completion = Some((bytes.copy(), floor));
        self.completed = seq.wrapping_add(1);
        RingReply::Completed
    }

    fn take(&mut self, seq: u64) -> RingReply {
        let Some(place) = self.place(seq) else {
            return RingReply::Stale;
        };
        let command = &self.commands[place];
        let reply = match (&command.completion, &self.floors) {
            (Some((bytes, floor)), _) => RingReply::Ready {
                bytes: first_bytes(bytes, command.writable),
                floor: *floor,
            },
            (None, Some(floors)) => RingReply::Lost {
                floor: floors.at(command.tag.guest),
            },
            (None, None) => RingReply::NotYet,
        };
        if reply != RingReply::NotYet {
            let _ = self.commands.remove(place);
        }
        reply
    }
}
