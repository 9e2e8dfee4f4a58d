//! The administration queue.
ghost use Rattle.std.specs.Prelude.{◌≡◌, ◌≤◌, ◌<◌, ◌^◌, ◌+◌, ◌*◌, ◌/◌, ◌%◌, [], ◌∷◌, true, false, ℕ, List, length, IsTrue, IsOk, IfOk, OnErr, OnOk, Option, Some};
ghost use Rattle.group_calls.specs.declared.queue.RingCall.{RingCall};
ghost use Rattle.group_calls.specs.declared.queue.RingCall.TheVariants.{Post, Pop, Complete, Take, Reset};
ghost use Rattle.group_calls.specs.declared.queue.RingReply.TheVariants.{NotYet};
ghost use Rattle.history.specs.Legal.{IsAnswered};
ghost use Rattle.history.specs.Limits.{history_limit, actor_limit};
ghost use Rattle.group_calls.specs.Limits.{writable_limit};
ghost use Rattle.group_calls.specs.Queue.{IsQueueSize, pop_answer, take_answer, queue_answer, queue_may, queue_spares, is_quiet_reply};
ghost use Rattle.ring_layout.specs.Chain.{index_modulus};
ghost use Rattle.slab.specs.Slab.{slab_len};
ghost use Rattle.admin_ring.specs.Host.{IsHost, slot_count};
ghost use Rattle.admin_ring.specs.Slots.{slot_in};
ghost use Rattle.admin_ring.specs.Kept.{taken_answer, owed};
ghost use Rattle.admin_ring.specs.Bytes.{IsNote};

use crate::host::Host;
use crate::table::{Note, Table};
use board_text::{Floors, Piece};
use group_calls::{Entry, HISTORY_LIMIT, Log, Placed, RingCall, RingReply, Serial, Tag};
use std::alloc::{AllocError as NoMemory, Global};
use std::marker::Model;

// Positions in either ring run modulo this (VIRTIO 1.3, 2.7.6 and 2.7.8).
const INDEX_MODULUS: u64 = 65_536;

/// An administration queue of 4 to 256 entries, of which half as many commands are outstanding at most, since each takes
/// two descriptors. Its commands stand in a split ring in the host's memory. Contracts see its size and its history, the
/// latest entry first.
#[derive(Drop)]
pub struct AdminRing {
    size: u16,
    alloc: Global,
    posted: u64,
    fetched: u64,
    completed: u64,
    floors: Option<Floors>,
    host: Host,
    table: Table,
    log: Log<RingCall, RingReply>,
}

impl Model for AdminRing {
    ghost use Rattle.std.specs.Prelude.{ℕ};
    ghost use Rattle.group_calls.specs.declared.queue.RingCall.{RingCall};
    ghost use Rattle.group_calls.specs.declared.queue.RingReply.{RingReply};
    ghost use Rattle.history.specs.Legal.{Cell};

    ghost Value = { Cell ℕ RingCall RingReply };

    ghost use Rattle.admin_ring.specs.Bytes.{IsQueue};

    ghost view = { λ r. record { made = r.size; history = r.log.entries } };

    ghost invariant = { λ r. IsQueue r.size r.posted r.fetched r.completed r.floors r.host r.table r.log };
}

/// A reply at a place of the history.
fn answered(at: u64, reply: RingReply) -> Placed<RingReply>
    ensures { result ≡ record { at = at; reply = reply } }
{
    Placed { at, reply }
}

/// The position of the chain before which so many went.
fn position(count: u64) -> u16
    ensures { result ≡ count % index_modulus }
{
    (count % INDEX_MODULUS) as u16
}

/// The entries that the commands may still leave.
fn owed(posted: u64, fetched: u64, completed: u64, table: &Table) -> u64
    requires fetched { fetched ≤ posted }
    requires completed { completed ≤ posted }
    requires most { owed posted fetched completed (slab_len table.now) ≤ history_limit }
    ensures { result ≡ owed posted fetched completed (slab_len table.now) }
{
    (posted - fetched) + (posted - completed) + table.len() as u64
}

/// Whether the command of a note may still be completed.
fn is_due(note: &Note, floors: &Option<Floors>) -> bool
    ensures due { result ≡ true → (mem : List ℕ) (slots key : ℕ) → taken_answer floors.now (Some (slot_in mem slots key note.now)) ≡ NotYet }
    ensures settled { result ≡ false → (mem : List ℕ) (slots key : ℕ) → is_quiet_reply (taken_answer floors.now (Some (slot_in mem slots key note.now))) ≡ false }
{
    note.answer.is_none() && floors.is_none()
}

/// The answer to a Take of the command in a slot.
fn taken(host: &Host, key: usize, note: Note, floors: &Option<Floors>) -> RingReply
    requires host { IsHost host.now }
    requires note { IsNote (slot_count host.now) key note }
    ensures { result ≡ taken_answer floors.now (Some (slot_in host.now.mem host.now.slots key note)) }
{
    match (note.answer, floors) {
        (Some((count, floor)), _) => RingReply::Ready {
            bytes: note.answer_room.fill(host.answer(key, count)),
            floor,
        },
        (None, Some(floors)) => RingReply::Lost {
            floor: floors.at(note.tag.guest),
        },
        (None, None) => RingReply::NotYet,
    }
}

impl AdminRing {
    /// A queue of this many entries, a power of two from 4 to 256, without history. It takes the memory for as many
    /// commands as may be outstanding: half as many.
    pub fn new(alloc: Global, size: u16) -> Result<AdminRing, NoMemory>
        requires { IsQueueSize size }
        ensures made { IfOk result (λ ring. ring.made ≡ size) }
        ensures empty { IfOk result (λ ring. ring.history ≡ []) }
    {
        Ok(AdminRing {
            size,
            alloc,
            posted: 0,
            fetched: 0,
            completed: 0,
            floors: None,
            host: Host::new(alloc, size)?,
            table: Table::with_capacity(alloc, usize::from(size / 2))?,
            log: Log::new(alloc),
        })
    }

    /// Asks for room for so many calls more, so that the history is moved less often as it grows. It promises none: a
    /// later call may still be answered `NoMemory`. Contracts see the queue as it was, whatever the answer is.
    pub fn reserve(&mut self, calls: u64) -> Result<(), NoMemory>
        ensures { self.new ≡ self.old }
    {
        self.log.reserve(calls)
    }

    fn post(
        &mut self,
        who: u32,
        bytes: &Piece,
        writable: u32,
        tag: Tag,
    ) -> Result<Placed<RingReply>, NoMemory>
        requires who { who < actor_limit }
        requires writable { writable ≤ writable_limit }
        ensures answered { IfOk result (IsAnswered (queue_answer self.old.made) is_quiet_reply self.old.history self.new.history who (Post bytes.now writable tag)) }
        ensures quiet { IfOk result (λ placed. is_quiet_reply placed.reply ≡ true → self.new ≡ self.old) }
        ensures made { self.new.made ≡ self.old.made }
        ensures err { OnErr result (self.new ≡ self.old) }
        ensures spares { queue_spares self.old.made self.old.history (Post bytes.now writable tag) → IsOk result }
        ensures most { length self.new.history ≤ history_limit }
    {
        let at = self.log.length();
        if let Some(floors) = &self.floors {
            let floor = floors.at(tag.guest);
            return Ok(answered(at, RingReply::Closed { floor }));
        }
        if self.table.len() >= usize::from(self.size / 2) {
            return Ok(answered(at, RingReply::Full));
        }
        let more = owed(self.posted, self.fetched, self.completed, &self.table) + 4;
        if more > HISTORY_LIMIT - at {
            return Err(NoMemory);
        }
        let seq = self.posted;
        let command = bytes.as_slice();
        let note = Note::new(self.alloc, seq, command.len() as u32, writable, tag)?;
        self.log.reserve(more)?;
        let key = self.table.insert(note)?;
        self.host.post(key, command, writable);
        self.log.put(Entry {
            who,
            call: RingCall::Post {
                bytes: bytes.copy(),
                writable,
                tag,
            },
            reply: RingReply::Seq(seq),
        });
        self.posted = seq + 1;
        Ok(answered(at, RingReply::Seq(seq)))
    }

    // This never fails, as `complete` and `take` never do; their results are made where `apply` wants them.
    fn pop(&mut self, who: u32) -> Result<Placed<RingReply>, NoMemory>
        requires { who < actor_limit }
        ensures answered { IfOk result (IsAnswered (queue_answer self.old.made) is_quiet_reply self.old.history self.new.history who Pop) }
        ensures quiet { IfOk result (λ placed. is_quiet_reply placed.reply ≡ true → self.new ≡ self.old) }
        ensures made { self.new.made ≡ self.old.made }
        ensures spares { IsOk result }
        ensures most { length self.new.history ≤ history_limit }
    {
        let at = self.log.length();
        let None = &self.floors else {
            return Ok(answered(at, RingReply::Empty));
        };
        if self.host.serving.is_some() {
            let seq = self.completed;
            return Ok(answered(at, RingReply::InService { seq }));
        }
        let Some(chain) = self.host.fetch(position(self.fetched)) else {
            return Ok(answered(at, RingReply::Empty));
        };
        let (key, bytes) = self.host.command(&chain);
        let (tag, room) = self.table.fetch(key);
        let reply = RingReply::Fetched {
            seq: self.fetched,
            bytes: room.fill(bytes),
            writable: chain.writable.len,
            tag,
        };
        self.log.put(Entry {
            who,
            call: RingCall::Pop,
            reply: reply.copy(),
        });
        self.fetched += 1;
        Ok(answered(at, reply))
    }

    fn complete(
        &mut self,
        who: u32,
        seq: u64,
        bytes: &Piece,
        floor: u64,
    ) -> Result<Placed<RingReply>, NoMemory>
        requires { who < actor_limit }
        ensures answered { IfOk result (IsAnswered (queue_answer self.old.made) is_quiet_reply self.old.history self.new.history who (Complete seq bytes.now floor)) }
        ensures quiet { IfOk result (λ placed. is_quiet_reply placed.reply ≡ true → self.new ≡ self.old) }
        ensures made { self.new.made ≡ self.old.made }
        ensures spares { IsOk result }
        ensures most { length self.new.history ≤ history_limit }
    {
        let at = self.log.length();
        let None = &self.floors else {
            return Ok(answered(at, RingReply::Stale));
        };
        let Some(chain) = self.host.serving else {
            return Ok(answered(at, RingReply::Stale));
        };
        if seq != self.completed {
            return Ok(answered(at, RingReply::Stale));
        }
        let (key, count) = self.host.complete(position(seq), chain, bytes.as_slice());
        self.table.answer(key, count, floor);
        self.log.put(Entry {
            who,
            call: RingCall::Complete {
                seq,
                bytes: bytes.copy(),
                floor,
            },
            reply: RingReply::Completed,
        });
        self.completed = seq + 1;
        Ok(answered(at, RingReply::Completed))
    }

    fn take(&mut self, who: u32, seq: u64) -> Result<Placed<RingReply>, NoMemory>
        requires { who < actor_limit }
        ensures answered { IfOk result (IsAnswered (queue_answer self.old.made) is_quiet_reply self.old.history self.new.history who (Take seq)) }
        ensures quiet { IfOk result (λ placed. is_quiet_reply placed.reply ≡ true → self.new ≡ self.old) }
        ensures made { self.new.made ≡ self.old.made }
        ensures spares { IsOk result }
        ensures most { length self.new.history ≤ history_limit }
    {
        let at = self.log.length();
        let Some(key) = self.table.find(seq) else {
            return Ok(answered(at, RingReply::Stale));
        };
        let Some(note) = self.table.get(key) else {
            unreachable!();
        };
        if is_due(note, &self.floors) {
            return Ok(answered(at, RingReply::NotYet));
        }
        let note = self.table.remove(key);
        let reply = taken(&self.host, key, note, &self.floors);
        self.log.put(Entry {
            who,
            call: RingCall::Take { seq },
            reply: reply.copy(),
        });
        Ok(answered(at, reply))
    }

    fn reset(&mut self, who: u32, floors: &Floors) -> Result<Placed<RingReply>, NoMemory>
        requires { who < actor_limit }
        ensures answered { IfOk result (IsAnswered (queue_answer self.old.made) is_quiet_reply self.old.history self.new.history who (Reset floors.now)) }
        ensures quiet { IfOk result (λ placed. is_quiet_reply placed.reply ≡ true → self.new ≡ self.old) }
        ensures made { self.new.made ≡ self.old.made }
        ensures err { OnErr result (self.new ≡ self.old) }
        ensures most { length self.new.history ≤ history_limit }
    {
        let at = self.log.length();
        let more = owed(self.posted, self.fetched, self.completed, &self.table) + 1;
        if more > HISTORY_LIMIT - at {
            return Err(NoMemory);
        }
        self.log.reserve(more)?;
        self.log.put(Entry {
            who,
            call: RingCall::Reset {
                floors: floors.copy(),
            },
            reply: RingReply::ResetDone,
        });
        self.floors = Some(floors.copy());
        Ok(answered(at, RingReply::ResetDone))
    }
}

impl Serial for AdminRing {
    type Call = RingCall;

    type Reply = RingReply;

    type Made = u16;

    ghost made = { λ r. r.made };

    ghost history = { λ r. r.history };

    ghost answer = { queue_answer };

    ghost is_quiet = { is_quiet_reply };

    ghost may_call = { queue_may };

    ghost spares = { queue_spares };

    fn apply(&mut self, who: u32, call: &RingCall) -> Result<Placed<RingReply>, NoMemory> {
        match call {
            RingCall::Post {
                bytes,
                writable,
                tag,
            } => self.post(who, bytes, *writable, *tag),
            RingCall::Pop => self.pop(who),
            RingCall::Complete { seq, bytes, floor } => self.complete(who, *seq, bytes, *floor),
            RingCall::Take { seq } => self.take(who, *seq),
            RingCall::Reset { floors } => self.reset(who, floors),
        }
    }

    fn length(&self) -> u64 {
        self.log.length()
    }

    fn entry(&self, at: u64) -> &Entry<RingCall, RingReply> {
        self.log.entry(at)
    }
}
