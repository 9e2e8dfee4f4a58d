//! Memory and disk.
ghost use Rattle.std.specs.Prelude.{◌≡◌, ◌<◌, ◌≤◌, List, [], ◌∷◌, length, IfOk, OnOk, nat_lt, not, ◌&&◌, if◌then◌else◌};
ghost use Rattle.ring_layout.specs.Layout.{LiesIn};
ghost use Rattle.ring_layout.specs.Chain.{event_write, written};
ghost use Rattle.legacy_regs.specs.Registers.{queue_count};
ghost use Rattle.legacy_regs.specs.Interrupts.{queue_irq};
ghost use Rattle.group_calls.specs.MemberQueues.{receives as receives_of};
ghost use Rattle.group_calls.specs.declared.member.MemberMade.{MemberMade};
ghost use Rattle.group_calls.specs.Member.{IsMemberMade, fits as fits_of, mem_write_answer, mem_read_answer};
ghost use Rattle.group_calls.specs.Steps.{are_none, outcome_reply, interrupt};
ghost use Rattle.group_calls.specs.Storage.{sectors_of, memory_left, memory_then};
ghost use Rattle.group_calls.specs.Replay.{disk_left, disk_then};
ghost use Rattle.group_calls.specs.declared.lone.LoneItem.{LoneItem};
ghost use Rattle.group_calls.specs.Lone.{as_history, lone_reply};
ghost use Rattle.lone_device.specs.declared.service.Outcome.TheVariants.{Serves};
ghost use Rattle.lone_device.specs.Seen.{Stands, waiting, seen_facts};
ghost use Rattle.lone_device.specs.Service.{as_outcome, CanBeDone, IsUsable, disk_served, does, IsSized, Holds, FitsMemory};

use crate::entries::receives;
use crate::seen::Seen;
use crate::service::{Outcome, Service};
use blk_engine::{Disk, put};
use board_text::Bytes;
use group_calls::{
    Halt, Irq, Kind, LoneEvent, LoneItem, LoneReply, MemberCall, MemberMade, MemberReply, Why,
};
use guest_mem::{GuestMem, PAGE_SIZE};
use legacy_regs::MEMBER_RING_SIZE;
use ring_device::{put_event, put_used, scatter, wants_interrupt};
use ring_layout::{Layout, legacy};
use std::alloc::{AllocError as NoMemory, Global};

/// The memory and the disk of a device that was made so.
#[derive(Drop)]
pub(crate) struct Stored {
    pub(crate) alloc: Global,
    pub(crate) made: MemberMade,
    pub(crate) memory: GuestMem,
    pub(crate) disk: Disk,
}

// How many sectors the disk of a kind has.
fn sectors(kind: &Kind) -> u64
    ensures { result ≡ sectors_of kind.now }
{
    match kind {
        Kind::Block { sectors, .. } => *sectors,
        Kind::Net { .. } => 0,
    }
}

// Whether so many bytes from an address on lie in the memory.
fn fits(made: &MemberMade, addr: u64, count: u64) -> bool
    requires { IsMemberMade made.now }
    ensures { result ≡ fits_of made.now addr count }
{
    let length = u64::from(PAGE_SIZE) * u64::from(made.pages);
    count <= length && addr <= length - count
}

/// What is answered to a write of the memory, which outlives the device.
pub(crate) fn write_answer(made: &MemberMade, addr: u64, bytes: &Bytes) -> MemberReply
    requires { IsMemberMade made.now }
    ensures { result ≡ mem_write_answer made.now addr bytes.now }
{
    if fits(made, addr, bytes.as_slice().len() as u64) {
        MemberReply::Written
    } else {
        MemberReply::Refused(Why::Range)
    }
}

// Asks for a notification of the next position, where event indices are used (VIRTIO 1.3, 2.7.10).
fn ask_of_next(memory: &mut GuestMem, layout: &Layout, position: u16, event: bool)
    requires { LiesIn (length memory.old) layout.now }
    ensures written { memory.new ≡ written (if event then event_write layout.now position ∷ [] else []) memory.old }
    ensures length { length memory.new ≡ length memory.old }
{
    if event {
        put_event(memory, layout, position);
    }
}

impl Stored {
    /// Zeros. `NoMemory` where they can't be had.
    pub(crate) fn new(alloc: Global, made: MemberMade) -> Result<Stored, NoMemory>
        requires { IsMemberMade made }
        ensures sized { IfOk result IsSized }
        ensures holds { IfOk result (λ stored. Holds made stored []) }
    {
        let memory = GuestMem::new(alloc, made.pages)?;
        let disk = Disk::new(alloc, sectors(&made.kind))?;
        Ok(Stored {
            alloc,
            made,
            memory,
            disk,
        })
    }

    /// What is answered to a read of the memory, which outlives the device.
    pub(crate) fn read_answer(&self, addr: u64, count: u32) -> Result<MemberReply, NoMemory>
        requires { IsSized self.now }
        ensures { IfOk result (λ told. told ≡ mem_read_answer self.now.made self.now.memory addr count) }
    {
        let count = u64::from(count);
        if !fits(&self.made, addr, count) {
            return Ok(MemberReply::Refused(Why::Range));
        }
        let bytes = Bytes::from_slice(self.alloc, self.memory.part(addr, count))?;
        Ok(MemberReply::Data(bytes))
    }

    // Whether the queue doesn't exist, or isn't pending.
    fn is_idle(&self, seen: &Seen, queue: u16) -> bool
        requires { seen.now.regs.kind ≡ self.now.made.kind }
        ensures { result ≡ not (nat_lt queue (queue_count self.now.made.kind) && (seen_facts seen.now).pending queue) }
    {
        let pending = seen.queue(queue).is_pending();
        !(queue < seen.regs.queues() && pending)
    }

    // Whether the queue takes frames, and none waits.
    fn lacks_frame(&self, seen: &Seen, queue: u16) -> bool
        ensures { result ≡ (receives_of self.now.made.kind queue && are_none (waiting seen.now.frames)) }
    {
        receives(&self.made.kind, queue) && seen.frames.count() == 0
    }

    // What a step of a queue does. The first of these that applies: the queue doesn't exist or isn't pending; it receives, and
    // no frame waits; it has no ring; its ring decides.
    fn outcome(&self, seen: &Seen, queue: u16) -> Result<Outcome, NoMemory>
        requires sized { IsSized self.now }
        requires kind { seen.now.regs.kind ≡ self.now.made.kind }
        ensures told { IfOk result (λ outcome. as_outcome self.now.memory self.now.disk (seen_facts seen.now) queue outcome ≡ does self.now seen.now queue) }
        ensures ready { IfOk result (CanBeDone self.now.memory self.now.disk ((seen_facts seen.now).position queue)) }
    {
        if self.is_idle(seen, queue) {
            return Ok(Outcome::Stops(MemberReply::NotPending));
        }
        if self.lacks_frame(seen, queue) {
            return Ok(Outcome::Stops(MemberReply::Empty));
        }
        match legacy(
            seen.regs.address(queue),
            MEMBER_RING_SIZE,
            self.memory.length(),
        ) {
            Some(layout) => self.ring_step(seen, queue, layout),
            None => Ok(Outcome::Stops(MemberReply::Halted(Halt::Ring))),
        }
    }

    // Puts a service's reply into its chain and the chain into the used ring at the queue's position (VIRTIO 1.3, 2.7.8),
    // asks for a notification of the next position where event indices are used, and tells the disk.
    fn put(&mut self, seen: &Seen, queue: u16, service: &Service)
        requires { IsUsable self.old.memory self.old.disk ((seen_facts seen.now).position queue) service.now }
        ensures memory { self.new.memory
            ≡ memory_left self.old.memory (as_outcome self.old.memory self.old.disk (seen_facts seen.now) queue (Serves service.now)) }
        ensures disk { self.new.disk ≡ disk_served service.now self.old.disk }
        ensures made { self.new.made ≡ self.old.made }
        ensures length { length self.new.memory ≡ length self.old.memory }
    {
        let writable = service.chain.writable();
        prove!(writable < 134_217_728);
        let count = service.reply.as_slice().len() as u32;
        let position = seen.queue(queue).position;
        let head = service.chain.head();
        scatter(&mut self.memory, &service.chain, &service.reply);
        put_used(&mut self.memory, &service.layout, position, head, count);
        ask_of_next(
            &mut self.memory,
            &service.layout,
            position,
            seen.regs.uses_events(),
        );
        if let Some(request) = &service.request {
            put(&mut self.disk, request.put_at, &request.bytes);
        }
    }

    // After a call and its reply.
    fn note_call(
        &mut self,
        seen: &Seen,
        call: &MemberCall,
        reply: &MemberReply,
    ) -> Result<(), NoMemory>
        requires sized { IsSized self.old }
        requires kind { seen.now.regs.kind ≡ self.old.made.kind }
        ensures memory { FitsMemory self.old.made call.now reply.now → OnOk result (self.new.memory ≡ memory_then (does self.old seen.now) self.old.memory call.now reply.now) }
        ensures disk { OnOk result (self.new.disk ≡ disk_then (does self.old seen.now) self.old.disk call.now reply.now) }
        ensures made { OnOk result (self.new.made ≡ self.old.made) }
        ensures sized { OnOk result (IsSized self.new) }
    {
        match (call, reply) {
            (MemberCall::MemWrite { addr, bytes }, _) => {
                let bytes = bytes.as_slice();
                if fits(&self.made, *addr, bytes.len() as u64) {
                    self.memory.write(*addr, bytes);
                }
            }
            (MemberCall::Step { queue }, MemberReply::Served { .. }) => {
                if let Outcome::Serves(service) = self.outcome(seen, *queue)? {
                    self.put(seen, *queue, &service);
                }
            }
            _ => {}
        }
        Ok(())
    }

    /// After an event with its reply, before which this was seen. A register access changes neither memory nor disk.
    pub(crate) fn note(&mut self, seen: &Seen, item: &LoneItem) -> Result<(), NoMemory>
        requires sized { IsSized self.old }
        requires kind { seen.now.regs.kind ≡ self.old.made.kind }
        ensures holds { (made : MemberMade) (items : List LoneItem) → Stands made seen.now (as_history made items) → Holds made self.old (as_history made items)
            → item.now.reply ≡ lone_reply made items item.now.event → OnOk result (Holds made self.new (as_history made (item.now ∷ items))) }
        ensures made { OnOk result (self.new.made ≡ self.old.made) }
        ensures sized { OnOk result (IsSized self.new) }
    {
        match (&item.event, &item.reply) {
            (LoneEvent::Read { .. }, _) => Ok(()),
            (LoneEvent::Write { .. }, _) => Ok(()),
            (LoneEvent::Other(call), LoneReply::Other(reply)) => self.note_call(seen, call, reply),
            (LoneEvent::Other(_), _) => Ok(()),
        }
    }

    // The reply of a service, whose interrupt is raised where the guest wants one for the queue's position (VIRTIO 1.3,
    // 2.7.7).
    fn served(&self, seen: &mut Seen, queue: u16, service: Service) -> MemberReply
        requires { IsUsable self.now.memory self.now.disk ((seen_facts seen.old).position queue) service }
        ensures { result ≡ MemberReply.Served (length service.reply) (interrupt self.now.memory (seen_facts seen.old) queue service.layout) service.sent }
    {
        let writable = service.chain.writable();
        prove!(writable < 134_217_728);
        let length = service.reply.as_slice().len() as u32;
        let position = seen.queue(queue).position;
        let event = seen.regs.uses_events();
        let irq = if wants_interrupt(&self.memory, &service.layout, position, event) {
            seen.regs.raise(queue)
        } else {
            Irq::Silent
        };
        MemberReply::Served {
            length,
            irq,
            sent: service.sent,
        }
    }

    /// What is answered to a step.
    pub(crate) fn step_answer(&self, seen: &mut Seen, queue: u16) -> Result<MemberReply, NoMemory>
        requires sized { IsSized self.now }
        requires kind { seen.old.regs.kind ≡ self.now.made.kind }
        ensures { IfOk result (λ told. told ≡ outcome_reply (does self.now seen.old queue)) }
    {
        match self.outcome(seen, queue)? {
            Outcome::Stops(reply) => Ok(reply),
            Outcome::Serves(service) => Ok(self.served(seen, queue, service)),
        }
    }
}
