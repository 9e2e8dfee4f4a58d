//! What was planned is done. Nothing here takes memory.
ghost use Rattle.std.specs.Prelude.{◌≡◌, ◌≤◌, Bool, if◌then◌else◌, length};
ghost use Rattle.ring_layout.specs.Layout.{LiesIn};
ghost use Rattle.ring_layout.specs.Chain.{total_length, writable_part, written};
ghost use Rattle.blk_engine.specs.Block.{stored, HasRoomAt};
ghost use Rattle.legacy_regs.specs.Registers.{uses_events};
ghost use Rattle.legacy_regs.specs.Interrupts.{queue_irq};
ghost use Rattle.group_calls.specs.Steps.{interrupt, outcome_reply};
ghost use Rattle.member_device.specs.Device.{left_by_step};
ghost use Rattle.member_device.specs.Plan.{planned, facts_of, event_writes_if, put_back, raised_by};
ghost use Rattle.member_device.specs.Plan.{IsPlace, IsReady, IsUsable};

use crate::answer::Answer;
use crate::device::Device;
use crate::plan::{Place, Plan};
use board_text::Bytes;
use group_calls::{Irq, MemberReply};
use ring_device::{put_event, put_used, scatter, wants_interrupt};
use ring_layout::Layout;

/// A chain that was used.
struct Used {
    /// How many bytes were put into it.
    length: u32,
    irq: Irq,
}

impl Used {
    /// The reply of the service, with the frame that is sent, once to be told and once to be kept.
    fn answer(self, sent: Bytes, sent_again: Bytes) -> Answer
        requires { sent_again ≡ sent }
        ensures told { result.told ≡ MemberReply.Served self.length self.irq sent }
        ensures kept { result.kept ≡ result.told }
    {
        let Used { length, irq } = self;
        Answer {
            told: MemberReply::Served { length, irq, sent },
            kept: MemberReply::Served {
                length,
                irq,
                sent: sent_again,
            },
        }
    }
}

impl Device {
    /// Does what was planned for a queue that stands at a position.
    pub(crate) fn perform(&mut self, position: u16, queue: u16, plan: Plan) -> Answer
        requires { IsReady self.old queue position plan }
        ensures told { (pending : Bool) → result.told ≡ outcome_reply (planned self.old (facts_of self.old position pending) queue plan) }
        ensures kept { result.kept ≡ result.told }
        ensures left { (pending : Bool) → self.new ≡ left_by_step queue (planned self.old (facts_of self.old position pending) queue plan) self.old }
    {
        match plan {
            Plan::NotPending => Answer::not_pending(),
            Plan::Empty => Answer::empty(),
            Plan::Halted(halt) => Answer::halted(halt),
            Plan::Drops => {
                self.drop_first();
                Answer::dropped()
            }
            Plan::Answers {
                place,
                put_at,
                request,
                reply,
            } => {
                let used = self.use_chain(position, queue, &place, &reply);
                self.store(put_at, &request);
                used.answer(Bytes::new(self.alloc), Bytes::new(self.alloc))
            }
            Plan::Receives { place, reply } => {
                let used = self.use_chain(position, queue, &place, &reply);
                self.drop_first();
                used.answer(Bytes::new(self.alloc), Bytes::new(self.alloc))
            }
            Plan::Transmits {
                place,
                sent,
                sent_again,
            } => {
                let nothing = Bytes::new(self.alloc);
                let used = self.use_chain(position, queue, &place, &nothing);
                used.answer(sent, sent_again)
            }
        }
    }

    /// Uses a chain: the reply goes into its writable buffers and the chain into the used ring (VIRTIO 1.3, 2.7.8);
    /// then, where event indices are used, the next position behind that ring (2.7.10). Then the interrupt is raised,
    /// where the guest wants one for this position (2.7.7).
    fn use_chain(&mut self, position: u16, queue: u16, place: &Place, reply: &Bytes) -> Used
        requires { IsUsable self.old.memory position place.now reply.now }
        ensures length { result.length ≡ length reply.now }
        ensures irq { (pending : Bool) → result.irq ≡ interrupt self.old.memory (facts_of self.old position pending) queue place.now.layout }
        ensures left { self.new ≡ record self.old {
          registers = raised_by result.irq self.old.registers;
          memory = put_back (uses_events self.old.registers) self.old.memory position place.now reply.now;
        } }
    {
        let events = self.regs.uses_events();
        let wants = wants_interrupt(&self.memory, &place.layout, position, events);
        let length = self.put(position, place, reply, events);
        let irq = self.interrupt(queue, wants);
        Used { length, irq }
    }

    /// Puts a reply into a chain, the chain into the used ring, and where event indices are used the next position
    /// behind that ring. Says how many bytes the reply has.
    fn put(&mut self, position: u16, place: &Place, reply: &Bytes, events: bool) -> u32
        requires place { IsPlace self.old.memory position place.now }
        requires fits { length reply.now ≤ total_length (writable_part place.now.chain.parts) }
        ensures length { result ≡ length reply.now }
        ensures left { self.new ≡ record self.old {
          memory = put_back events self.old.memory position place.now reply.now;
        } }
    {
        let limit = place.chain.writable();
        prove!(limit < 134_217_728);
        let length = reply.as_slice().len() as u32;
        scatter(&mut self.memory, &place.chain, reply);
        let head = place.chain.head();
        put_used(&mut self.memory, &place.layout, position, head, length);
        self.name_next(position, &place.layout, events);
        length
    }

    /// Names the next position as the one to notify of, where event indices are used (VIRTIO 1.3, 2.7.10).
    fn name_next(&mut self, position: u16, layout: &Layout, events: bool)
        requires { LiesIn (length self.old.memory) layout.now }
        ensures { self.new ≡ record self.old {
          memory = written (event_writes_if events position layout.now) self.old.memory;
        } }
    {
        if events {
            put_event(&mut self.memory, layout, position);
        }
    }

    /// Puts the data of a request onto the disk at this sector, or nowhere.
    fn store(&mut self, put_at: Option<u64>, request: &Bytes)
        requires { HasRoomAt put_at request.now self.old.disk }
        ensures { self.new ≡ record self.old { disk = stored put_at request.now self.old.disk } }
    {
        blk_engine::put(&mut self.disk, put_at, request);
    }

    /// Raises the queue's interrupt, where the guest wants one.
    fn interrupt(&mut self, queue: u16, wants: bool) -> Irq
        ensures irq { result ≡ (if wants then queue_irq self.old.registers queue else Irq.Silent) }
        ensures left { self.new ≡ record self.old { registers = raised_by result self.old.registers } }
    {
        if wants {
            self.regs.raise(queue)
        } else {
            Irq::Silent
        }
    }
}
