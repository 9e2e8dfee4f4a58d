//! What a step does with a chain.
ghost use Rattle.std.specs.Prelude.{◌≡◌, ◌<◌, ◌≤◌, ℕ, List, length, IfOk};
ghost use Rattle.ring_layout.specs.Layout.{LiesIn};
ghost use Rattle.ring_layout.specs.Chain.{found, available};
ghost use Rattle.ring_device.specs.Buffers.{LieIn};
ghost use Rattle.net_engine.specs.Frames.{transmitted};
ghost use Rattle.legacy_regs.specs.Registers.{uses_tables};
ghost use Rattle.group_calls.specs.Facts.{Facts};
ghost use Rattle.group_calls.specs.Steps.{block_step, receive_step, transmit_step, chain_step, found_step, frame_or_nothing};
ghost use Rattle.lone_device.specs.Seen.{waiting, seen_facts};
ghost use Rattle.lone_device.specs.Service.{as_outcome, CanBeDone, IsSized};

use crate::frames::Frames;
use crate::seen::Seen;
use crate::service::{Outcome, Request, Service};
use crate::stored::Stored;
use blk_engine::{BlkAnswer, BlkPlan};
use board_text::Bytes;
use group_calls::{Halt, Kind, MemberReply};
use net_engine::transmit;
use ring_device::{Bad, Chain, Found, gather, next_chain};
use ring_layout::Layout;
use std::alloc::{AllocError as NoMemory, Global};

// The frame that the guest sends with these bytes, or no byte.
fn frame_of(alloc: Global, bytes: &Bytes) -> Result<Bytes, NoMemory>
    ensures { IfOk result (λ sent. sent ≡ frame_or_nothing (transmitted bytes.now)) }
{
    Ok(match transmit(alloc, bytes)? {
        Some(frame) => frame,
        None => Bytes::new(alloc),
    })
}

impl Stored {
    // A request of a block device (VIRTIO 1.3, 5.2.6).
    fn block_step(&self, read_only: bool, layout: Layout, chain: Chain) -> Result<Outcome, NoMemory>
        requires sized { IsSized self.now }
        requires ring { LiesIn (length self.now.memory) layout }
        requires inside { LieIn (length self.now.memory) chain.parts }
        ensures told { (f : Facts) (q : ℕ) → IfOk result (λ outcome. as_outcome self.now.memory self.now.disk f q outcome
            ≡ block_step self.now.made read_only self.now.memory self.now.disk f q layout chain.parts) }
        ensures ready { (position : ℕ) → chain.head ≡ available self.now.memory layout position → IfOk result (CanBeDone self.now.memory self.now.disk position) }
    {
        let bytes = gather(self.alloc, &self.memory, &chain)?;
        let writable = chain.writable();
        let id = self.made.id;
        let BlkPlan { answer, put_at } = blk_engine::plan(
            self.alloc, &self.disk, id, read_only, &bytes, writable,
        )?;
        match answer {
            BlkAnswer::Reply(reply) => Ok(Outcome::Serves(Service {
                layout,
                chain,
                reply,
                request: Some(Request { put_at, bytes }),
                sent: Bytes::new(self.alloc),
            })),
            BlkAnswer::Malformed => Ok(Outcome::Stops(MemberReply::Halted(Halt::Request))),
        }
    }

    // The first frame that waits, behind its header (VIRTIO 1.3, 5.1.6.4).
    fn receive_step(
        &self,
        frames: &Frames,
        layout: Layout,
        chain: Chain,
    ) -> Result<Outcome, NoMemory>
        requires ring { LiesIn (length self.now.memory) layout }
        requires inside { LieIn (length self.now.memory) chain.parts }
        ensures told { (f : Facts) (q : ℕ) → IfOk result (λ outcome. as_outcome self.now.memory self.now.disk f q outcome
            ≡ receive_step self.now.memory self.now.disk f q layout chain.parts (waiting frames.now)) }
        ensures ready { (position : ℕ) → chain.head ≡ available self.now.memory layout position → IfOk result (CanBeDone self.now.memory self.now.disk position) }
    {
        if frames.count() == 0 {
            return Ok(Outcome::Stops(MemberReply::Empty));
        }
        let reply = frames.front_with_header(self.alloc)?;
        if chain.writable() < reply.as_slice().len() as u64 {
            return Ok(Outcome::Stops(MemberReply::Dropped));
        }
        Ok(Outcome::Serves(Service {
            layout,
            chain,
            reply,
            request: None,
            sent: Bytes::new(self.alloc),
        }))
    }

    // What the guest gave is sent, if it is a frame behind a header (VIRTIO 1.3, 5.1.6.2).
    fn transmit_step(&self, layout: Layout, chain: Chain) -> Result<Outcome, NoMemory>
        requires ring { LiesIn (length self.now.memory) layout }
        requires inside { LieIn (length self.now.memory) chain.parts }
        ensures told { (f : Facts) (q : ℕ) → IfOk result (λ outcome. as_outcome self.now.memory self.now.disk f q outcome
            ≡ transmit_step self.now.memory self.now.disk f q layout chain.parts) }
        ensures ready { (position : ℕ) → chain.head ≡ available self.now.memory layout position → IfOk result (CanBeDone self.now.memory self.now.disk position) }
    {
        let bytes = gather(self.alloc, &self.memory, &chain)?;
        let sent = frame_of(self.alloc, &bytes)?;
        Ok(Outcome::Serves(Service {
            layout,
            chain,
            reply: Bytes::new(self.alloc),
            request: None,
            sent,
        }))
    }

    // A chain of a queue, by the kind of the device.
    fn chain_step(
        &self,
        seen: &Seen,
        queue: u16,
        layout: Layout,
        chain: Chain,
    ) -> Result<Outcome, NoMemory>
        requires sized { IsSized self.now }
        requires ring { LiesIn (length self.now.memory) layout }
        requires inside { LieIn (length self.now.memory) chain.parts }
        ensures told { IfOk result (λ outcome. as_outcome self.now.memory self.now.disk (seen_facts seen.now) queue outcome
            ≡ chain_step self.now.made self.now.made.kind self.now.memory self.now.disk (seen_facts seen.now) queue layout chain.parts) }
        ensures ready { (position : ℕ) → chain.head ≡ available self.now.memory layout position → IfOk result (CanBeDone self.now.memory self.now.disk position) }
    {
        match &self.made.kind {
            Kind::Block { read_only, .. } => self.block_step(*read_only, layout, chain),
            Kind::Net { .. } if queue == 0 => self.receive_step(&seen.frames, layout, chain),
            Kind::Net { .. } => self.transmit_step(layout, chain),
        }
    }

    /// What stands at the queue's position in its ring (VIRTIO 1.3, 2.7.5 and 2.7.6). A chain may have a table of
    /// descriptors where the driver accepted these (2.7.5.3).
    pub(crate) fn ring_step(
        &self,
        seen: &Seen,
        queue: u16,
        layout: Layout,
    ) -> Result<Outcome, NoMemory>
        requires sized { IsSized self.now }
        requires ring { LiesIn (length self.now.memory) layout }
        ensures told { IfOk result (λ outcome. as_outcome self.now.memory self.now.disk (seen_facts seen.now) queue outcome
            ≡ found_step self.now.made self.now.memory self.now.disk (seen_facts seen.now) queue layout
            (found (uses_tables seen.now.regs.registers) self.now.memory layout ((seen_facts seen.now).position queue))) }
        ensures ready { IfOk result (CanBeDone self.now.memory self.now.disk ((seen_facts seen.now).position queue)) }
    {
        let position = seen.queue(queue).position;
        let indirect = seen.regs.uses_tables();
        match next_chain(self.alloc, &self.memory, &layout, position, indirect)? {
            Found::Chain(chain) => self.chain_step(seen, queue, layout, chain),
            Found::Empty => Ok(Outcome::Stops(MemberReply::Empty)),
            Found::Bad(Bad::Index) => Ok(Outcome::Stops(MemberReply::Halted(Halt::Index))),
            Found::Bad(Bad::Chain) => Ok(Outcome::Stops(MemberReply::Halted(Halt::Chain))),
        }
    }
}
