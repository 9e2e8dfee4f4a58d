//! What will be done with a chain.
ghost use Rattle.std.specs.Prelude.{◌≡◌, ◌<◌, true, ℕ, List, length, IfOk};
ghost use Rattle.ring_device.specs.Buffers.{LieIn};
ghost use Rattle.group_calls.specs.Facts.{Facts};
ghost use Rattle.group_calls.specs.MemberQueues.{receives};
ghost use Rattle.net_engine.specs.Frames.{transmitted};
ghost use Rattle.group_calls.specs.Steps.{block_step, receive_step, transmit_step, chain_step, frame_or_nothing};
ghost use Rattle.member_device.specs.Plan.{planned, IsPlace, IsReady};

use crate::device::Device;
use crate::plan::{Place, Plan};
use blk_engine::{BlkAnswer, BlkPlan};
use board_text::Bytes;
use group_calls::{Halt, Kind};
use net_engine::transmit;
use ring_device::gather;
use std::alloc::{AllocError as NoMemory, Global};

/// The frame that the guest sends with these bytes, or no byte.
fn frame_of(alloc: Global, bytes: &Bytes) -> Result<Bytes, NoMemory>
    ensures { IfOk result (λ sent. sent ≡ frame_or_nothing (transmitted bytes.now)) }
{
    Ok(match transmit(alloc, bytes)? {
        Some(frame) => frame,
        None => Bytes::new(alloc),
    })
}

impl Device {
    /// What will be done with a chain of a queue.
    pub(crate) fn plan_chain(&self, queue: u16, place: Place) -> Result<Plan, NoMemory>
        requires inside { LieIn (length self.now.memory) place.chain.parts }
        requires waits { receives self.now.made.kind queue ≡ true → 0 < length self.now.waiting }
        ensures plan { (f : Facts) → f.waiting ≡ self.now.waiting → IfOk result (λ plan. planned self.now f queue plan
            ≡ chain_step self.now.made self.now.made.kind self.now.memory self.now.disk f queue place.layout place.chain.parts) }
        ensures ready { (position : ℕ) → IsPlace self.now.memory position place → IfOk result (IsReady self.now queue position) }
    {
        match &self.made.kind {
            Kind::Block { read_only, .. } => self.plan_block(*read_only, place),
            Kind::Net { .. } if queue == 0 => self.plan_receive(place),
            Kind::Net { .. } => self.plan_transmit(place),
        }
    }

    /// A request of a block device (VIRTIO 1.3, 5.2.6).
    fn plan_block(&self, read_only: bool, place: Place) -> Result<Plan, NoMemory>
        requires inside { LieIn (length self.now.memory) place.chain.parts }
        ensures plan { (f : Facts) (q sectors : ℕ) → self.now.made.kind ≡ Kind.Block sectors read_only → IfOk result (λ plan. planned self.now f q plan
            ≡ block_step self.now.made read_only self.now.memory self.now.disk f q place.layout place.chain.parts) }
        ensures ready { (q position sectors : ℕ) → self.now.made.kind ≡ Kind.Block sectors read_only → IsPlace self.now.memory position place → IfOk result (IsReady self.now q position) }
    {
        let request = gather(self.alloc, &self.memory, &place.chain)?;
        let writable = place.chain.writable();
        let id = self.made.id;
        let BlkPlan { answer, put_at } = blk_engine::plan(
            self.alloc, &self.disk, id, read_only, &request, writable,
        )?;
        match answer {
            BlkAnswer::Reply(reply) => Ok(Plan::Answers {
                place,
                put_at,
                request,
                reply,
            }),
            BlkAnswer::Malformed => Ok(Plan::Halted(Halt::Request)),
        }
    }

    /// The first frame that waits, behind its header (VIRTIO 1.3, 5.1.6.4).
    fn plan_receive(&self, place: Place) -> Result<Plan, NoMemory>
        requires waits { 0 < length self.now.waiting }
        ensures plan { (f : Facts) (q : ℕ) (mac : List ℕ) → self.now.made.kind ≡ Kind.Net mac → IfOk result (λ plan. planned self.now f q plan
            ≡ receive_step self.now.memory self.now.disk f q place.layout place.chain.parts self.now.waiting) }
        ensures ready { (q position : ℕ) → q ≡ 0 → IsPlace self.now.memory position place → IfOk result (IsReady self.now q position) }
    {
        if place.chain.writable() < self.backlog.front_length_with_header() {
            return Ok(Plan::Drops);
        }
        let reply = self.backlog.front_with_header()?;
        Ok(Plan::Receives { place, reply })
    }

    /// What the guest gave is sent, if it is a frame behind a header (VIRTIO 1.3, 5.1.6.2).
    fn plan_transmit(&self, place: Place) -> Result<Plan, NoMemory>
        requires inside { LieIn (length self.now.memory) place.chain.parts }
        ensures plan { (f : Facts) (q : ℕ) (mac : List ℕ) → self.now.made.kind ≡ Kind.Net mac → IfOk result (λ plan. planned self.now f q plan
            ≡ transmit_step self.now.memory self.now.disk f q place.layout place.chain.parts) }
        ensures ready { (q position : ℕ) → ¬ (q ≡ 0) → IsPlace self.now.memory position place → IfOk result (IsReady self.now q position) }
    {
        let request = gather(self.alloc, &self.memory, &place.chain)?;
        let sent = frame_of(self.alloc, &request)?;
        let sent_again = sent.copy()?;
        Ok(Plan::Transmits {
            place,
            sent,
            sent_again,
        })
    }
}
