//! A step of a queue (VIRTIO 1.3, 2.7).
ghost use Rattle.std.specs.Prelude.{◌≡◌, ◌<◌, nat_lt, true, not, ◌&&◌, length, IfOk, OnOk, OnErr};
ghost use Rattle.legacy_regs.specs.Registers.{queue_count, uses_tables};
ghost use Rattle.ring_layout.specs.Layout.{LiesIn};
ghost use Rattle.ring_layout.specs.Chain.{found};
ghost use Rattle.group_calls.specs.Facts.{Facts};
ghost use Rattle.group_calls.specs.MemberQueues.{receives};
ghost use Rattle.group_calls.specs.Steps.{are_none, outcome, outcome_reply, found_step};
ghost use Rattle.member_device.specs.Device.{AreFacts, left_by_step};
ghost use Rattle.member_device.specs.Plan.{planned, facts_of, IsReady};

use crate::answer::Answer;
use crate::device::Device;
use crate::plan::{Place, Plan};
use group_calls::Halt;
use legacy_regs::MEMBER_RING_SIZE;
use ring_device::{Bad, Found, next_chain};
use ring_layout::{Layout, legacy};
use std::alloc::AllocError as NoMemory;

impl Device {
    /// A step of a queue that stands at a position, which runs modulo 65,536, and is to be served or not. The reply is
    /// that of the outcome over what the device holds: `NotPending` where the queue doesn't exist or isn't to be
    /// served, `Empty` where no frame waits for it or no entry is available, `Halted` where its ring, an entry or a
    /// request is wrong, `Dropped` where the first frame doesn't fit the chain, else `Served`. Just the last two change
    /// anything: the frame leaves, or the reply goes into the chain's writable buffers, then the chain into the used
    /// ring, and then the interrupt is raised, where the guest wants one. Two things go by what the driver accepted
    /// (VIRTIO 1.3, 2.2). With `INDIRECT_DESC` a chain may have a table of descriptors (2.7.5.3). With `EVENT_IDX` the
    /// next position goes behind the used ring's elements, as the last of all (2.7.10), and an interrupt is wanted
    /// exactly where the guest left this position behind the available ring's entries (2.7.7); without, it is wanted
    /// unless that ring has `NO_INTERRUPT`. `NoMemory` where the chain, its bytes, the reply or the frame that is sent
    /// can't be had; then nothing changes.
    pub fn step(&mut self, position: u16, pending: bool, queue: u16) -> Result<Answer, NoMemory>
        ensures told { (f : Facts) → AreFacts self.old queue position pending f → IfOk result (λ answer. answer.told
            ≡ outcome_reply (outcome self.old.made self.old.memory self.old.disk f queue)) }
        ensures kept { IfOk result (λ answer. answer.kept ≡ answer.told) }
        ensures left { (f : Facts) → AreFacts self.old queue position pending f → OnOk result (self.new
            ≡ left_by_step queue (outcome self.old.made self.old.memory self.old.disk f queue) self.old) }
        ensures err { OnErr result (self.new ≡ self.old) }
    {
        let plan = self.plan(position, pending, queue)?;
        Ok(self.perform(position, queue, plan))
    }

    /// Whether the queue doesn't exist, or isn't to be served.
    fn is_idle(&self, queue: u16, pending: bool) -> bool
        ensures { result ≡ not (nat_lt queue (queue_count self.now.made.kind) && pending) }
    {
        !(queue < self.regs.queues() && pending)
    }

    /// Whether the queue takes frames, and none waits.
    fn lacks_frame(&self, queue: u16) -> bool
        ensures { result ≡ (receives self.now.made.kind queue && are_none self.now.waiting) }
    {
        self.receives(queue) && self.backlog.length() == 0
    }

    /// What the step will do.
    fn plan(&self, position: u16, pending: bool, queue: u16) -> Result<Plan, NoMemory>
        ensures plan { IfOk result (λ plan. planned self.now (facts_of self.now position pending) queue plan
            ≡ outcome self.now.made self.now.memory self.now.disk (facts_of self.now position pending) queue) }
        ensures ready { IfOk result (IsReady self.now queue position) }
    {
        if self.is_idle(queue, pending) {
            return Ok(Plan::NotPending);
        }
        if self.lacks_frame(queue) {
            return Ok(Plan::Empty);
        }
        match legacy(
            self.regs.address(queue),
            MEMBER_RING_SIZE,
            self.memory.length(),
        ) {
            Some(layout) => self.plan_ring(position, queue, layout),
            None => Ok(Plan::Halted(Halt::Ring)),
        }
    }

    /// What will be done at a position of a ring.
    fn plan_ring(&self, position: u16, queue: u16, layout: Layout) -> Result<Plan, NoMemory>
        requires ring { LiesIn (length self.now.memory) layout }
        requires waits { receives self.now.made.kind queue ≡ true → 0 < length self.now.waiting }
        ensures plan { (f : Facts) → f.waiting ≡ self.now.waiting → IfOk result (λ plan. planned self.now f queue plan
            ≡ found_step self.now.made self.now.memory self.now.disk f queue layout
            (found (uses_tables self.now.registers) self.now.memory layout position)) }
        ensures ready { IfOk result (IsReady self.now queue position) }
    {
        let tables = self.regs.uses_tables();
        match next_chain(self.alloc, &self.memory, &layout, position, tables)? {
            Found::Chain(chain) => self.plan_chain(queue, Place { layout, chain }),
            Found::Empty => Ok(Plan::Empty),
            Found::Bad(Bad::Index) => Ok(Plan::Halted(Halt::Index)),
            Found::Bad(Bad::Chain) => Ok(Plan::Halted(Halt::Chain)),
        }
    }
}
