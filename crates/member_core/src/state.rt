//! What a member is at present, and how it answers.
ghost use Rattle.std.specs.Prelude.{◌≡◌, true};
ghost use Rattle.member_core.specs.Replies.{has_no_bytes};

use crate::entries::{bit_raised, is_memory_call, kills, takes_irqs, tells_queues};
use crate::queues::QueueFacts;
use group_calls::{MemberCall, MemberReply};
use member_device::{Answer, Device};
use std::alloc::AllocError as NoMemory;

/// What a member is at present: its device, what is kept of its two queues, the vectors that were raised and not taken as
/// bits, and the place of its Kill and one.
#[derive(Drop)]
pub(crate) struct State {
    pub(crate) device: Device,
    pub(crate) queues: [QueueFacts; 2],
    pub(crate) raised: u32,
    pub(crate) killed: Option<u64>,
}

impl State {
    ghost use Rattle.std.specs.Prelude.{◌≡◌, ◌<◌, ℕ, false, [], ◌∷◌, List, length, Option, None, IfOk, OnOk, OnErr, slice_index_or};
    ghost use Rattle.history.specs.Limits.{history_limit};
    ghost use Rattle.group_calls.specs.declared.member.MemberMade.{MemberMade};
    ghost use Rattle.group_calls.specs.Facts.{Facts};
    ghost use Rattle.group_calls.specs.MemberEntries.{MemberEntry};
    ghost use Rattle.group_calls.specs.Steps.{outcome_reply};
    ghost use Rattle.group_calls.specs.Member.{member_answer};
    ghost use Rattle.member_device.specs.Device.{left_by_step};
    ghost use Rattle.member_core.specs.Queues.{first_facts, queues_then};
    ghost use Rattle.member_core.specs.Vectors.{AreSmall, HasSmallVector};
    ghost use Rattle.member_core.specs.Kept.{noted, AreTold, does, is_access, living_reply, reply_of, left_by_call, Stands};

    /// Of a member with this device and no history.
    pub(crate) fn new(device: Device) -> State
        ensures { result ≡ record { device = device; queues = first_facts ∷ first_facts ∷ []; raised = 0; killed = None } }
    {
        State {
            device,
            queues: [QueueFacts::new(), QueueFacts::new()],
            raised: 0,
            killed: None,
        }
    }

    /// What is kept of a queue, and of one that no member has what is kept of a queue at first.
    fn queue(&self, queue: u16) -> QueueFacts
        ensures { result ≡ slice_index_or self.now.queues queue first_facts }
    {
        match self.queues.get(usize::from(queue)) {
            Some(facts) => *facts,
            None => QueueFacts::new(),
        }
    }

    /// A step of a queue.
    fn step(&mut self, queue: u16) -> Result<Answer, NoMemory>
        ensures told { (f : Facts) → AreTold self.old f → IfOk result (λ answer. answer.told ≡ outcome_reply (does self.old f queue)) }
        ensures kept { IfOk result (λ answer. answer.kept ≡ answer.told) }
        ensures left { (f : Facts) → AreTold self.old f → OnOk result (self.new ≡ record self.old { device = left_by_step queue (does self.old f queue) self.old.device }) }
        ensures err { OnErr result (self.new ≡ self.old) }
    {
        let facts = self.queue(queue);
        self.device.step(facts.position, facts.is_pending(), queue)
    }

    /// What a member that lives answers, or any to a call on its memory. Just the device changes.
    #[inline(always)]
    fn living_answer(&mut self, call: &MemberCall) -> Result<Answer, NoMemory>
        ensures told { (f : Facts) → AreTold self.old f → IfOk result (λ answer. answer.told ≡ living_reply self.old f call.now) }
        ensures kept { IfOk result (λ answer. answer.kept ≡ answer.told) }
        ensures left { (f : Facts) → AreTold self.old f → IfOk result (λ answer. self.new ≡ left_by_call self.old f call.now answer.told) }
        ensures err { OnErr result (self.new ≡ self.old) }
    {
        match call {
            MemberCall::Act(command) => self.device.act(command),
            _ => self.other_answer(call),
        }
    }

    /// The same for a call that is no register access.
    fn other_answer(&mut self, call: &MemberCall) -> Result<Answer, NoMemory>
        requires { is_access call.now ≡ false }
        ensures told { (f : Facts) → AreTold self.old f → IfOk result (λ answer. answer.told ≡ living_reply self.old f call.now) }
        ensures kept { IfOk result (λ answer. answer.kept ≡ answer.told) }
        ensures left { (f : Facts) → AreTold self.old f → IfOk result (λ answer. self.new ≡ left_by_call self.old f call.now answer.told) }
        ensures err { OnErr result (self.new ≡ self.old) }
    {
        match call {
            MemberCall::Act(_) => unreachable!(),
            MemberCall::Notify { .. } => Ok(twice(MemberReply::Written)),
            MemberCall::Msix { on } => {
                self.device.set_msix(*on);
                Ok(twice(MemberReply::Written))
            }
            MemberCall::MemWrite { addr, bytes } => Ok(twice(
                self.device.write_memory(*addr, bytes),
            )),
            MemberCall::MemRead { addr, length } => self.device.read_memory(*addr, *length),
            MemberCall::TakeIrqs => Ok(twice(MemberReply::Irqs { mask: self.raised })),
            MemberCall::Step { queue } => self.step(*queue),
            MemberCall::Arrive { frame } => Ok(twice(self.device.arrive(frame)?)),
            MemberCall::Flr => {
                self.device.flr();
                Ok(twice(MemberReply::Written))
            }
            MemberCall::Kill => Ok(twice(MemberReply::Killed)),
        }
    }

    /// What a member answers. Just the device changes.
    fn reply(&mut self, call: &MemberCall) -> Result<Answer, NoMemory>
        ensures told { (f : Facts) → AreTold self.old f → IfOk result (λ answer. answer.told ≡ reply_of self.old f call.now) }
        ensures kept { IfOk result (λ answer. answer.kept ≡ answer.told) }
        ensures left { (f : Facts) → AreTold self.old f → IfOk result (λ answer. self.new ≡ left_by_call self.old f call.now answer.told) }
        ensures err { OnErr result (self.new ≡ self.old) }
    {
        match self.killed {
            Some(floor) if !is_memory_call(call) => Ok(twice(MemberReply::Gone { floor })),
            _ => self.living_answer(call),
        }
    }

    /// What is kept of the two queues, after the entry of this call and reply. The queue was selected before it.
    fn note_queues(&mut self, selected: u16, call: &MemberCall, reply: &MemberReply)
        ensures { (who : ℕ) → self.new ≡ record self.old { queues = queues_then self.old.device.made.kind selected record { who = who; call = call.now; reply = reply.now } self.old.queues } }
    {
        if !tells_queues(call) {
            return;
        }
        let kind = &self.device.made().kind;
        self.queues = [
            self.queues[0].after(kind, 0, selected, call, reply),
            self.queues[1].after(kind, 1, selected, call, reply),
        ];
    }

    /// What is kept beside the device, after the entry of this call and reply at this place. The queue was selected before it.
    fn note(&mut self, at: u64, selected: u16, call: &MemberCall, reply: &MemberReply)
        requires at { at < history_limit }
        requires vector { HasSmallVector reply.now }
        ensures { (who : ℕ) → self.new ≡ noted at selected record { who = who; call = call.now; reply = reply.now } self.old }
    {
        self.note_queues(selected, call, reply);
        self.raised = if takes_irqs(call, reply) {
            0
        } else {
            bit_raised(call, reply) | self.raised
        };
        if kills(call, reply) {
            self.killed = Some(at + 1);
        }
    }

    /// What a member answers to a call whose entry will stand at this place. `NoMemory` leaves all as it was.
    pub(crate) fn answer(&mut self, at: u64, call: &MemberCall) -> Result<Answer, NoMemory>
        requires at { at < history_limit }
        requires vectors { AreSmall self.old.device.registers }
        ensures told { (made : MemberMade) (h : List MemberEntry) → at ≡ length h → Stands made self.old h → IfOk result (λ answer. answer.told ≡ member_answer made h call.now) }
        ensures kept { IfOk result (λ answer. answer.kept ≡ answer.told) }
        ensures stands { (made : MemberMade) (h : List MemberEntry) (who : ℕ) → at ≡ length h → Stands made self.old h → IfOk result (λ answer. Stands made self.new (record { who = who; call = call.now; reply = answer.told } ∷ h)) }
        ensures err { OnErr result (self.new ≡ self.old) }
    {
        let selected = self.device.selected();
        let answer = self.reply(call)?;
        self.note(at, selected, call, &answer.told);
        Ok(answer)
    }
}

/// A reply without bytes for the caller and for the history. This takes no memory.
fn twice(told: MemberReply) -> Answer
    requires { has_no_bytes told ≡ true }
    ensures told { result.told ≡ told }
    ensures kept { result.kept ≡ result.told }
{
    let kept = match &told {
        MemberReply::Written => MemberReply::Written,
        MemberReply::Refused(why) => MemberReply::Refused(*why),
        MemberReply::Gone { floor } => MemberReply::Gone { floor: *floor },
        MemberReply::Irqs { mask } => MemberReply::Irqs { mask: *mask },
        MemberReply::Arrived => MemberReply::Arrived,
        MemberReply::BacklogFull => MemberReply::BacklogFull,
        MemberReply::Killed => MemberReply::Killed,
        _ => unreachable!(),
    };
    Answer { told, kept }
}
