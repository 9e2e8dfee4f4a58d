//! What the events so far say of the device.
use crate::access::{read_access, write_access};
use crate::entries::{bit_raised, kills, msix_after, takes_irqs};
use crate::frames::Frames;
use crate::queue::QueueSeen;
use crate::registers;
use admin_wire::LegacyCmd;
use group_calls::{Kind, LoneEvent, LoneItem, LoneReply, MemberCall, MemberReply};
use legacy_regs::Regs;
use std::alloc::{AllocError as NoMemory, Global};

/// What the events so far say of the device, but for its memory and disk: the legacy registers, whether MSI-X is enabled, what
/// is seen of its two queues, the frames, the vectors that were raised and not taken as bits, and the place of its Kill and
/// one.
#[derive(Drop)]
pub(crate) struct Seen {
    pub(crate) alloc: Global,
    pub(crate) kind: Kind,
    pub(crate) regs: Regs,
    pub(crate) msix: bool,
    pub(crate) queues: [QueueSeen; 2],
    pub(crate) frames: Frames,
    pub(crate) raised: u32,
    pub(crate) floor: Option<u64>,
}

impl Seen {
    ghost use Rattle.std.specs.Prelude.{◌≡◌, ◌<◌, ◌≤◌, ℕ, [], ◌∷◌, List, length, IfOk, OnOk, slice_index_or};
    ghost use Rattle.legacy_regs.specs.declared.device.Kind.{Kind};
    ghost use Rattle.group_calls.specs.declared.member.MemberMade.{MemberMade};
    ghost use Rattle.group_calls.specs.declared.member.MemberCall.TheVariants.{Act};
    ghost use Rattle.group_calls.specs.declared.lone.LoneItem.{LoneItem};
    ghost use Rattle.group_calls.specs.Lone.{as_history, lone_reply};
    ghost use Rattle.lone_device.specs.Past.{IsOther, IsLoneEvent};
    ghost use Rattle.lone_device.specs.Entries.{entry};
    ghost use Rattle.lone_device.specs.Queues.{unseen, queues_then};
    ghost use Rattle.lone_device.specs.Seen.{Stands, bank_then, NotesBeside, Notes, act_told};

    /// Of a device of this kind without events. This takes no memory.
    pub(crate) fn new(alloc: Global, kind: Kind) -> Seen
        ensures { (made : MemberMade) → made.kind ≡ kind → Stands made result [] }
    {
        Seen {
            alloc,
            kind,
            regs: Regs::new(kind),
            msix: false,
            queues: [QueueSeen::new(), QueueSeen::new()],
            frames: Frames::new(alloc),
            raised: 0,
            floor: None,
        }
    }

    /// What is seen of a queue, and of one that no device has what is seen of a queue at first.
    pub(crate) fn queue(&self, queue: u16) -> QueueSeen
        ensures { result ≡ slice_index_or self.now.queues queue unseen }
    {
        match self.queues.get(usize::from(queue)) {
            Some(seen) => *seen,
            None => QueueSeen::new(),
        }
    }

    /// Performs a register access.
    pub(crate) fn act(&mut self, command: &LegacyCmd) -> Result<MemberReply, NoMemory>
        ensures told { IfOk result (λ told. told ≡ act_told self.old command.now) }
        ensures left { IfOk result (λ told. self.new ≡ record self.old { regs = bank_then (Act command.now) told self.old.regs }) }
    {
        match self.floor {
            Some(floor) => Ok(MemberReply::Gone { floor }),
            None => registers::perform(self.alloc, &mut self.regs, command),
        }
    }

    // Notes an entry in all but the registers, before which this queue was selected.
    fn note_beside(
        &mut self,
        at: usize,
        selected: u16,
        call: &MemberCall,
        reply: &MemberReply,
    ) -> Result<(), NoMemory>
        requires at { at < usize.MAX }
        requires left { self.old.frames.left < usize.MAX }
        ensures { OnOk result (NotesBeside at selected (entry call.now reply.now) self.old self.new) }
    {
        self.queues = [
            self.queues[0].after(&self.kind, 0, selected, call, reply),
            self.queues[1].after(&self.kind, 1, selected, call, reply),
        ];
        self.frames.note(call, reply)?;
        self.msix = msix_after(self.msix, call, reply);
        self.raised = if takes_irqs(call, reply) {
            0
        } else {
            bit_raised(call, reply) | self.raised
        };
        if kills(call, reply) {
            self.floor = Some(at as u64 + 1);
        }
        Ok(())
    }

    // Notes a register access, which the registers answer.
    fn note_access(&mut self, at: usize, command: LegacyCmd) -> Result<(), NoMemory>
        requires at { at < usize.MAX }
        requires left { self.old.frames.left < usize.MAX }
        ensures { OnOk result (Notes at (entry (Act command) (act_told self.old command)) self.old self.new) }
    {
        let selected = self.regs.selected();
        let reply = self.act(&command)?;
        self.note_beside(at, selected, &MemberCall::Act(command), &reply)
    }

    // Notes a call that is no register access, and its reply.
    fn note_call(
        &mut self,
        at: usize,
        call: &MemberCall,
        reply: &MemberReply,
    ) -> Result<(), NoMemory>
        requires other { IsOther call.now }
        requires at { at < usize.MAX }
        requires left { self.old.frames.left < usize.MAX }
        ensures { OnOk result (Notes at (entry call.now reply.now) self.old self.new) }
    {
        let selected = self.regs.selected();
        registers::note(&mut self.regs, call, reply);
        self.note_beside(at, selected, call, reply)
    }

    /// Notes an event with its reply, at its place.
    pub(crate) fn note(&mut self, at: usize, item: &LoneItem) -> Result<(), NoMemory>
        requires event { IsLoneEvent item.now.event }
        requires at { at < usize.MAX }
        requires left { self.old.frames.left ≤ at }
        ensures { (made : MemberMade) (items : List LoneItem) → at ≡ length items → Stands made self.old (as_history made items)
            → item.now.reply ≡ lone_reply made items item.now.event → OnOk result (Stands made self.new (as_history made (item.now ∷ items))) }
    {
        match (&item.event, &item.reply) {
            (LoneEvent::Read { offset, length }, _) => {
                self.note_access(at, read_access(self.msix, *offset, *length))
            }
            (LoneEvent::Write { offset, bytes }, _) => {
                self.note_access(at, write_access(self.msix, *offset, bytes))
            }
            (LoneEvent::Other(call), LoneReply::Other(reply)) => self.note_call(at, call, reply),
            (LoneEvent::Other(_), _) => Ok(()),
        }
    }
}
