//! The driver of one member.
ghost use Rattle.std.specs.Prelude.{◌≡◌, ◌+◌, Some, true, false, is_none, IsSomeAnd};
ghost use Rattle.admin_wire.specs.Numbers.{fixed_size};
ghost use Rattle.admin_wire.specs.Writing.{legacy_bytes, result_length};
ghost use Rattle.group_calls.specs.Asks.{AnswersAsk};
ghost use Rattle.io_bar.specs.Route.{count_of, is_port_width, route_of};
ghost use Rattle.vfio_driver.specs.Access.{next_ask, after, is_open, first_stage, started, learning, is_read, FitsCommand};

use crate::access::{Answer, Known, Stage, Started};
use crate::access_after::{after_notify, after_post, after_take};
use admin_wire::{LegacyCmd, writable_for, write_legacy};
use board_text::Piece;
use group_calls::{Ask, Kind, MemberCall, RingCall, Tag, Told};
use io_bar::{Access, Bar, Route};

/// The driver of one guest's member, which has the guest's number: VIRTIO 1.3, 2.12 (device groups). Of this project.
#[derive(Debug, Drop)]
pub struct Driver {
    guest: u32,
    bar: Bar,
    io: bool,
    msix: bool,
    known: Known,
    stage: Stage,
}

// Whether the command reads.
fn reads(command: &LegacyCmd) -> bool
    ensures { result ≡ is_read command.now }
{
    matches!(
        command,
        LegacyCmd::CommonRead { .. } | LegacyCmd::DevRead { .. }
    )
}

// The member is to be notified.
fn ring(queue: u16, stage: &mut Stage)
    ensures { stage.new ≡ Stage.Ringing queue }
{
    *stage = Stage::Ringing { queue };
}

// The command is to be posted for the guest.
fn post(guest: u32, queue: u32, command: &LegacyCmd, stage: &mut Stage)
    requires { FitsCommand command.now }
    ensures { stage.new ≡ Stage.Posting queue (legacy_bytes guest command.now) (fixed_size + result_length command.now) (is_read command.now) }
{
    *stage = Stage::Posting {
        queue,
        bytes: write_legacy(u64::from(guest), command),
        writable: writable_for(command),
        reads: reads(command),
    };
}

// Nothing is asked.
fn put_none(ask: &mut Option<Ask>)
    ensures { ask.new ≡ None }
{
    *ask = None;
}

// The member is asked, at a place of at least this floor, to be notified.
fn put_notify(id: u32, floor: u64, queue: u16, ask: &mut Option<Ask>)
    ensures { ask.new ≡ Some (Ask.Member id floor (MemberCall.Notify queue)) }
{
    *ask = Some(Ask::Member {
        id,
        floor,
        call: MemberCall::Notify { queue },
    });
}

// The queue is asked to post the command.
fn put_post(queue: u32, bytes: &Piece, writable: u32, tag: Tag, ask: &mut Option<Ask>)
    ensures { ask.new ≡ Some (Ask.Queue queue (RingCall.Post bytes.now writable tag)) }
{
    *ask = Some(Ask::Queue {
        index: queue,
        call: RingCall::Post {
            bytes: bytes.copy(),
            writable,
            tag,
        },
    });
}

// The queue is asked for what became of the command.
fn put_take(queue: u32, seq: u64, ask: &mut Option<Ask>)
    ensures { ask.new ≡ Some (Ask.Queue queue (RingCall.Take seq)) }
{
    *ask = Some(Ask::Queue {
        index: queue,
        call: RingCall::Take { seq },
    });
}

impl Driver {
    /// The driver of the guest's member of this kind, which knows this floor. I/O is enabled, and MSI-X disabled.
    pub fn new(guest: u32, kind: Kind, floor: u64) -> Driver
        ensures guest { result.guest ≡ guest }
        ensures bar { result.bar ≡ kind }
        ensures io { result.io ≡ true }
        ensures msix { result.msix ≡ false }
        ensures known { result.known ≡ record { floor = floor; gone = false } }
        ensures stage { result.stage ≡ Stage.Nothing }
    {
        Driver {
            guest,
            bar: Bar::new(kind),
            io: true,
            msix: false,
            known: Known { floor, gone: false },
            stage: Stage::Nothing,
        }
    }

    /// Begins an access of 1, 2 or 4 bytes, whose command goes to this queue. Local comes exactly where the access stays
    /// with the host, or the member is known to be gone.
    pub fn start(&mut self, access: Access, queue: u32) -> Started
        requires unopened { is_open self.old.stage ≡ false }
        requires width { is_port_width (count_of access) ≡ true }
        ensures guest { self.new.guest ≡ self.old.guest }
        ensures bar { self.new.bar ≡ self.old.bar }
        ensures io { self.new.io ≡ self.old.io }
        ensures msix { self.new.msix ≡ self.old.msix }
        ensures known { self.new.known ≡ self.old.known }
        ensures stage { self.new.stage ≡ first_stage self.old.guest self.old.known (route_of self.old.bar self.old.msix self.old.io access) queue }
        ensures started { result ≡ started self.old.known (route_of self.old.bar self.old.msix self.old.io access) }
    {
        if self.known.gone {
            return Started::Local;
        }
        match &self.bar.route(self.msix, self.io, &access) {
            Route::Local => Started::Local,
            Route::Doorbell { queue } => {
                ring(*queue, &mut self.stage);
                Started::Asks
            }
            Route::Command(command) => {
                post(self.guest, queue, command, &mut self.stage);
                Started::Asks
            }
        }
    }

    /// Whether an access is open.
    pub fn is_open(&self) -> bool
        ensures { result ≡ is_open self.now.stage }
    {
        !matches!(self.stage, Stage::Nothing)
    }

    /// The next ask of the open access.
    pub fn next(&self) -> Ask
        requires { is_open self.now.stage ≡ true }
        ensures { Some result ≡ next_ask self.now.guest self.now.known self.now.stage }
    {
        let mut ask = None;
        self.put_next(&mut ask);
        match ask {
            Some(ask) => ask,
            None => unreachable!(),
        }
    }

    /// Puts the next ask of the open access in this place, or nothing where no access is open.
    pub fn put_next(&self, ask: &mut Option<Ask>)
        ensures { ask.new ≡ next_ask self.now.guest self.now.known self.now.stage }
    {
        match &self.stage {
            Stage::Nothing => put_none(ask),
            Stage::Ringing { queue } => put_notify(self.guest, self.known.floor, *queue, ask),
            Stage::Posting {
                queue,
                bytes,
                writable,
                reads: _,
            } => {
                let tag = Tag {
                    guest: self.guest,
                    floor: self.known.floor,
                };
                put_post(*queue, bytes, *writable, tag, ask);
            }
            Stage::Taking {
                queue,
                seq,
                reads: _,
            } => put_take(*queue, *seq, ask),
        }
    }

    /// Goes on after the answer to the ask of `next`. The access is answered, or asks more.
    pub fn feed(&mut self, told: Told) -> Option<Answer>
        requires { IsSomeAnd (next_ask self.old.guest self.old.known self.old.stage) (λ ask. AnswersAsk ask told) }
        ensures guest { self.new.guest ≡ self.old.guest }
        ensures bar { self.new.bar ≡ self.old.bar }
        ensures io { self.new.io ≡ self.old.io }
        ensures msix { self.new.msix ≡ self.old.msix }
        ensures stage { self.new.stage ≡ (after self.old.known self.old.stage told).stage }
        ensures known { self.new.known ≡ (after self.old.known self.old.stage told).known }
        ensures answer { result ≡ (after self.old.known self.old.stage told).answer }
    {
        self.hear(&told)
    }

    /// Goes on as `feed` does, after an answer that is only lent.
    pub fn hear(&mut self, told: &Told) -> Option<Answer>
        requires { IsSomeAnd (next_ask self.old.guest self.old.known self.old.stage) (λ ask. AnswersAsk ask told.now) }
        ensures guest { self.new.guest ≡ self.old.guest }
        ensures bar { self.new.bar ≡ self.old.bar }
        ensures io { self.new.io ≡ self.old.io }
        ensures msix { self.new.msix ≡ self.old.msix }
        ensures stage { self.new.stage ≡ (after self.old.known self.old.stage told.now).stage }
        ensures known { self.new.known ≡ (after self.old.known self.old.stage told.now).known }
        ensures answer { result ≡ (after self.old.known self.old.stage told.now).answer }
    {
        let mut answer = None;
        self.hear_into(told, &mut answer);
        answer
    }

    /// Goes on as `hear` does, and puts the answer, if the access has one, in this place.
    pub fn hear_into(&mut self, told: &Told, answer: &mut Option<Answer>)
        requires asked { IsSomeAnd (next_ask self.old.guest self.old.known self.old.stage) (λ ask. AnswersAsk ask told.now) }
        requires empty { is_none answer.old ≡ true }
        ensures guest { self.new.guest ≡ self.old.guest }
        ensures bar { self.new.bar ≡ self.old.bar }
        ensures io { self.new.io ≡ self.old.io }
        ensures msix { self.new.msix ≡ self.old.msix }
        ensures stage { self.new.stage ≡ (after self.old.known self.old.stage told.now).stage }
        ensures known { self.new.known ≡ (after self.old.known self.old.stage told.now).known }
        ensures answer { answer.new ≡ (after self.old.known self.old.stage told.now).answer }
    {
        match &self.stage {
            Stage::Nothing => {}
            Stage::Ringing { queue: _ } => {
                after_notify(told, &mut self.known, &mut self.stage, answer);
            }
            Stage::Posting {
                queue,
                bytes: _,
                writable: _,
                reads,
            } => after_post(
                *queue,
                *reads,
                told,
                &mut self.known,
                &mut self.stage,
                answer,
            ),
            Stage::Taking {
                queue: _,
                seq: _,
                reads,
            } => after_take(*reads, told, &mut self.known, &mut self.stage, answer),
        }
    }

    /// I/O is enabled or disabled for later accesses.
    pub fn set_io(&mut self, on: bool)
        ensures { self.new ≡ record self.old { io = on } }
    {
        self.io = on;
    }

    /// MSI-X is enabled or disabled for later accesses.
    pub fn set_msix(&mut self, on: bool)
        ensures { self.new ≡ record self.old { msix = on } }
    {
        self.msix = on;
    }

    /// The greatest floor of the member that is known.
    pub fn floor(&self) -> u64
        ensures { result ≡ self.now.known.floor }
    {
        self.known.floor
    }

    /// Learns a floor of the member, and whether the member is gone.
    pub fn learn(&mut self, floor: u64, gone: bool)
        ensures { self.new ≡ record self.old { known = learning self.old.known floor gone } }
    {
        self.known = Known {
            floor: self.known.floor.max(floor),
            gone: self.known.gone || gone,
        };
    }
}
