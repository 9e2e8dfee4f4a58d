//! The laws of whole runs in the words of their subject: what a disabling ends, that no notification is forgotten, that
//! guests are apart, and what a guest reads.
//!
//! The crate has no code. Its functions have empty bodies, and their clauses are the laws.
#![tactic(auto)]

ghost use Rattle.guest_laws.specs.Disabling.{DisablingKills, ResettingKills};
ghost use Rattle.guest_laws.specs.Disabled.{DisabledIsLeft};
ghost use Rattle.guest_laws.specs.Touched.{EachIsTouchedByOwn};
ghost use Rattle.guest_laws.specs.Apart.{GuestsAreApart};
ghost use Rattle.guest_laws.specs.Reads.{GuestsReadOwn, MarkedIsOwn, SameStoryIsRead};
ghost use Rattle.guest_laws.specs.Rest.{QueuesComeToRest};
ghost use Rattle.guest_laws.specs.Notified.{NotificationsAreAttended};

/// A line that disables a member kills it, and a line that resets the owner kills each member.
pub fn disablings_kill()
    ensures disabled { DisablingKills }
    ensures reset { ResettingKills }
{}

/// After a disabling no register access takes effect: each later call but a read or write of the guest's memory is
/// answered Gone, the member's registers, queues and disk stay as they were, and nothing but such a write changes the
/// memory.
pub fn disabled_members_are_left()
    ensures { DisabledIsLeft }
{}

/// A member is touched by its own guest, and by lines that name it, alone: its memory, doorbells, MSI-X and interrupts are
/// its guest's; a register access is that of a line of its guest; a step, a frame and a reset are its guest's too, or
/// asked for by a line of a worker, the host or the drain for this member.
pub fn members_are_touched_by_their_own()
    ensures { EachIsTouchedByOwn }
{}

/// So no two guests touch each other's memory, disk, frames or registers: where the events of a guest's own history are the
/// same in two runs, of whatever scripts, its replies are, and up to the cut its memory, disk and registers.
pub fn guests_are_apart()
    ensures { GuestsAreApart }
{}

/// What a guest reads is a function of its own history alone: its line of a rank shows the reply to its own event of that
/// rank, which is what a lone device replies to the events of own history. So where own history has the same events in two
/// runs, of whatever scripts, the lines of a rank show the same.
pub fn guests_read_their_own_history()
    ensures reads { GuestsReadOwn }
    ensures marked { MarkedIsOwn }
    ensures same { SameStoryIsRead }
{}

/// Behind the drain each queue of each member isn't pending, unless the member was killed or the queue is printed as left.
pub fn queues_come_to_rest()
    ensures { QueuesComeToRest }
{}

/// Every notification is answered by a step, or the queue is left: behind a notification stands a step of the queue that
/// found that nothing was left to do, unless the queue is halted, reset, given a new address, gone with its member, or
/// printed as left.
pub fn notifications_are_attended()
    ensures { NotificationsAreAttended }
{}
