//! The guest and what its device was told.
ghost use Rattle.std.specs.Prelude.{◌≡◌, ◌++◌, [], IfOk, OnOk, option_map};
ghost use Rattle.group_calls.specs.Lone.{lone_reply as lone_reply_of};
ghost use Rattle.guest_lines.specs.Lines.{event_of as event_of_line};
ghost use Rattle.guest_lines.specs.Widths.{HasWidth};
ghost use Rattle.lone_device.specs.Past.{IsLoneEvent};
ghost use Rattle.board_script.specs.Bounds.{IsSetup};
ghost use Rattle.alone_run.specs.Transcript.{made_for};
ghost use Rattle.alone_run.specs.Kept.{Stands, IsReady, IsEvent, after, reply_to as reply_to_event, shown_for, Shows};

use crate::lines::{event_of, io_after};
use crate::words::push_words;
use board_script::{ActorLine, Setup, What};
use group_calls::{LoneEvent, LoneItem, LoneReply};
use io_bar::Bar;
use lone_device::{Past, lone_reply};
use std::alloc::{AllocError as NoMemory, Global};
use text_out::push_number;

/// A guest with what its device is made with and was told, its BAR, and what its lines left: whether I/O accesses are
/// enabled.
#[derive(Drop)]
pub(crate) struct Guest {
    pub alloc: Global,
    pub setup: Setup,
    pub bar: Bar,
    pub io: bool,
    pub past: Past,
}

// The number of the guest, which is that of its device and of the actor.
const GUEST: u32 = 1;

impl Guest {
    /// The guest before its first line. This takes no memory.
    pub fn new(alloc: Global, setup: Setup) -> Guest
        requires { IsSetup setup }
        ensures { Stands (made_for setup) result [] }
    {
        Guest {
            alloc,
            setup,
            bar: Bar::new(setup.kind),
            io: true,
            past: Past::new(alloc),
        }
    }

    // What the device replies to an event, if there is one, after all that it was told.
    fn reply_to(&self, event: &Option<LoneEvent>) -> Result<Option<LoneReply>, NoMemory>
        requires ready { IsReady self.now }
        requires event { IsEvent event.now }
        ensures { IfOk result (λ reply. reply ≡ reply_to_event self.now event.now) }
    {
        let Some(event) = event else {
            return Ok(None);
        };
        let kind = &self.setup.kind;
        let reply = lone_reply(self.alloc, GUEST, self.setup.pages, kind, &self.past, event)?;
        Ok(Some(reply))
    }

    // A line was performed, with this event and reply.
    fn note(
        &mut self,
        what: &What,
        event: Option<LoneEvent>,
        reply: Option<LoneReply>,
    ) -> Result<(), NoMemory>
        ensures { reply ≡ reply_to_event self.old event → OnOk result (self.new ≡ after self.old what.now event) }
    {
        match (event, reply) {
            (Some(event), Some(reply)) => self.past.push(LoneItem { event, reply }),
            _ => {
                self.io = io_after(self.io, what);
                Ok(())
            }
        }
    }

    /// Performs a line, and appends what the guest is shown of it.
    pub fn show(&mut self, output: &mut Vec<u8>, line: &ActorLine) -> Result<(), NoMemory>
        requires width { HasWidth line.now.what }
        requires ready { IsReady self.old }
        ensures { OnOk result (Shows self.old self.new output.old.items output.new.items line.now) }
    {
        let event = event_of(&self.bar, self.io, &line.what)?;
        let reply = self.reply_to(&event)?;
        push_shown(output, &self.bar, self.io, line, &reply)?;
        self.note(&line.what, event, reply)
    }
}

// Appends what the guest is shown of a line: nothing of another actor's.
fn push_shown(
    output: &mut Vec<u8>,
    bar: &Bar,
    io: bool,
    line: &ActorLine,
    reply: &Option<LoneReply>,
) -> Result<(), NoMemory>
    requires { HasWidth line.now.what }
    ensures { OnOk result (output.new.items ≡ output.old.items ++ shown_for bar.now io line.now reply.now) }
{
    if line.who != GUEST {
        return Ok(());
    }
    push_number(output, u64::from(line.number))?;
    output.push(b' ')?;
    push_words(output, bar, io, &line.what, reply)?;
    output.push(b'\n')?;
    Ok(())
}
