//! What the lines of a script ask of the device.
ghost use Rattle.std.specs.Prelude.{◌≡◌, Some, IfOk, length, true};
ghost use Rattle.script_words.specs.Values.{is_width};
ghost use Rattle.io_bar.specs.Route.{is_local, is_port_width, count_of};
ghost use Rattle.group_calls.specs.declared.lone.LoneEvent.TheVariants.{Other as Called};
ghost use Rattle.guest_lines.specs.Lines.{read_event as read_event_of, write_event as write_event_of, event_of as event_of_line};
ghost use Rattle.guest_lines.specs.Widths.{HasWidth};
ghost use Rattle.alone_run.specs.Kept.{IsEvent, io_after as io_after_line};

use board_script::What;
use board_text::{Bytes, Piece};
use group_calls::{LoneEvent, MemberCall};
use io_bar::{Access, Bar, Route};
use std::alloc::AllocError as NoMemory;

// Whether an access stays with the host, whatever MSI-X is.
fn stays(bar: &Bar, io: bool, access: &Access) -> bool
    requires { is_port_width (count_of access.now) ≡ true }
    ensures { result ≡ is_local bar.now io access.now }
{
    matches!(bar.route(false, io, access), Route::Local)
}

// A read of the BAR, which may stay with the host.
fn read_event(bar: &Bar, io: bool, offset: u8, length: u32) -> Option<LoneEvent>
    requires { is_width length ≡ true }
    ensures event { result ≡ read_event_of bar.now io offset length }
    ensures width { IsEvent result }
{
    if stays(bar, io, &Access::Read { offset, length }) {
        return None;
    }
    Some(LoneEvent::Read { offset, length })
}

// A write of the BAR, which may stay with the host.
fn write_event(bar: &Bar, io: bool, offset: u8, bytes: &Bytes) -> Option<LoneEvent>
    requires { is_width (length bytes.now) ≡ true }
    ensures event { result ≡ write_event_of bar.now io offset bytes.now }
    ensures width { IsEvent result }
{
    let bytes = Piece::short(bytes.as_slice());
    let access = Access::Write {
        offset,
        bytes: bytes.copy(),
    };
    if stays(bar, io, &access) {
        return None;
    }
    Some(LoneEvent::Write { offset, bytes })
}

// A call of a member that is no register access.
fn asked(call: MemberCall) -> Option<LoneEvent>
    ensures { result ≡ Some (Called call) }
{
    Some(LoneEvent::Other(call))
}

/// The event of a line, if it asks the device.
pub(crate) fn event_of(bar: &Bar, io: bool, what: &What) -> Result<Option<LoneEvent>, NoMemory>
    requires { HasWidth what.now }
    ensures event { IfOk result (λ event. event ≡ event_of_line bar.now io what.now) }
    ensures width { IfOk result IsEvent }
{
    Ok(match what {
        What::BarRead { offset, length, .. } => read_event(bar, io, *offset, *length),
        What::BarWrite { offset, bytes, .. } => write_event(bar, io, *offset, bytes),
        What::Mem { addr, bytes } => asked(MemberCall::MemWrite {
            addr: *addr,
            bytes: bytes.copy()?,
        }),
        What::Peek { addr, length } => asked(MemberCall::MemRead {
            addr: *addr,
            length: *length,
        }),
        What::Msix { on } => asked(MemberCall::Msix { on: *on }),
        What::Irqs => asked(MemberCall::TakeIrqs),
        What::Poll { queue } | What::WorkerPoll { queue, .. } => {
            asked(MemberCall::Step { queue: *queue })
        }
        What::Frame { frame, .. } => asked(MemberCall::Arrive {
            frame: frame.copy()?,
        }),
        What::Flr { .. } => asked(MemberCall::Flr),
        What::Disable { .. } | What::Reset => asked(MemberCall::Kill),
        What::Io { .. } | What::Cfg { .. } | What::Serve { .. } => None,
    })
}

/// Whether I/O accesses are enabled after a line that asks nothing of the device.
pub(crate) fn io_after(io: bool, what: &What) -> bool
    ensures { result ≡ io_after_line io what.now }
{
    match what {
        What::Io { on } => *on,
        _ => io,
    }
}
