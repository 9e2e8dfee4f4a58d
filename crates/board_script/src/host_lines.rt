//! The lines of the host.
ghost use Rattle.std.specs.Prelude.{OnOk};
ghost use Rattle.script_words.specs.Values.{Steps};
ghost use Rattle.board_script.specs.Lines.{frame_says, flr_says, disable_says, reset_says};
ghost use Rattle.board_script.specs.Shapes.{AreBefore, Keeps};

use crate::draft::Draft;
use crate::limits::{FRAME_LEAST, FRAME_LIMIT, HOST};
use crate::place::{Place, add, behind_board, guest};
use crate::script::What;
use script_words::{Cause, Fault, Word, bytes};
use std::alloc::Global;

/// `host frame N HEX`
pub fn frame(
    alloc: Global,
    draft: &mut Draft,
    place: Place,
    member: &Word,
    hex: &Word,
) -> Result<(), Fault>
    requires { AreBefore place.number draft.old.lines }
    ensures value { Steps result draft.new (frame_says place draft.old member.now hex.now) }
    ensures kept { OnOk result (Keeps place.number draft.old draft.new) }
{
    behind_board(draft)?;
    let member = guest(draft, member)?;
    let frame = bytes(alloc, hex, FRAME_LEAST, FRAME_LIMIT)?;
    if !draft.is_net(member) {
        return Err(Fault::Bad(Cause::Kind));
    }
    add(draft, place, HOST, What::Frame { member, frame })
}

/// `host flr N`
pub fn flr(draft: &mut Draft, place: Place, member: &Word) -> Result<(), Fault>
    requires { AreBefore place.number draft.old.lines }
    ensures value { Steps result draft.new (flr_says place draft.old member.now) }
    ensures kept { OnOk result (Keeps place.number draft.old draft.new) }
{
    behind_board(draft)?;
    let member = guest(draft, member)?;
    add(draft, place, HOST, What::Flr { member })
}

/// `host disable N`
pub fn disable(draft: &mut Draft, place: Place, member: &Word) -> Result<(), Fault>
    requires { AreBefore place.number draft.old.lines }
    ensures value { Steps result draft.new (disable_says place draft.old member.now) }
    ensures kept { OnOk result (Keeps place.number draft.old draft.new) }
{
    behind_board(draft)?;
    let member = guest(draft, member)?;
    add(draft, place, HOST, What::Disable { member })
}

/// `host reset`
pub fn reset(draft: &mut Draft, place: Place) -> Result<(), Fault>
    requires { AreBefore place.number draft.old.lines }
    ensures value { Steps result draft.new (reset_says place draft.old) }
    ensures kept { OnOk result (Keeps place.number draft.old draft.new) }
{
    behind_board(draft)?;
    add(draft, place, HOST, What::Reset)
}
