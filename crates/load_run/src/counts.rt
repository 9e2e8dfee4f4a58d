//! How many commands were posted, and how many lines read and write.
ghost use Rattle.std.specs.Prelude.{◌≡◌, ℕ, ◌≤◌, IfOk, length, is_some};
ghost use Rattle.history.specs.Look.{count};
ghost use Rattle.group_calls.specs.Queue.{posted, posted_by};
ghost use Rattle.board_script.specs.Script.{Whole};
ghost use Rattle.journal.specs.Lines.{numbers};
ghost use Rattle.journal.specs.Journals.{Journal};
ghost use Rattle.journal.specs.Texts.{commands_in};
ghost use Rattle.board_run.specs.Standing.{HoldsJournal};
ghost use Rattle.load_run.specs.Load.{is_read as is_read_of, is_write as is_write_of};

use admin_ring::AdminRing;
use board_script::{ActorLine, Script, What};
use group_calls::{Entry, RingCall, RingReply, Serial};
use group_cells::PlainCells;
use std::alloc::AllocError as NoMemory;

// Whether an entry is a command that was posted.
fn is_posted(entry: &Entry<RingCall, RingReply>) -> bool
    ensures { result ≡ is_some (posted_by entry.now) }
{
    matches!(
        (&entry.call, &entry.reply),
        (RingCall::Post { .. }, RingReply::Seq(_))
    )
}

// How many commands were posted to a queue.
fn commands_of(queue: &AdminRing) -> u64
    ensures { result ≡ length (posted queue.now.history) }
{
    let mut posted = 0;
    'entries: for place in 0..queue.length() {
        if is_posted(queue.entry(place)) {
            posted += 1;
        }
    }
    posted
}

/// How many commands were posted to all queues. An error where they are more than a number may say.
pub(crate) fn commands(cells: &PlainCells) -> Result<u64, NoMemory>
    ensures { (s : Whole) (j : Journal) → HoldsJournal s j cells.now → IfOk result (λ n. n ≡ commands_in j (numbers 0 s.board.queues)) }
{
    let mut posted: u64 = 0;
    'queues: for index in 0..cells.queues() {
        posted = posted
            .checked_add(commands_of(cells.queue_cell(index)))
            .ok_or(NoMemory)?;
    }
    Ok(posted)
}

fn is_read(line: &ActorLine) -> bool
    ensures { result ≡ is_read_of line.now }
{
    matches!(line.what, What::BarRead { .. })
}

fn is_write(line: &ActorLine) -> bool
    ensures { result ≡ is_write_of line.now }
{
    matches!(line.what, What::BarWrite { .. })
}

/// How many lines of a script read the BAR.
pub(crate) fn reads(script: &Script) -> u64
    ensures { result ≡ count is_read_of script.now.lines }
{
    let mut reads = 0;
    'lines: for index in 0..script.line_count() {
        if is_read(script.line(index)) {
            reads += 1;
        }
    }
    reads
}

/// How many write it.
pub(crate) fn writes(script: &Script) -> u64
    ensures { result ≡ count is_write_of script.now.lines }
{
    let mut writes = 0;
    'lines: for index in 0..script.line_count() {
        if is_write(script.line(index)) {
            writes += 1;
        }
    }
    writes
}
