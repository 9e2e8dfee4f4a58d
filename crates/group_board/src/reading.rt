//! Reading a source to its end.
ghost use Rattle.std.specs.Prelude.{◌≡◌, ◌≤◌, ◌⊎◌, max, IsErrOf};
ghost use Rattle.board_io.specs.Faults.{Rose};
ghost use Rattle.group_board.specs.Limits.{transfer_limit};
ghost use Rattle.group_board.specs.Reading.{ReadsAll};

use crate::top::{TEXT_LIMIT, TRANSFER_LIMIT};
use board_io::{Source, Taken};
use board_text::Bytes;
use std::alloc::Global;

/// Why a source was not read to its end.
#[derive(Clone, Copy, Debug, PartialEq, Eq)]
pub enum ReadFailure {
    Fault,
    TooLong,
    NoMemory,
}

/// All bytes of the source, if they are not more than the limit.
pub fn read_text<R: Source>(alloc: Global, source: &mut R) -> Result<Bytes, ReadFailure>
    ensures text { ReadsAll (R.left source.old) (R.left source.new) result }
    ensures never_falls { R.faults source.old ≤ R.faults source.new }
    ensures widest { R.widest source.new ≤ max (R.widest source.old) transfer_limit }
    ensures failures_alone { IsErrOf result ReadFailure.Fault ⊎ (R.faults source.new ≡ R.faults source.old) }
    ensures fault { IsErrOf result ReadFailure.Fault → Rose (R.faults source.old) (R.faults source.new) }
{
    let mut text = Bytes::new(alloc);
    let mut length = 0;
    let mut piece = [0; TRANSFER_LIMIT];
    'reading: loop {
        match source.take(&mut piece) {
            Taken::Bytes(count) => {
                if count > TEXT_LIMIT - length {
                    return Err(ReadFailure::TooLong);
                }
                if text.extend(&piece[..count]).is_err() {
                    return Err(ReadFailure::NoMemory);
                }
                length += count;
            }
            Taken::End => return Ok(text),
            Taken::Failed => return Err(ReadFailure::Fault),
        }
    }
}
