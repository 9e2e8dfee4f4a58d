//! Laws of frames. They speak of constants and types alone, so nothing is done.
ghost use Rattle.std.specs.Prelude.{◌≡◌};
ghost use Rattle.byte_fields.specs.Sizes.{shortest_frame, longest_frame};
ghost use Rattle.net_engine.specs.Frames.{backlog_limit, header_size};

use crate::backlog::{BACKLOG_LIMIT, Backlog};
use crate::frame::{HEADER_SIZE, LONGEST_FRAME, SHORTEST_FRAME};

/// The sizes that callers read are those of the definitions.
pub fn sizes()
    ensures header { HEADER_SIZE ≡ header_size }
    ensures shortest { SHORTEST_FRAME ≡ shortest_frame }
    ensures longest { LONGEST_FRAME ≡ longest_frame }
    ensures waiting { BACKLOG_LIMIT ≡ backlog_limit }
{}

fn crosses<T: Send + Sync>() {}

/// Frames that wait may be sent to a thread, and shared by threads.
pub fn backlogs_cross_threads() {
    crosses::<Backlog>();
}
