//! What holds of the limits, with nothing to run.
ghost use Rattle.std.specs.Prelude.{◌≡◌};
ghost use Rattle.group_board.specs.Limits.{text_limit, transfer_limit};

use crate::top::{TEXT_LIMIT, TRANSFER_LIMIT};

/// The limits of reading and putting are those of the definitions.
pub fn limits_are_the_definitions()
    ensures text { TEXT_LIMIT ≡ text_limit }
    ensures transfer { TRANSFER_LIMIT ≡ transfer_limit }
{}
