//! What holds of the limits and of the types, with nothing to run.
ghost use Rattle.std.specs.Prelude.{◌≡◌};
ghost use Rattle.board_text.specs.Limits.{short_limit, piece_limit, place_limit, floor_limit};

use crate::byte_lists::{Bytes, SHORT_LIMIT};
use crate::decimal::Malformed;
use crate::floors::{FLOOR_LIMIT, FloorList, Floors};
use crate::hex_text::HexFault;
use crate::lines::LineSpan;
use crate::pieces::{PIECE_LIMIT, PLACE_LIMIT, Piece};

/// The limits that callers read are those of the definitions.
pub fn limits_are_the_definitions()
    ensures short { SHORT_LIMIT ≡ short_limit }
    ensures piece { PIECE_LIMIT ≡ piece_limit }
    ensures place { PLACE_LIMIT ≡ place_limit }
    ensures floors { FLOOR_LIMIT ≡ floor_limit }
{}

fn is_shared<T: Send + Sync>() {}

/// What texts are read into may be shared by threads and sent to them.
pub fn texts_cross_threads() {
    is_shared::<Bytes>();
    is_shared::<Piece>();
    is_shared::<FloorList>();
    is_shared::<Floors>();
    is_shared::<LineSpan>();
    is_shared::<Malformed>();
    is_shared::<HexFault>();
}
