//! Laws of a guest's memory. They speak of constants and types alone, so nothing is done.
ghost use Rattle.std.specs.Prelude.{◌≡◌};
ghost use Rattle.byte_fields.specs.Sizes.{page_size, page_limit};

use crate::memory::{GuestMem, PAGE_LIMIT, PAGE_SIZE};

/// The sizes that callers read are those of the definitions.
pub fn sizes()
    ensures page { PAGE_SIZE ≡ page_size }
    ensures pages { PAGE_LIMIT ≡ page_limit }
{}

fn crosses<T: Send + Sync>() {}

/// A memory may be sent to a thread, and shared by threads.
pub fn memories_cross_threads() {
    crosses::<GuestMem>();
}
