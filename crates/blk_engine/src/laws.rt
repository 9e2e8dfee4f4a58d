//! Laws of a disk. They speak of constants and types alone, so nothing is done.
ghost use Rattle.std.specs.Prelude.{◌≡◌};
ghost use Rattle.byte_fields.specs.Sizes.{sector_size, sector_limit};

use crate::disk::{Disk, SECTOR_LIMIT, SECTOR_SIZE};

/// The sizes that callers read are those of the definitions.
pub fn sizes()
    ensures sector { SECTOR_SIZE ≡ sector_size }
    ensures sectors { SECTOR_LIMIT ≡ sector_limit }
{}

fn crosses<T: Send + Sync>() {}

/// A disk may be sent to a thread, and shared by threads.
pub fn disks_cross_threads() {
    crosses::<Disk>();
}
