//! How large the things are that a script names, and the numbers of its actors, of this project.
ghost use Rattle.std.specs.Prelude.{◌≡◌};
ghost use Rattle.board_script.specs.Limits.{first_worker, the_host, turns_limit, alone_limit};

// The most administration queues of a board.
pub(crate) const QUEUE_LIMIT: u64 = 8;

// The most workers.
pub(crate) const WORKER_LIMIT: u64 = 8;

// The most guests.
pub(crate) const GUEST_LIMIT: u64 = 16;

// The most pages of a guest's memory.
pub(crate) const PAGE_LIMIT: u64 = 64;

// The bytes of a page.
pub(crate) const PAGE_SIZE: u64 = 4_096;

// The most sectors of a block device.
pub(crate) const SECTOR_LIMIT: u64 = 4_096;

// The bytes of a MAC.
pub(crate) const MAC_LENGTH: usize = 6;

/// The number of the actor `w0`. The other workers follow. Guest n is the actor n.
pub const WORKERS_FROM: u32 = 17;

/// The number of the actor `host`.
pub const HOST: u32 = 25;

// The largest offset of an access.
pub(crate) const OFFSET_LIMIT: u64 = 255;

// The most bytes of a memory that one line writes or reads.
pub(crate) const RANGE_LIMIT: usize = 512;

// The largest number of a member's queue.
pub(crate) const INDEX_LIMIT: u64 = 65_535;

// The fewest bytes of a frame.
pub(crate) const FRAME_LEAST: usize = 14;

// The most bytes of a frame.
pub(crate) const FRAME_LIMIT: usize = 1_514;

/// The most turns that are scheduled, by one pair and by all together.
pub const TURNS_LIMIT: u64 = 1_000_000;

/// The most lines of actors where one guest is alone.
pub const ALONE_LIMIT: usize = 4_096;

// How many bytes a line of an actor takes, about the fewest.
pub(crate) const LINE_LENGTH: usize = 8;

// For how many lines of actors room is taken at once at most. Room for more lines is taken as they come.
pub(crate) const FIRST_LINES: usize = 4_096;

/// The limits and numbers that callers read are those of the definitions.
pub fn limits_are_defined()
    ensures workers { WORKERS_FROM ≡ first_worker }
    ensures host { HOST ≡ the_host }
    ensures turns { TURNS_LIMIT ≡ turns_limit }
    ensures alone { ALONE_LIMIT ≡ alone_limit }
{}
