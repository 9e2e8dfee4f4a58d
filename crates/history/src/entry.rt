//! What a call leaves, and what its caller is told.
ghost use Rattle.std.specs.Prelude.{◌≡◌};
ghost use Rattle.history.specs.Limits.{history_limit, actor_limit};

/// How many entries a history has at most, 2^62. Of this project.
pub const HISTORY_LIMIT: u64 = 4_611_686_018_427_387_904;

/// How many actors there are: the board, 16 guests, 8 workers and the host. An actor's number is below it. Of this
/// project.
pub const ACTOR_LIMIT: u32 = 26;

/// The limits that callers read are those of the definitions.
pub fn limits()
    ensures entries { HISTORY_LIMIT ≡ history_limit }
    ensures actors { ACTOR_LIMIT ≡ actor_limit }
{}

/// A reply, and the place of its entry in the history. After a quiet reply, which leaves no entry, the place is the
/// history's length.
#[derive(Debug, Drop, PartialEq, Eq)]
pub struct Placed<Reply> {
    pub at: u64,
    pub reply: Reply,
}

/// The number of the actor that called, the call, and its reply.
#[derive(Debug, Drop, PartialEq, Eq)]
pub struct Entry<Call, Reply> {
    pub who: u32,
    pub call: Call,
    pub reply: Reply,
}
