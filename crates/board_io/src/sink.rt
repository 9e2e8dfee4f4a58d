ghost use Rattle.std.specs.Prelude.{◌≡◌, ℕ, ◌<◌, ◌≤◌, ◌⊎◌, List, length, max, Option};
ghost use Rattle.board_io.specs.Faults.{Rose};
ghost use Rattle.board_io.specs.Sink.{PutsOn};

/// What a sink answers.
#[derive(Clone, Copy, Debug, PartialEq, Eq)]
pub enum PutAnswer {
    /// All bytes were taken.
    Put,
    /// The write failed, perhaps after some of the bytes.
    Failed,
}

/// Where bytes go. Of this project.
pub trait Sink {
    /// The bytes that it holds, where the sink tells them.
    ghost held: { Self → Option (List ℕ) };

    /// How often a write failed. The count rises for a failure alone, and stands still at 2^64 - 1.
    ghost faults: { Self → ℕ };

    /// The length of the longest piece that was put so far, where the sink counts it.
    ghost widest: { Self → ℕ };

    /// Appends the bytes, of which there is at least one.
    fn put(&mut self, bytes: &[u8]) -> PutAnswer
        requires { 0 < length bytes.now }
        ensures held { PutsOn (held self.old) (held self.new) result bytes.now }
        ensures never_falls { faults self.old ≤ faults self.new }
        ensures failed { result ≡ PutAnswer.Failed → Rose (faults self.old) (faults self.new) }
        ensures failures_alone { (result ≡ PutAnswer.Failed) ⊎ (faults self.new ≡ faults self.old) }
        ensures widest { widest self.new ≤ max (widest self.old) (length bytes.now) };
}
