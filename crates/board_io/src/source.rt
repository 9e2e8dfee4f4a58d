ghost use Rattle.std.specs.Prelude.{◌≡◌, ℕ, ◌<◌, ◌≤◌, ◌⊎◌, List, length, max, Option};
ghost use Rattle.board_io.specs.Faults.{Rose};
ghost use Rattle.board_io.specs.Source.{FitsRoom, TakesFrom};

/// What a source answers.
#[derive(Clone, Copy, Debug, PartialEq, Eq)]
pub enum Taken {
    /// So many bytes stand at the front of the buffer: at least one, and no more than it has room for.
    Bytes(usize),
    /// Nothing is left.
    End,
    /// The read failed, and took nothing.
    Failed,
}

/// Where bytes come from. Of this project.
pub trait Source {
    /// The bytes that are left, where the source tells them.
    ghost left: { Self → Option (List ℕ) };

    /// How often a read failed. The count rises for a failure alone, and stands still at 2^64 - 1.
    ghost faults: { Self → ℕ };

    /// The length of the longest buffer that was lent to it so far, where the source counts it. So a
    /// caller's promise to read in pieces of a certain length is a bound on this number.
    ghost widest: { Self → ℕ };

    /// Takes the next bytes into the front of `buf`, which isn't empty.
    fn take(&mut self, buf: &mut [u8]) -> Taken
        requires { 0 < length buf.old }
        ensures room { FitsRoom result (length buf.new) }
        ensures left { TakesFrom (left self.old) (left self.new) result buf.new }
        ensures never_falls { faults self.old ≤ faults self.new }
        ensures failed { result ≡ Taken.Failed → Rose (faults self.old) (faults self.new) }
        ensures failures_alone { (result ≡ Taken.Failed) ⊎ (faults self.new ≡ faults self.old) }
        ensures widest { widest self.new ≤ max (widest self.old) (length buf.old) };
}
