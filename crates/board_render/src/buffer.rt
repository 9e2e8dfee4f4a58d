//! At most 4096 bytes, which lie in the value itself.
ghost use Rattle.std.specs.Prelude.{◌≡◌, ◌+◌, ◌-◌, ◌*◌, ◌<◌, ◌≤◌, [], ◌∷◌, ◌++◌, length};
ghost use Rattle.hex.specs.Hex.{encode_lower};
ghost use Rattle.board_render.specs.Limits.{piece_limit};

use std::marker::Model;

/// How many bytes there are at most: the longest piece that is put at once. Of this project.
const PIECE_LIMIT: usize = 4096;

/// The first so many of these bytes. What stands behind them is left as it is.
#[derive(Drop)]
pub struct Buffer {
    bytes: [u8; PIECE_LIMIT],
    count: usize,
}

impl Model for Buffer {
    ghost use Rattle.std.specs.Prelude.{ℕ, ◌≤◌, List, take};
    ghost use Rattle.board_render.specs.Limits.{piece_limit};

    ghost Value = { List ℕ };

    ghost view = { λ b. take b.count b.bytes };

    ghost invariant = { λ b. b.count ≤ piece_limit };
}

impl Buffer {
    /// No bytes.
    pub fn new() -> Buffer
        ensures { result ≡ [] }
    {
        Buffer {
            bytes: [0; PIECE_LIMIT],
            count: 0,
        }
    }

    /// The bytes, lent.
    pub fn as_slice(&self) -> &[u8]
        ensures value { result.now ≡ self.now }
        ensures fits { length result.now ≤ piece_limit }
    {
        &self.bytes[..self.count]
    }

    /// How many more bytes there is room for.
    pub fn room(&self) -> usize
        ensures count { result ≡ piece_limit - length self.now }
        ensures fits { length self.now ≤ piece_limit }
    {
        PIECE_LIMIT - self.count
    }

    /// Drops all bytes.
    pub fn clear(&mut self)
        ensures { self.new ≡ [] }
    {
        self.count = 0;
    }

    /// Appends a byte, for which there is room.
    pub fn push(&mut self, byte: u8)
        requires { length self.old < piece_limit }
        ensures { self.new ≡ self.old ++ byte ∷ [] }
    {
        self.bytes[self.count] = byte;
        self.count += 1;
    }

    /// Appends bytes, for which there is room.
    pub fn extend(&mut self, bytes: &[u8])
        requires { length self.old + length bytes.now ≤ piece_limit }
        ensures { self.new ≡ self.old ++ bytes.now }
    {
        let end = self.count + bytes.len();
        self.bytes[self.count..end].copy_from_slice(bytes);
        self.count = end;
    }

    /// Appends bytes in hex, for whose digits there is room.
    pub fn extend_hex(&mut self, bytes: &[u8])
        requires { length self.old + 2 * length bytes.now ≤ piece_limit }
        ensures { self.new ≡ self.old ++ encode_lower bytes.now }
    {
        let end = self.count + 2 * bytes.len();
        hex::encode_to_slice(bytes, &mut self.bytes[self.count..end]).unwrap();
        self.count = end;
    }
}
