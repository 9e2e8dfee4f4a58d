//! At most 256 bytes, of which up to 39 take no memory.
ghost use Rattle.std.specs.Prelude.{◌≡◌, ◌*◌, ◌+◌, ◌<◌, ◌≤◌, true, [], ◌∷◌, ◌++◌, length, take, drop, IsOk, IfOk, OnErr};
ghost use Rattle.std.specs.Bool.{OnFalse};
ghost use Rattle.board_text.specs.Hex.{FillsPiece, hex_piece, is_piece_length};
ghost use Rattle.board_text.specs.Limits.{piece_limit, place_limit};
ghost use Rattle.board_text.specs.Pieces.{near_bytes, kept_bytes};

use crate::hex_text::fill_hex;
use hex::FromHexError;
use std::alloc::{AllocError as NoMemory, Global};
use std::fmt;
use std::marker::Model;

/// How many bytes a piece has at most: a limit of this project.
pub const PIECE_LIMIT: usize = 256;

/// How many of them lie in the value itself: so many that it has 48 bytes in all. Of this project.
pub const PLACE_LIMIT: usize = 39;

// The first so many of these.
#[derive(Clone, Copy)]
struct Near {
    count: u8,
    bytes: [u8; PLACE_LIMIT],
}

// Where the bytes of a piece lie.
#[derive(Clone, Copy)]
enum Kept {
    // In the value itself.
    Near(Near),
    // In memory that is never written nor freed.
    Far(&'static [u8]),
}

impl Near {
    fn of(bytes: &[u8]) -> Near
        requires { length bytes.now ≤ place_limit }
        ensures bytes { near_bytes result ≡ bytes.now }
        ensures count { result.count ≡ length bytes.now }
    {
        let mut near = [0; PLACE_LIMIT];
        near[..bytes.len()].copy_from_slice(bytes);
        Near {
            count: bytes.len() as u8,
            bytes: near,
        }
    }

    fn as_slice(&self) -> &[u8]
        requires { self.now.count ≤ place_limit }
        ensures bytes { result.now ≡ near_bytes self.now }
        ensures fits { length result.now ≤ place_limit }
    {
        &self.bytes[..usize::from(self.count)]
    }

    // Appends bytes, for which there is room.
    fn extend(&mut self, bytes: &[u8])
        requires { self.old.count + length bytes.now ≤ place_limit }
        ensures bytes { near_bytes self.new ≡ near_bytes self.old ++ bytes.now }
        ensures count { self.new.count ≡ self.old.count + length bytes.now }
    {
        let begin = usize::from(self.count);
        let end = begin + bytes.len();
        self.bytes[begin..end].copy_from_slice(bytes);
        self.count = end as u8;
    }
}

/// At most 256 bytes: a command, a completion, or the data of an access. Up to 39 lie in the value itself. More lie in
/// memory that is written once and stays, since what holds them is a history, which stays too; so a piece is copied
/// without memory.
#[derive(Drop)]
pub struct Piece {
    kept: Kept,
}

impl Model for Piece {
    ghost use Rattle.std.specs.Prelude.{ℕ, List};
    ghost use Rattle.board_text.specs.Pieces.{kept_bytes, FitsPiece};

    ghost Value = { List ℕ };

    ghost view = { λ p. kept_bytes p.kept };

    ghost invariant = { λ p. FitsPiece p.kept };
}

impl fmt::Debug for Piece {
    fn fmt<W: fmt::Write>(&self, f: &mut fmt::Formatter<W>) -> fmt::Result {
        f.debug_struct("Piece")
            .field("items", &self.as_slice())
            .finish()
    }
}

// Whether a text of so many digits may spell a piece.
fn is_length(digits: usize) -> bool
    ensures { result ≡ is_piece_length digits }
{
    2 <= digits && digits <= 2 * PIECE_LIMIT && digits % 2 == 0
}

impl Piece {
    /// No bytes.
    pub fn new() -> Piece
        ensures { result ≡ [] }
    {
        Piece::short(&[])
    }

    /// A copy of at most 39 bytes, which takes no memory.
    pub fn short(bytes: &[u8]) -> Piece
        requires { length bytes.now ≤ place_limit }
        ensures { result ≡ bytes.now }
    {
        Piece {
            kept: Kept::Near(Near::of(bytes)),
        }
    }

    /// At most 256 bytes that stay where they are.
    pub fn lent(bytes: &'static [u8]) -> Piece
        requires { length bytes.now ≤ piece_limit }
        ensures { result ≡ bytes.now }
    {
        Piece {
            kept: Kept::Far(bytes),
        }
    }

    /// A copy of at most 256 bytes. Up to 39 take no memory; that of more stays, even when the piece is gone.
    pub fn from_slice(alloc: Global, bytes: &[u8]) -> Result<Piece, NoMemory>
        requires { length bytes.now ≤ piece_limit }
        ensures value { IfOk result (λ piece. piece ≡ bytes.now) }
        ensures memory { length bytes.now ≤ place_limit → IsOk result }
    {
        if bytes.len() <= PLACE_LIMIT {
            return Ok(Piece::short(bytes));
        }
        Ok(Piece::lent(Vec::from_slice(alloc, bytes)?.leak()))
    }

    /// A copy of both parts, the front one first, which have at most 256 bytes together. Up to 39 take no memory; that of
    /// more stays, even when the piece is gone.
    pub fn joined(alloc: Global, front: &[u8], back: &[u8]) -> Result<Piece, NoMemory>
        requires { length front.now + length back.now ≤ piece_limit }
        ensures value { IfOk result (λ piece. piece ≡ front.now ++ back.now) }
        ensures memory { length front.now + length back.now ≤ place_limit → IsOk result }
    {
        if front.len() + back.len() <= PLACE_LIMIT {
            let mut piece = Piece::short(front);
            piece.extend(back);
            return Ok(piece);
        }
        let mut bytes = Vec::with_capacity(alloc, front.len() + back.len())?;
        bytes.extend_from_slice(front)?;
        bytes.extend_from_slice(back)?;
        Ok(Piece::lent(bytes.leak()))
    }

    /// The same bytes once more, without memory.
    pub fn copy(&self) -> Piece
        ensures { result ≡ self.now }
    {
        Piece { kept: self.kept }
    }

    /// What stands behind so many bytes, without memory.
    pub fn behind(&self, place: usize) -> Piece
        ensures { result ≡ drop place self.now }
    {
        match &self.kept {
            Kept::Near(near) => {
                let bytes = near.as_slice();
                Piece::short(&bytes[place.min(bytes.len())..])
            }
            Kept::Far(bytes) => Piece::lent(&bytes[place.min(bytes.len())..]),
        }
    }

    /// Appends bytes, with which there are at most 39.
    pub fn extend(&mut self, bytes: &[u8])
        requires { length self.old + length bytes.now ≤ place_limit }
        ensures { self.new ≡ self.old ++ bytes.now }
    {
        let mut near = Near::of(self.as_slice());
        near.extend(bytes);
        self.kept = Kept::Near(near);
    }

    /// Appends one byte, with which there are at most 39.
    pub fn push(&mut self, byte: u8)
        requires { length self.old < place_limit }
        ensures { self.new ≡ self.old ++ byte ∷ [] }
    {
        self.extend(&[byte]);
    }

    /// Drops what stands behind so many bytes.
    pub fn truncate(&mut self, most: u32)
        ensures { self.new ≡ take most self.old }
    {
        match &mut self.kept {
            Kept::Near(near) => near.count = most.min(u32::from(near.count)) as u8,
            Kept::Far(bytes) => *bytes = &bytes[..bytes.len().min(most as usize)],
        }
    }

    // As `read_hex`, of at most 78 digits.
    fn read_near(&mut self, text: &[u8]) -> bool
        requires spells { is_piece_length (length text.now) ≡ true }
        requires few { length text.now ≤ 2 * place_limit }
        ensures value { FillsPiece result self.new (hex_piece text.now) }
        ensures refused { OnFalse result (self.new ≡ self.old) }
    {
        let mut near = [0; PLACE_LIMIT];
        let near = &mut near[..text.len() / 2];
        let is_spelled = fill_hex(text, near);
        if is_spelled {
            *self = Piece::short(near);
        }
        is_spelled
    }

    /// Takes on the bytes that the text spells, two hex digits of either case a byte, where there are 1 to 256,
    /// and says whether it does. Where it doesn't, or memory runs out, the bytes are as they were. Up to 78 digits take
    /// no memory.
    pub fn read_hex(&mut self, alloc: Global, text: &[u8]) -> Result<bool, NoMemory>
        ensures value { IfOk result (λ spelled. FillsPiece spelled self.new (hex_piece text.now)) }
        ensures refused { IfOk result (λ spelled. OnFalse spelled (self.new ≡ self.old)) }
        ensures err { OnErr result (self.new ≡ self.old) }
        ensures memory { length text.now ≤ 2 * place_limit → IsOk result }
    {
        if !is_length(text.len()) {
            return Ok(false);
        }
        if text.len() <= 2 * PLACE_LIMIT {
            return Ok(self.read_near(text));
        }
        match hex::decode(alloc, text) {
            Ok(bytes) => {
                *self = Piece::lent(bytes.leak());
                Ok(true)
            }
            Err(FromHexError::OutOfMemory) => Err(NoMemory),
            Err(_) => Ok(false),
        }
    }

    /// The bytes, lent. There are at most 256.
    pub fn as_slice(&self) -> &[u8]
        ensures bytes { result.now ≡ self.now }
        ensures fits { length self.now ≤ piece_limit }
    {
        match &self.kept {
            Kept::Near(near) => near.as_slice(),
            Kept::Far(bytes) => bytes,
        }
    }
}

impl PartialEq for Piece {
    ghost use Rattle.std.specs.Prelude.{bytes_eq};
    ghost use Rattle.std.specs.Cmp.{partial_equiv_from_equiv};
    ghost use Rattle.std.specs.Cmp.Lexicographic.{nat_list_eq_equiv};

    ghost eq = { bytes_eq };

    ghost laws = { partial_equiv_from_equiv nat_list_eq_equiv };

    fn eq(&self, other: &Piece) -> bool {
        self.as_slice() == other.as_slice()
    }
}

impl Eq for Piece {
    ghost use Rattle.std.specs.Cmp.Lexicographic.{nat_list_eq_equiv};

    ghost laws = { nat_list_eq_equiv };
}
