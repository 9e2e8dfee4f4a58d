//! The memory that a piece of bytes will take.
ghost use Rattle.std.specs.Prelude.{◌≡◌, ◌≤◌, length, IsOk, IfOk};
ghost use Rattle.board_text.specs.Limits.{place_limit};
ghost use Rattle.admin_ring.specs.Room.{room_for};

use board_text::{PIECE_LIMIT, PLACE_LIMIT, Piece};
use std::alloc::{AllocError as NoMemory, Global};
use std::marker::Model;

/// Room for the bytes of one piece. Up to 39 lie in the piece itself; for more there is memory. Contracts see for how many
/// bytes there is room.
#[derive(Drop)]
pub struct Room {
    spare: Option<Box<[u8; PIECE_LIMIT]>>,
}

impl Model for Room {
    ghost use Rattle.std.specs.Prelude.{ℕ};
    ghost use Rattle.admin_ring.specs.Room.{room_with};

    ghost Value = { ℕ };

    ghost view = { λ r. room_with r.spare };
}

impl Room {
    /// For at most so many bytes. Up to 39 take no memory.
    pub fn for_bytes(alloc: Global, most: u32) -> Result<Room, NoMemory>
        ensures room { IfOk result (λ room. room ≡ room_for most) }
        ensures memory { most ≤ place_limit → IsOk result }
    {
        if most as usize <= PLACE_LIMIT {
            return Ok(Room { spare: None });
        }
        let spare = Box::new(alloc, [0; PIECE_LIMIT])?;
        Ok(Room { spare: Some(spare) })
    }

    /// The room, in whose place stays that of a piece without memory.
    pub fn take(&mut self) -> Room
        ensures room { result ≡ self.old }
        ensures left { self.new ≡ place_limit }
    {
        Room {
            spare: self.spare.take(),
        }
    }

    /// A piece of these bytes, without more memory.
    pub fn fill(self, bytes: &[u8]) -> Piece
        requires { length bytes.now ≤ self }
        ensures { result ≡ bytes.now }
    {
        match self.spare {
            Some(spare) if bytes.len() > PLACE_LIMIT => {
                let lent = &mut Box::leak(spare)[..bytes.len()];
                lent.copy_from_slice(bytes);
                Piece::lent(lent)
            }
            _ => Piece::short(bytes),
        }
    }
}
