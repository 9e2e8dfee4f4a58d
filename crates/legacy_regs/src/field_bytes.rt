//! The bytes that a read gives.
ghost use Rattle.std.specs.Prelude.{◌≡◌, ◌+◌, ◌≤◌, length};
ghost use Rattle.arrayvec.specs.ArrayVec.{array_vec_len};
ghost use Rattle.byte_fields.specs.Places.{bytes_at};

use crate::image::Image;
use std::marker::Model;

/// Bytes of a field that were read. They lie in the value itself, and take no memory.
#[derive(Drop)]
pub struct FieldBytes {
    image: Image,
    offset: u8,
    count: u32,
}

impl Model for FieldBytes {
    ghost use Rattle.std.specs.Prelude.{ℕ, ◌+◌, ◌≤◌, List};
    ghost use Rattle.arrayvec.specs.ArrayVec.{array_vec_len};
    ghost use Rattle.byte_fields.specs.Places.{bytes_at};

    ghost Value = { List ℕ };

    ghost view = { λ b. bytes_at b.offset b.count b.image.items };

    ghost invariant = { λ b. b.offset + b.count ≤ array_vec_len b.image };
}

impl FieldBytes {
    /// So many bytes of a structure from an offset on.
    pub(crate) fn new(image: Image, offset: u8, count: u32) -> FieldBytes
        requires { offset + count ≤ array_vec_len image }
        ensures bytes { result ≡ bytes_at offset count image.items }
        ensures count { length result ≡ count }
    {
        FieldBytes {
            image,
            offset,
            count,
        }
    }

    /// The bytes, lent. There are at most 33, as many as a structure has.
    pub fn as_slice(&self) -> &[u8]
        ensures bytes { result.now ≡ self.now }
        ensures few { length result.now ≤ 33 }
    {
        let start = usize::from(self.offset);
        &self.image.as_slice()[start..start + self.count as usize]
    }
}
