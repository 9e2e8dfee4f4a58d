//! The bytes of a structure, put together field by field.
ghost use Rattle.std.specs.Prelude.{◌≡◌, ◌+◌, ◌≤◌, ◌++◌, length};
ghost use Rattle.arrayvec.specs.ArrayVec.{array_vec_len};

use arrayvec::ArrayVec;

/// The most bytes of a structure: those of a block device's.
pub(crate) const MOST_BYTES: usize = 33;

pub(crate) type Image = ArrayVec<u8, MOST_BYTES>;

/// Puts a field's bytes after those that stand there.
pub(crate) fn append(image: &mut Image, field: &[u8])
    requires { array_vec_len image.old + length field.now ≤ MOST_BYTES }
    ensures bytes { image.new.items ≡ image.old.items ++ field.now }
    ensures len { array_vec_len image.new ≡ array_vec_len image.old + length field.now }
{
    image.try_extend_from_slice(field).unwrap();
}
