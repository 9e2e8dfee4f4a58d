//! The bytes of a field after a write.
ghost use Rattle.std.specs.Prelude.{◌≡◌};
ghost use Rattle.legacy_regs.specs.Accesses.{byte_put, bytes_put};

/// The byte that a write of `bytes` from `offset` on puts at this place.
pub(crate) fn byte_put(place: usize, offset: u8, bytes: &[u8]) -> Option<u8>
    ensures { result ≡ byte_put place offset bytes.now }
{
    let offset = usize::from(offset);
    if offset <= place {
        bytes.get(place - offset).copied()
    } else {
        None
    }
}

/// Replaces those bytes of a field that a write covers. The field's first byte stands at `place`.
pub(crate) fn put(field: &mut [u8], place: u8, offset: u8, bytes: &[u8])
    ensures { field.new ≡ bytes_put place offset bytes.now field.old }
{
    for (i, byte) in field.iter_mut().enumerate() {
        *byte = byte_put(usize::from(place) + i, offset, bytes).unwrap_or(*byte);
    }
}
