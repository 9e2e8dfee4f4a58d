//! Bytes out of a chain's buffers and into them (VIRTIO 1.3, 2.7.4).
ghost use Rattle.std.specs.Prelude.{◌≡◌, ◌≤◌, length, IfOk};
ghost use Rattle.ring_layout.specs.Chain.{readable_bytes, readable_part, writable_part, total_length, scattered, written};
ghost use Rattle.ring_device.specs.Buffers.{LieIn};

use crate::chain::Chain;
use bitflags::Flags;
use board_text::Bytes;
use guest_mem::GuestMem;
use ring_layout::DescFlags;
use std::alloc::{AllocError as NoMemory, Global};

/// The bytes of the buffers without `WRITE`, in order: what the guest gave. Each is copied once. `NoMemory` where the room
/// for them can't be had.
pub fn gather(alloc: Global, mem: &GuestMem, chain: &Chain) -> Result<Bytes, NoMemory>
    requires { LieIn (length mem.now) chain.now.parts }
    ensures bytes { IfOk result (λ bytes. bytes ≡ readable_bytes mem.now chain.now.parts) }
    ensures length { IfOk result (λ bytes. length bytes ≡ total_length (readable_part chain.now.parts)) }
{
    let mut bytes = Vec::with_capacity(alloc, chain.readable() as usize)?;
    let parts = chain.parts();
    for part in parts {
        if !part.flags.contains(DescFlags::WRITE) {
            bytes.extend_from_slice(mem.part(part.addr, u64::from(part.len)))?;
        }
    }
    Ok(Bytes::from(bytes))
}

/// Puts bytes into the buffers with `WRITE`, from their front on. What is left of the buffers stays as it was. Where
/// buffers share bytes of the memory, the later ones count. It takes no memory.
pub fn scatter(mem: &mut GuestMem, chain: &Chain, bytes: &Bytes)
    requires inside { LieIn (length mem.old) chain.now.parts }
    requires fits { length bytes.now ≤ total_length (writable_part chain.now.parts) }
    ensures written { mem.new ≡ written (scattered (writable_part chain.now.parts) bytes.now) mem.old }
    ensures length { length mem.new ≡ length mem.old }
{
    let mut rest = bytes.as_slice();
    let parts = chain.parts();
    for part in parts {
        if part.flags.contains(DescFlags::WRITE) {
            let count = rest.len().min(part.len as usize);
            mem.write(part.addr, &rest[..count]);
            rest = &rest[count..];
        }
    }
}
