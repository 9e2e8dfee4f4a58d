//! A frame behind its header (VIRTIO 1.3, 5.1.6).
ghost use Rattle.std.specs.Prelude.{◌≡◌, ◌+◌, ◌^◌, ◌<◌, length, IfOk};
ghost use Rattle.net_engine.specs.Frames.{is_frame_length, transmitted, with_header as behind_header};

use board_text::Bytes;
use std::alloc::{AllocError as NoMemory, Global};

/// How many bytes the header before a frame has. It is the legacy header, which has no number of buffers (VIRTIO 1.3,
/// 5.1.6.1). No offload is offered, so it is zero on the way to the guest and ignored on the way from it.
pub const HEADER_SIZE: usize = 10;

/// The fewest bytes of a frame, those of an Ethernet header: a limit of this project.
pub const SHORTEST_FRAME: usize = 14;

/// The most bytes of a frame, an Ethernet header and 1,500 bytes behind it: a limit of this project.
pub const LONGEST_FRAME: usize = 1514;

/// Whether a frame may have so many bytes.
pub fn is_frame_length(length: usize) -> bool
    ensures { result ≡ is_frame_length length }
{
    (SHORTEST_FRAME..=LONGEST_FRAME).contains(&length)
}

/// The frame that a guest sends (VIRTIO 1.3, 5.1.6.2): the bytes behind the header, whatever the header says. `None` exactly
/// where these aren't 14 to 1,514, a header that isn't whole among them. `NoMemory` where the frame can't be had.
pub fn transmit(alloc: Global, readable: &Bytes) -> Result<Option<Bytes>, NoMemory>
    ensures { IfOk result (λ frame. frame ≡ transmitted readable.now) }
{
    let bytes = readable.as_slice();
    if bytes.len() < HEADER_SIZE || !is_frame_length(bytes.len() - HEADER_SIZE) {
        return Ok(None);
    }
    let frame = Bytes::from_slice(alloc, &bytes[HEADER_SIZE..])?;
    Ok(Some(frame))
}

/// A header of zeros and the frame (VIRTIO 1.3, 5.1.6.4).
pub(crate) fn with_header(alloc: Global, frame: &[u8]) -> Result<Bytes, NoMemory>
    requires { length frame.now < 2 ^ 63 }
    ensures { IfOk result (λ bytes. bytes ≡ behind_header frame.now) }
{
    let mut bytes = Vec::with_capacity(alloc, HEADER_SIZE + frame.len())?;
    bytes.extend_from_slice(&[0; HEADER_SIZE])?;
    bytes.extend_from_slice(frame)?;
    Ok(Bytes::from(bytes))
}
