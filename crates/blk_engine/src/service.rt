//! Requests are answered, and change the disk (VIRTIO 1.3, 5.2.6).
ghost use Rattle.std.specs.Prelude.{◌≡◌, ◌<◌, ◌≤◌, ◌^◌, length, IfOk, OnOk, OnErr};
ghost use Rattle.byte_fields.specs.Sizes.{member_limit};
ghost use Rattle.blk_engine.specs.Block.{answered, disk_after, stored, HasLength, HasRoomAt};

use crate::disk::Disk;
use crate::request::{HEADER_SIZE, parse};
use board_text::Bytes;
use std::alloc::{AllocError as NoMemory, Global};

/// What a request is answered.
#[derive(Debug, Drop)]
pub enum BlkAnswer {
    /// The bytes for the guest, the status last.
    Reply(Bytes),
    /// Fewer than 16 bytes of a request, or no room for a status.
    Malformed,
}

/// What a request is answered, and the sector at which its data goes onto the disk, if any does.
#[derive(Debug, Drop)]
pub struct BlkPlan {
    pub answer: BlkAnswer,
    pub put_at: Option<u64>,
}

/// What a request of a member's driver is answered (VIRTIO 1.3, 5.2.6), given the bytes to read and how many may be written,
/// and where its data goes. Nothing changes. The member's number is at most 999; `writable` is below 2^32. `Malformed`
/// exactly where the request has fewer than 16 bytes or nothing is writable; else the reply has exactly `writable` bytes, the
/// status last and zeros where nothing else is said. Only the data of an OUT with the status OK goes onto the disk.
/// `NoMemory` where the reply can't be had.
pub fn plan(
    alloc: Global,
    disk: &Disk,
    member: u32,
    read_only: bool,
    request: &Bytes,
    writable: u64,
) -> Result<BlkPlan, NoMemory>
    requires member { member ≤ member_limit }
    requires writable { writable < 2 ^ 32 }
    ensures answer { IfOk result (λ plan. plan.answer ≡ answered member read_only disk.now request.now writable) }
    ensures size { IfOk result (λ plan. HasLength writable plan.answer) }
    ensures put { IfOk result (λ plan. stored plan.put_at request.now disk.now ≡ disk_after read_only disk.now request.now writable) }
    ensures room { IfOk result (λ plan. HasRoomAt plan.put_at request.now disk.now) }
{
    let Some(asked) = parse(request.as_slice(), writable) else {
        return Ok(BlkPlan {
            answer: BlkAnswer::Malformed,
            put_at: None,
        });
    };
    let status = asked.status(disk.capacity(), read_only);
    let reply = asked.reply(alloc, disk, member, status)?;
    Ok(BlkPlan {
        answer: BlkAnswer::Reply(reply),
        put_at: asked.put_at(status),
    })
}

/// Puts the data of a request onto the disk at this sector, or nowhere (VIRTIO 1.3, 5.2.6). Every other byte stays, and the
/// length does. It takes no memory.
pub fn put(disk: &mut Disk, put_at: Option<u64>, request: &Bytes)
    requires { HasRoomAt put_at request.now disk.old }
    ensures disk { disk.new ≡ stored put_at request.now disk.old }
    ensures length { length disk.new ≡ length disk.old }
{
    if let Some(sector) = put_at {
        disk.write(sector, &request.as_slice()[HEADER_SIZE..]);
    }
}

/// Answers a request, and puts its data onto the disk where its answer says so, by `plan` and `put`. `NoMemory` where the
/// reply can't be had; then the disk is as it was.
pub fn serve(
    alloc: Global,
    disk: &mut Disk,
    member: u32,
    read_only: bool,
    request: &Bytes,
    writable: u64,
) -> Result<BlkAnswer, NoMemory>
    requires member { member ≤ member_limit }
    requires writable { writable < 2 ^ 32 }
    ensures answer { IfOk result (λ answer. answer ≡ answered member read_only disk.old request.now writable) }
    ensures size { IfOk result (HasLength writable) }
    ensures disk { OnOk result (disk.new ≡ disk_after read_only disk.old request.now writable) }
    ensures err { OnErr result (disk.new ≡ disk.old) }
{
    let BlkPlan { answer, put_at } = plan(alloc, disk, member, read_only, request, writable)?;
    put(disk, put_at, request);
    Ok(answer)
}
