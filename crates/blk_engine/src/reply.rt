//! The bytes that a request is answered (VIRTIO 1.3, 5.2.6).
ghost use Rattle.std.specs.Prelude.{◌≡◌, ◌+◌, ◌*◌, ◌<◌, ◌≤◌, ◌^◌, [], ◌∷◌, ◌++◌, length, IfOk};
ghost use Rattle.byte_fields.specs.Sizes.{member_limit, sector_size};
ghost use Rattle.blk_engine.specs.Block.{device_id as id_of, data_of, padded};

use crate::disk::Disk;
use crate::request::{GET_ID, ID_SIZE, IN, OK, Request};
use board_text::Bytes;
use std::alloc::{AllocError as NoMemory, Global};

// The digit of a number below ten.
fn digit(number: u32) -> u8
    requires { number ≤ 9 }
    ensures { result ≡ 48 + number }
{
    b'0' + number as u8
}

// The name of a member's disk, with the member's number in three digits.
fn device_id(member: u32) -> [u8; ID_SIZE]
    requires { member ≤ member_limit }
    ensures { result ≡ id_of member }
{
    let mut id = *b"virtio-group-blk-000";
    id[17] = digit(member / 100);
    id[18] = digit(member / 10 % 10);
    id[19] = digit(member % 10);
    id
}

// The data, zeros up to the room, and the status.
fn reply_of(alloc: Global, content: &[u8], room: u64, status: u8) -> Result<Bytes, NoMemory>
    requires { room < 2 ^ 32 }
    ensures bytes { IfOk result (λ reply. reply ≡ padded room content.now ++ status ∷ []) }
    ensures size { IfOk result (λ reply. length reply ≡ room + 1) }
{
    let room = room as usize;
    let mut reply = Vec::with_capacity(alloc, room + 1)?;
    reply.extend_from_slice(content)?;
    reply.resize(room, 0)?;
    reply.push(status)?;
    Ok(Bytes::from(reply))
}

impl Request {
    /// The reply to it, once its status is known.
    pub(crate) fn reply(
        self,
        alloc: Global,
        disk: &Disk,
        member: u32,
        status: u8,
    ) -> Result<Bytes, NoMemory>
        requires member { member ≤ member_limit }
        requires room { self.room < 2 ^ 32 }
        requires inside { self.kind ≡ 0 → status ≡ 0 → sector_size * self.sector + self.room ≤ length disk.now }
        ensures bytes { IfOk result (λ reply. reply
            ≡ padded self.room (data_of member disk.now self.kind self.sector self.room status) ++ status ∷ []) }
        ensures size { IfOk result (λ reply. length reply ≡ self.room + 1) }
    {
        if status != OK {
            return reply_of(alloc, &[], self.room, status);
        }
        match self.kind {
            IN => reply_of(alloc, disk.read(self.sector, self.room), self.room, status),
            GET_ID => reply_of(alloc, &device_id(member), self.room, status),
            _ => reply_of(alloc, &[], self.room, status),
        }
    }
}
