//! What a request asks for, and its status (VIRTIO 1.3, 5.2.6).
ghost use Rattle.std.specs.Prelude.{◌≡◌, ◌≤◌, ◌==◌, ◌&&◌, length, Some, None, if◌then◌else◌};
ghost use Rattle.byte_fields.specs.Places.{le32, le64};
ghost use Rattle.blk_engine.specs.Block.{are_sectors as are_sectors_of, status as status_for};
ghost use Rattle.blk_engine.specs.Parsed.{parsed};

use crate::disk::SECTOR_SIZE;
use byteorder::{ByteOrder, LittleEndian};

/// How many bytes stand before the data: le32 type, le32 reserved, le64 sector.
pub(crate) const HEADER_SIZE: usize = 16;

// The types of requests, VIRTIO_BLK_T_IN and so on.
pub(crate) const IN: u32 = 0;

const OUT: u32 = 1;

const FLUSH: u32 = 4;

pub(crate) const GET_ID: u32 = 8;

// The statuses, VIRTIO_BLK_S_OK and so on.
pub(crate) const OK: u8 = 0;

const IOERR: u8 = 1;

const UNSUPP: u8 = 2;

/// How many bytes a device's name has.
pub(crate) const ID_SIZE: usize = 20;

/// What a request asks for.
#[derive(Clone, Copy)]
pub(crate) struct Request {
    /// Its type.
    pub(crate) kind: u32,
    pub(crate) sector: u64,
    /// How many bytes are given behind the header.
    pub(crate) given: u64,
    /// How many bytes may be written before the status.
    pub(crate) room: u64,
}

// The type of a request.
fn kind_of(request: &[u8]) -> u32
    requires { 16 ≤ length request.now }
    ensures { result ≡ le32 0 request.now }
{
    LittleEndian::read_u32(request)
}

// The sector of a request.
fn sector_of(request: &[u8]) -> u64
    requires { 16 ≤ length request.now }
    ensures { result ≡ le64 8 request.now }
{
    LittleEndian::read_u64(&request[8..])
}

/// What a request asks for, given its bytes and how many may be written. `None` exactly where it is malformed.
pub(crate) fn parse(request: &[u8], writable: u64) -> Option<Request>
    ensures { result ≡ parsed request.now writable }
{
    if request.len() < HEADER_SIZE || writable == 0 {
        return None;
    }
    Some(Request {
        kind: kind_of(request),
        sector: sector_of(request),
        given: (request.len() - HEADER_SIZE) as u64,
        room: writable - 1,
    })
}

// Whether so many bytes are whole sectors, all of the disk. The sum isn't made, since it may wrap.
fn are_sectors(capacity: u64, sector: u64, count: u64) -> bool
    ensures { result ≡ are_sectors_of capacity sector count }
{
    count % SECTOR_SIZE == 0 && sector <= capacity && count / SECTOR_SIZE <= capacity - sector
}

// A request whose condition fails is an error.
fn ok_where(fine: bool) -> u8
    ensures { result ≡ (if fine then 0 else 1) }
{
    if fine { OK } else { IOERR }
}

impl Request {
    /// Its status, on a disk of so many sectors.
    pub(crate) fn status(self, capacity: u64, read_only: bool) -> u8
        ensures { result ≡ status_for capacity read_only self.kind self.sector self.given self.room }
    {
        match self.kind {
            IN => ok_where(are_sectors(capacity, self.sector, self.room)),
            OUT => ok_where(are_sectors(capacity, self.sector, self.given) && !read_only),
            FLUSH => OK,
            GET_ID => ok_where(ID_SIZE as u64 <= self.room),
            _ => UNSUPP,
        }
    }

    /// The sector at which its data goes onto the disk, where it has this status, if any does.
    pub(crate) fn put_at(self, status: u8) -> Option<u64>
        ensures { result ≡ (if (self.kind == 1) && (status == 0) then Some self.sector else None) }
    {
        if self.kind == OUT && status == OK {
            Some(self.sector)
        } else {
            None
        }
    }
}
