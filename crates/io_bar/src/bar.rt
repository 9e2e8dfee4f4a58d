//! The emulated BAR of one member.
ghost use Rattle.std.specs.Prelude.{◌≡◌, length, true};
ghost use Rattle.byte_fields.specs.Places.{le16};
ghost use Rattle.io_bar.specs.Route.{offset_of, count_of, place_of, is_local, route_of, is_port_width, bar_size as bar_size_of, device_base as device_base_of, read_command as read_command_of, write_command as write_command_of, passed_on as passed_on_of};
ghost use Rattle.io_bar.specs.Configuration.{configuration_read};

use crate::access::{Access, Place, Route};
use crate::configuration::{CONFIGURATION_SIZE, configuration};
use admin_wire::LegacyCmd;
use board_text::Piece;
use byteorder::{ByteOrder, LittleEndian};
use legacy_regs::Kind;
use std::marker::Model;

/// The BAR of a member of a kind. Contracts see the kind.
#[derive(Clone, Copy, Debug)]
pub struct Bar {
    kind: Kind,
}

impl Model for Bar {
    ghost use Rattle.legacy_regs.specs.declared.device.Kind.{Kind};

    ghost Value = { Kind };

    ghost view = { λ bar. bar.kind };

    ghost inverse = { λ kind. record { kind = kind } };
}

/// The offset of queue notify, whose write of 2 bytes is a doorbell: VIRTIO 1.3, 4.1.4.10.
const QUEUE_NOTIFY: u8 = 16;

// How many bytes the BAR of a kind has.
fn bar_size(kind: &Kind) -> u64
    ensures { result ≡ bar_size_of kind.now }
{
    match kind {
        Kind::Block { .. } => 64,
        Kind::Net { .. } => 32,
    }
}

// The first byte and the number of bytes of an access.
fn extent(access: &Access) -> (u8, u64)
    ensures offset { result.0 ≡ offset_of access.now }
    ensures count { result.1 ≡ count_of access.now }
{
    match access {
        Access::Read { offset, length } => (*offset, u64::from(*length)),
        Access::Write { offset, bytes } => (*offset, bytes.as_slice().len() as u64),
    }
}

// Whether an access stays with the host.
fn stays(kind: &Kind, io: bool, access: &Access) -> bool
    requires { is_port_width (count_of access.now) ≡ true }
    ensures { result ≡ is_local kind.now io access.now }
{
    let (offset, count) = extent(access);
    !io || bar_size(kind) < u64::from(offset) + count
}

// The number of 2 bytes.
fn queue_number(bytes: &Piece) -> u16
    requires { length bytes.now ≡ 2 }
    ensures { result ≡ le16 0 bytes.now }
{
    LittleEndian::read_u16(bytes.as_slice())
}

// The offset in the BAR at which the device-specific structure begins.
fn device_base(msix: bool) -> u8
    ensures { result ≡ device_base_of msix }
{
    if msix { 24 } else { 20 }
}

fn read_command(base: u8, offset: u8, length: u32) -> LegacyCmd
    ensures { result ≡ read_command_of base offset length }
{
    if offset < base {
        LegacyCmd::CommonRead { offset, length }
    } else {
        LegacyCmd::DevRead {
            offset: offset - base,
            length,
        }
    }
}

fn write_command(base: u8, offset: u8, bytes: Piece) -> LegacyCmd
    ensures { result ≡ write_command_of base offset bytes }
{
    if offset < base {
        LegacyCmd::CommonWrite { offset, bytes }
    } else {
        LegacyCmd::DevWrite {
            offset: offset - base,
            bytes,
        }
    }
}

fn passed_on(msix: bool, access: &Access) -> Route
    ensures { result ≡ passed_on_of msix access.now }
{
    let base = device_base(msix);
    match access {
        Access::Read { offset, length } => Route::Command(read_command(base, *offset, *length)),
        Access::Write { offset, bytes } => {
            if *offset == QUEUE_NOTIFY && bytes.as_slice().len() == 2 {
                Route::Doorbell {
                    queue: queue_number(bytes),
                }
            } else {
                Route::Command(write_command(base, *offset, bytes.copy()))
            }
        }
    }
}

impl Bar {
    /// The BAR of a member of this kind.
    pub fn new(kind: Kind) -> Bar
        ensures { result ≡ kind }
    {
        Bar { kind }
    }

    /// Where an access goes, with MSI-X and I/O as they are for the guest. The BAR has 64 bytes for a block device and
    /// 32 for a network device (of this project); the device-specific structure begins at 20, or at 24 with MSI-X
    /// enabled (VIRTIO 1.3, 4.1.4.10).
    pub fn route(&self, msix: bool, io: bool, access: &Access) -> Route
        requires { is_port_width (count_of access.now) ≡ true }
        ensures { result ≡ route_of self.now msix io access.now }
    {
        if stays(&self.kind, io, access) {
            Route::Local
        } else {
            passed_on(msix, access)
        }
    }

    /// Where so many bytes from an offset of the BAR on lie, with MSI-X and I/O as they are for the guest: as `route` has it,
    /// for an access that is no doorbell.
    pub fn place(&self, msix: bool, io: bool, offset: u8, count: u32) -> Place
        ensures { result ≡ place_of self.now msix io offset count }
    {
        if !io || bar_size(&self.kind) < u64::from(offset) + u64::from(count) {
            return Place::Outside;
        }
        let base = device_base(msix);
        if offset < base {
            Place::Common { offset }
        } else {
            Place::Device {
                offset: offset - base,
            }
        }
    }

    /// So many bytes of the configuration space, from an offset on. A read that passes its 64 bytes gives all ones.
    pub fn config(&self, io: bool, offset: u8, length: u32) -> Piece
        requires { is_port_width length ≡ true }
        ensures { result ≡ configuration_read self.now io offset length }
    {
        let begin = usize::from(offset);
        let end = begin + length as usize;
        if end > CONFIGURATION_SIZE {
            return Piece::short(&[0xff; 4][..length as usize]);
        }
        let all = configuration(&self.kind, io);
        Piece::short(&all.as_slice()[begin..end])
    }
}

fn crosses<T: Send + Sync>() {}

/// A BAR, accesses and where they go may be sent to a thread, and shared by threads.
pub fn bars_cross_threads() {
    crosses::<Bar>();
    crosses::<Access>();
    crosses::<Route>();
    crosses::<Place>();
}
