//! The completion rule: what a command is completed with, VIRTIO 1.3, 2.12.1 (group administration commands).
ghost use Rattle.std.specs.Prelude.{◌≡◌, ◌≤◌, ◌+◌, max, [], length};
ghost use Rattle.byte_fields.specs.Places.{bytes_of};
ghost use Rattle.admin_wire.specs.Numbers.{ok, enomem, einval, unqualified, place_payload_limit, qualifier_number};
ghost use Rattle.admin_wire.specs.Done.{done_of};
ghost use Rattle.serve_machine.specs.Completion.{info, owner_done, access_done, completed_with, completed_under};
ghost use Rattle.serve_machine.specs.Within.{IsShortReply, IsShort, IsLow};

use admin_wire::{INFO_SIZE, Qualifier, Status, write_done};
use board_text::Piece;
use group_calls::{MemberReply, OwnerReply, Told};

// The completion with the notify information of a member: the status OK without a qualifier, and 4 reserved bytes; then
// one entry, and three that are empty.
static INFORMED: [u8; 8 + INFO_SIZE] = [
    0, 0, 0, 0, 0, 0, 0, 0, //
    2, 2, 0, 0, 0, 0, 0, 0, 0, 0, 0, 0, 0, 0, 0, 0, //
    0, 0, 0, 0, 0, 0, 0, 0, 0, 0, 0, 0, 0, 0, 0, 0, //
    0, 0, 0, 0, 0, 0, 0, 0, 0, 0, 0, 0, 0, 0, 0, 0, //
    0, 0, 0, 0, 0, 0, 0, 0, 0, 0, 0, 0, 0, 0, 0, 0, //
];

// The first word of a list of opcodes.
fn list_bytes(bits: u64) -> [u8; 8]
    ensures { result ≡ bytes_of 8 bits }
{
    bits.to_le_bytes()
}

// A command was performed, with this result, which is short.
fn put_performed(result_bytes: &[u8], writable: u32, bytes: &mut Piece)
    requires { length result_bytes.now ≤ place_payload_limit }
    ensures { bytes.new ≡ done_of ok unqualified result_bytes.now writable }
{
    *bytes = write_done(
        Status::Ok.number(),
        Qualifier::Unqualified.number(),
        result_bytes,
        writable,
    );
}

// A member's notify information was asked for. The bytes stay where they are.
fn put_informed(writable: u32, bytes: &mut Piece)
    ensures { bytes.new ≡ done_of ok unqualified info writable }
{
    *bytes = Piece::lent(&INFORMED);
    bytes.truncate(writable);
}

// A command wasn't performed, and these are the numbers of its status and its qualifier.
fn put_refused(status: u16, qualifier: u16, writable: u32, bytes: &mut Piece)
    ensures { bytes.new ≡ done_of status qualifier [] writable }
{
    *bytes = write_done(status, qualifier, &[], writable);
}

// A register access wasn't carried out.
fn put_invalid(qualifier: Qualifier, writable: u32, bytes: &mut Piece)
    ensures { bytes.new ≡ done_of einval (qualifier_number qualifier) [] writable }
{
    put_refused(Status::Einval.number(), qualifier.number(), writable, bytes);
}

// There was no memory for a command.
fn put_no_memory(writable: u32, bytes: &mut Piece)
    ensures { bytes.new ≡ done_of enomem unqualified [] writable }
{
    let qualifier = Qualifier::Unqualified.number();
    put_refused(Status::Enomem.number(), qualifier, writable, bytes);
}

// As `owner_done`, in this place.
fn put_owner_done(reply: &OwnerReply, writable: u32, bytes: &mut Piece)
    ensures { bytes.new ≡ owner_done writable reply.now }
{
    match reply {
        OwnerReply::List { bits } => put_performed(&list_bytes(*bits), writable, bytes),
        OwnerReply::Used => put_performed(&[], writable, bytes),
        OwnerReply::Refused {
            status,
            qualifier,
            ..
        } => put_refused(*status, *qualifier, writable, bytes),
        _ => bytes.truncate(0),
    }
}

/// The completion of a command that the owner decided by this reply. An access that goes to its member isn't
/// completed yet and has no bytes.
pub fn owner_done(reply: &OwnerReply, writable: u32) -> Piece
    ensures { result ≡ owner_done writable reply.now }
{
    let mut bytes = Piece::new();
    put_owner_done(reply, writable, &mut bytes);
    bytes
}

// As `access_done`, in this place.
fn put_access_done(reply: &MemberReply, writable: u32, bytes: &mut Piece)
    requires { IsShortReply reply.now }
    ensures { bytes.new ≡ access_done writable reply.now }
{
    match reply {
        MemberReply::Data(data) => put_performed(data.as_slice(), writable, bytes),
        MemberReply::Written => put_performed(&[], writable, bytes),
        MemberReply::Info => put_informed(writable, bytes),
        MemberReply::Refused(_) => put_invalid(Qualifier::InvalidField, writable, bytes),
        MemberReply::Gone { .. } => put_invalid(Qualifier::InvalidMember, writable, bytes),
        _ => bytes.truncate(0),
    }
}

/// The completion of a register access that its member answered so. What a read gave has at most 31 bytes.
pub fn access_done(reply: &MemberReply, writable: u32) -> Piece
    requires { IsShortReply reply.now }
    ensures { result ≡ access_done writable reply.now }
{
    let mut bytes = Piece::new();
    put_access_done(reply, writable, &mut bytes);
    bytes
}

/// The completion of a command that the owner or its member answered so, or for which there was no memory, in this
/// place.
pub(crate) fn put_completed_with(told: &Told, writable: u32, bytes: &mut Piece)
    requires { IsShort told.now }
    ensures { bytes.new ≡ completed_with told.now writable }
{
    match told {
        Told::Owner(placed) => put_owner_done(&placed.reply, writable, bytes),
        Told::Member(placed) => put_access_done(&placed.reply, writable, bytes),
        Told::NoMemory => put_no_memory(writable, bytes),
        Told::Queue(_) => bytes.truncate(0),
    }
}

/// The floor of that completion, where the command's tag has this one.
pub(crate) fn completed_under(floor: u64, told: &Told) -> u64
    requires { IsLow told.now }
    ensures { result ≡ completed_under floor told.now }
{
    match told {
        Told::Owner(placed) => match &placed.reply {
            OwnerReply::Refused { floor: told, .. } => floor.max(*told),
            _ => floor,
        },
        Told::Member(placed) => floor.max(placed.at + 1),
        _ => floor,
    }
}
