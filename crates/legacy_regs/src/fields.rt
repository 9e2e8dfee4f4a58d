//! The tables of fields, and which accesses are refused.
ghost use Rattle.std.specs.Prelude.{◌≡◌, ◌+◌, ◌≤◌, nat_lt, nat_le, ◌&&◌, length, IsTrue, IsFalse};
ghost use Rattle.std.specs.List.{list_any};
ghost use Rattle.legacy_regs.specs.Fields.{is_in_one_field, fields_of, structure_size};
ghost use Rattle.legacy_regs.specs.Accesses.{is_refused_read, is_refused_write};

use crate::accesses::Space;
use crate::device::Kind;

/// Where a field stands in its structure: `size` bytes from `offset` on.
#[derive(Clone, Copy)]
pub(crate) struct Place {
    pub(crate) offset: u8,
    pub(crate) size: u8,
}

const DEVICE_FEATURES: Place = Place { offset: 0, size: 4 };

pub(crate) const DRIVER_FEATURES: Place = Place { offset: 4, size: 4 };

pub(crate) const QUEUE_ADDRESS: Place = Place { offset: 8, size: 4 };

const QUEUE_SIZE: Place = Place {
    offset: 12,
    size: 2,
};

pub(crate) const QUEUE_SELECT: Place = Place {
    offset: 14,
    size: 2,
};

pub(crate) const QUEUE_NOTIFY: Place = Place {
    offset: 16,
    size: 2,
};

pub(crate) const DEVICE_STATUS: Place = Place {
    offset: 18,
    size: 1,
};

pub(crate) const ISR: Place = Place {
    offset: 19,
    size: 1,
};

pub(crate) const CONFIG_VECTOR: Place = Place {
    offset: 20,
    size: 2,
};

pub(crate) const QUEUE_VECTOR: Place = Place {
    offset: 22,
    size: 2,
};

/// The fields of the common structure with MSI-X disabled.
const COMMON_FIELDS: [Place; 8] = [
    DEVICE_FEATURES,
    DRIVER_FEATURES,
    QUEUE_ADDRESS,
    QUEUE_SIZE,
    QUEUE_SELECT,
    QUEUE_NOTIFY,
    DEVICE_STATUS,
    ISR,
];

/// The fields that are there with MSI-X enabled alone.
const VECTOR_FIELDS: [Place; 2] = [CONFIG_VECTOR, QUEUE_VECTOR];

const CAPACITY: Place = Place { offset: 0, size: 8 };

const LIMITS: Place = Place {
    offset: 8,
    size: 12,
};

const BLOCK_SIZE: Place = Place {
    offset: 20,
    size: 4,
};

const TOPOLOGY: Place = Place {
    offset: 24,
    size: 8,
};

pub(crate) const WRITEBACK: Place = Place {
    offset: 32,
    size: 1,
};

const BLOCK_FIELDS: [Place; 5] = [CAPACITY, LIMITS, BLOCK_SIZE, TOPOLOGY, WRITEBACK];

pub(crate) const MAC: Place = Place { offset: 0, size: 6 };

const LINK_STATUS: Place = Place { offset: 6, size: 2 };

const NET_FIELDS: [Place; 2] = [MAC, LINK_STATUS];

impl Place {
    /// Whether an access lies wholly inside this field.
    fn encloses(self, offset: u8, count: u32) -> bool
        ensures { result ≡ (nat_le self.offset offset && nat_le (offset + count) (self.offset + self.size)) }
    {
        let end = u64::from(offset) + u64::from(count);
        self.offset <= offset && end <= u64::from(self.offset) + u64::from(self.size)
    }

    /// Whether a byte of an access is one of this field's.
    pub(crate) fn meets(self, offset: u8, count: u32) -> bool
        ensures { result ≡ (nat_lt offset (self.offset + self.size) && nat_lt self.offset (offset + count)) }
    {
        let end = u64::from(offset) + u64::from(count);
        u64::from(offset) < u64::from(self.offset) + u64::from(self.size)
            && u64::from(self.offset) < end
    }
}

fn is_in_any(fields: &[Place], offset: u8, count: u32) -> bool
    ensures { result ≡ list_any (λ p. nat_le p.offset offset && nat_le (offset + count) (p.offset + p.size)) fields.now }
{
    fields.iter().any(|place| place.encloses(offset, count))
}

/// Whether an access has a byte and lies wholly inside one field.
fn is_in_one_field(kind: &Kind, msix: bool, space: Space, offset: u8, count: u32) -> bool
    ensures value { result ≡ is_in_one_field (fields_of kind.now msix space) offset count }
    ensures inside { IsTrue result → offset + count ≤ structure_size kind.now msix space }
{
    if count == 0 {
        return false;
    }
    match (space, kind) {
        (Space::Common, _) => {
            is_in_any(&COMMON_FIELDS, offset, count)
                || (msix && is_in_any(&VECTOR_FIELDS, offset, count))
        }
        (Space::Device, Kind::Block { .. }) => is_in_any(&BLOCK_FIELDS, offset, count),
        (Space::Device, Kind::Net { .. }) => is_in_any(&NET_FIELDS, offset, count),
    }
}

/// Whether a read of so many bytes is refused.
pub(crate) fn is_refused_read(kind: &Kind, msix: bool, space: Space, offset: u8, count: u32) -> bool
    ensures value { result ≡ is_refused_read kind.now msix space offset count }
    ensures inside { IsFalse result → offset + count ≤ structure_size kind.now msix space }
{
    !is_in_one_field(kind, msix, space, offset, count)
}

/// Whether a write of these bytes is refused.
pub(crate) fn is_refused_write(
    kind: &Kind,
    msix: bool,
    space: Space,
    offset: u8,
    bytes: &[u8],
) -> bool
    requires { length bytes.now ≤ 256 }
    ensures value { result ≡ is_refused_write kind.now msix space offset bytes.now }
    ensures inside { IsFalse result → offset + length bytes.now ≤ structure_size kind.now msix space }
{
    let count = bytes.len() as u32;
    let notifies = space == Space::Common && QUEUE_NOTIFY.meets(offset, count);
    !is_in_one_field(kind, msix, space, offset, count) || (notifies && count != 2)
}
