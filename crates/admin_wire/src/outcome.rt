//! What becomes of a command: VIRTIO 1.3, 2.12.1 (group administration commands).
ghost use Rattle.std.specs.Prelude.{◌≡◌};
ghost use Rattle.admin_wire.specs.Numbers.{status_number, qualifier_number};

/// The status of a completion.
#[derive(Clone, Copy, Debug, PartialEq, Eq)]
pub enum Status {
    /// VIRTIO_ADMIN_STATUS_OK: the command was performed.
    Ok,
    /// VIRTIO_ADMIN_STATUS_ENOMEM: there was no memory for it.
    Enomem,
    /// VIRTIO_ADMIN_STATUS_EINVAL: it is refused.
    Einval,
}

/// What qualifies the status of a completion. The numbers are of this project.
#[derive(Clone, Copy, Debug, PartialEq, Eq)]
pub enum Qualifier {
    /// Nothing, of any status but EINVAL.
    Unqualified,
    /// The opcode is unknown or not in use.
    InvalidOpcode,
    /// A field of the command's data can't be as it is.
    InvalidField,
    /// The group isn't SR-IOV.
    InvalidGroup,
    /// There is no such member.
    InvalidMember,
}

impl Status {
    /// Its number in a completion.
    pub fn number(self) -> u16
        ensures { result ≡ status_number self }
    {
        match self {
            Status::Ok => 0,
            Status::Enomem => 12,
            Status::Einval => 22,
        }
    }
}

impl Qualifier {
    /// Its number in a completion.
    pub fn number(self) -> u16
        ensures { result ≡ qualifier_number self }
    {
        match self {
            Qualifier::Unqualified => 0,
            Qualifier::InvalidOpcode => 1,
            Qualifier::InvalidField => 2,
            Qualifier::InvalidGroup => 3,
            Qualifier::InvalidMember => 4,
        }
    }
}
