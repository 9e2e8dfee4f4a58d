//! The numbers and the sizes of commands and completions (VIRTIO 1.3, 2.12 and 2.12.1).

/// The opcode of LIST_QUERY: which opcodes does the device know?
pub const LIST_QUERY: u16 = 0;

/// The opcode of LIST_USE: these are the opcodes that the driver uses.
pub const LIST_USE: u16 = 1;

/// The opcode of LEGACY_COMMON_CFG_WRITE.
pub const LEGACY_COMMON_CFG_WRITE: u16 = 2;

/// The opcode of LEGACY_COMMON_CFG_READ.
pub const LEGACY_COMMON_CFG_READ: u16 = 3;

/// The opcode of LEGACY_DEV_CFG_WRITE.
pub const LEGACY_DEV_CFG_WRITE: u16 = 4;

/// The opcode of LEGACY_DEV_CFG_READ.
pub const LEGACY_DEV_CFG_READ: u16 = 5;

/// The opcode of LEGACY_NOTIFY_INFO.
pub const LEGACY_NOTIFY_INFO: u16 = 6;

/// The group type whose members are the virtual functions of a physical function.
pub const SR_IOV: u16 = 1;

/// How many bytes a driver makes writable for LIST_QUERY: the fixed part of a completion, and one word.
pub const QUERY_WRITABLE: u32 = FIXED_SIZE as u32 + 8;

/// How many bytes a driver makes writable for LIST_USE, which has no result.
pub const USE_WRITABLE: u32 = FIXED_SIZE as u32;

/// How many bytes the result of LEGACY_NOTIFY_INFO has: 4 entries of 16 bytes.
pub const INFO_SIZE: usize = 64;

/// How many bytes of a completion stand before its result.
pub(crate) const FIXED_SIZE: usize = 8;

/// How many bytes of a command stand before the data of a write.
pub(crate) const HEADER_SIZE: usize = 32;
