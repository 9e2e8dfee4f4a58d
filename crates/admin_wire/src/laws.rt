//! The constants of this crate are the numbers of its definitions, and its values cross threads.
ghost use Rattle.std.specs.Prelude.{◌≡◌};
ghost use Rattle.admin_wire.specs.Numbers.{list_query, list_use, legacy_common_cfg_write, legacy_common_cfg_read, legacy_dev_cfg_write, legacy_dev_cfg_read, legacy_notify_info, sr_iov, query_writable, use_writable, info_size};

use crate::command::{Body, Command, Header, LegacyCmd};
use crate::done::DoneParts;
use crate::numbers::{
    INFO_SIZE, LEGACY_COMMON_CFG_READ, LEGACY_COMMON_CFG_WRITE, LEGACY_DEV_CFG_READ,
    LEGACY_DEV_CFG_WRITE, LEGACY_NOTIFY_INFO, LIST_QUERY, LIST_USE, QUERY_WRITABLE, SR_IOV,
    USE_WRITABLE,
};
use crate::outcome::{Qualifier, Status};

/// The opcodes, the group type and the sizes.
pub fn constants_are_the_numbers()
    ensures list_query { LIST_QUERY ≡ list_query }
    ensures list_use { LIST_USE ≡ list_use }
    ensures common_write { LEGACY_COMMON_CFG_WRITE ≡ legacy_common_cfg_write }
    ensures common_read { LEGACY_COMMON_CFG_READ ≡ legacy_common_cfg_read }
    ensures dev_write { LEGACY_DEV_CFG_WRITE ≡ legacy_dev_cfg_write }
    ensures dev_read { LEGACY_DEV_CFG_READ ≡ legacy_dev_cfg_read }
    ensures notify_info { LEGACY_NOTIFY_INFO ≡ legacy_notify_info }
    ensures group_type { SR_IOV ≡ sr_iov }
    ensures query { QUERY_WRITABLE ≡ query_writable }
    ensures use_list { USE_WRITABLE ≡ use_writable }
    ensures info { INFO_SIZE ≡ info_size }
{}

fn crosses<T: Send + Sync>() {}

/// Commands and completions may be sent to threads, and shared by threads.
pub fn wire_values_cross_threads() {
    crosses::<LegacyCmd>();
    crosses::<Body>();
    crosses::<Command>();
    crosses::<Header>();
    crosses::<DoneParts>();
    crosses::<Status>();
    crosses::<Qualifier>();
}
