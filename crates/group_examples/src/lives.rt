//! From boot to the end.
ghost use Rattle.group_examples.specs.Runs.{MemberAnswers, DeviceAnswers};
ghost use Rattle.group_examples.specs.Devices.{block_device};
ghost use Rattle.group_examples.specs.Ends.{members_are_gone, devices_are_gone};
ghost use Rattle.group_examples.specs.Boot.{a_guest_boots};

/// A device that is attached directly, from its boot on, and a member and a device that are killed.
pub fn devices_boot_and_end()
    ensures a_block_guest_boots { DeviceAnswers (block_device 4) a_guest_boots }
    ensures a_killed_member_is_gone { MemberAnswers (block_device 1) members_are_gone }
    ensures a_killed_device_reads_ones { DeviceAnswers (block_device 1) devices_are_gone }
{}
