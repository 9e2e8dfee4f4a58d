//! Register accesses.
ghost use Rattle.std.specs.Prelude.{[], ◌∷◌};
ghost use Rattle.group_calls.specs.declared.member.MemberCall.TheVariants.{Flr};
ghost use Rattle.group_examples.specs.Runs.{MemberAnswers, DeviceAnswers};
ghost use Rattle.group_examples.specs.Devices.{block_device, network_device};
ghost use Rattle.group_examples.specs.Registers.{write, msix_moves_the_base, notify_is_two_bytes, network_registers, short_and_crossing, parts_of_fields, vectors_are_kept, queues_are_selected, resets_clear, macs_return};

/// What accesses to the legacy registers are answered, and what resets leave.
pub fn registers_are_accessed()
    ensures msix_moves_the_device_registers { DeviceAnswers (block_device 1) msix_moves_the_base }
    ensures a_notification_has_two_bytes { DeviceAnswers (block_device 1) notify_is_two_bytes }
    ensures network_registers_are_reached { DeviceAnswers (network_device 1) network_registers }
    ensures short_and_crossing_accesses_are_refused { MemberAnswers (block_device 1) short_and_crossing }
    ensures parts_of_fields_are_written { MemberAnswers (block_device 1) parts_of_fields }
    ensures vectors_are_bounded { MemberAnswers (network_device 4) vectors_are_kept }
    ensures queues_have_their_own_registers { MemberAnswers (network_device 4) queues_are_selected }
    ensures a_status_of_zero_resets { MemberAnswers (block_device 1) (resets_clear (write 18 (0 ∷ []))) }
    ensures a_function_level_reset_resets { MemberAnswers (block_device 1) (resets_clear Flr) }
    ensures a_mac_outlives_a_reset { MemberAnswers (network_device 4) macs_return }
{}
