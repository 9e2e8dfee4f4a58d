//! A block device's queue.
ghost use Rattle.group_examples.specs.Runs.{MemberAnswers, EachAnswers};
ghost use Rattle.group_examples.specs.Devices.{block_device};
ghost use Rattle.group_examples.specs.Rings.{services_raise_isr, interrupts_are_unwanted, addresses_restart, guests_are_hostile};
ghost use Rattle.group_examples.specs.Rings.{rings_are_hostile, rings_fit, tables_are_followed, positions_are_awaited};

/// What steps of a block device's queue are answered.
pub fn rings_are_stepped()
    ensures a_service_raises_isr { MemberAnswers (block_device 4) services_raise_isr }
    ensures an_unwanted_interrupt_is_silent { MemberAnswers (block_device 4) interrupts_are_unwanted }
    ensures an_address_write_restarts_a_ring { MemberAnswers (block_device 4) addresses_restart }
    ensures a_hostile_guest_halts_its_queue { MemberAnswers (block_device 4) guests_are_hostile }
    ensures hostile_rings_are_answered { EachAnswers (block_device 4) rings_are_hostile }
    ensures a_ring_fits_its_memory { MemberAnswers (block_device 4) rings_fit }
    ensures a_table_is_followed_where_accepted { EachAnswers (block_device 4) tables_are_followed }
    ensures an_interrupt_comes_at_the_awaited_position { EachAnswers (block_device 4) positions_are_awaited }
{}
