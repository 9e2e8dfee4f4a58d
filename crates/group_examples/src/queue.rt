//! Administration queues.
ghost use Rattle.group_examples.specs.Runs.{QueueAnswers};
ghost use Rattle.group_examples.specs.Queue.{commands_are_served, resets_close};

/// What a queue of four entries answers: to commands that are served in order, and after a reset.
pub fn queues_are_answered()
    ensures commands_are_served_in_order { QueueAnswers 4 commands_are_served }
    ensures a_reset_closes_the_queue { QueueAnswers 4 resets_close }
{}
