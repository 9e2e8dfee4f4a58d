//! Verdicts on commands.
ghost use Rattle.group_examples.specs.Runs.{OwnerAnswers};
ghost use Rattle.group_examples.specs.Owner.{commands_are_read, lists_are_used, unsupported_lists, members_exist, accesses_are_read, commands_are_short, members_go};

/// What the owner answers to commands: how their bytes are read, which list is in use, and which members there are.
pub fn commands_are_judged()
    ensures missing_bytes_are_zeros { OwnerAnswers commands_are_read }
    ensures a_list_in_use_decides { OwnerAnswers lists_are_used }
    ensures an_unsupported_list_is_refused { OwnerAnswers unsupported_lists }
    ensures only_members_are_reached { OwnerAnswers members_exist }
    ensures accesses_are_taken_apart { OwnerAnswers accesses_are_read }
    ensures each_length_is_read { OwnerAnswers commands_are_short }
    ensures disabled_members_are_gone { OwnerAnswers members_go }
{}
