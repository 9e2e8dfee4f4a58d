//! A network device.
ghost use Rattle.group_examples.specs.Runs.{MemberAnswers};
ghost use Rattle.group_examples.specs.Devices.{block_device, network_device};
ghost use Rattle.group_examples.specs.Network.{frames_are_received, frames_wait, backlogs_are_full, frames_are_refused, frames_are_sent, lengths_are_sent, AreFrames, vectors_are_raised};

/// What frames and steps of a network device are answered.
pub fn frames_are_carried()
    ensures a_frame_that_fits_is_received { MemberAnswers (network_device 4) frames_are_received }
    ensures frames_wait_until_a_reset { MemberAnswers (network_device 4) frames_wait }
    ensures the_next_frame_is_one_too_many { MemberAnswers (network_device 4) backlogs_are_full }
    ensures a_block_device_refuses_frames { MemberAnswers (block_device 1) frames_are_refused }
    ensures only_frames_are_sent { MemberAnswers (network_device 4) frames_are_sent }
    ensures frames_have_their_length { AreFrames lengths_are_sent }
    ensures raised_vectors_are_taken { MemberAnswers (network_device 8) vectors_are_raised }
{}
