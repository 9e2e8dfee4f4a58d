//! Block requests.
ghost use Rattle.group_examples.specs.Runs.{MemberAnswers};
ghost use Rattle.group_examples.specs.Devices.{block_device, read_only_device};
ghost use Rattle.group_examples.specs.Block.{HaveStatus, requests_are_checked, sectors_are_kept, replies_are_scattered, writes_are_refused};

/// What block requests are answered.
pub fn requests_are_served()
    ensures each_request_has_its_status { HaveStatus requests_are_checked }
    ensures a_sector_is_read_as_written { MemberAnswers (block_device 4) sectors_are_kept }
    ensures a_reply_fills_the_buffers_in_order { MemberAnswers (block_device 4) replies_are_scattered }
    ensures a_read_only_device_keeps_its_sectors { MemberAnswers read_only_device writes_are_refused }
{}
