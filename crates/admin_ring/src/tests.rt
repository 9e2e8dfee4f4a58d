ghost use Rattle.std.specs.Prelude.{◌≤◌};
ghost use Rattle.group_calls.specs.Queue.{IsQueueSize};

mod plain_queue;

use super::*;
use crate::host::Host;
use board_text::{FloorList, Floors, Piece};
use group_calls::{RingCall, RingReply, Serial, Tag, WRITABLE_LIMIT};
use plain_queue::PlainQueue;
use std::alloc::{AllocError as NoMemory, Global};

// The reply of a queue to an actor's call. A Post with too much room is no call of a queue.
fn reply_to(ring: &mut AdminRing, call: &RingCall) -> Result<RingReply, NoMemory> {
    if let RingCall::Post { writable, .. } = call
        && *writable > WRITABLE_LIMIT
    {
        return Err(NoMemory);
    }
    Ok(ring.apply(1, call)?.reply)
}

// The queue over a ring and the one over a list.
#[derive(Drop)]
struct Both {
    ring: AdminRing,
    plain: PlainQueue,
}

impl Both {
    fn agree(&mut self, call: &RingCall) -> Result<bool, NoMemory> {
        let expected = self.plain.apply(call)?;
        Ok(reply_to(&mut self.ring, call)? == expected)
    }
}

fn piece(alloc: Global, byte: u8, len: u64) -> Result<Piece, NoMemory>
    requires { len ≤ 256 }
{
    let bytes = [byte; 256];
    Piece::from_slice(alloc, &bytes[..len as usize])
}

fn floors(alloc: Global) -> Result<Floors, NoMemory> {
    let mut list = FloorList::new();
    list.push(9);
    list.push(700);
    Floors::of(alloc, &list)
}

// A call that a random number picks: each kind, of commands that are outstanding and of others.
fn picked_call(alloc: Global, random: u64, plain: &PlainQueue) -> Result<RingCall, NoMemory> {
    let bytes = piece(alloc, (random >> 56) as u8, (random >> 8) % 257)?;
    let floor = random % 1000;
    let call = match (random >> 40) % 16 {
        0..5 => RingCall::Post {
            bytes,
            writable: ((random >> 24) % 257) as u32,
            tag: Tag {
                guest: ((random >> 16) % 5) as u32,
                floor,
            },
        },
        5..9 => RingCall::Pop,
        9..12 => RingCall::Complete {
            seq: plain.completed,
            bytes,
            floor,
        },
        12 => RingCall::Complete {
            seq: plain.posted.wrapping_sub(floor % 4),
            bytes,
            floor,
        },
        _ => RingCall::Take {
            seq: plain.posted.wrapping_sub((random >> 24) % 140),
        },
    };
    Ok(call)
}

// The first of 100,000 calls that both answer differently. Near the end the owner is reset.
fn first_difference(alloc: Global, size: u16) -> Result<Option<u32>, NoMemory>
    requires { IsQueueSize size }
{
    let mut both = Both {
        ring: AdminRing::new(alloc, size)?,
        plain: PlainQueue::new(alloc, size),
    };
    let mut random = 1u64;
    for turn in 0..100_000 {
        random = random
            .wrapping_mul(6364136223846793005)
            .wrapping_add(1442695040888963407);
        let call = if turn == 99_000 {
            RingCall::Reset {
                floors: floors(alloc)?,
            }
        } else {
            picked_call(alloc, random, &both.plain)?
        };
        if !both.agree(&call)? {
            return Ok(Some(turn));
        }
    }
    Ok(None)
}

// Whether both agree on the four calls of a command.
fn agree_on_command(alloc: Global, both: &mut Both, seq: u64) -> Result<bool, NoMemory> {
    let posted = both.agree(&RingCall::Post {
        bytes: piece(alloc, 7, seq % 257)?,
        writable: 3,
        tag: Tag { guest: 1, floor: 5 },
    })?;
    let fetched = both.agree(&RingCall::Pop)?;
    let completed = both.agree(&RingCall::Complete {
        seq,
        bytes: piece(alloc, 9, seq % 5)?,
        floor: 6,
    })?;
    let taken = both.agree(&RingCall::Take { seq })?;
    Ok(posted && fetched && completed && taken)
}

// The first of these commands, each taken back before the next is posted, on which both differ.
fn first_other_command(alloc: Global, commands: u64) -> Result<Option<u64>, NoMemory> {
    let mut both = Both {
        ring: AdminRing::new(alloc, 4)?,
        plain: PlainQueue::new(alloc, 4),
    };
    for seq in 0..commands {
        if !agree_on_command(alloc, &mut both, seq)? {
            return Ok(Some(seq));
        }
    }
    Ok(None)
}

#[test]
fn the_queue_answers_as_one_over_a_list(rt: HostRuntime) -> Result<(), NoMemory> {
    for size in [4, 8, 16, 32, 64, 128, 256] {
        assert_eq!(rt; first_difference(rt.alloc(), size)?, None, "size {size}");
    }
    Ok(())
}

#[test]
fn the_indices_of_the_ring_pass_their_last_value(rt: HostRuntime) -> Result<(), NoMemory> {
    assert_eq!(rt; first_other_command(rt.alloc(), 65_540)?, None);
    Ok(())
}

#[test]
fn a_queue_takes_the_pages_of_its_ring_and_its_slots(rt: HostRuntime) -> Result<(), NoMemory> {
    for (size, length) in [(4, 16_384), (256, 81_920)] {
        let host = Host::new(rt.alloc(), size)?;
        assert_eq!(rt; host.mem.length(), length, "size {size}");
    }
    Ok(())
}

const TAG: Tag = Tag { guest: 2, floor: 5 };

// A command of three bytes, to be answered with at most two.
fn post() -> RingCall {
    RingCall::Post {
        bytes: Piece::short(&[1; 3]),
        writable: 2,
        tag: TAG,
    }
}

fn complete() -> RingCall {
    RingCall::Complete {
        seq: 0,
        bytes: Piece::short(&[8; 3]),
        floor: 6,
    }
}

#[test]
fn a_command_goes_through_its_queue(rt: HostRuntime) -> Result<(), NoMemory> {
    let alloc = rt.alloc();
    let mut ring = AdminRing::new(alloc, 4)?;
    let calls = [
        (post(), RingReply::Seq(0)),
        (post(), RingReply::Seq(1)),
        (post(), RingReply::Full),
        (
            RingCall::Pop,
            RingReply::Fetched {
                seq: 0,
                bytes: Piece::short(&[1; 3]),
                writable: 2,
                tag: TAG,
            },
        ),
        (RingCall::Pop, RingReply::InService { seq: 0 }),
        (RingCall::Take { seq: 0 }, RingReply::NotYet),
        (complete(), RingReply::Completed),
        (
            RingCall::Reset {
                floors: floors(alloc)?,
            },
            RingReply::ResetDone,
        ),
        (
            RingCall::Take { seq: 0 },
            RingReply::Ready {
                bytes: Piece::short(&[8; 2]),
                floor: 6,
            },
        ),
        (RingCall::Take { seq: 1 }, RingReply::Lost { floor: 700 }),
        (RingCall::Take { seq: 1 }, RingReply::Stale),
        (post(), RingReply::Closed { floor: 700 }),
        (RingCall::Pop, RingReply::Empty),
    ];
    for (call, reply) in &calls {
        assert_eq!(rt; reply_to(&mut ring, call)?, *reply);
    }
    Ok(())
}

// What a command of so many bytes is fetched as, and taken as once it is completed with so many.
fn fetched_and_taken(
    alloc: Global,
    len: u64,
    writable: u32,
    count: u64,
) -> Result<(RingReply, RingReply), NoMemory>
    requires len { len ≤ 256 }
    requires count { count ≤ 256 }
{
    let mut ring = AdminRing::new(alloc, 4)?;
    let post = RingCall::Post {
        bytes: piece(alloc, 1, len)?,
        writable,
        tag: TAG,
    };
    let complete = RingCall::Complete {
        seq: 0,
        bytes: piece(alloc, 8, count)?,
        floor: 6,
    };
    reply_to(&mut ring, &post)?;
    let fetched = reply_to(&mut ring, &RingCall::Pop)?;
    reply_to(&mut ring, &complete)?;
    let taken = reply_to(&mut ring, &RingCall::Take { seq: 0 })?;
    Ok((fetched, taken))
}

#[test]
fn long_commands_and_answers_go_through_their_queue(rt: HostRuntime) -> Result<(), NoMemory> {
    let alloc = rt.alloc();
    for len in [0u64, 39, 40, 256] {
        for (writable, count, kept) in [
            (39, 39, 39),
            (39, 40, 39),
            (40, 39, 39),
            (40, 40, 40),
            (256, 200, 200),
        ] {
            let fetched = RingReply::Fetched {
                seq: 0,
                bytes: piece(alloc, 1, len)?,
                writable,
                tag: TAG,
            };
            let taken = RingReply::Ready {
                bytes: piece(alloc, 8, kept)?,
                floor: 6,
            };
            let replies = fetched_and_taken(alloc, len, writable, count)?;
            assert_eq!(rt;
                replies,
                (fetched, taken),
                "{len} bytes, {writable} writable, {count} written"
            );
        }
    }
    Ok(())
}
