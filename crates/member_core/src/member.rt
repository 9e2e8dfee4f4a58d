//! A member and its history.
ghost use Rattle.std.specs.Prelude.{◌≡◌, [], IfOk};
ghost use Rattle.history.specs.Legal.{never_quiet, never_spares};
ghost use Rattle.group_calls.specs.Member.{IsMemberMade, member_answer, member_may};

use crate::state::State;
use group_calls::{
    Entry, HISTORY_LIMIT, Kind, Log, MemberCall, MemberMade, MemberReply, Placed, Serial,
};
use member_device::Device;
use std::alloc::{AllocError as NoMemory, Global};
use std::marker::Model;

/// A member: a virtual function, whose legacy registers, queues, disk or network it has, together with its guest's memory
/// (VIRTIO 1.3, 2.12, 4.1.4.10, 2.7, 5.1 and 5.2). Contracts see what it was made with and its history, the latest entry
/// first.
#[derive(Drop)]
pub struct Member {
    state: State,
    log: Log<MemberCall, MemberReply>,
}

impl Model for Member {
    ghost use Rattle.group_calls.specs.declared.member.MemberMade.{MemberMade};
    ghost use Rattle.group_calls.specs.declared.member.MemberCall.{MemberCall};
    ghost use Rattle.group_calls.specs.declared.member.MemberReply.{MemberReply};
    ghost use Rattle.history.specs.Legal.{Cell};

    ghost Value = { Cell MemberMade MemberCall MemberReply };

    ghost use Rattle.member_core.specs.Kept.{Keeps};

    ghost view = { λ m. record { made = m.state.device.made; history = m.log.entries } };

    ghost invariant = { λ m. Keeps m.state m.log.entries };
}

impl Member {
    /// A member of this number, at most 999, with 1 to 64 pages of 4,096 bytes of memory, and of this kind, with at most
    /// 4,096 sectors of 512 bytes, without history. `NoMemory` where memory, disk or the room for frames can't be had.
    pub fn new(alloc: Global, id: u32, pages: u32, kind: Kind) -> Result<Member, NoMemory>
        requires { IsMemberMade record { id = id; pages = pages; kind = kind } }
        ensures made { IfOk result (λ member. member.made ≡ record { id = id; pages = pages; kind = kind }) }
        ensures empty { IfOk result (λ member. member.history ≡ []) }
    {
        let device = Device::new(alloc, MemberMade { id, pages, kind })?;
        Ok(Member {
            state: State::new(device),
            log: Log::new(alloc),
        })
    }

    /// Asks for room for so many calls more, so that the history needn't be moved as it grows. It promises none: contracts see
    /// the member as it was, whatever the answer is, and each call asks for what it still needs.
    pub fn reserve(&mut self, calls: u64) -> Result<(), NoMemory>
        ensures { self.new ≡ self.old }
    {
        self.log.reserve(calls)
    }
}

impl Serial for Member {
    type Call = MemberCall;

    type Reply = MemberReply;

    type Made = MemberMade;

    ghost made = { λ m. m.made };

    ghost history = { λ m. m.history };

    ghost answer = { member_answer };

    ghost is_quiet = { never_quiet };

    ghost may_call = { member_may };

    ghost spares = { λ made. never_spares };

    fn apply(&mut self, who: u32, call: &MemberCall) -> Result<Placed<MemberReply>, NoMemory> {
        let at = self.log.length();
        if at >= HISTORY_LIMIT {
            return Err(NoMemory);
        }
        self.log.reserve(1)?;
        let bytes = call.copy_bytes()?;
        let answer = self.state.answer(at, call)?;
        self.log.put(Entry {
            who,
            call: call.with_bytes(bytes),
            reply: answer.kept,
        });
        Ok(Placed {
            at,
            reply: answer.told,
        })
    }

    fn length(&self) -> u64 {
        self.log.length()
    }

    fn entry(&self, at: u64) -> &Entry<MemberCall, MemberReply> {
        self.log.entry(at)
    }
}

fn crosses<T: Send + Sync>() {}

/// A member may be sent to a thread, and shared by threads.
pub fn members_cross_threads() {
    crosses::<Member>();
}
