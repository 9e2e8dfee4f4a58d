//! The owner.
ghost use Rattle.std.specs.Prelude.{◌≡◌, ◌≤◌, ◌∷◌, ℕ, []};
ghost use Rattle.history.specs.Legal.{never_quiet, never_spares};
ghost use Rattle.admin_wire.specs.Numbers.{qualifier_number};
ghost use Rattle.admin_wire.specs.Command.{list_of};
ghost use Rattle.admin_wire.specs.declared.command.Body.TheVariants as Body;
ghost use Rattle.group_calls.specs.Limits.{writable_limit};
ghost use Rattle.group_calls.specs.Owner.{largest_opcode, list_in_use, is_used, is_away, refusal_floor, refused, verdict_on, verdict, owner_answer, owner_may};
ghost use Rattle.owner_core.specs.Kept.{list_asked, in_use_by};

use crate::looking::{away_found, floor_found};
use crate::steps::{count_after, note_away, note_told, strays_after};
use admin_wire::{
    Body, LEGACY_NOTIFY_INFO, LIST_USE, LegacyCmd, Qualifier, SR_IOV, Status, read_body,
    read_header,
};
use board_text::{FLOOR_LIMIT, Piece};
use group_calls::{Entry, HISTORY_LIMIT, Log, OwnerCall, OwnerReply, Placed, Serial};
use std::alloc::{AllocError as NoMemory, Global};
use std::marker::Model;

// A verdict, and the opcodes that are in use after it, as bits.
struct Judged {
    reply: OwnerReply,
    in_use: u64,
}

// The opcodes 0 to 6, as bits. Of this project.
const SUPPORTED_LIST: u64 = 0x7f;

/// The owner of a group, which is the physical function: VIRTIO 1.3, 2.12 (device groups). Contracts see the number of
/// members that it was made for and its history, the latest entry first.
#[derive(Drop)]
pub struct Owner {
    members: u32,
    count: u32,
    in_use: u64,
    told: [u64; FLOOR_LIMIT],
    away: [bool; FLOOR_LIMIT],
    strays: bool,
    log: Log<OwnerCall, OwnerReply>,
}

impl Model for Owner {
    ghost use Rattle.std.specs.Prelude.{ℕ};
    ghost use Rattle.group_calls.specs.declared.owner.OwnerCall.{OwnerCall};
    ghost use Rattle.group_calls.specs.declared.owner.OwnerReply.{OwnerReply};
    ghost use Rattle.history.specs.Legal.{Cell};

    ghost Value = { Cell ℕ OwnerCall OwnerReply };

    ghost use Rattle.owner_core.specs.Kept.{Keeps};

    ghost view = { λ o. record { made = o.members; history = o.log.entries } };

    ghost invariant = { λ o. Keeps o.members o.count o.in_use o.told o.away o.strays o.log.entries };
}

impl Owner {
    /// An owner for so many members, without history. This takes no memory.
    pub fn new(alloc: Global, members: u32) -> Owner
        ensures made { result.made ≡ members }
        ensures empty { result.history ≡ [] }
    {
        Owner {
            members,
            count: 0,
            in_use: 0,
            told: [0; FLOOR_LIMIT],
            away: [false; FLOOR_LIMIT],
            strays: false,
            log: Log::new(alloc),
        }
    }

    /// Asks for room for so many calls more, so that the history is moved less often as it grows. It promises none: a
    /// later call may still be answered `NoMemory`. Contracts see the owner as it was, whatever the answer is.
    pub fn reserve(&mut self, calls: u64) -> Result<(), NoMemory>
        ensures { self.new ≡ self.old }
    {
        self.log.reserve(calls)
    }

    fn floor_of(&self, member: u64) -> u64
        ensures { result ≡ refusal_floor self.now.history member }
    {
        if 0 < member && member <= FLOOR_LIMIT as u64 {
            self.told[member as usize - 1]
        } else if self.strays {
            floor_found(&self.log, member)
        } else {
            0
        }
    }

    fn is_away(&self, member: u64) -> bool
        ensures { result ≡ is_away self.now.history member }
    {
        if 0 < member && member <= FLOOR_LIMIT as u64 {
            self.away[member as usize - 1]
        } else if self.strays {
            away_found(&self.log, member)
        } else {
            false
        }
    }

    fn refused(&self, member: u64, qualifier: Qualifier) -> OwnerReply
        ensures { result ≡ refused self.now.history member (qualifier_number qualifier) }
    {
        OwnerReply::Refused {
            status: Status::Einval.number(),
            qualifier: qualifier.number(),
            floor: self.floor_of(member),
        }
    }

    fn is_used(&self, opcode: u16) -> bool
        requires { opcode ≤ largest_opcode }
        ensures { result ≡ is_used self.now.history opcode }
    {
        opcode <= LIST_USE || (self.in_use >> opcode) & 1 == 1
    }

    // The list in use stays.
    fn judged(&self, reply: OwnerReply) -> Judged
        ensures reply { result.reply ≡ reply }
        ensures in_use { result.in_use ≡ list_in_use self.now.history }
    {
        Judged {
            reply,
            in_use: self.in_use,
        }
    }

    // On the opcodes of a LIST_USE.
    fn verdict_on_list(&self, member: u64, bits: u64) -> Judged
        ensures reply { result.reply ≡ verdict_on self.now.history member (Body.Use bits) }
        ensures in_use { result.in_use ≡ in_use_by bits result.reply (list_in_use self.now.history) }
    {
        if bits > SUPPORTED_LIST {
            return self.judged(self.refused(member, Qualifier::InvalidField));
        }
        Judged {
            reply: OwnerReply::Used,
            in_use: bits,
        }
    }

    // On an access to the registers of a member.
    fn verdict_on_access(&self, member: u64, command: LegacyCmd) -> OwnerReply
        ensures { result ≡ verdict_on self.now.history member (Body.Legacy command) }
    {
        if 0 < member && member <= u64::from(self.count) && !self.is_away(member) {
            OwnerReply::Legacy {
                member: member as u32,
                command,
            }
        } else {
            self.refused(member, Qualifier::InvalidMember)
        }
    }

    // On what a command asks, where its group and its opcode are fine.
    fn verdict_on(&self, member: u64, body: Body) -> Judged
        ensures reply { result.reply ≡ verdict_on self.now.history member body }
        ensures in_use { result.in_use ≡ in_use_by (list_asked body) result.reply (list_in_use self.now.history) }
    {
        match body {
            Body::Query => self.judged(OwnerReply::List {
                bits: SUPPORTED_LIST,
            }),
            Body::Use { bits } => self.verdict_on_list(member, bits),
            Body::Legacy(command) => self.judged(self.verdict_on_access(member, command)),
            Body::Unknown => self.judged(self.refused(member, Qualifier::InvalidOpcode)),
        }
    }

    fn verdict(&self, bytes: &Piece, writable: u32) -> Judged
        requires { writable ≤ writable_limit }
        ensures reply { result.reply ≡ verdict self.now.history bytes.now writable }
        ensures in_use { result.in_use ≡ in_use_by (list_of bytes.now) result.reply (list_in_use self.now.history) }
    {
        let command = read_header(bytes);
        if command.group_type != SR_IOV {
            return self.judged(self.refused(command.member, Qualifier::InvalidGroup));
        }
        if command.opcode > LEGACY_NOTIFY_INFO || !self.is_used(command.opcode) {
            return self.judged(self.refused(command.member, Qualifier::InvalidOpcode));
        }
        self.verdict_on(command.member, read_body(&command, bytes, writable))
    }

    // What some actor may ask.
    fn answer(&self, call: &OwnerCall) -> Judged
        requires { (who : ℕ) × owner_may self.now.made who call.now }
        ensures reply { result.reply ≡ owner_answer self.now.history call.now }
        ensures in_use { (who : ℕ) → result.in_use ≡ list_in_use (record { who = who; call = call.now; reply = result.reply } ∷ self.now.history) }
    {
        match call {
            OwnerCall::Judge { bytes, writable } => self.verdict(bytes, *writable),
            OwnerCall::Reset { floors: _ } => Judged {
                reply: OwnerReply::Done,
                in_use: 0,
            },
            _ => self.judged(OwnerReply::Done),
        }
    }
}

impl Serial for Owner {
    type Call = OwnerCall;

    type Reply = OwnerReply;

    type Made = u32;

    ghost made = { λ o. o.made };

    ghost history = { λ o. o.history };

    ghost answer = { λ made h call. owner_answer h call };

    ghost is_quiet = { never_quiet };

    ghost may_call = { owner_may };

    ghost spares = { λ made h call. never_spares h call };

    fn apply(&mut self, who: u32, call: &OwnerCall) -> Result<Placed<OwnerReply>, NoMemory> {
        let at = self.log.length();
        if at >= HISTORY_LIMIT {
            return Err(NoMemory);
        }
        let Judged { reply, in_use } = self.answer(call);
        self.log.push(Entry {
            who,
            call: call.copy(),
            reply: reply.copy(),
        })?;
        self.count = count_after(self.count, call);
        self.in_use = in_use;
        note_told(&mut self.told, call);
        note_away(&mut self.away, call);
        self.strays = strays_after(self.strays, call);
        Ok(Placed { at, reply })
    }

    fn length(&self) -> u64 {
        self.log.length()
    }

    fn entry(&self, at: u64) -> &Entry<OwnerCall, OwnerReply> {
        self.log.entry(at)
    }
}
