//! What the lines so far say.
ghost use Rattle.std.specs.Prelude.{◌≡◌, ◌≤◌, ◌+◌, ◌*◌, ◌++◌, ◌∷◌, [], length, false, OnOk, IfSome, nat_le, nat_lt, is_none, is_some};
ghost use Rattle.std.specs.List.{sum_by};
ghost use Rattle.board_script.specs.SoFar.{SoFar, nothing, queues_at, workers_at, memory_of, is_net as is_net_of, has_begun as has_begun_of, is_out_of_turn as is_out_of_turn_of, scheduled};
ghost use Rattle.board_script.specs.Bounds.{IsBoard, IsSetup, MayAsk, IsTurns, IsScript};
ghost use Rattle.byte_fields.specs.Sizes.{guest_limit, page_size};
ghost use Rattle.board_script.specs.Limits.{queue_limit, worker_limit, turns_limit, alone_limit};
ghost use Rattle.board_script.specs.Shapes.{AreBefore};
ghost use Rattle.board_script.specs.Script.{whole_of};

use crate::limits::{ALONE_LIMIT, FIRST_LINES, LINE_LENGTH, PAGE_SIZE, TURNS_LIMIT};
use crate::script::{ActorLine, Board, Script, Setup, Turns};
use legacy_regs::Kind;
use script_words::{Word, number_at};
use std::alloc::{AllocError as NoMemory, Global};
use std::marker::Model;

/// What a script is read for.
#[derive(Clone, Copy, Debug, PartialEq, Eq)]
pub enum Use {
    /// A group of any number of guests.
    Group,
    /// One guest, with a limit on the lines.
    Alone,
}

// What the lines so far say.
#[derive(Debug, Drop)]
pub struct Draft {
    board: Option<Board>,
    guests: Vec<Setup>,
    lines: Vec<ActorLine>,
    turns: Vec<Turns>,
    scheduled: u64,
}

impl Model for Draft {
    ghost use Rattle.std.specs.Prelude.{ℕ, ◌≡◌, ◌≤◌, ◌-◌, ◌^◌, min, length};
    ghost use Rattle.std.specs.List.{sum_by};
    ghost use Rattle.board_script.specs.SoFar.{SoFar, queues_at, workers_at};
    ghost use Rattle.byte_fields.specs.Sizes.{guest_limit};
    ghost use Rattle.board_script.specs.Limits.{queue_limit, worker_limit};
    ghost use Rattle.board_script.specs.Bounds.{IsSoFar};

    ghost Value = { SoFar };

    ghost view = { λ d. record { board = d.board; guests = d.guests.items; lines = d.lines.items; turns = d.turns.items } };

    ghost invariant = { λ d. (queues_at d.board ≤ queue_limit) × (workers_at d.board ≤ worker_limit) × (length d.guests.items ≤ guest_limit)
        × IsSoFar (record { board = d.board; guests = d.guests.items; lines = d.lines.items; turns = d.turns.items })
        × (d.scheduled ≡ min (sum_by (λ t. t.count) d.turns.items) (2 ^ 64 - 1)) };
}

fn memory_bytes(pages: u32) -> u64
    ensures { result ≡ page_size * pages }
{
    PAGE_SIZE * u64::from(pages)
}

impl Draft {
    pub fn new(alloc: Global) -> Draft
        ensures { result ≡ nothing }
    {
        Draft {
            board: None,
            guests: Vec::new(alloc),
            lines: Vec::new(alloc),
            turns: Vec::new(alloc),
            scheduled: 0,
        }
    }

    /// Takes room for the first lines of actors of a text of so many bytes.
    pub fn reserve(&mut self, bytes: usize) -> Result<(), NoMemory>
        ensures { OnOk result (self.new ≡ self.old) }
    {
        self.lines.reserve((bytes / LINE_LENGTH).min(FIRST_LINES))
    }

    pub fn has_board(&self) -> bool
        ensures { result ≡ is_some self.now.board }
    {
        self.board.is_some()
    }

    pub fn queues(&self) -> u32
        ensures value { result ≡ queues_at self.now.board }
        ensures bound { result ≤ queue_limit }
    {
        match &self.board {
            Some(board) => board.queues,
            None => 0,
        }
    }

    pub fn workers(&self) -> u32
        ensures value { result ≡ workers_at self.now.board }
        ensures bound { result ≤ worker_limit }
    {
        match &self.board {
            Some(board) => board.workers,
            None => 0,
        }
    }

    pub fn guests(&self) -> usize
        ensures value { result ≡ length self.now.guests }
        ensures bound { result ≤ guest_limit }
    {
        self.guests.len()
    }

    /// The bytes of a guest's memory.
    pub fn memory(&self, guest: u32) -> u64
        requires { 1 ≤ guest }
        ensures { result ≡ memory_of self.now.guests guest }
    {
        match self.guests.get((guest - 1) as usize) {
            Some(setup) => memory_bytes(setup.pages),
            None => 0,
        }
    }

    pub fn is_net(&self, guest: u32) -> bool
        requires { 1 ≤ guest }
        ensures { result ≡ is_net_of self.now.guests guest }
    {
        match self.guests.get((guest - 1) as usize) {
            Some(setup) => match setup.kind {
                Kind::Net { .. } => true,
                Kind::Block { .. } => false,
            },
            None => false,
        }
    }

    pub fn has_begun(&self) -> bool
        ensures { result ≡ has_begun_of self.now }
    {
        1 <= self.lines.len() || 1 <= self.turns.len()
    }

    pub fn is_out_of_turn(&self, word: &Word) -> bool
        ensures { result ≡ is_out_of_turn_of self.now word.now }
    {
        match number_at(word) {
            Some(number) => number != self.guests.len() as u64 + 1,
            None => false,
        }
    }

    /// Whether one guest alone may have one line more.
    pub fn has_room(&self) -> bool
        ensures { result ≡ nat_lt (length self.now.lines) alone_limit }
    {
        self.lines.len() < ALONE_LIMIT
    }

    pub fn set_board(&mut self, board: Board)
        requires first { is_some self.old.board ≡ false }
        requires bounds { IsBoard board }
        ensures { self.new ≡ record self.old { board = Some board } }
    {
        self.board = Some(board);
    }

    pub fn add_guest(&mut self, setup: Setup) -> Result<(), NoMemory>
        requires fits { length self.old.guests + 1 ≤ guest_limit }
        requires first { has_begun_of self.old ≡ false }
        requires bounds { IsSetup setup }
        ensures { OnOk result (self.new ≡ record self.old { guests = self.old.guests ++ setup ∷ [] }) }
    {
        self.guests.push(setup)?;
        Ok(())
    }

    #[inline(always)]
    pub fn add_line(&mut self, line: ActorLine) -> Result<(), NoMemory>
        requires may { MayAsk (queues_at self.old.board) (workers_at self.old.board) self.old.guests line.who line.what }
        requires before { AreBefore line.number self.old.lines }
        ensures { OnOk result (self.new ≡ record self.old { lines = self.old.lines ++ line ∷ [] }) }
    {
        self.lines.push(line)?;
        Ok(())
    }

    pub fn add_turns(&mut self, turns: Turns) -> Result<(), NoMemory>
        requires { IsTurns (workers_at self.old.board) self.old.guests turns }
        ensures { OnOk result (self.new ≡ record self.old { turns = self.old.turns ++ turns ∷ [] }) }
    {
        self.turns.push(turns)?;
        self.scheduled = self.scheduled.saturating_add(u64::from(turns.count));
        Ok(())
    }

    /// Whether no more turns are scheduled than may be.
    pub fn is_within_limit(&self) -> bool
        ensures { result ≡ nat_le (scheduled self.now) turns_limit }
    {
        self.scheduled <= TURNS_LIMIT
    }

    /// The script, where there is a board.
    pub fn into_script(self) -> Option<Script>
        requires { scheduled self ≤ turns_limit }
        ensures value { result ≡ whole_of self self.board }
        ensures bounds { IfSome result IsScript }
    {
        let Draft {
            board,
            guests,
            lines,
            turns,
            scheduled: _,
        } = self;
        let board = board?;
        Some(Script::of(board, guests, lines, turns))
    }
}
