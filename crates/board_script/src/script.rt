//! What a script says.
ghost use Rattle.std.specs.Prelude.{◌≡◌, ◌<◌, ◌≤◌, ◌-◌, length, Some};
ghost use Rattle.std.specs.List.{slice_get};
ghost use Rattle.byte_fields.specs.Sizes.{guest_limit};
ghost use Rattle.board_script.specs.Script.{Whole};
ghost use Rattle.board_script.specs.Bounds.{IsScript, ScriptsAreShort, IsSetup, MayAsk, IsTurns};

use board_text::Bytes;
use legacy_regs::Kind;
use std::marker::Model;

/// What the line `board Q S K` says, of this project.
#[derive(Clone, Copy, Debug, PartialEq, Eq)]
pub struct Board {
    /// How many administration queues there are, 1 to 8.
    pub queues: u32,
    /// The size of each: 4, 8, 16, 32, 64, 128 or 256.
    pub queue_size: u32,
    /// How many workers there are, 0 to 8.
    pub workers: u32,
}

/// What a line `guest N ..` says: the guest's memory and its member.
#[derive(Clone, Copy, Debug, PartialEq, Eq)]
pub struct Setup {
    /// The memory in pages of 4,096 bytes, 1 to 64.
    pub pages: u32,
    /// The kind of the member. A block device has at most 4,096 sectors.
    pub kind: Kind,
}

/// A pair `ACTOR COUNT` of a `go` line: so many turns of one actor.
#[derive(Clone, Copy, Debug, PartialEq, Eq)]
pub struct Turns {
    /// The actor: 1 to 16 are guests, 17 to 24 workers, 25 is the host.
    pub who: u32,
    /// At most 1,000,000, all counts of a script together too.
    pub count: u32,
}

/// A line of an actor.
#[derive(Debug, Drop)]
pub struct ActorLine {
    /// The number of the line in its text, from 1.
    pub number: u32,
    /// The actor: 1 to 16 are guests, 17 to 24 workers, 25 is the host.
    pub who: u32,
    pub what: What,
}

/// What a line of an actor asks, of this project.
#[derive(Debug, Drop)]
pub enum What {
    /// `gN in OFF LEN [@K] [once]`: reads 1, 2 or 4 bytes of BAR 0. `queue` is K, and None without `@K`.
    BarRead {
        offset: u8,
        length: u32,
        queue: Option<u32>,
        once: bool,
    },
    /// `gN out OFF HEX [@K] [once]`: writes 1, 2 or 4 bytes of BAR 0.
    BarWrite {
        offset: u8,
        bytes: Bytes,
        queue: Option<u32>,
        once: bool,
    },
    /// `gN mem ADDR HEX`: writes 1 to 512 bytes, all inside the guest's memory.
    Mem {
        addr: u64,
        bytes: Bytes,
    },
    /// `gN peek ADDR LEN`: reads 1 to 512 bytes, all inside the guest's memory.
    Peek {
        addr: u64,
        length: u32,
    },
    /// `gN msix on` and `gN msix off`: enables or disables MSI-X.
    Msix {
        on: bool,
    },
    /// `gN io on` and `gN io off`: enables or disables I/O accesses.
    Io {
        on: bool,
    },
    /// `gN cfg OFF LEN`: reads 1, 2 or 4 bytes of the PCI configuration.
    Cfg {
        offset: u8,
        length: u32,
    },
    /// `gN irqs`: takes the interrupts.
    Irqs,
    /// `gN poll V`: the guest's member serves its queue V.
    Poll {
        queue: u16,
    },
    /// `wK serve Q`: serves a command of an administration queue of the board.
    Serve {
        queue: u32,
    },
    /// `wK poll N V`: member N serves its queue V.
    WorkerPoll {
        member: u32,
        queue: u16,
    },
    /// `host frame N HEX`: a frame of 14 to 1,514 bytes comes for a network member.
    Frame {
        member: u32,
        frame: Bytes,
    },
    /// `host flr N`: a function level reset of member N.
    Flr {
        member: u32,
    },
    /// `host disable N`: disables member N.
    Disable {
        member: u32,
    },
    /// `host reset`: resets the device group.
    Reset,
}

fn crosses<T: Send + Sync>() {}

/// A script, and each thing that it says, may be sent to a thread, and shared by threads.
pub fn scripts_cross_threads() {
    crosses::<Script>();
    crosses::<ActorLine>();
    crosses::<What>();
    crosses::<Board>();
    crosses::<Setup>();
    crosses::<Turns>();
}

/// A script has at most 2^32 lines of actors, and schedules at most 1,000,000 turns.
pub fn scripts_are_short()
    ensures { ScriptsAreShort }
{}

/// A script: its board, its guests, the lines of its actors in the order of the text, and its schedule.
#[derive(Debug, Drop)]
pub struct Script {
    board: Board,
    guests: Vec<Setup>,
    lines: Vec<ActorLine>,
    turns: Vec<Turns>,
}

impl Model for Script {
    ghost use Rattle.board_script.specs.Script.{Whole};
    ghost use Rattle.board_script.specs.Bounds.{IsScript};

    ghost Value = { Whole };

    ghost view = { λ s. record { board = s.board; guests = s.guests.items; lines = s.lines.items; turns = s.turns.items } };

    ghost invariant = { λ s. IsScript (record { board = s.board; guests = s.guests.items; lines = s.lines.items; turns = s.turns.items }) };
}

impl Script {
    /// The script of these parts, which keep to the bounds of scripts.
    pub fn of(board: Board, guests: Vec<Setup>, lines: Vec<ActorLine>, turns: Vec<Turns>) -> Script
        requires { IsScript (record { board = board; guests = guests.items; lines = lines.items; turns = turns.items }) }
        ensures value { result ≡ record { board = board; guests = guests.items; lines = lines.items; turns = turns.items } }
        ensures bounds { IsScript result }
    {
        Script {
            board,
            guests,
            lines,
            turns,
        }
    }

    /// How many administration queues the board has, 1 to 8. Its contract also tells the bounds of all that the
    /// script says.
    pub fn queues(&self) -> u32
        ensures value { result ≡ self.now.board.queues }
        ensures bounds { IsScript self.now }
    {
        self.board.queues
    }

    /// The size of each administration queue.
    pub fn queue_size(&self) -> u32
        ensures { result ≡ self.now.board.queue_size }
    {
        self.board.queue_size
    }

    /// How many workers there are, 0 to 8.
    pub fn workers(&self) -> u32
        ensures { result ≡ self.now.board.workers }
    {
        self.board.workers
    }

    /// How many guests there are, 0 to 16.
    pub fn guests(&self) -> u32
        ensures value { result ≡ length self.now.guests }
        ensures bound { result ≤ guest_limit }
    {
        self.guests.len() as u32
    }

    /// What a guest, counted from 1, was made with.
    pub fn setup(&self, guest: u32) -> Setup
        requires low { 1 ≤ guest }
        requires high { guest ≤ length self.now.guests }
        ensures value { slice_get self.now.guests (guest - 1) ≡ Some result }
        ensures bounds { IsSetup result }
    {
        self.guests[(guest - 1) as usize]
    }

    /// How many lines of actors there are.
    pub fn line_count(&self) -> usize
        ensures { result ≡ length self.now.lines }
    {
        self.lines.len()
    }

    /// A line of an actor, counted from 0 in the order of the text.
    pub fn line(&self, index: usize) -> &ActorLine
        requires { index < length self.now.lines }
        ensures value { slice_get self.now.lines index ≡ Some result.now }
        ensures bounds { MayAsk self.now.board.queues self.now.board.workers self.now.guests result.now.who result.now.what }
    {
        &self.lines[index]
    }

    /// How many pairs of an actor and a count the schedule has.
    pub fn turn_count(&self) -> usize
        ensures { result ≡ length self.now.turns }
    {
        self.turns.len()
    }

    /// A pair of the schedule, counted from 0 in the order of the text.
    pub fn turns(&self, index: usize) -> Turns
        requires { index < length self.now.turns }
        ensures value { slice_get self.now.turns index ≡ Some result }
        ensures bounds { IsTurns self.now.board.workers self.now.guests result }
    {
        self.turns[index]
    }
}
