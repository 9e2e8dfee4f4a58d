//! The forms of a line of a script, of this project. What stands here in capitals is a word of the line that
//! isn't read yet.

use crate::words::{Word, Words};

/// What may stand at the end of an access: `[@K] [once]`.
#[derive(Debug, Drop)]
pub struct Tail<'a> {
    /// K of `@K`.
    pub queue: Option<Word<'a>>,
    pub once: bool,
}

/// What a member is made with: the words behind `guest N`.
#[derive(Debug, Drop)]
pub enum Member<'a> {
    /// `block PAGES SECTORS [ro]`.
    Block {
        pages: Word<'a>,
        sectors: Word<'a>,
        read_only: bool,
    },
    /// `net PAGES MAC`.
    Net {
        pages: Word<'a>,
        mac: Word<'a>,
    },
}

/// A line of an actor. `guest` and `worker` are the digits of its first word.
#[derive(Debug, Drop)]
pub enum Act<'a> {
    /// `gN in OFF LEN [@K] [once]`.
    In {
        guest: Word<'a>,
        offset: Word<'a>,
        length: Word<'a>,
        tail: Tail<'a>,
    },
    /// `gN out OFF HEX [@K] [once]`.
    Out {
        guest: Word<'a>,
        offset: Word<'a>,
        bytes: Word<'a>,
        tail: Tail<'a>,
    },
    /// `gN mem ADDR HEX`.
    Mem {
        guest: Word<'a>,
        addr: Word<'a>,
        bytes: Word<'a>,
    },
    /// `gN peek ADDR LEN`.
    Peek {
        guest: Word<'a>,
        addr: Word<'a>,
        length: Word<'a>,
    },
    /// `gN msix on` and `gN msix off`.
    Msix {
        guest: Word<'a>,
        on: bool,
    },
    /// `gN io on` and `gN io off`.
    Io {
        guest: Word<'a>,
        on: bool,
    },
    /// `gN cfg OFF LEN`.
    Cfg {
        guest: Word<'a>,
        offset: Word<'a>,
        length: Word<'a>,
    },
    /// `gN irqs`.
    Irqs {
        guest: Word<'a>,
    },
    /// `gN poll V`.
    Poll {
        guest: Word<'a>,
        queue: Word<'a>,
    },
    /// `wK serve Q`.
    Serve {
        worker: Word<'a>,
        queue: Word<'a>,
    },
    /// `wK poll N V`.
    WorkerPoll {
        worker: Word<'a>,
        member: Word<'a>,
        queue: Word<'a>,
    },
    /// `host frame N HEX`.
    Frame {
        member: Word<'a>,
        frame: Word<'a>,
    },
    /// `host flr N`.
    Flr {
        member: Word<'a>,
    },
    /// `host disable N`.
    Disable {
        member: Word<'a>,
    },
    /// `host reset`.
    Reset,
}

/// A line of a known form, with its words that aren't fixed.
#[derive(Debug, Drop)]
pub enum Shape<'a> {
    /// `board Q S K`.
    Board {
        queues: Word<'a>,
        size: Word<'a>,
        workers: Word<'a>,
    },
    /// `guest N` and what its member is made with.
    Guest {
        number: Word<'a>,
        member: Member<'a>,
    },
    /// A line of a guest, a worker or the host.
    Acts(Act<'a>),
    /// `go`, and behind it `ACTOR COUNT` once or more often: these words.
    Go(Words<'a>),
}
