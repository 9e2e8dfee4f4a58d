//! Which form a line has.
ghost use Rattle.std.specs.Prelude.{◌≡◌};
ghost use Rattle.script_words.specs.declared.shape.Act.TheVariants.{Peek, Cfg};
ghost use Rattle.script_words.specs.declared.shape.Shape.TheVariants.{Go};
ghost use Rattle.script_words.specs.Parts.{form, tail_of, switch_of, is_actor_word, are_pairs as are_pairs_of, pairs_of};
ghost use Rattle.script_words.specs.Shape.{in_of, out_of, guest_form, worker_form, host_form, member_block, setup_form, named_form, form_of, shape_of};
ghost use Rattle.script_words.specs.Words.{two_of, words_of, head_of};

use crate::shape::{Act, Member, Shape, Tail};
use crate::words::{Head, Word, Words, are_plain};

// What is left behind the words of an access.
fn read_tail<'a>(words: Words<'a>) -> Option<Tail<'a>>
    ensures { result ≡ tail_of words.entry }
{
    let Some((first, rest)) = words.split() else {
        return Some(Tail {
            queue: None,
            once: false,
        });
    };
    let Some((second, rest)) = rest.split() else {
        if first.is(b"once") {
            return Some(Tail {
                queue: None,
                once: true,
            });
        }
        let queue = first.after_at()?;
        return Some(Tail {
            queue: Some(queue),
            once: false,
        });
    };
    if !rest.is_ended() || !second.is(b"once") {
        return None;
    }
    let queue = first.after_at()?;
    Some(Tail {
        queue: Some(queue),
        once: true,
    })
}

fn read_switch(words: Words) -> Option<bool>
    ensures { result ≡ switch_of words.entry }
{
    let word = words.one()?;
    if word.is(b"on") {
        Some(true)
    } else if word.is(b"off") {
        Some(false)
    } else {
        None
    }
}

fn read_in<'a>(guest: Word<'a>, words: Words<'a>) -> Option<Act<'a>>
    ensures { result ≡ in_of guest.entry words.entry }
{
    let (offset, rest) = words.split()?;
    let (length, rest) = rest.split()?;
    let tail = read_tail(rest)?;
    Some(Act::In {
        guest,
        offset,
        length,
        tail,
    })
}

fn read_out<'a>(guest: Word<'a>, words: Words<'a>) -> Option<Act<'a>>
    ensures { result ≡ out_of guest.entry words.entry }
{
    let (offset, rest) = words.split()?;
    let (bytes, rest) = rest.split()?;
    let tail = read_tail(rest)?;
    Some(Act::Out {
        guest,
        offset,
        bytes,
        tail,
    })
}

fn read_peek<'a>(guest: Word<'a>, words: Words<'a>) -> Option<Act<'a>>
    ensures { result ≡ form (two_of words.entry) (λ w. Peek guest.entry w.0 w.1) }
{
    let (addr, length) = words.two()?;
    Some(Act::Peek {
        guest,
        addr,
        length,
    })
}

fn read_cfg<'a>(guest: Word<'a>, words: Words<'a>) -> Option<Act<'a>>
    ensures { result ≡ form (two_of words.entry) (λ w. Cfg guest.entry w.0 w.1) }
{
    let (offset, length) = words.two()?;
    Some(Act::Cfg {
        guest,
        offset,
        length,
    })
}

// What follows a guest.
fn guest_line<'a>(guest: Word<'a>, words: Words<'a>) -> Option<Act<'a>>
    ensures { result ≡ guest_form guest.entry words.entry }
{
    let (name, rest) = words.split()?;
    if name.is(b"in") {
        read_in(guest, rest)
    } else if name.is(b"out") {
        read_out(guest, rest)
    } else if name.is(b"mem") {
        let (addr, bytes) = rest.two()?;
        Some(Act::Mem { guest, addr, bytes })
    } else if name.is(b"peek") {
        read_peek(guest, rest)
    } else if name.is(b"msix") {
        let on = read_switch(rest)?;
        Some(Act::Msix { guest, on })
    } else if name.is(b"io") {
        let on = read_switch(rest)?;
        Some(Act::Io { guest, on })
    } else if name.is(b"cfg") {
        read_cfg(guest, rest)
    } else if name.is(b"irqs") {
        if rest.is_ended() {
            Some(Act::Irqs { guest })
        } else {
            None
        }
    } else if name.is(b"poll") {
        let queue = rest.one()?;
        Some(Act::Poll { guest, queue })
    } else {
        None
    }
}

// What follows a worker.
fn worker_line<'a>(worker: Word<'a>, words: Words<'a>) -> Option<Act<'a>>
    ensures { result ≡ worker_form worker.entry words.entry }
{
    let (name, rest) = words.split()?;
    if name.is(b"serve") {
        let queue = rest.one()?;
        Some(Act::Serve { worker, queue })
    } else if name.is(b"poll") {
        let (member, queue) = rest.two()?;
        Some(Act::WorkerPoll {
            worker,
            member,
            queue,
        })
    } else {
        None
    }
}

// What follows `host`.
fn host_line(words: Words) -> Option<Act>
    ensures { result ≡ host_form words.entry }
{
    let (name, rest) = words.split()?;
    if name.is(b"frame") {
        let (member, frame) = rest.two()?;
        Some(Act::Frame { member, frame })
    } else if name.is(b"flr") {
        let member = rest.one()?;
        Some(Act::Flr { member })
    } else if name.is(b"disable") {
        let member = rest.one()?;
        Some(Act::Disable { member })
    } else if name.is(b"reset") {
        if rest.is_ended() {
            Some(Act::Reset)
        } else {
            None
        }
    } else {
        None
    }
}

fn read_block(words: Words) -> Option<Member>
    ensures { result ≡ member_block words.entry }
{
    let (pages, rest) = words.split()?;
    let (sectors, rest) = rest.split()?;
    let Some((last, rest)) = rest.split() else {
        return Some(Member::Block {
            pages,
            sectors,
            read_only: false,
        });
    };
    if rest.is_ended() && last.is(b"ro") {
        Some(Member::Block {
            pages,
            sectors,
            read_only: true,
        })
    } else {
        None
    }
}

// What follows `guest`.
fn setup_line(words: Words) -> Option<Shape>
    ensures { result ≡ setup_form words.entry }
{
    let (number, rest) = words.split()?;
    let (kind, rest) = rest.split()?;
    if kind.is(b"block") {
        let member = read_block(rest)?;
        Some(Shape::Guest { number, member })
    } else if kind.is(b"net") {
        let (pages, mac) = rest.two()?;
        Some(Shape::Guest {
            number,
            member: Member::Net { pages, mac },
        })
    } else {
        None
    }
}

fn is_actor(word: &Word) -> bool
    ensures { result ≡ is_actor_word (head_of word.now) }
{
    match word.head() {
        Head::Guest(_) => true,
        Head::Worker(_) => true,
        Head::Name(name) => name.is(b"host"),
    }
}

fn are_pairs(words: Words) -> bool
    ensures { result ≡ are_pairs_of words.entry }
{
    let mut left = words;
    'pairs: while let Some((actor, rest)) = left.split() {
        let Some((_, rest)) = rest.split() else {
            return false;
        };
        if !is_actor(&actor) {
            return false;
        }
        left = rest;
    }
    true
}

// What follows `go`.
fn go_line(words: Words) -> Option<Shape>
    ensures { result ≡ form (pairs_of words.entry) (λ pairs. Go pairs) }
{
    if words.is_ended() || !are_pairs(words.again()) {
        return None;
    }
    Some(Shape::Go(words))
}

// A line that begins with a name.
fn named_line<'a>(name: Word<'a>, rest: Words<'a>) -> Option<Shape<'a>>
    ensures { result ≡ named_form name.entry rest.entry }
{
    if name.is(b"board") {
        let (queues, size, workers) = rest.three()?;
        Some(Shape::Board {
            queues,
            size,
            workers,
        })
    } else if name.is(b"guest") {
        setup_line(rest)
    } else if name.is(b"host") {
        let act = host_line(rest)?;
        Some(Shape::Acts(act))
    } else if name.is(b"go") {
        go_line(rest)
    } else {
        None
    }
}

fn read_form(words: Words) -> Option<Shape>
    ensures { result ≡ form_of words.entry }
{
    let (first, rest) = words.split()?;
    match first.head() {
        Head::Guest(guest) => {
            let act = guest_line(guest, rest)?;
            Some(Shape::Acts(act))
        }
        Head::Worker(worker) => {
            let act = worker_line(worker, rest)?;
            Some(Shape::Acts(act))
        }
        Head::Name(name) => named_line(name, rest),
    }
}

/// The form of a line, if it has one.
pub fn read_shape(line: &[u8]) -> Option<Shape>
    ensures { result ≡ shape_of line.now }
{
    let words = Words::of(line);
    if !are_plain(words.again()) {
        return None;
    }
    read_form(words)
}
