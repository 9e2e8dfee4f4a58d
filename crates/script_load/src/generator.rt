//! The numbers that lines are drawn from, and the lines.
ghost use Rattle.std.specs.Prelude.{◌≡◌, ◌<◌, ◌^◌};
ghost use Rattle.script_load.specs.Loaded.{next_state as next_state_of, drawn as drawn_of, reads as reads_of, selects as selects_of, asked as asked_of, loaded_line};

use board_script::{ActorLine, What};
use board_text::Bytes;
use std::alloc::Global;

const MULTIPLIER: u64 = 6_364_136_223_846_793_005;

const INCREMENT: u64 = 1_442_695_040_888_963_407;

// The state of the next line.
pub(crate) fn next_state(state: u64) -> u64
    ensures { result ≡ next_state_of state }
{
    state.wrapping_mul(MULTIPLIER).wrapping_add(INCREMENT)
}

// The number that a state draws.
pub(crate) fn drawn(state: u64) -> u32
    ensures { result ≡ drawn_of state }
{
    (state / (1 << 33)) as u32
}

fn reads(offset: u8, length: u32) -> What
    ensures { result ≡ reads_of offset length }
{
    What::BarRead {
        offset,
        length,
        queue: None,
        once: false,
    }
}

fn selects(alloc: Global, number: u8) -> What
    ensures { result ≡ selects_of number }
{
    let bytes = Bytes::from_slice(alloc, &[number, 0]).unwrap();
    What::BarWrite {
        offset: 14,
        bytes,
        queue: None,
        once: false,
    }
}

fn asked(alloc: Global, drawn: u32) -> What
    ensures { result ≡ asked_of drawn }
{
    match drawn / 4 % 4 {
        0 => reads(18, 1),
        1 => selects(alloc, (drawn / 16 % 4) as u8),
        2 => reads(12, 2),
        _ => reads(19, 1),
    }
}

// The line with this number.
pub(crate) fn line(alloc: Global, number: u32, drawn: u32) -> ActorLine
    ensures { result ≡ loaded_line number drawn }
{
    ActorLine {
        number,
        who: 1 + drawn % 4,
        what: asked(alloc, drawn),
    }
}
