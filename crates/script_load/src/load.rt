//! Making a script of a seed.
ghost use Rattle.std.specs.Prelude.{◌≡◌, ◌≤◌, IfOk};
ghost use Rattle.script_load.specs.Loaded.{load_limit, loaded_lines, loaded};

use crate::generator::{drawn, line, next_state};
use crate::guests::{board, guests};
use board_script::{ActorLine, Script};
use std::alloc::{AllocError as NoMemory, Global};

/// The most lines that are made, of this project.
pub const LOAD_LIMIT: u32 = 100_000;

/// The limit that callers read is that of the definitions.
pub fn load_limit_is_defined()
    ensures { LOAD_LIMIT ≡ load_limit }
{}

// The number of the first line of an actor: the board and the guests come before.
const FIRST_LINE: u32 = 6;

fn load_lines(alloc: Global, seed: u64, count: u32) -> Result<Vec<ActorLine>, NoMemory>
    requires { count ≤ load_limit }
    ensures { IfOk result (λ lines. lines.items ≡ loaded_lines count 6 seed) }
{
    let mut lines = Vec::new(alloc);
    let mut state = seed;
    'lines: for index in 0..count {
        state = next_state(state);
        lines.push(line(alloc, FIRST_LINE + index, drawn(state)))?;
    }
    Ok(lines)
}

/// The script of `load SEED COUNT`: four guests, and so many of their lines, drawn from the seed.
pub fn load_script(alloc: Global, seed: u64, count: u32) -> Result<Script, NoMemory>
    requires { count ≤ load_limit }
    ensures { IfOk result (λ script. script ≡ loaded seed count) }
{
    let guests = guests(alloc)?;
    let lines = load_lines(alloc, seed, count)?;
    Ok(Script::of(board(), guests, lines, Vec::new(alloc)))
}
