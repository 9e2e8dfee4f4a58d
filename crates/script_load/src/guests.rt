//! The board and the guests, which are always the same.
ghost use Rattle.std.specs.Prelude.{◌≡◌, IfOk};
ghost use Rattle.script_load.specs.Loaded.{loaded_board, block_setup as block_setup_of, net_setup as net_setup_of, loaded_guests};

use board_script::{Board, Kind, Setup};
use std::alloc::{AllocError as NoMemory, Global};

pub(crate) fn board() -> Board
    ensures { result ≡ loaded_board }
{
    Board {
        queues: 1,
        queue_size: 4,
        workers: 0,
    }
}

fn block_setup() -> Setup
    ensures { result ≡ block_setup_of }
{
    Setup {
        pages: 4,
        kind: Kind::Block {
            sectors: 8,
            read_only: false,
        },
    }
}

fn net_setup(number: u8) -> Setup
    ensures { result ≡ net_setup_of number }
{
    Setup {
        pages: 4,
        kind: Kind::Net {
            mac: [2, 0, 0, 0, 0, number],
        },
    }
}

pub(crate) fn guests(alloc: Global) -> Result<Vec<Setup>, NoMemory>
    ensures { IfOk result (λ setups. setups.items ≡ loaded_guests) }
{
    let setups = [block_setup(), net_setup(2), block_setup(), net_setup(4)];
    let setups = Vec::from_array(alloc, setups)?;
    Ok(setups)
}
