use super::*;
use Effect::{Address, Nothing, Notify};
use Space::{Common, Device};
use Step::{Flr, Msix, NoRead, NoWrite, Raise, Read, Reset, Write};
use board_text::Piece;

/// A call, and what it has to answer. Bytes are a number, the lowest first.
#[derive(Clone, Copy)]
enum Step {
    Read(Space, u8, u32, u64),
    NoRead(Space, u8, u32),
    Write(Space, u8, usize, u64, Effect),
    NoWrite(Space, u8, usize),
    Msix(bool),
    Raise(u16, Irq),
    Reset,
    Flr,
    Address(u16, u32),
}

fn reads(regs: &mut Regs, space: Space, offset: u8, length: u32, want: u64) -> bool {
    let want = want.to_le_bytes();
    match (
        regs.read(space, offset, length),
        want.get(..length as usize),
    ) {
        (Ok(bytes), Some(want)) => bytes.as_slice() == want,
        _ => false,
    }
}

fn write(regs: &mut Regs, space: Space, offset: u8, length: usize, number: u64) -> Option<Effect> {
    let bytes = number.to_le_bytes();
    let bytes = Piece::short(bytes.get(..length)?);
    regs.write(space, offset, &bytes).ok()
}

/// Performs a call, and says whether it answered as it has to.
fn goes_well(regs: &mut Regs, step: Step) -> bool {
    match step {
        Step::Read(space, offset, length, want) => reads(regs, space, offset, length, want),
        Step::NoRead(space, offset, length) => regs.read(space, offset, length).is_err(),
        Step::Write(space, offset, length, number, want) => {
            write(regs, space, offset, length, number) == Some(want)
        }
        Step::NoWrite(space, offset, length) => write(regs, space, offset, length, 0).is_none(),
        Step::Raise(queue, want) => regs.raise(queue) == want,
        Step::Address(queue, want) => regs.address(queue) == want,
        Step::Msix(on) => {
            regs.set_msix(on);
            true
        }
        Step::Reset => {
            regs.reset();
            true
        }
        Step::Flr => {
            regs.flr();
            true
        }
    }
}

/// The number of the first call that doesn't answer as it has to.
fn first_wrong(regs: &mut Regs, steps: &[Step]) -> Option<usize> {
    for (at, step) in steps.iter().enumerate() {
        if !goes_well(regs, *step) {
            return Some(at);
        }
    }
    None
}

/// Accesses with no byte, that leave their field, or that write a part of queue notify.
const REFUSED: [Step; 8] = [
    NoRead(Common, 0, 0),
    NoRead(Common, 3, 2),
    NoRead(Common, 19, 2),
    NoRead(Device, 31, 2),
    NoWrite(Common, 4, 0),
    NoWrite(Device, 19, 2),
    NoWrite(Common, 16, 1),
    NoWrite(Common, 17, 1),
];

/// Fixed fields, a partial write, a write to a field that is only read, writeback, and ISR.
const FIELDS: [Step; 11] = [
    Read(Common, 0, 4, 0x3800_0a40),
    Read(Device, 20, 4, 512),
    Write(Common, 4, 4, 0x0403_0201, Nothing),
    Write(Common, 5, 1, 9, Nothing),
    Read(Common, 4, 4, 0x0403_0901),
    Write(Common, 0, 4, 7, Nothing),
    Write(Device, 32, 1, 6, Nothing),
    Read(Device, 32, 1, 0),
    Raise(0, Irq::Isr),
    Read(Common, 19, 1, 1),
    Read(Common, 19, 1, 0),
];

/// Queue 0, and a queue that doesn't exist.
const QUEUES: [Step; 9] = [
    Write(Common, 16, 2, 0, Notify(0)),
    Write(Common, 16, 2, 1, Nothing),
    Write(Common, 8, 4, 513, Address(0)),
    Write(Common, 14, 2, 1, Nothing),
    Write(Common, 8, 4, 5, Nothing),
    Read(Common, 8, 4, 0),
    Read(Common, 12, 2, 0),
    Write(Common, 14, 1, 0, Nothing),
    Step::Address(0, 513),
];

/// Vectors, of which one past the bound is kept as none.
const VECTORS: [Step; 7] = [
    Msix(true),
    Raise(0, Irq::Silent),
    Write(Common, 22, 2, 1, Nothing),
    Raise(0, Irq::Vector(1)),
    Write(Common, 20, 2, 2, Nothing),
    Read(Common, 20, 2, 0xffff),
    NoRead(Common, 21, 2),
];

/// What a reset leaves of all that was written before.
const RESET: [Step; 7] = [
    Write(Common, 18, 1, 3, Nothing),
    Write(Common, 18, 1, 0, Effect::Reset),
    Read(Common, 4, 4, 0),
    Read(Common, 8, 4, 0),
    Read(Common, 18, 1, 0),
    Read(Common, 22, 2, 0xffff),
    Read(Device, 32, 1, 1),
];

/// The two queues of a network device, and its MAC.
const NETWORK: [Step; 14] = [
    Read(Common, 0, 4, 0x3801_0020),
    Write(Common, 14, 2, 2, Nothing),
    Read(Common, 12, 2, 0),
    Write(Common, 14, 2, 1, Nothing),
    Read(Common, 12, 2, 16),
    Write(Common, 8, 4, 3, Address(1)),
    Step::Address(0, 0),
    Read(Device, 6, 2, 1),
    Write(Device, 5, 1, 7, Nothing),
    Reset,
    Read(Device, 0, 6, 0x0700_0000_0002),
    Step::Address(1, 0),
    Flr,
    Read(Device, 0, 6, 0x0100_0000_0002),
];

#[test]
fn registers_go_by_the_tables(rt: HostRuntime) {
    let mut block = Regs::new(Kind::Block {
        sectors: 8,
        read_only: false,
    });
    assert_eq!(rt; block.queues(), 1);
    assert_eq!(rt; first_wrong(&mut block, &REFUSED), None);
    assert_eq!(rt; first_wrong(&mut block, &FIELDS), None);
    assert_eq!(rt; first_wrong(&mut block, &QUEUES), None);
    assert_eq!(rt; first_wrong(&mut block, &VECTORS), None);
    assert_eq!(rt; first_wrong(&mut block, &RESET), None);
    let mut network = Regs::new(Kind::Net {
        mac: [2, 0, 0, 0, 0, 1],
    });
    assert_eq!(rt; network.queues(), 2);
    assert_eq!(rt; first_wrong(&mut network, &NETWORK), None);
    let mut read_only = Regs::new(Kind::Block {
        sectors: 0,
        read_only: true,
    });
    assert!(rt; reads(&mut read_only, Common, 0, 4, 0x3800_0a60));
}
