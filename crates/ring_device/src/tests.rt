use super::*;
use board_text::Bytes;
use guest_mem::GuestMem;
use ring_layout::{Layout, legacy};
use std::alloc::Global;
use std::test::Fail;

// How many descriptors the rings of these tests have.
const RING_SIZE: u16 = 16;

fn is_layout(got: Option<Layout>, table: u64, avail: u64, used: u64, end: u64) -> bool {
    match got {
        Some(l) => l.table == table && l.avail == avail && l.used == used && l.end == end,
        None => false,
    }
}

#[test]
fn rings_lie_one_part_behind_another(rt: HostRuntime) {
    assert!(rt; is_layout(legacy(1, 16, 16384), 4096, 4352, 8192, 8326));
    assert!(rt; is_layout(legacy(2, 16, 16384), 8192, 8448, 12288, 12422));
    assert!(rt; legacy(2, 16, 12288).is_none());
    assert!(rt; legacy(0, 16, 16384).is_none());
    assert!(rt; is_layout(legacy(1, 4, 16384), 4096, 4160, 8192, 8230));
    assert!(rt; is_layout(legacy(1, 256, 16384), 4096, 8192, 12288, 14342));
    assert!(rt; is_layout(legacy(1, 16, 8326), 4096, 4352, 8192, 8326));
    assert!(rt; legacy(1, 16, 8325).is_none());
}

// A request that writes sector 3: its header, 512 bytes and a status byte.
const TABLE: [u8; 48] = [
    0x00, 0x30, 0, 0, 0, 0, 0, 0, 0x10, 0, 0, 0, 1, 0, 1, 0, //
    0x00, 0x32, 0, 0, 0, 0, 0, 0, 0x00, 2, 0, 0, 1, 0, 2, 0, //
    0x10, 0x30, 0, 0, 0, 0, 0, 0, 0x01, 0, 0, 0, 2, 0, 0, 0,
];

#[test]
fn a_block_request_is_a_chain(rt: HostRuntime) -> Result<(), Fail> {
    let mut mem = GuestMem::new(rt.alloc(), 4).ok().ok_or("a memory")?;
    mem.write(12288, &[1, 0, 0, 0, 0, 0, 0, 0, 3, 0, 0, 0, 0, 0, 0, 0]);
    mem.write(12800, &[0xaa, 0xbb, 0xcc, 0xdd]);
    mem.write(4096, &TABLE);
    mem.write(4352, &[0, 0, 1, 0, 0, 0]);
    let layout = legacy(1, RING_SIZE, mem.length()).ok_or("a ring")?;
    let Ok(Found::Chain(chain)) = next_chain(rt.alloc(), &mem, &layout, 0, false) else {
        return Err("a chain".into());
    };
    assert_eq!(rt; chain.head(), 0);
    assert_eq!(rt; chain.readable(), 528);
    assert_eq!(rt; chain.writable(), 1);
    assert_eq!(rt; next_pair(&mem, &layout, 0), PairFound::Other);
    let request = gather(rt.alloc(), &mem, &chain).ok().ok_or("the request")?;
    let bytes = request.as_slice();
    assert_eq!(rt; bytes.len(), 528);
    assert!(rt;
        bytes[..20]
            == [
                1, 0, 0, 0, 0, 0, 0, 0, 3, 0, 0, 0, 0, 0, 0, 0, 0xaa, 0xbb, 0xcc, 0xdd
            ]
    );
    let reply = Bytes::from_slice(rt.alloc(), &[7]).ok().ok_or("a reply")?;
    scatter(&mut mem, &chain, &reply);
    put_used(&mut mem, &layout, 0, chain.head(), 1);
    assert_eq!(rt; mem.part(12304, 1)[0], 7);
    assert!(rt; mem.part(8192, 12) == [0, 0, 1, 0, 0, 0, 0, 0, 1, 0, 0, 0].as_slice());
    assert!(rt; wants_interrupt(&mem, &layout, 0, false));
    mem.put_u16(4352, 1);
    assert!(rt; !wants_interrupt(&mem, &layout, 0, false));
    Ok(())
}

#[test]
fn an_interrupt_is_wanted_for_one_position(rt: HostRuntime) -> Result<(), Fail> {
    let mut mem = GuestMem::new(rt.alloc(), 4).ok().ok_or("a memory")?;
    let layout = legacy(1, RING_SIZE, mem.length()).ok_or("a ring")?;
    mem.put_u16(4352, 1);
    mem.put_u16(4388, 7);
    assert!(rt; wants_interrupt(&mem, &layout, 7, true));
    assert!(rt; !wants_interrupt(&mem, &layout, 6, true));
    assert!(rt; !wants_interrupt(&mem, &layout, 8, true));
    assert!(rt; !wants_interrupt(&mem, &layout, 7, false));
    Ok(())
}

#[test]
fn a_notification_is_asked_for(rt: HostRuntime) -> Result<(), Fail> {
    let mut mem = GuestMem::new(rt.alloc(), 4).ok().ok_or("a memory")?;
    let layout = legacy(1, RING_SIZE, mem.length()).ok_or("a ring")?;
    put_event(&mut mem, &layout, 6);
    assert!(rt; mem.part(8320, 8) == [0, 0, 0, 0, 7, 0, 0, 0].as_slice());
    put_event(&mut mem, &layout, 65535);
    assert_eq!(rt; mem.u16_at(8324), 0);
    Ok(())
}

// What stands at a position, without the chain.
#[derive(Clone, Copy, Debug, PartialEq, Eq)]
enum Stands {
    Chain,
    Nothing,
    BadIndex,
    BadChain,
}

// What stands at position 0 of a ring in a memory, where tables may be used or not.
fn stands_in(alloc: Global, mem: &GuestMem, indirect: bool) -> Option<Stands> {
    let layout = legacy(1, RING_SIZE, mem.length())?;
    match next_chain(alloc, mem, &layout, 0, indirect).ok()? {
        Found::Chain(_) => Some(Stands::Chain),
        Found::Empty => Some(Stands::Nothing),
        Found::Bad(Bad::Index) => Some(Stands::BadIndex),
        Found::Bad(Bad::Chain) => Some(Stands::BadChain),
    }
}

// What stands at position 0 of a ring with this first descriptor and this front of the available ring.
fn found_with(alloc: Global, first: [u8; 16], avail: [u8; 6]) -> Option<Stands> {
    let mut mem = GuestMem::new(alloc, 4).ok()?;
    mem.write(4096, &TABLE);
    mem.write(4096, &first);
    mem.write(4352, &avail);
    stands_in(alloc, &mem, false)
}

// A descriptor by the second byte of its address, the length, the flags and the follower; all other bytes are 0.
const fn first(addr: u8, len: u8, flags: u8, next: u8) -> [u8; 16] {
    [0, addr, 0, 0, 0, 0, 0, 0, len, 0, 0, 0, flags, 0, next, 0]
}

#[test]
fn broken_rings_are_told_apart(rt: HostRuntime) {
    let one = [0, 0, 1, 0, 0, 0];
    let past = [
        0xf0, 0xff, 0xff, 0xff, 0xff, 0xff, 0xff, 0xff, 0x20, 0, 0, 0, 1, 0, 1, 0,
    ];
    let odd_flags = [0, 0x30, 0, 0, 0, 0, 0, 0, 16, 0, 0, 0, 1, 0x80, 1, 0];
    let at_the_end = [0xff, 0x3f, 0, 0, 0, 0, 0, 0, 1, 0, 0, 0, 1, 0, 1, 0];
    for (case, (descriptor, avail, want)) in [
        (first(0x30, 16, 1, 1), one, Stands::Chain),
        (first(0x30, 16, 1, 1), [0, 0, 0, 0, 0, 0], Stands::Nothing),
        (first(0x30, 16, 1, 1), [0, 0, 16, 0, 0, 0], Stands::Chain),
        (first(0x30, 16, 1, 1), [0, 0, 17, 0, 0, 0], Stands::BadIndex),
        (
            first(0x30, 16, 1, 1),
            [0, 0, 0x2c, 1, 0, 0],
            Stands::BadIndex,
        ),
        (first(0x30, 16, 1, 1), [0, 0, 1, 0, 16, 0], Stands::BadChain),
        (first(0x30, 16, 1, 0), one, Stands::BadChain),
        (first(0x30, 16, 1, 16), one, Stands::BadChain),
        (first(0x30, 16, 3, 1), one, Stands::BadChain),
        (first(0x30, 16, 4, 0), one, Stands::BadChain),
        (first(0x30, 16, 5, 1), one, Stands::BadChain),
        (first(0x30, 16, 0, 1), one, Stands::Chain),
        (first(0x40, 0, 1, 1), one, Stands::Chain),
        (first(0x41, 0, 1, 1), one, Stands::BadChain),
        (at_the_end, one, Stands::Chain),
        (past, one, Stands::BadChain),
        (odd_flags, one, Stands::Chain),
    ]
    .into_iter()
    .enumerate()
    {
        assert_eq!(rt;
            found_with(rt.alloc(), descriptor, avail),
            Some(want),
            "case {case}"
        );
    }
}

#[test]
fn two_buffers_are_a_pair(rt: HostRuntime) -> Result<(), Fail> {
    let mut mem = GuestMem::new(rt.alloc(), 4).ok().ok_or("a memory")?;
    mem.write(4096, &TABLE);
    mem.write(4352, &[0, 0, 3, 0, 1, 0, 2, 0, 1, 0]);
    let layout = legacy(1, RING_SIZE, mem.length()).ok_or("a ring")?;
    let pair = PairFound::Pair {
        head: 1,
        readable: 0x3200,
        readable_len: 512,
        writable: 0x3010,
        writable_len: 1,
    };
    assert_eq!(rt; next_pair(&mem, &layout, 0), pair);
    assert_eq!(rt; next_pair(&mem, &layout, 1), PairFound::Other);
    assert_eq!(rt; next_pair(&mem, &layout, 2), pair);
    assert_eq!(rt; next_pair(&mem, &layout, 3), PairFound::Empty);
    assert_eq!(rt; next_pair(&mem, &layout, 65522), PairFound::Other);
    put_used(&mut mem, &layout, 65535, 2, 513);
    assert!(rt; mem.part(8192, 4) == [0, 0, 0, 0].as_slice());
    assert!(rt; mem.part(8316, 10) == [2, 0, 0, 0, 1, 2, 0, 0, 0, 0].as_slice());
    Ok(())
}

// A descriptor by its address, its length, its flags and its follower.
fn descriptor(addr: u16, len: u16, flags: u8, next: u8) -> [u8; 16] {
    let [a, b] = addr.to_le_bytes();
    let [c, d] = len.to_le_bytes();
    [a, b, 0, 0, 0, 0, 0, 0, c, d, 0, 0, flags, 0, next, 0]
}

// What stands at position 0 of a ring with these first descriptors, where tables may be used or not, and a table of two
// descriptors stands at an address.
fn found_through(
    alloc: Global,
    direct: [[u8; 16]; 2],
    table: u16,
    inner: [[u8; 16]; 2],
    indirect: bool,
) -> Option<Stands> {
    let mut mem = GuestMem::new(alloc, 4).ok()?;
    mem.write(4096, &direct[0]);
    mem.write(4112, &direct[1]);
    mem.put_u16(4354, 1);
    let at = u64::from(table);
    for (addr, bytes) in [(at, &inner[0]), (at + 16, &inner[1])] {
        if mem.fits(addr, 16) {
            mem.write(addr, bytes);
        }
    }
    stands_in(alloc, &mem, indirect)
}

// A buffer to read and one to write, alone or with another behind it.
const READ: u8 = 0;

const READ_NEXT: u8 = 1;

const WRITE: u8 = 2;

const WRITE_NEXT: u8 = 3;

const INDIRECT: u8 = 4;

#[test]
fn tables_are_told_apart(rt: HostRuntime) {
    let none = [0; 16];
    let two = [
        descriptor(0x3400, 8, READ_NEXT, 1),
        descriptor(0x3400, 8, WRITE, 0),
    ];
    let one = |first| [first, none];
    for (case, (first, table, inner, want)) in [
        // A table of two descriptors, and one of one.
        (
            descriptor(0x3000, 32, INDIRECT, 0),
            0x3000,
            two,
            Stands::Chain,
        ),
        (
            descriptor(0x3000, 16, INDIRECT, 0),
            0x3000,
            one(descriptor(0, 1, READ, 0)),
            Stands::Chain,
        ),
        // The flag WRITE beside INDIRECT means nothing, the follower without NEXT neither.
        (
            descriptor(0x3000, 32, INDIRECT + WRITE, 99),
            0x3000,
            two,
            Stands::Chain,
        ),
        // NEXT beside INDIRECT.
        (
            descriptor(0x3000, 32, INDIRECT + READ_NEXT, 1),
            0x3000,
            two,
            Stands::BadChain,
        ),
        // Lengths that are none of a table.
        (
            descriptor(0x3000, 0, INDIRECT, 0),
            0x3000,
            two,
            Stands::BadChain,
        ),
        (
            descriptor(0x3000, 8, INDIRECT, 0),
            0x3000,
            two,
            Stands::BadChain,
        ),
        (
            descriptor(0x3000, 33, INDIRECT, 0),
            0x3000,
            two,
            Stands::BadChain,
        ),
        (
            descriptor(0x3000, 2048, INDIRECT, 0),
            0x3000,
            two,
            Stands::Chain,
        ),
        (
            descriptor(0x3000, 2064, INDIRECT, 0),
            0x3000,
            two,
            Stands::BadChain,
        ),
        // A table at the memory's end, and past it.
        (
            descriptor(0x3fe0, 32, INDIRECT, 0),
            0x3fe0,
            two,
            Stands::Chain,
        ),
        (
            descriptor(0x3fe1, 32, INDIRECT, 0),
            0x3fe1,
            two,
            Stands::BadChain,
        ),
        (
            descriptor(0x3ff0, 32, INDIRECT, 0),
            0x3ff0,
            one(descriptor(0, 1, READ, 0)),
            Stands::BadChain,
        ),
        (
            descriptor(0xfff0, 32, INDIRECT, 0),
            0x3000,
            two,
            Stands::BadChain,
        ),
        // A table in a table, a loop, and a follower past the table.
        (
            descriptor(0x3000, 32, INDIRECT, 0),
            0x3000,
            one(descriptor(0x3000, 32, INDIRECT, 0)),
            Stands::BadChain,
        ),
        (
            descriptor(0x3000, 32, INDIRECT, 0),
            0x3000,
            one(descriptor(0x3400, 8, READ_NEXT, 0)),
            Stands::BadChain,
        ),
        (
            descriptor(0x3000, 32, INDIRECT, 0),
            0x3000,
            one(descriptor(0x3400, 8, READ_NEXT, 2)),
            Stands::BadChain,
        ),
        (
            descriptor(0x3000, 16, INDIRECT, 0),
            0x3000,
            two,
            Stands::BadChain,
        ),
        // A buffer of a table past the memory, and one to read behind one to write.
        (
            descriptor(0x3000, 32, INDIRECT, 0),
            0x3000,
            one(descriptor(0x3ff9, 8, READ, 0)),
            Stands::BadChain,
        ),
        (
            descriptor(0x3000, 32, INDIRECT, 0),
            0x3000,
            [
                descriptor(0x3400, 8, WRITE_NEXT, 1),
                descriptor(0x3400, 8, READ, 0),
            ],
            Stands::BadChain,
        ),
    ]
    .into_iter()
    .enumerate()
    {
        let direct = [first, none];
        assert_eq!(rt;
            found_through(rt.alloc(), direct, table, inner, true),
            Some(want),
            "case {case}"
        );
        assert_eq!(rt;
            found_through(rt.alloc(), direct, table, inner, false),
            Some(Stands::BadChain),
            "case {case} without tables"
        );
    }
}

#[test]
fn buffers_stand_before_a_table(rt: HostRuntime) -> Result<(), Fail> {
    let table = descriptor(0x3000, 32, INDIRECT, 0);
    let inner = [
        descriptor(0x3410, 2, READ_NEXT, 1),
        descriptor(0x3420, 3, WRITE, 0),
    ];
    let written = [descriptor(0x3400, 4, WRITE_NEXT, 1), table];
    assert_eq!(rt;
        found_through(rt.alloc(), written, 0x3000, inner, true),
        Some(Stands::BadChain)
    );
    let replies = [descriptor(0x3410, 2, WRITE, 0), inner[1]];
    assert_eq!(rt;
        found_through(rt.alloc(), written, 0x3000, replies, true),
        Some(Stands::Chain)
    );
    let mut mem = GuestMem::new(rt.alloc(), 4).ok().ok_or("a memory")?;
    mem.write(4096, &descriptor(0x3400, 4, READ_NEXT, 1));
    mem.write(4112, &table);
    mem.write(0x3000, &inner[0]);
    mem.write(0x3010, &inner[1]);
    mem.write(0x3400, &[1, 2, 3, 4]);
    mem.write(0x3410, &[5, 6]);
    mem.put_u16(4354, 1);
    let layout = legacy(1, RING_SIZE, mem.length()).ok_or("a ring")?;
    let Ok(Found::Chain(chain)) = next_chain(rt.alloc(), &mem, &layout, 0, true) else {
        return Err("a chain".into());
    };
    assert_eq!(rt; chain.head(), 0);
    assert_eq!(rt; chain.readable(), 6);
    assert_eq!(rt; chain.writable(), 3);
    let request = gather(rt.alloc(), &mem, &chain).ok().ok_or("the request")?;
    assert!(rt; request.as_slice() == [1, 2, 3, 4, 5, 6].as_slice());
    let reply = Bytes::from_slice(rt.alloc(), &[7, 8, 9])
        .ok()
        .ok_or("a reply")?;
    scatter(&mut mem, &chain, &reply);
    assert!(rt; mem.part(0x3420, 4) == [7, 8, 9, 0].as_slice());
    Ok(())
}

// Puts a descriptor at an index of a table.
fn put(mem: &mut GuestMem, table: u64, index: u8, bytes: [u8; 16]) {
    let at = 16 * u64::from(index);
    if mem.fits(table, at + 16) {
        mem.write(table + at, &bytes);
    }
}

#[test]
fn a_chain_may_fill_both_tables(rt: HostRuntime) -> Result<(), Fail> {
    let mut mem = GuestMem::new(rt.alloc(), 4).ok().ok_or("a memory")?;
    mem.put_u16(4354, 1);
    for index in 0..15 {
        put(
            &mut mem,
            4096,
            index,
            descriptor(0, 1, READ_NEXT, index + 1),
        );
    }
    put(&mut mem, 4096, 15, descriptor(0x3000, 2048, INDIRECT, 0));
    for index in 0..127 {
        put(
            &mut mem,
            0x3000,
            index,
            descriptor(0, 1, WRITE_NEXT, index + 1),
        );
    }
    put(&mut mem, 0x3000, 127, descriptor(0, 1, WRITE_NEXT, 0));
    assert_eq!(rt; stands_in(rt.alloc(), &mem, true), Some(Stands::BadChain));
    put(&mut mem, 0x3000, 127, descriptor(0, 1, WRITE, 0));
    assert_eq!(rt; stands_in(rt.alloc(), &mem, true), Some(Stands::Chain));
    Ok(())
}
