use board_script::{AdminText, Script, ScriptFault, read_admin, read_alone, read_script};
use script_load::{LOAD_LIMIT, load_script};
use script_writer::write_script;
use std::alloc::{AllocError, Global};
use std::test::Fail;

// Each row is what reading answers, and behind `|` the text. There `/` stands for a line end, `~` for the
// three lines of `THREE`, `%` for a board and sixteen guests, `^` for 500 bytes in hex and `&` for 256.
const THREE: &str = "board 2 4 2\nguest 1 block 1 8\nguest 2 net 1 020000000002\n";

const SIXTEEN: &str = "board 1 4 0
guest 1 block 1 8
guest 2 block 1 8
guest 3 block 1 8
guest 4 block 1 8
guest 5 block 1 8
guest 6 block 1 8
guest 7 block 1 8
guest 8 block 1 8
guest 9 block 1 8
guest 10 block 1 8
guest 11 block 1 8
guest 12 block 1 8
guest 13 block 1 8
guest 14 block 1 8
guest 15 block 1 8
guest 16 block 1 8
";

const SCRIPTS: &str = "ok|board 1 4 0
ok|board 8 256 8/
ok|board 1 8 0
ok|board 1 16 0
ok|board 1 32 0
ok|board 1 64 0
ok|board 1 128 0
bad line 1: number|board 0 4 0
bad line 1: number|board 9 4 0
bad line 1: number|board 1 2 0
bad line 1: number|board 1 5 0
bad line 1: number|board 1 512 0
bad line 1: number|board 1 4 9
bad line 1: number|board 01 4 0
bad line 1: word|board 1 4
bad line 1: word|board 1 4 0 0
bad line 1: setup|
bad line 1: setup|/
bad line 1: setup|# c/
bad line 2: setup|# x/g1 in 0 1
bad line 2: word|# x/g1 in 0
bad line 1: word|walk
bad line 2: setup|board 1 4 0/board 1 4 0
bad line 2: setup|board 1 4 0/board 9 9 9
bad line 1: setup|guest 1 block 1 8
ok|board 1 4 0/guest 1 block 1 0
ok|board 1 4 0/guest 1 block 64 4096 ro
bad line 2: number|board 1 4 0/guest 1 block 0 8
bad line 2: number|board 1 4 0/guest 1 block 65 8
bad line 2: number|board 1 4 0/guest 1 block 1 4097
bad line 2: word|board 1 4 0/guest 1 block 1 8 rw
bad line 2: word|board 1 4 0/guest 1 block 1 8 ro ro
bad line 2: word|board 1 4 0/guest 1 disk 1 8
bad line 2: word|board 1 4 0/guest 0 disk 1 8
bad line 2: hex|board 1 4 0/guest 1 net 1 02000000000
bad line 2: hex|board 1 4 0/guest 1 net 1 02000000000g
bad line 2: hex|board 1 4 0/guest 1 net 1 ^0
bad line 2: range|board 1 4 0/guest 1 net 1 ^
bad line 2: range|board 1 4 0/guest 1 net 1 0200000000
bad line 2: range|board 1 4 0/guest 1 net 1 02000000000000
bad line 2: number|board 1 4 0/guest 1 net 65 x
bad line 2: setup|board 1 4 0/guest 2 block 1 8
bad line 2: setup|board 1 4 0/guest 0 block 1 8
bad line 2: number|board 1 4 0/guest 01 block 1 8
bad line 5: setup|~g1 irqs/guest 3 block 1 8
bad line 5: setup|~g1 irqs/guest 03 block 1 8
bad line 5: setup|~go g1 0/guest 3 block 1 8
ok|~guest 3 block 1 8
ok|%
bad line 18: number|%guest 17 block 1 8
bad line 18: setup|%guest 18 block 1 8
ok|~g1 in 0 1/g1 in 255 4 @1 once/g1 in 0 2 once/g1 in 0 2 @0
bad line 4: number|~g1 in 256 1
bad line 4: number|~g1 in 00 1
bad line 4: number|~g1 in 0 0
bad line 4: number|~g1 in 0 3
bad line 4: number|~g1 in 0 5
bad line 4: word|~g1 in 0
bad line 4: word|~g1 in 0 4 foo
bad line 4: word|~g1 in 0 4 once @0
bad line 4: word|~g1 in 0 4 @0 once once
bad line 4: number|~g1 in 0 4 @foo
bad line 4: number|~g1 in 0 4 @
bad line 4: number|~g1 in 0 4 @01
bad line 4: actor|~g1 in 0 4 @2
bad line 4: actor|~g9 in 0 3
bad line 4: actor|~g0 irqs
bad line 4: actor|~g3 irqs
bad line 4: number|~g01 irqs
bad line 4: number|~g00 irqs
bad line 4: number|~g18446744073709551616 irqs
bad line 4: actor|~g18446744073709551615 irqs
bad line 4: word|~g irqs
bad line 4: word|~G1 irqs
bad line 4: word|~g-1 irqs
bad line 4: word|~g1x irqs
bad line 4: word|~w0 in 0 1
ok|~g1 out 0 00/g2 out 255 fFaA @1 once/g1 out 0 00000001
bad line 4: hex|~g1 out 8 0100000
bad line 4: hex|~g1 out 8 0
bad line 4: hex|~g1 out 8 0x01
bad line 4: hex|~g1 out 8 -
bad line 4: range|~g1 out 8 010000
bad line 4: range|~g1 out 8 0102030405
bad line 4: range|~g1 out 8 010000 @9
bad line 4: number|~g1 out 256 0
ok|~g1 mem 0 00/g1 mem 4095 ff/g1 mem 0 &&
bad line 4: range|~g1 mem 0 &&00
bad line 4: range|~g1 mem 4095 ffff
bad line 4: range|~g1 mem 4096 00
bad line 4: hex|~g1 mem 99999 0
bad line 4: number|~g1 mem -1 00
ok|~g1 peek 0 1/g1 peek 3584 512/g1 peek 4095 1
bad line 4: range|~g1 peek 3585 512
bad line 4: range|~g1 peek 4096 1
bad line 4: number|~g1 peek 0 0
bad line 4: number|~g1 peek 0 513
bad line 4: range|~g1 peek 18446744073709551615 1
bad line 4: range|~g1 peek 10000000000000000000 1
bad line 4: number|~g1 peek 18446744073709551616 1
bad line 4: number|~g1 peek 99999999999999999999 1
bad line 4: number|~g1 peek 100000000000000000000 1
ok|~g1 msix on/g1 msix off/g1 io on/g1 io off
bad line 4: word|~g1 msix ON
bad line 4: word|~g1 io
bad line 4: word|~g1 io on off
ok|~g1 cfg 0 4/g1 cfg 255 1/g1 irqs/g1 poll 0/g1 poll 65535
bad line 4: number|~g1 cfg 256 1
bad line 4: number|~g1 cfg 0 3
bad line 4: word|~g1 irqs 1
bad line 4: number|~g1 poll 65536
ok|~w0 serve 1/w1 serve 0/w1 poll 2 65535
bad line 4: actor|~w2 serve 0
bad line 4: actor|~w0 serve 2
bad line 4: number|~w0 serve 01
bad line 4: number|~w00 serve 0
bad line 4: actor|~w0 poll 3 65536
bad line 4: actor|~w0 poll 0 0
bad line 4: number|~w0 poll 1 65536
bad line 4: word|~w irqs
ok|~host frame 2 0000000000000000000000000000/host frame 2 ^^^0000000000000000000000000000
bad line 4: range|~host frame 2 00000000000000000000000000
bad line 4: range|~host frame 2 ^^^000000000000000000000000000000
bad line 4: range|~host frame 1 00
bad line 4: kind|~host frame 1 0000000000000000000000000000
bad line 4: actor|~host frame 3 0
bad line 4: hex|~host frame 2 0
ok|~host flr 1/host disable 2/host reset
bad line 4: actor|~host flr 3
bad line 4: number|~host disable 01
bad line 4: word|~host reset 1
bad line 4: word|~host enable 1
bad line 4: word|~host
ok|~go g1 1/go g2 0 w1 999998 host 1
bad line 4: limit|~go g1 1000000 host 1
bad line 5: limit|~go g1 1000000/go host 1
ok|~go g1 1000000/go host 0
bad line 4: number|~go g1 1000001
bad line 4: number|~go g1 1 g01 1
bad line 4: actor|~go g9 1
bad line 4: actor|~go g1 600000 g2 600000 w9 1
bad line 4: word|~go
bad line 4: word|~go g1
bad line 4: word|~go g1 1 x
bad line 4: word|~go board 1
bad line 4: word|~ g1 irqs
bad line 4: word|~g1  irqs
bad line 4: word|~g1 irqs /
bad line 4: word|~ /
bad line 4: word|~ # c
bad line 4: word|~g1\tirqs
bad line 4: word|~g1 irqs\x7f/
bad line 4: word|~g1 irqs\0/
bad line 4: word|~é
bad line 1: word|board 1 4 0\r/guest 1 block 1 8\r/
ok|~#é\t\0\r/#//
bad line 4: number|~g1 in 0 3/g9 irqs
bad line 7: actor|~/#//g9 irqs
";

const ALONE: &str = "ok|board 1 4 0/guest 1 block 1 8
ok|board 1 4 1/guest 1 net 1 020000000001/w0 serve 0/g1 in 0 1 @0 once/go g1 1 host 3
bad line 3: number|board 1 4 0/guest 1 block 1 8/g1 in 0 3
bad line 3: hex|board 1 4 0/guest 1 block 1 8/g1 out 8 0100000
bad line 3: range|board 1 4 0/guest 1 block 1 8/g1 out 8 010000
bad line 3: actor|board 1 4 0/guest 1 block 1 8/g1 in 12 2 @1
bad line 3: setup|board 1 4 0/guest 1 block 1 8/guest 3 block 1 8
bad line 1: limit|board 1 4 0/guest 1 block 1 8/guest 2 block 1 8
bad line 1: limit|board 1 4 0
bad line 3: word|board 1 4 0//x
bad line 1: setup|
";

const ADMIN: &str = "ok|
ok|vfs 0
ok|# c/vfs 16/reset/reset/cmd 0 -/cmd 256 00/cmd 256 &
bad line 1: number|vfs 17
bad line 1: number|vfs 01
bad line 1: word|vfs
bad line 1: word|reset 1
bad line 2: setup|vfs 1/vfs 1
bad line 2: setup|vfs 1/vfs 99
bad line 2: setup|reset/vfs 1
ok|cmd 1 00/vfs 1
bad line 1: number|cmd 257 0
bad line 1: hex|cmd 8 --
bad line 1: hex|cmd 8 0
bad line 1: hex|cmd 8 &&0
bad line 1: range|cmd 8 &00
bad line 1: word|cmd 8
bad line 1: word|board 1 4 0
";

fn add_many(text: &mut Vec<u8>, part: &str, count: u32) -> Result<(), AllocError> {
    for _ in 0..count {
        text.extend_from_slice(part.as_bytes())?;
    }
    Ok(())
}

fn text_of(alloc: Global, short: &str) -> Result<Vec<u8>, AllocError> {
    let mut text = Vec::new(alloc);
    for byte in short.as_bytes() {
        match *byte {
            b'/' => text.push(b'\n')?,
            b'~' => add_many(&mut text, THREE, 1)?,
            b'%' => add_many(&mut text, SIXTEEN, 1)?,
            b'^' => add_many(&mut text, "a0", 500)?,
            b'&' => add_many(&mut text, "0B", 256)?,
            other => text.push(other)?,
        }
    }
    Ok(text)
}

fn answer<T: Drop>(alloc: Global, read: Result<T, ScriptFault>) -> Result<String, AllocError> {
    match read {
        Ok(_) => format!(in alloc; "ok"),
        Err(fault) => format!(in alloc; "{fault}"),
    }
}

#[test]
fn texts_are_read_or_refused_at_their_first_fault(rt: HostRuntime) -> Result<(), Fail> {
    let alloc = rt.alloc();
    for (rows, reader) in [(SCRIPTS, 0), (ALONE, 1), (ADMIN, 2)] {
        for row in rows.lines() {
            let (want, short) = row.split_once('|').ok_or("a row")?;
            let text = text_of(alloc, short)?;
            let text = text.as_slice();
            assert!(rt; text.len() < 100_000);
            let said = match reader {
                0 => answer(alloc, read_script(alloc, text))?,
                1 => answer(alloc, read_alone(alloc, text))?,
                _ => answer(alloc, read_admin(alloc, text))?,
            };
            assert_eq!(rt; said.as_str(), want, "at {row}");
        }
    }
    for (more, want) in [
        ("", "ok"),
        ("go g1 1\n", "ok"),
        ("g1 irqs\n", "bad line 4099: limit"),
        ("g2 irqs\n", "bad line 4099: actor"),
    ] {
        let mut text = text_of(alloc, "board 1 4 0/guest 1 block 1 8/")?;
        add_many(&mut text, "g1 irqs\n", 4096)?;
        add_many(&mut text, more, 1)?;
        let text = text.as_slice();
        assert!(rt; text.len() < 100_000);
        assert_eq!(rt; answer(alloc, read_alone(alloc, text))?.as_str(), want);
    }
    Ok(())
}

// A script with each form, and what is read of it.
const EACH_FORM: &str = "# a group
board 2 256 2
guest 1 block 64 4096 ro
guest 2 net 1 0200000000Ff

guest 3 block 1 0
g1 in 18 1
g1 in 0 4 @1 once
g2 in 255 2 once
g2 in 12 2 @0
g1 out 14 0100
g1 out 8 AbCdEf01 @1 once
g1 mem 262142 00ff
g2 peek 3584 512
# in between
g1 msix on
g1 msix off
g1 io on
g1 io off
g1 cfg 4 2
g3 irqs
g2 poll 65535
w0 serve 1
w1 poll 2 1
host frame 2 ffffffffffff0200000000020806
go g1 3 w1 1000 host 0
host flr 1
host disable 3
host reset
go host 1
";

const SHOWN: &str = "2 256 2 3
Setup { pages: 64, kind: Block { sectors: 4096, read_only: true } }
Setup { pages: 1, kind: Net { mac: [2, 0, 0, 0, 0, 255] } }
Setup { pages: 1, kind: Block { sectors: 0, read_only: false } }
ActorLine { number: 7, who: 1, what: BarRead { offset: 18, length: 1, queue: None, once: false } }
ActorLine { number: 8, who: 1, what: BarRead { offset: 0, length: 4, queue: Some(1), once: true } }
ActorLine { number: 9, who: 2, what: BarRead { offset: 255, length: 2, queue: None, once: true } }
ActorLine { number: 10, who: 2, what: BarRead { offset: 12, length: 2, queue: Some(0), once: false } }
ActorLine { number: 11, who: 1, what: BarWrite { offset: 14, bytes: Bytes { items: [1, 0] }, queue: None, once: false } }
ActorLine { number: 12, who: 1, what: BarWrite { offset: 8, bytes: Bytes { items: [171, 205, 239, 1] }, queue: Some(1), once: true } }
ActorLine { number: 13, who: 1, what: Mem { addr: 262142, bytes: Bytes { items: [0, 255] } } }
ActorLine { number: 14, who: 2, what: Peek { addr: 3584, length: 512 } }
ActorLine { number: 16, who: 1, what: Msix { on: true } }
ActorLine { number: 17, who: 1, what: Msix { on: false } }
ActorLine { number: 18, who: 1, what: Io { on: true } }
ActorLine { number: 19, who: 1, what: Io { on: false } }
ActorLine { number: 20, who: 1, what: Cfg { offset: 4, length: 2 } }
ActorLine { number: 21, who: 3, what: Irqs }
ActorLine { number: 22, who: 2, what: Poll { queue: 65535 } }
ActorLine { number: 23, who: 17, what: Serve { queue: 1 } }
ActorLine { number: 24, who: 18, what: WorkerPoll { member: 2, queue: 1 } }
ActorLine { number: 25, who: 25, what: Frame { member: 2, frame: Bytes { items: [255, 255, 255, 255, 255, 255, 2, 0, 0, 0, 0, 2, 8, 6] } } }
ActorLine { number: 27, who: 25, what: Flr { member: 1 } }
ActorLine { number: 28, who: 25, what: Disable { member: 3 } }
ActorLine { number: 29, who: 25, what: Reset }
Turns { who: 1, count: 3 }
Turns { who: 18, count: 1000 }
Turns { who: 25, count: 0 }
Turns { who: 25, count: 1 }
";

const WRITTEN: &str = "board 2 256 2
guest 1 block 64 4096 ro
guest 2 net 1 0200000000ff
guest 3 block 1 0
g1 in 18 1
g1 in 0 4 @1 once
g2 in 255 2 once
g2 in 12 2 @0
g1 out 14 0100
g1 out 8 abcdef01 @1 once
g1 mem 262142 00ff
g2 peek 3584 512
g1 msix on
g1 msix off
g1 io on
g1 io off
g1 cfg 4 2
g3 irqs
g2 poll 65535
w0 serve 1
w1 poll 2 1
host frame 2 ffffffffffff0200000000020806
host flr 1
host disable 3
host reset
go g1 3
go w1 1000
go host 0
go host 1
";

const EACH_ADMIN_FORM: &str = "vfs 16\n# c\nreset\n\ncmd 16 00aB\ncmd 256 -\n";

const SHOWN_ADMIN: &str = "Vfs { count: 16 }
Reset
Cmd { writable: 16, bytes: Piece { items: [0, 171] } }
Cmd { writable: 256, bytes: Piece { items: [] } }
";

fn show(alloc: Global, script: &Script) -> Result<String, AllocError> {
    let (queues, size, workers) = (script.queues(), script.queue_size(), script.workers());
    let mut shown = format!(in alloc; "{queues} {size} {workers} {}\n", script.guests())?;
    for guest in 0..script.guests() {
        let row = format!(in alloc; "{:?}\n", script.setup(guest + 1))?;
        shown.push_str(row.as_str())?;
    }
    for index in 0..script.line_count() {
        let row = format!(in alloc; "{:?}\n", script.line(index))?;
        shown.push_str(row.as_str())?;
    }
    for index in 0..script.turn_count() {
        let row = format!(in alloc; "{:?}\n", script.turns(index))?;
        shown.push_str(row.as_str())?;
    }
    Ok(shown)
}

fn show_admin(alloc: Global, text: &AdminText) -> Result<String, AllocError> {
    let mut shown = String::new(alloc);
    for index in 0..text.length() {
        let row = format!(in alloc; "{:?}\n", text.line(index))?;
        shown.push_str(row.as_str())?;
    }
    Ok(shown)
}

#[test]
fn each_form_is_shown_and_written(rt: HostRuntime) -> Result<(), Fail> {
    let alloc = rt.alloc();
    let script = read_script(alloc, EACH_FORM.as_bytes())?;
    assert_eq!(rt; show(alloc, &script)?.as_str(), SHOWN);
    let text = write_script(alloc, &script)?;
    assert!(rt; text.as_slice() == WRITTEN.as_bytes());
    let again = read_script(alloc, WRITTEN.as_bytes())?;
    assert!(rt; write_script(alloc, &again)?.as_slice() == WRITTEN.as_bytes());
    let admin = read_admin(alloc, EACH_ADMIN_FORM.as_bytes())?;
    assert_eq!(rt; show_admin(alloc, &admin)?.as_str(), SHOWN_ADMIN);
    Ok(())
}

const LOADED: &str = "board 1 4 0
guest 1 block 4 8
guest 2 net 4 020000000002
guest 3 block 4 8
guest 4 net 4 020000000004
";

#[test]
fn seeds_give_their_lines(rt: HostRuntime) -> Result<(), Fail> {
    let alloc = rt.alloc();
    let rows: [(u64, u32, &str); 4] = [
        (0, 0, ""),
        (
            0,
            8,
            "g4 in 19 1\ng1 in 12 2\ng2 in 18 1\ng1 out 14 0300\ng2 in 19 1\ng4 in 12 2\ng1 in 12 2\ng4 out 14 0000\n",
        ),
        (1, 1, "g3 out 14 0100\n"),
        (
            18446744073709551615,
            4,
            "g1 in 12 2\ng4 out 14 0300\ng2 out 14 0100\ng3 in 18 1\n",
        ),
    ];
    for (seed, count, lines) in rows {
        assert!(rt; count <= LOAD_LIMIT);
        let text = write_script(alloc, &load_script(alloc, seed, count)?)?;
        let mut want = Vec::from_slice(alloc, LOADED.as_bytes())?;
        want.extend_from_slice(lines.as_bytes())?;
        assert!(rt; text.as_slice() == want.as_slice());
    }
    Ok(())
}
