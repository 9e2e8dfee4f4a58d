use admin_wire::{
    Body, LegacyCmd, Status, read_command, read_done, write_long_done, write_long_legacy,
};
use board_text::Piece;
use std::test::Fail;

#[test]
fn long_commands_and_completions_are_read_again(rt: HostRuntime) -> Result<(), Fail> {
    let alloc = rt.alloc();
    let data = [7; 224];
    let access = LegacyCmd::DevWrite {
        offset: 20,
        bytes: Piece::from_slice(alloc, &data)?,
    };
    let command = read_command(&write_long_legacy(alloc, 3, &access)?, 8);
    assert_eq!(rt; command.member, 3);
    assert_eq!(rt; command.body, Body::Legacy(access));
    let (ok, result) = (Status::Ok.number(), [9; 248]);
    let whole = read_done(&write_long_done(alloc, ok, 0, &result, 256)?);
    assert_eq!(rt; whole.payload.as_slice(), result.as_slice());
    let part = read_done(&write_long_done(alloc, ok, 0, &result, 100)?);
    assert_eq!(rt; part.payload.as_slice(), &result[..92]);
    Ok(())
}
