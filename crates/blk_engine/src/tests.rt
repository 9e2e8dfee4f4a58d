use super::*;
use board_text::Bytes;
use std::alloc::Global;
use std::test::Fail;

// A request of a kind at a sector, with so many bytes of 7 behind its header.
fn request(alloc: Global, kind: u8, sector: u8, given: usize) -> Option<Bytes> {
    let mut bytes = Bytes::from_slice(
        alloc,
        &[kind, 0, 0, 0, 0, 0, 0, 0, sector, 0, 0, 0, 0, 0, 0, 0],
    )
    .ok()?;
    bytes.extend(&[7; 512][..given.min(512)]).ok()?;
    Some(bytes)
}

// The reply's length and its last byte.
fn status(
    alloc: Global,
    disk: &mut Disk,
    read_only: bool,
    request: &Bytes,
    writable: u32,
) -> Option<(usize, u8)> {
    match serve(alloc, disk, 7, read_only, request, u64::from(writable)).ok()? {
        BlkAnswer::Reply(reply) => Some((reply.as_slice().len(), *reply.as_slice().last()?)),
        BlkAnswer::Malformed => None,
    }
}

#[test]
fn requests(rt: HostRuntime) -> Result<(), Fail> {
    let mut disk = Disk::new(rt.alloc(), 8).ok().ok_or("a disk")?;
    for (kind, sector, given, read_only, writable, want) in [
        (1, 3, 512, false, 1, Some((1, 0))),
        (1, 3, 511, false, 1, Some((1, 1))),
        (1, 3, 512, true, 1, Some((1, 1))),
        (1, 8, 512, false, 1, Some((1, 1))),
        (0, 3, 0, false, 513, Some((513, 0))),
        (0, 7, 0, true, 513, Some((513, 0))),
        (0, 7, 0, false, 1025, Some((1025, 1))),
        (0, 8, 0, false, 1, Some((1, 0))),
        (0, 9, 0, false, 1, Some((1, 1))),
        (4, 0, 0, true, 3, Some((3, 0))),
        (8, 0, 0, false, 21, Some((21, 0))),
        (8, 0, 0, false, 20, Some((20, 1))),
        (9, 0, 0, false, 2, Some((2, 2))),
        (4, 0, 0, false, 0, None),
    ] {
        let asked = request(rt.alloc(), kind, sector, given).ok_or("a request")?;
        assert_eq!(rt;
            status(rt.alloc(), &mut disk, read_only, &asked, writable),
            want
        );
    }
    let asked = request(rt.alloc(), 0, 3, 0).ok_or("a request")?;
    let Ok(BlkAnswer::Reply(reply)) = serve(rt.alloc(), &mut disk, 7, false, &asked, 513) else {
        return Err("a reply".into());
    };
    assert_eq!(rt; reply.as_slice().first(), Some(&7));
    let asked = request(rt.alloc(), 8, 0, 0).ok_or("a request")?;
    let Ok(BlkAnswer::Reply(reply)) = serve(rt.alloc(), &mut disk, 7, false, &asked, 23) else {
        return Err("a reply".into());
    };
    assert_eq!(rt; reply.as_slice(), b"virtio-group-blk-007\0\0\0".as_slice());
    Ok(())
}
