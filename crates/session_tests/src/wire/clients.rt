//! Clients: what they send, and the replies that they read.
use crate::wire::ends::{read, sends};
use cue_wire::{Kind, Request};
use std::test::Fail;

#[test]
fn requests_are_frames(rt: HostRuntime) -> Result<(), Fail> {
    let alloc = rt.alloc();
    assert!(rt; sends(alloc, &[], b""));
    let handed = [
        Request::Text(String::from_str(alloc, "a: 1\n")?),
        Request::State(Vec::from_slice(alloc, &[0xFE])?),
        Request::AskState,
    ];
    let wanted = b"\0\0\0\x06\x01a: 1\n\0\0\0\x02\x02\xfe\0\0\0\x01\x03";
    assert!(rt; sends(alloc, &handed, wanted));
    let asked = [Request::AskExport, Request::AskReport, Request::AskPrint];
    let wanted = b"\0\0\0\x01\x04\0\0\0\x01\x05\0\0\0\x01\x06";
    assert!(rt; sends(alloc, &asked, wanted));
    Ok(())
}

/// Three replies, and the beginning of a fourth.
const STREAM: [u8; 17] = *b"\0\0\0\x01\0\0\0\0\0\0\0\0\x02hi\0\0";

#[test]
fn replies_are_read_however_the_stream_is_cut(rt: HostRuntime) -> Result<(), Fail> {
    for size in 1usize..18 {
        let (lines, fault) = read(rt.alloc(), &STREAM, size)?;
        assert!(rt; fault.is_none() && lines.as_slice() == b"\0\n\nhi\n".as_slice());
    }
    Ok(())
}

#[test]
fn a_length_that_no_frame_has_changes_nothing(rt: HostRuntime) -> Result<(), Fail> {
    let (lines, fault) = read(rt.alloc(), b"\0\0\0\x02ok\x01\0\0\x01\0\0\0\0", 6)?;
    assert_eq!(rt; fault, Some(Kind::FrameTooLong));
    assert!(rt; lines.as_slice() == b"ok\n".as_slice());
    Ok(())
}
