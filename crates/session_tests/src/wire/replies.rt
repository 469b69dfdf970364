//! Requests and their replies.
use crate::wire::ends::{replies, serve, site_of};
use cue_wire::Replica;
use std::alloc::Global;
use std::test::Fail;

/// A text, its export, and an empty frame.
const REQUESTS: [u8; 19] = *b"\0\0\0\x06\x01a: 1\n\0\0\0\x01\x04\0\0\0\0";

const REPLIES: [u8; 31] = *b"\0\0\0\x01\0\0\0\0\x09\0\0{\"a\":1}\0\0\0\x09\x14\0\0\0\0\0\0\0\0";

/// The state of `a: 1`, as the reply to the request for it.
pub const STATE: [u8; 97] = [
    0, 0, 0, 0x5D, 0, // the length, and what was accepted
    0xFE, 0x43, 0x55, 0x45, 2, 0, 0, 0, 0, 0, 0, 0, 2, // two rows
    0, 0, 2, 0, // the root
    1, 0, 0, 1, 0x61, 2, 1, // a scalar at the label a
    0, 0, 0, 0, 0, 0, 0, 0, 1, // a set of one piece
    0, 0, 0, 0, 0, 0, 0, 1, 0, 0, 0, 0, 0, 0, 0, 1, // from 1 to 1
    0, 0, 0, 0, 0, 0, 0, 0, 0, // no text
    0, 0, 0, 0, 0, 0, 0, 0, 1, // the usual set is the same
    0, 0, 0, 0, 0, 0, 0, 1, 0, 0, 0, 0, 0, 0, 0, 1, //
    0, 0, 0, 0, 0, 0, 0, 0, 0,
];

#[test]
fn replies_are_the_same_however_the_stream_is_cut(rt: HostRuntime) -> Result<(), Fail> {
    for size in 1usize..20 {
        assert!(rt; replies(rt.alloc(), "", &REQUESTS, size, &REPLIES)?);
    }
    Ok(())
}

/// Whether a site with `a: 1` gives these replies to a stream.
fn asks(alloc: Global, stream: &[u8], wanted: &[u8]) -> Result<bool, Fail> {
    replies(alloc, "a: 1\n", stream, 3, wanted)
}

#[test]
fn questions_of_a_site_that_knows_a_number(rt: HostRuntime) -> Result<(), Fail> {
    let alloc = rt.alloc();
    assert!(rt; asks(alloc, b"\0\0\0\x01\x06", b"\0\0\0\x08\0\"a\": 1\n")?);
    assert!(rt; asks(alloc, b"\0\0\0\x01\x05", b"\0\0\0\x01\0")?);
    assert!(rt; asks(alloc, b"\0\0\0\x01\x03", &STATE)?);
    assert!(rt; asks(alloc, b"\0\0\0\x01\x04", b"\0\0\0\x09\0\0{\"a\":1}")?);
    Ok(())
}

#[test]
fn what_is_refused(rt: HostRuntime) -> Result<(), Fail> {
    let alloc = rt.alloc();
    let bad = b"\0\0\0\x09\x14\0\0\0\0\0\0\0\0";
    assert!(rt;
        asks(
            alloc,
            b"\0\0\0\x06\x01a: *1",
            b"\0\0\0\x09\x07\0\0\0\0\0\0\0\x05"
        )?
    );
    assert!(rt; asks(alloc, b"\0\0\0\x02\x03\0", bad)?);
    assert!(rt; asks(alloc, b"\0\0\0\0", bad)?);
    assert!(rt; asks(alloc, b"\0\0\0\x01\0", bad)?);
    assert!(rt; asks(alloc, b"\0\0\0\x01\x07", bad)?);
    assert!(rt; asks(alloc, b"\0\0\0\x02\x01\xff", bad)?);
    assert!(rt; asks(alloc, b"\0\0\0\x01\x01", b"\0\0\0\x01\0")?);
    assert!(rt; asks(alloc, b"\0\0\0\x01\x02", b"\0\0\0\x09\x12\0\0\0\0\0\0\0\0")?);
    assert!(rt;
        asks(
            alloc,
            b"\0\0\0\x06\x02\xfeCUE\x09",
            b"\0\0\0\x09\x11\0\0\0\0\0\0\0\0"
        )?
    );
    Ok(())
}

#[test]
fn conflicts_and_gaps_come_after_their_status(rt: HostRuntime) -> Result<(), Fail> {
    let alloc = rt.alloc();
    let stream = b"\0\0\0\x01\x04\0\0\0\x01\x05";
    let wanted = b"\0\0\0\x16\0\x02conflict a no value\n\0\0\0\x15\0conflict a no value\n";
    assert!(rt; replies(alloc, "a: _|_\n", stream, 1, wanted)?);
    let wanted = b"\0\0\0\x17\0\x03incomplete a missing\n\0\0\0\x16\0incomplete a missing\n";
    assert!(rt; replies(alloc, "a!: 1\n", stream, 1, wanted)?);
    Ok(())
}

#[test]
fn a_site_takes_what_another_sends(rt: HostRuntime) -> Result<(), Fail> {
    let alloc = rt.alloc();
    let mut sender = site_of(alloc, "a: 1\n")?;
    let sent = serve(alloc, &mut sender, b"\0\0\0\x01\x03", 5)?;
    let mut stream = Vec::from_slice(alloc, b"\0\0\0\x5d\x02")?;
    stream.extend_from_slice(sent.replies.as_slice().get(5..).unwrap_or(&[]))?;
    let mut taker = Replica::new(alloc);
    let taken = serve(alloc, &mut taker, stream.as_slice(), 7)?;
    assert!(rt; taken.replies.as_slice() == b"\0\0\0\x01\0".as_slice());
    assert!(rt; taker.same(&sender));
    Ok(())
}
