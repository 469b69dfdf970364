//! Sessions that memory runs out for. With ample memory these tests tell little; they hold as well
//! whichever one allocation is refused.
use crate::wire::replies::STATE;
use cue_wire::{Kind, Replica, Session};
use std::alloc::Global;

/// A text, and the question for its export.
const TEXT: &[u8] = b"\0\0\0\x06\x01a: 1\n";

const EXPORT: &[u8] = b"\0\0\0\x01\x04";

/// The question for the state.
const ASK: &[u8] = b"\0\0\0\x01\x03";

/// No request.
const NOTHING: &[u8] = b"\0\0\0\0";

/// Their replies.
const REPLIES: [u8; 31] = *b"\0\0\0\x01\0\0\0\0\x09\0\0{\"a\":1}\0\0\0\x09\x14\0\0\0\0\0\0\0\0";

/// Whether a new session serves a frame.
fn serves(alloc: Global, site: &mut Replica, frame: &[u8], out: &mut Vec<u8>) -> bool {
    match Session::new(alloc) {
        Ok(mut session) => session.feed(site, frame, out).is_ok(),
        Err(_) => false,
    }
}

/// Whether a session serves a frame; or ends with nothing written, answers `Failed` from then on,
/// and another session serves the frame.
fn serves_in_the_end(alloc: Global, site: &mut Replica, frame: &[u8], out: &mut Vec<u8>) -> bool {
    let Ok(mut session) = Session::new(alloc) else {
        return false;
    };
    let written = out.len();
    if session.feed(site, frame, out).is_ok() {
        return session.is_open();
    }
    let failed = session.feed(site, frame, out) == Err(Kind::Failed);
    !session.is_open() && failed && out.len() == written && serves(alloc, site, frame, out)
}

#[test]
fn a_session_that_memory_ran_out_for_is_taken_over(rt: HostRuntime) {
    let mut site = Replica::new(rt.alloc());
    let mut out = Vec::new(rt.alloc());
    for frame in [TEXT, EXPORT, NOTHING] {
        assert!(rt; serves_in_the_end(rt.alloc(), &mut site, frame, &mut out));
    }
    assert!(rt; out.as_slice() == REPLIES.as_slice());
}

#[test]
fn a_state_that_memory_ran_out_for_is_told_in_the_end(rt: HostRuntime) {
    let mut site = Replica::new(rt.alloc());
    let mut out = Vec::new(rt.alloc());
    for frame in [TEXT, ASK, NOTHING] {
        assert!(rt; serves_in_the_end(rt.alloc(), &mut site, frame, &mut out));
    }
    let replies = out.as_slice();
    assert!(rt; replies.starts_with(b"\0\0\0\x01\0"));
    assert!(rt; replies.get(5..102) == Some(STATE.as_slice()) && replies.len() == 115);
}
