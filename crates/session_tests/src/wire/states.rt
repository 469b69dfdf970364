//! Replies to the question for a state, short and long.
use crate::wire::ends::{serve, site_of};
use cue_wire::Replica;
use std::alloc::Global;
use std::test::Fail;

/// The question for the state.
const ASK: &[u8] = b"\0\0\0\x01\x03";

/// The reply that one is too long.
const TOO_LONG: &[u8] = b"\0\0\0\x09\x17\0\0\0\0\0\0\0\0";

/// The length of a body, and that something was accepted.
fn head(alloc: Global, len: usize) -> Result<Vec<u8>, Fail> {
    let len = len.min(16_777_215) as u32 + 1;
    let mut bytes = Vec::from_slice(alloc, &len.to_be_bytes())?;
    bytes.push(0)?;
    Ok(bytes)
}

/// What a site replies to two questions for its state.
fn told_twice(alloc: Global, site: &mut Replica) -> Result<Vec<u8>, Fail> {
    let mut stream = ASK.to_vec(alloc)?;
    stream.extend_from_slice(ASK)?;
    let served = serve(alloc, site, &stream, 10)?;
    Ok(served.replies)
}

/// Whether a site that has accepted a text replies with its state, once for each question.
fn tells_its_state(alloc: Global, text: &str) -> Result<bool, Fail> {
    let mut site = site_of(alloc, text)?;
    let bytes = site.state(alloc)?;
    let mut wanted = head(alloc, bytes.len())?;
    wanted.extend_from_slice(&bytes)?;
    let replies = told_twice(alloc, &mut site)?;
    let (first, second) = replies.split_at(wanted.len().min(replies.len()));
    Ok(first == wanted.as_slice() && second == wanted.as_slice())
}

/// A text with one field whose name has so many characters.
fn named(alloc: Global, len: usize) -> Result<String, Fail> {
    let mut text = "a".repeat(alloc, len)?;
    text.push_str(": 1\n")?;
    Ok(text)
}

/// Whether a site replies with its state, of so many bytes and of some more.
fn tells_states_from(alloc: Global, len: usize) -> Result<bool, Fail> {
    for more in 0..6 {
        // All but the name has 91 bytes.
        let text = named(alloc, len.saturating_add(more).saturating_sub(91))?;
        if !tells_its_state(alloc, text.as_str())? {
            return Ok(false);
        }
    }
    Ok(true)
}

#[test]
fn states_of_many_lengths_are_told(rt: HostRuntime) -> Result<(), Fail> {
    let alloc = rt.alloc();
    assert!(rt; tells_its_state(alloc, "")?);
    assert!(rt; tells_its_state(alloc, "a: int\nl: [...{b!: \"x\"}]\na: \"x\"\n")?);
    // Up to a multiple of 4,096 bytes, and beyond.
    for len in [4093, 8189, 12285, 61437] {
        assert!(rt; tells_states_from(alloc, len)?);
    }
    Ok(())
}

/// A text so many times, and what follows.
fn push_repeated(text: &mut String, part: &str, count: usize, then: &str) -> Result<(), Fail> {
    for _ in 0..count {
        text.push_str(part)?;
    }
    text.push_str(then)?;
    Ok(())
}

/// A text with 33 fields below seven names of 64,768 characters each, and one field with a name of
/// so many. Each row tells all names above it, so that a name of 1,120 characters makes the state
/// the longest one that a reply can tell.
fn nested(alloc: Global, last: usize) -> Result<String, Fail> {
    let mut text = String::new(alloc);
    for _ in 0..7 {
        push_repeated(&mut text, "a", 64_768, ": ")?;
    }
    text.push('{')?;
    for field in 0..33u32 {
        text.push_str(format!(in alloc; "b{field}: _\n")?.as_str())?;
    }
    text.push_str("}\n")?;
    push_repeated(&mut text, "a", last, ": 1\n")?;
    Ok(text)
}

/// Whether a site that has accepted the text of the longest state replies with it.
fn tells_the_longest(alloc: Global) -> Result<bool, Fail> {
    let text = nested(alloc, 1120)?;
    tells_its_state(alloc, text.as_str())
}

/// Whether one whose state has a byte more replies that the reply would be too long.
fn tells_no_longer_one(alloc: Global) -> Result<bool, Fail> {
    let text = nested(alloc, 1121)?;
    let mut site = site_of(alloc, text.as_str())?;
    let replies = told_twice(alloc, &mut site)?;
    let (first, second) = replies.split_at(TOO_LONG.len().min(replies.len()));
    Ok(first == TOO_LONG && second == TOO_LONG && site.state_size() == 16_777_216)
}

#[test]
fn the_longest_state_that_a_reply_can_tell(rt: HostRuntime) -> Result<(), Fail> {
    assert!(rt; tells_the_longest(rt.alloc())?);
    assert!(rt; tells_no_longer_one(rt.alloc())?);
    Ok(())
}
