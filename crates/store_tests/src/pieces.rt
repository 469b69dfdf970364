//! State bytes that sites take in pieces, and write in pieces.
use crate::bytes::{CLASH, FIRST_CLASH, FIRST_LIST, FREE, LIST, ONE, REST, TWO};
use crate::sites::Input::{State, Text};
use crate::sites::{are_same, hand, has_state, new_site, site, state_size};
use cue_replica::{Kind, Memory, Refusal, Replica, StateReader, StateWriter};
use std::alloc::Global;
use std::test::Fail;

/// States of both versions, with conflicts, rests and lists.
const STATES: [&[u8]; 8] = [FREE, ONE, CLASH, TWO, REST, LIST, FIRST_CLASH, FIRST_LIST];

/// Hands a reader a piece of state bytes.
fn feed(reader: &mut StateReader, piece: &[u8]) -> Result<(), Kind> {
    reader.feed(piece)
}

/// Hands a site the state bytes that a reader was handed.
fn pass(site: &mut Replica, reader: StateReader) -> Result<(), Refusal> {
    site.take_read(reader)
}

/// A reader that was handed these bytes, and then those in pieces of so many.
fn reader_of(
    alloc: Global,
    (front, back): (&[u8], &[u8]),
    size: usize,
) -> Result<StateReader, Kind> {
    let mut reader = StateReader::new(alloc);
    feed(&mut reader, front)?;
    for piece in back.chunks(size.max(1)) {
        feed(&mut reader, piece)?;
    }
    Ok(reader)
}

/// Hands a site bytes that are cut in two, the second part in pieces of so many.
fn pass_cut(
    alloc: Global,
    site: &mut Replica,
    parts: (&[u8], &[u8]),
    size: usize,
) -> Result<(), Refusal> {
    match reader_of(alloc, parts, size) {
        Ok(reader) => pass(site, reader),
        Err(kind) => Err(Refusal::at(kind, 0)),
    }
}

/// Whether a site takes bytes that are cut there, with pieces of so many behind the cut, as it
/// takes them at once.
fn takes_alike(alloc: Global, bytes: &[u8], cut: usize, size: usize) -> Result<bool, Refusal> {
    let mut whole = site(alloc, &[Text("a: int\nl: [...]\n")])?;
    let mut pieces = site(alloc, &[Text("a: int\nl: [...]\n")])?;
    let parts = bytes.split_at(cut.min(bytes.len()));
    let came = pass_cut(alloc, &mut pieces, parts, size);
    Ok(came == hand(&mut whole, State(bytes)) && are_same(&pieces, &whole))
}

/// These bytes with one of them changed.
fn changed(alloc: Global, bytes: &[u8], place: usize, change: u8) -> Result<Vec<u8>, Memory> {
    let mut other = bytes.to_vec(alloc)?;
    if let Some(byte) = other.get_mut(place) {
        *byte ^= change;
    }
    Ok(other)
}

/// Whether a site takes bytes with one of them changed, cut in two before that one and one at a
/// time, as it takes them at once.
fn takes_changed(alloc: Global, bytes: &[u8], place: usize, change: u8) -> Result<bool, Refusal> {
    let other = changed(alloc, bytes, place, change)?;
    Ok(takes_alike(alloc, &other, place, other.len())? && takes_alike(alloc, &other, 0, 1)?)
}

/// Whether a site takes bytes so as they stand, and with each of them changed.
fn takes_each_change(alloc: Global, bytes: &[u8]) -> Result<bool, Refusal> {
    for place in 0..bytes.len() {
        for change in [0u8, 1, 3, 0xFF] {
            if !takes_changed(alloc, bytes, place, change)? {
                return Ok(false);
            }
        }
    }
    Ok(true)
}

#[test]
fn states_in_pieces_are_taken_as_at_once(rt: HostRuntime) -> Result<(), Fail> {
    for bytes in STATES {
        assert!(rt; takes_each_change(rt.alloc(), bytes)?);
    }
    Ok(())
}

/// Whether a reader that memory ran out for takes in no more, and a site keeps what it had and
/// refuses it as one that has failed.
fn is_spent(site: &mut Replica, mut reader: StateReader, size: u64) -> bool {
    let failed = feed(&mut reader, ONE) == Err(Kind::Failed);
    let refused = pass(site, reader) == Err(Refusal::at(Kind::Failed, 0));
    failed && refused && state_size(site) == size
}

/// Whether a site takes bytes in pieces of so many. Where memory runs out it is left as it was.
fn takes_or_is_left(alloc: Global, site: &mut Replica, bytes: &[u8], piece: usize) -> Option<bool> {
    let size = state_size(site);
    let mut reader = StateReader::new(alloc);
    for part in bytes.chunks(piece.max(1)) {
        match feed(&mut reader, part) {
            Ok(()) => {}
            Err(Kind::Memory) if is_spent(site, reader, size) => return None,
            Err(_) => return Some(false),
        }
    }
    match pass(site, reader) {
        Ok(()) => Some(true),
        Err(why) if why.kind == Kind::Memory && state_size(site) == size => None,
        Err(_) => Some(false),
    }
}

/// Whether a new site takes bytes in pieces of so many, if need be in a second try.
fn takes_in_the_end(alloc: Global, bytes: &[u8], piece: usize) -> bool {
    let mut site = new_site(alloc);
    match takes_or_is_left(alloc, &mut site, bytes, piece) {
        Some(taken) => taken,
        None => takes_or_is_left(alloc, &mut site, bytes, piece) == Some(true),
    }
}

#[test]
fn a_reader_that_memory_ran_out_for_changes_nothing(rt: HostRuntime) {
    for piece in [1usize, 40, 200] {
        assert!(rt; takes_in_the_end(rt.alloc(), TWO, piece));
        assert!(rt; takes_in_the_end(rt.alloc(), REST, piece));
    }
}

/// What writes the state bytes of a site.
fn state_writer(site: &Replica) -> Result<StateWriter<'_>, Memory> {
    site.state_writer()
}

/// Fills a room with the state bytes that come next.
fn fill(writer: &mut StateWriter<'_>, room: &mut [u8]) -> Result<usize, Memory> {
    writer.fill(room)
}

/// All bytes that a writer has left, in at most so many pieces of so many bytes.
fn written(
    alloc: Global,
    writer: &mut StateWriter<'_>,
    piece: usize,
    most: u64,
) -> Result<Vec<u8>, Memory> {
    let mut room = [0xAAu8; 256];
    let piece = piece.min(256);
    let mut bytes = Vec::new(alloc);
    for _ in 0..most {
        let count = fill(writer, &mut room[..piece])?;
        bytes.extend_from_slice(&room[..count.min(256)])?;
    }
    Ok(bytes)
}

/// Whether a site's state is written alike at once and in pieces of so many bytes.
fn is_written_alike(alloc: Global, site: &Replica, piece: usize) -> Result<bool, Memory> {
    let mut writer = state_writer(site)?;
    let most = state_size(site).saturating_add(1);
    has_state(alloc, site, &written(alloc, &mut writer, piece, most)?)
}

/// Whether a site that has accepted a text writes its state alike in pieces of so many bytes.
fn writes_alike(alloc: Global, text: &str, piece: usize) -> Result<bool, Refusal> {
    let site = site(alloc, &[Text(text)])?;
    Ok(is_written_alike(alloc, &site, piece)?)
}

#[test]
fn states_are_written_alike_in_pieces(rt: HostRuntime) -> Result<(), Fail> {
    let text = "a: int\nb: -1\nl: [...{a!: \"x\"}]\n";
    for piece in 1..257usize {
        assert!(rt; writes_alike(rt.alloc(), text, piece)?);
    }
    Ok(())
}
