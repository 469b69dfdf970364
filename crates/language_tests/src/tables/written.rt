//! State bytes written in pieces.
use crate::tables::bytes::Known::{Bush, Empty, Integer, Integers};
use crate::tables::bytes::Part::{All, Of, Structs};
use crate::tables::bytes::{COUNT, SECOND, State, made, told};
use crate::tables::plain::Made;
use cue_codec::{Kind, StateWriter, Table, decode, encode};
use cue_row::Row;
use std::alloc::Global;
use std::test::Fail;

/// How large the rooms are.
const ROOMS: &[usize] = &[1, 2, 3, 7, 64, 65_536];

/// States that are written in pieces.
const STATES: &[State] = &[
    State(&[All(Empty)], &[]),
    State(&[All(Integer)], &[]),
    State(&[All(Integers)], &[]),
    State(&[All(Bush)], &[]),
    State(&[Of(Integer, 0, SECOND), Structs(64)], &[(COUNT, 65)]),
];

/// A room of so many bytes.
fn room(alloc: Global, size: usize) -> Made<Vec<u8>> {
    Ok(vec![in alloc; 0u8; size]?)
}

/// Fills a room with the bytes that come next.
fn fill(writer: &mut StateWriter<'_>, room: &mut [u8]) -> Made<usize> {
    writer.fill(room)
}

/// Hands out the next piece, once more where memory was refused: that leaves the writer as it was.
fn next_piece(writer: &mut StateWriter<'_>, room: &mut [u8]) -> Made<usize> {
    match fill(writer, room) {
        Ok(count) => Ok(count),
        Err(_) => fill(writer, room),
    }
}

/// Puts the first bytes of a room behind others.
fn put(out: &mut Vec<u8>, room: &[u8], count: usize) -> Made<()> {
    if let Some(piece) = room.get(..count) {
        out.extend_from_slice(piece)?;
    }
    Ok(())
}

/// Puts so many pieces one behind the other.
fn pour(
    writer: &mut StateWriter<'_>,
    room: &mut [u8],
    pieces: usize,
    out: &mut Vec<u8>,
) -> Made<()> {
    for _ in 0..pieces {
        let count = next_piece(writer, room)?;
        put(out, room, count)?;
    }
    Ok(())
}

/// Whether no byte is left, when asked twice.
fn is_done(writer: &mut StateWriter<'_>, room: &mut [u8]) -> Made<bool> {
    let first = fill(writer, room)?;
    let second = fill(writer, room)?;
    Ok(first == 0 && second == 0)
}

/// Whether an empty room takes nothing, and a writer then hands out these bytes, and no byte behind
/// them.
fn hands_out(
    alloc: Global,
    writer: &mut StateWriter<'_>,
    room: &mut [u8],
    whole: &[u8],
) -> Made<bool> {
    let mut pieces = Vec::new(alloc);
    let none = fill(writer, &mut [])?;
    pour(writer, room, whole.len(), &mut pieces)?;
    Ok(none == 0 && is_done(writer, room)? && pieces.as_slice() == whole)
}

/// The state of a table in one piece. The table is valid, or else there is none.
fn whole(alloc: Global, table: &Table<Row>) -> Made<Vec<u8>> {
    if !table.is_valid() {
        return Ok(Vec::new(alloc));
    }
    encode(alloc, table)
}

/// Whether a valid table is handed out in a room as these bytes.
fn fills_room(alloc: Global, table: &Table<Row>, room: &mut [u8], whole: &[u8]) -> Made<bool> {
    if !table.is_valid() {
        return Ok(false);
    }
    let mut writer = StateWriter::new(alloc, table)?;
    hands_out(alloc, &mut writer, room, whole)
}

/// Whether a table is handed out in rooms of one size as it is written in one piece.
fn fills(alloc: Global, table: &Table<Row>, size: usize, whole: &[u8]) -> Made<bool> {
    let mut room = room(alloc, size)?;
    fills_room(alloc, table, &mut room, whole)
}

/// Whether it is so for rooms of each size, and for one that has just the room for all.
fn fills_each(alloc: Global, table: &Table<Row>) -> Made<bool> {
    let whole = whole(alloc, table)?;
    for size in ROOMS {
        if !fills(alloc, table, *size, &whole)? {
            return Ok(false);
        }
    }
    fills(alloc, table, whole.len(), &whole)
}

/// The table of a state.
fn table(alloc: Global, state: &State) -> Result<Table<Row>, Kind> {
    decode(alloc, &made(alloc, state)?)
}

/// Whether the table of a state is handed out so.
fn is_handed_out(alloc: Global, state: &State) -> Result<bool, Kind> {
    told(fills_each(alloc, &table(alloc, state)?))
}

#[test]
fn pieces_of_each_size_are_the_whole(rt: HostRuntime) -> Result<(), Fail> {
    for state in STATES {
        assert!(rt; is_handed_out(rt.alloc(), state)?);
    }
    Ok(())
}
