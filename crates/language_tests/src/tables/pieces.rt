//! States read in pieces, as `decode` reads them in one.
use crate::tables::bytes::Known::Integer;
use crate::tables::bytes::Part::{Bytes, Letters, Of, Structs};
use crate::tables::bytes::{COUNT, END, SECOND, State, between, bytes_of, made, other};
use cue_codec::{Row, StateReader, decode};
use cue_lattice::Kind;
use cue_table::Table;
use std::alloc::Global;
use std::test::Fail;

/// Hands a reader a piece of a state.
fn feed(reader: &mut StateReader, piece: &[u8]) -> Result<(), Kind> {
    reader.feed(piece)
}

/// Hands a reader bytes in pieces of so many.
fn feed_pieces(reader: &mut StateReader, bytes: &[u8], size: usize) -> Result<(), Kind> {
    for piece in bytes.chunks(size.max(1)) {
        feed(reader, piece)?;
    }
    Ok(())
}

/// Hands a reader bytes that are cut there, with an empty piece between the two parts.
fn feed_cut(reader: &mut StateReader, bytes: &[u8], cut: usize) -> Result<(), Kind> {
    feed(reader, between(bytes, 0, cut))?;
    feed(reader, &[])?;
    feed(reader, between(bytes, cut, END))
}

/// What a reader tells in the end, where it took in all pieces.
fn finished(reader: StateReader, fed: Result<(), Kind>) -> Result<Table<Row>, Kind> {
    fed?;
    reader.finish()
}

/// What is read of bytes that come in pieces of so many.
fn in_pieces(alloc: Global, bytes: &[u8], size: usize) -> Result<Table<Row>, Kind> {
    let mut reader = StateReader::new(alloc);
    let fed = feed_pieces(&mut reader, bytes, size);
    finished(reader, fed)
}

/// What is read of bytes that are cut there.
fn in_two(alloc: Global, bytes: &[u8], cut: usize) -> Result<Table<Row>, Kind> {
    let mut reader = StateReader::new(alloc);
    let fed = feed_cut(&mut reader, bytes, cut);
    finished(reader, fed)
}

/// Whether the bytes are those of the table that was read.
fn are_of(alloc: Global, bytes: &[u8], read: Result<Table<Row>, Kind>) -> Result<bool, Kind> {
    let table = read?;
    Ok(decode(alloc, bytes)?.same(&table))
}

/// Whether both are the bytes of one table.
pub fn are_same(alloc: Global, left: &[u8], right: &[u8]) -> Result<bool, Kind> {
    are_of(alloc, left, decode(alloc, right))
}

/// Whether the bytes are no state, for this reason. That there is no memory is told as it is.
pub fn are_refused(alloc: Global, bytes: &[u8], why: Kind) -> Result<bool, Kind> {
    match decode(alloc, bytes).err() {
        Some(Kind::Memory) => Err(Kind::Memory),
        own => Ok(own == Some(why)),
    }
}

/// Whether what was read is what `decode` tells of the bytes.
fn is_decoded(alloc: Global, bytes: &[u8], read: Result<Table<Row>, Kind>) -> Result<bool, Kind> {
    match read {
        Err(Kind::Memory) => Err(Kind::Memory),
        Err(why) => are_refused(alloc, bytes, why),
        read => are_of(alloc, bytes, read),
    }
}

/// Whether the bytes are read so wherever they are cut in two, and byte by byte.
fn are_read(alloc: Global, bytes: &[u8]) -> Result<bool, Kind> {
    for cut in 0..bytes.len() + 1 {
        if !is_decoded(alloc, bytes, in_two(alloc, bytes, cut))? {
            return Ok(false);
        }
    }
    is_decoded(alloc, bytes, in_pieces(alloc, bytes, 1))
}

/// Whether a state is read so.
pub fn is_read_in_pieces(alloc: Global, state: &State) -> Result<bool, Kind> {
    are_read(alloc, &made(alloc, state)?)
}

/// What each byte of the state of `a: 1` is altered by.
const CHANGES: &[u8] = &[1, 2, 0xff];

/// Whether the state of `a: 1` with another byte at a place is read as `decode` reads it.
fn other_is_read(alloc: Global, at: usize, byte: u8) -> Result<bool, Kind> {
    let bytes = other(alloc, at, byte)?;
    is_decoded(alloc, &bytes, in_pieces(alloc, &bytes, 3))
}

#[test]
fn each_altered_byte_is_told(rt: HostRuntime) -> Result<(), Fail> {
    for (at, byte) in bytes_of(&Integer).iter().enumerate() {
        for change in CHANGES {
            assert!(rt; other_is_read(rt.alloc(), at, byte ^ *change)?, "byte {at}");
        }
    }
    Ok(())
}

/// The state of an integer below a label of 40,000 letters, which are 0x9c40 bytes.
const LONG: State = State(
    &[
        Of(Integer, 0, 19),
        Bytes(&[0x9c, 0x40]),
        Letters(40_000),
        Of(Integer, 22, END),
    ],
    &[],
);

/// The state of a struct below a label of 2,100 letters, which are 0x0834 bytes, and of 64 structs
/// behind it, one in the other: of their rows many stand where the long one is read again.
const AHEAD: State = State(
    &[
        Of(Integer, 0, SECOND),
        Bytes(&[1, 0, 0x08, 0x34, 0x41]),
        Letters(2_099),
        Bytes(&[2, 2, 0]),
        Structs(64),
    ],
    &[(COUNT, 66)],
);

/// How large the pieces of a long row are.
const SIZES: &[usize] = &[1, 7, 1000, 3000, 100_000];

/// Whether a state with a long row is read in pieces of so many bytes.
fn long_is_read(alloc: Global, state: &State, size: usize) -> Result<bool, Kind> {
    let bytes = made(alloc, state)?;
    are_of(alloc, &bytes, in_pieces(alloc, &bytes, size))
}

#[test]
fn a_long_row_is_read(rt: HostRuntime) -> Result<(), Fail> {
    for size in SIZES {
        assert!(rt; long_is_read(rt.alloc(), &LONG, *size)?, "{size}");
    }
    Ok(())
}

#[test]
fn a_long_row_before_others_is_read(rt: HostRuntime) -> Result<(), Fail> {
    for size in SIZES {
        assert!(rt; long_is_read(rt.alloc(), &AHEAD, *size)?, "{size}");
    }
    Ok(())
}

/// Bytes behind which a whole state is handed to a reader, and what it tells then.
const BEHIND: &[(&[u8], Kind)] = &[
    (
        &[0xfe, 0x43, 0x55, 0x45, 9, 0, 0, 0, 0, 0, 0, 0, 0],
        Kind::Version,
    ),
    (
        &[0xff, 0x43, 0x55, 0x45, 2, 0, 0, 0, 0, 0, 0, 0, 0],
        Kind::NotState,
    ),
];

/// Hands a reader bytes and a whole state behind them.
fn feed_behind(reader: &mut StateReader, bytes: &[u8]) -> Result<(), Kind> {
    feed(reader, bytes)?;
    feed(reader, bytes_of(&Integer))
}

/// Whether a reader tells this of bytes, behind which a whole state was handed to it.
fn tells_behind(alloc: Global, bytes: &[u8], why: Kind) -> Result<bool, Kind> {
    let mut reader = StateReader::new(alloc);
    feed_behind(&mut reader, bytes)?;
    Ok(reader.finish().err() == Some(why))
}

#[test]
fn behind_a_fault_pieces_are_dropped(rt: HostRuntime) -> Result<(), Fail> {
    for (bytes, why) in BEHIND {
        assert!(rt; tells_behind(rt.alloc(), bytes, *why)?);
    }
    assert!(rt; tells_behind(rt.alloc(), bytes_of(&Integer), Kind::NotState)?);
    Ok(())
}
