//! Pieces that are kept, and given up.

use cue_journal::{PieceCursor, Pieces};
use std::alloc::{AllocError, Global};
use std::test::Fail;

/// So many pieces are added.
const MANY: u64 = 1000;

/// So many bytes each of them has behind its first. The thousand have less than 16 MiB, and more with
/// the 128 bytes that each takes beside.
const LONG: usize = 16_700;

/// So many of them have 16 MiB with what they take beside: 996 times 16,829 bytes.
const KEPT: u64 = 996;

/// The bytes of a piece with this number, behind its first.
fn piece_of(alloc: Global, number: u64) -> Result<Vec<u8>, AllocError> {
    let mut piece = Vec::from_slice(alloc, &number.to_be_bytes())?;
    piece.resize(LONG, 0)?;
    Ok(piece)
}

/// Pieces of which many were added.
fn many(alloc: Global) -> Result<Pieces, AllocError> {
    let mut pieces = Pieces::new(alloc, 7);
    for number in 0..MANY {
        let piece = piece_of(alloc, number)?;
        pieces.add(0, &piece)?;
        pieces.trim();
    }
    Ok(pieces)
}

/// Whether the pieces behind so many are kept.
fn keeps(pieces: &Pieces, count: u64) -> Result<bool, AllocError> {
    let body = pieces.blocks_behind(PieceCursor { run: 7, count })?;
    Ok(body.is_some())
}

#[test]
fn small_pieces_are_given_up_too(rt: HostRuntime) -> Result<(), Fail> {
    let mut pieces = many(rt.alloc())?;
    assert!(rt; keeps(&pieces, MANY - KEPT)? && !keeps(&pieces, MANY - KEPT - 1)?);
    pieces.halve();
    assert!(rt; !keeps(&pieces, MANY - KEPT)? && keeps(&pieces, MANY - KEPT / 2)?);
    assert_eq!(rt; pieces.cursor().count, MANY);
    Ok(())
}

#[test]
fn a_piece_that_is_kept_is_found(rt: HostRuntime) -> Result<(), Fail> {
    let mut pieces = Pieces::new(rt.alloc(), 7);
    pieces.add(0, b"a: 1")?;
    assert!(rt; pieces.contains_parts(0, b"a: 1")? && !pieces.contains_parts(1, b"a: 1")?);
    assert!(rt; pieces.contains_entry(b"\0a: 1")? && !pieces.contains_entry(b"\0a: 2")?);
    Ok(())
}
