//! Lists after their counts, read from the front of the bytes. Room is made for what was read,
//! never for what a count claims.

ghost use Rattle.std.specs.Prelude.{IfOk, IfErr};
ghost use Rattle.std.specs.List.{flat_map};
ghost use Rattle.cue_codec.specs.Parts.{counted_bytes, piece_bytes, text_bytes};
ghost use Rattle.cue_codec.specs.Reading.{ReadsItem, ReadsNoItem, AreCounted};
ghost use Rattle.cue_codec.specs.Inner.Reading.{AreSo, IsNoneRead};
ghost use Rattle.cue_codec.specs.Reading.{IsPieceBytes, IsWord};

use crate::reading::{piece_at, text_at, u64_at};
use crate::unread::Unread;
use cue_lattice::Text;
use std::alloc::Global;

/// So many pieces of integers.
fn each_piece(alloc: Global, count: u64, bytes: &[u8]) -> Result<(Vec<(i64, i64)>, &[u8]), Unread>
    ensures ok { IfOk result (λ x. ReadsItem (AreSo IsPieceBytes count)
        (flat_map piece_bytes) x.0.items bytes.now x.1.now) }
    ensures refused { IfErr result (λ why. IsNoneRead why
        (ReadsNoItem (AreSo IsPieceBytes count) (flat_map piece_bytes)) bytes.now) }
{
    let mut pieces = Vec::new(alloc);
    let mut rest = bytes;
    while (pieces.len() as u64) < count {
        let Some((piece, after)) = piece_at(rest) else {
            return Err(Unread::Cut);
        };
        let Ok(()) = pieces.push(piece) else {
            return Err(Unread::Memory);
        };
        rest = after;
    }
    Ok((pieces, rest))
}

/// Pieces of integers.
pub fn pieces_at(alloc: Global, bytes: &[u8]) -> Result<(Vec<(i64, i64)>, &[u8]), Unread>
    ensures ok { IfOk result (λ x. ReadsItem (AreCounted IsPieceBytes)
        (counted_bytes piece_bytes) x.0.items bytes.now x.1.now) }
    ensures refused { IfErr result (λ why. IsNoneRead why
        (ReadsNoItem (AreCounted IsPieceBytes) (counted_bytes piece_bytes)) bytes.now) }
{
    let Some((count, rest)) = u64_at(bytes) else {
        return Err(Unread::Cut);
    };
    each_piece(alloc, count, rest)
}

/// A text.
#[inline(always)]
pub fn one_text(alloc: Global, bytes: &[u8]) -> Result<(Text, &[u8]), Unread>
    ensures ok { IfOk result (λ x. ReadsItem IsWord text_bytes x.0 bytes.now x.1.now) }
    ensures refused { IfErr result (λ why. IsNoneRead why
        (ReadsNoItem IsWord text_bytes) bytes.now) }
{
    let (text, rest) = text_at(bytes)?;
    let Ok(text) = Text::from_str(alloc, text) else {
        return Err(Unread::Memory);
    };
    Ok((text, rest))
}

/// So many texts.
fn each_text(alloc: Global, count: u64, bytes: &[u8]) -> Result<(Vec<Text>, &[u8]), Unread>
    ensures ok { IfOk result (λ x. ReadsItem (AreSo IsWord count)
        (flat_map text_bytes) x.0.items bytes.now x.1.now) }
    ensures refused { IfErr result (λ why. IsNoneRead why
        (ReadsNoItem (AreSo IsWord count) (flat_map text_bytes)) bytes.now) }
{
    let mut texts = Vec::new(alloc);
    let mut rest = bytes;
    while (texts.len() as u64) < count {
        let (text, after) = one_text(alloc, rest)?;
        let Ok(()) = texts.push(text) else {
            return Err(Unread::Memory);
        };
        rest = after;
    }
    Ok((texts, rest))
}

/// Texts, in whatever order they stand.
pub fn texts_at(alloc: Global, bytes: &[u8]) -> Result<(Vec<Text>, &[u8]), Unread>
    ensures ok { IfOk result (λ x. ReadsItem (AreCounted IsWord)
        (counted_bytes text_bytes) x.0.items bytes.now x.1.now) }
    ensures refused { IfErr result (λ why. IsNoneRead why
        (ReadsNoItem (AreCounted IsWord) (counted_bytes text_bytes)) bytes.now) }
{
    let Some((count, rest)) = u64_at(bytes) else {
        return Err(Unread::Cut);
    };
    each_text(alloc, count, rest)
}
