//! Sets, read from the front of the bytes.

ghost use Rattle.std.specs.Prelude.{◌≡◌, ◌<◌, ◌≤ℤ◌, ◌∷◌, ◌++◌, [], IfOk, IfErr, IfSome, IfNone};
ghost use Rattle.std.specs.Int.{w64, to_be_bytes};
ghost use Rattle.cue_row.specs.Kept.{integers_set, text_set};
ghost use Rattle.cue_codec.specs.Parts.{bit, counted_bytes, piece_bytes, text_set_bytes, set_bytes};
ghost use Rattle.cue_codec.specs.Parts.{labels_bytes};
ghost use Rattle.cue_codec.specs.Reading.{ReadsItem, ReadsNoItem};
ghost use Rattle.cue_codec.specs.Inner.Reading.{IsNoneRead};
ghost use Rattle.cue_codec.specs.StateRow.{IsStateIntegers, IsStateTexts, IsStateSet};
ghost use Rattle.cue_codec.specs.StateRow.{AreStateLabels};

use crate::lists::{pieces_at, texts_at};
use crate::reading::{flags_of, piece_at, text_at, u64_at};
use crate::unread::Unread;
use cue_lattice::Narrow;
use cue_row::LabelSet;
use cue_scalars::ScalarSet;
use cue_sets::{IntSet, TextSet};
use std::alloc::Global;

/// A set of integers.
fn int_set_at(alloc: Global, bytes: &[u8]) -> Result<(IntSet, &[u8]), Unread>
    ensures ok { IfOk result (λ x. ReadsItem IsStateIntegers
        (counted_bytes piece_bytes) x.0 bytes.now x.1.now) }
    ensures refused { IfErr result (λ why. IsNoneRead why
        (ReadsNoItem IsStateIntegers (counted_bytes piece_bytes)) bytes.now) }
{
    let (pieces, rest) = pieces_at(alloc, bytes)?;
    let Some(set) = IntSet::from_pieces(pieces) else {
        return Err(Unread::Wrong);
    };
    set.known();
    Ok((set, rest))
}

/// The truth value that a byte is.
fn bit_of(byte: u8) -> Option<bool>
    ensures some { IfSome result (λ x. bit x ≡ byte) }
    ensures none { IfNone result (1 < byte) }
{
    match byte {
        0 => Some(false),
        1 => Some(true),
        2..=u8::MAX => None,
    }
}

/// A set of texts.
fn text_set_at(alloc: Global, bytes: &[u8]) -> Result<(TextSet, &[u8]), Unread>
    ensures ok { IfOk result (λ x. ReadsItem IsStateTexts text_set_bytes x.0 bytes.now x.1.now) }
    ensures refused { IfErr result (λ why. IsNoneRead why
        (ReadsNoItem IsStateTexts text_set_bytes) bytes.now) }
{
    let Some((tag, rest)) = bytes.split_first() else {
        return Err(Unread::Cut);
    };
    let Some(all_but) = bit_of(*tag) else {
        return Err(Unread::Wrong);
    };
    let (texts, rest) = texts_at(alloc, rest)?;
    let Some(set) = TextSet::from_texts(all_but, texts) else {
        return Err(Unread::Wrong);
    };
    set.known();
    Ok((set, rest))
}

/// What stands behind a zero and this count, where they stand in front.
fn after_count(count: u64, bytes: &[u8]) -> Option<&[u8]>
    ensures { IfSome result (λ rest. bytes.now ≡ 0 ∷ (to_be_bytes w64 count ++ rest.now)) }
{
    let (tag, rest) = bytes.split_first()?;
    if *tag != 0 {
        return None;
    }
    let (found, rest) = u64_at(rest)?;
    if found != count {
        return None;
    }
    Some(rest)
}

/// The first and the last integer of the set of one piece and nothing else, where its bytes stand
/// in front.
pub fn lone_piece_at(bytes: &[u8]) -> Option<(i64, i64, &[u8])>
    ensures order { IfSome result (λ x. x.0 ≤ℤ x.1) }
    ensures set { IfSome result (λ x. ReadsItem IsStateSet set_bytes (integers_set (x.0, x.1))
        bytes.now x.2.now) }
{
    let rest = after_count(1, bytes)?;
    let ((first, last), rest) = piece_at(rest)?;
    let rest = after_count(0, rest)?;
    if first > last {
        return None;
    }
    Some((first, last, rest))
}

/// The set of the integers of one piece and nothing else, where its bytes stand in front. This
/// takes no memory.
fn piece_set_at(alloc: Global, bytes: &[u8]) -> Option<(ScalarSet, &[u8])>
    ensures { IfSome result (λ x. ReadsItem IsStateSet set_bytes x.0 bytes.now x.1.now) }
{
    let (first, last, rest) = lone_piece_at(bytes)?;
    let set = ScalarSet {
        null: false,
        no: false,
        yes: false,
        ints: IntSet::between(first, last),
        texts: TextSet::none(alloc),
    };
    Some((set, rest))
}

/// The text of the set of one text and nothing else, where its bytes stand in front.
pub fn lone_text_at(bytes: &[u8]) -> Option<(&str, &[u8])>
    ensures { IfSome result (λ x. ReadsItem IsStateSet set_bytes (text_set x.0.now) bytes.now x.1.now) }
{
    let rest = after_count(0, bytes)?;
    let rest = after_count(1, rest)?;
    let Ok((text, rest)) = text_at(rest) else {
        return None;
    };
    Some((text, rest))
}

/// A set of scalars.
#[inline(always)]
pub fn set_at(alloc: Global, bytes: &[u8]) -> Result<(ScalarSet, &[u8]), Unread>
    ensures ok { IfOk result (λ x. ReadsItem IsStateSet set_bytes x.0 bytes.now x.1.now) }
    ensures refused { IfErr result (λ why. IsNoneRead why
        (ReadsNoItem IsStateSet set_bytes) bytes.now) }
{
    if let Some(found) = piece_set_at(alloc, bytes) {
        return Ok(found);
    }
    let Some((tag, rest)) = bytes.split_first() else {
        return Err(Unread::Cut);
    };
    let Some((null, no, yes)) = flags_of(*tag) else {
        return Err(Unread::Wrong);
    };
    let (ints, rest) = int_set_at(alloc, rest)?;
    let (texts, rest) = text_set_at(alloc, rest)?;
    let set = ScalarSet {
        null,
        no,
        yes,
        ints,
        texts,
    };
    Ok((set, rest))
}

/// Which labels may stand: all, or the listed ones.
pub fn labels_at(alloc: Global, bytes: &[u8]) -> Result<(LabelSet, &[u8]), Unread>
    ensures ok { IfOk result (λ x. ReadsItem AreStateLabels labels_bytes x.0 bytes.now x.1.now) }
    ensures refused { IfErr result (λ why. IsNoneRead why
        (ReadsNoItem AreStateLabels labels_bytes) bytes.now) }
{
    let Some((tag, rest)) = bytes.split_first() else {
        return Err(Unread::Cut);
    };
    let Some(is_listed) = bit_of(*tag) else {
        return Err(Unread::Wrong);
    };
    if !is_listed {
        return Ok((LabelSet::all(alloc), rest));
    }
    let (texts, rest) = texts_at(alloc, rest)?;
    let Some(labels) = LabelSet::listing(texts) else {
        return Err(Unread::Wrong);
    };
    labels.known();
    Ok((labels, rest))
}
