//! What of a row stands after its level: what it says, and from which index on its elements are
//! alike, which is 0 where it has none.

ghost use Rattle.std.specs.Prelude.{◌≡◌, ◌≤ℤ◌, IfOk, IfErr, IfSome};
ghost use Rattle.cue_scalars.specs.declared.scalar_set.ScalarSet.{ScalarSet as Set};
ghost use Rattle.cue_row.specs.Kept.{integers_set, text_set};
ghost use Rattle.cue_codec.specs.Parts.{set_bytes, labels_bytes, lengths_bytes};
ghost use Rattle.cue_codec.specs.Reading.{ReadsItem, ReadsNoItem, AreWideLengths};
ghost use Rattle.cue_codec.specs.Inner.Reading.{IsNoneRead};
ghost use Rattle.cue_codec.specs.StateRow.{IsStateSet, AreStateLabels};
ghost use Rattle.cue_codec.specs.RowBytes.{scalar, struct, list, nothing, scalars_bytes, ReadsPart};
ghost use Rattle.cue_codec.specs.RowBytes.{left_out_bytes, row_part_bytes, is_no_scalar};
ghost use Rattle.cue_codec.specs.RowBytes.{AreScalarParts, AreLeftOut, IsStateParts};

use crate::reading::lengths_at;
use crate::sets::{labels_at, lone_piece_at, lone_text_at, set_at};
use crate::unread::Unread;
use crate::version::Version;
use cue_lattice::Text;
use cue_row::{Level, Row, Scalars};
use std::alloc::Global;

/// Whether no scalar is a member.
pub fn is_empty(set: &Scalars) -> bool
    ensures { result ≡ is_no_scalar set.now }
{
    let (all_but, texts) = set.texts();
    let has_plain = set.null() || set.no() || set.yes();
    !has_plain && set.pieces().is_empty() && !all_but && texts.is_empty()
}

/// What stands behind bytes that stand once more, where these are those in front of them. So where
/// a set ends there, the same set stands behind it.
fn after_again<'a>(bytes: &[u8], behind: &'a [u8]) -> Option<&'a [u8]>
    ensures { IfSome result (λ rest. (set : Set) →
        ReadsItem IsStateSet set_bytes set bytes.now behind.now →
        ReadsItem IsStateSet set_bytes set behind.now rest.now) }
{
    let len = bytes.len().checked_sub(behind.len())?;
    let rest = behind.strip_prefix(&bytes[..len])?;
    Some(rest)
}

/// The text of the set of one text, all of it usual, where the bytes of both sets stand in front.
fn usual_text_at(bytes: &[u8]) -> Option<(&str, &[u8])>
    ensures { IfSome result (λ x. ReadsItem AreScalarParts scalars_bytes
        (text_set x.0.now, text_set x.0.now) bytes.now x.1.now) }
{
    let (text, behind) = lone_text_at(bytes)?;
    let rest = after_again(bytes, behind)?;
    Some((text, rest))
}

/// The first and the last integer of the set of one piece, all of it usual, where the bytes of both
/// sets stand in front.
fn usual_piece_at(bytes: &[u8]) -> Option<(i64, i64, &[u8])>
    ensures order { IfSome result (λ x. x.0 ≤ℤ x.1) }
    ensures sets { IfSome result (λ x. ReadsItem AreScalarParts scalars_bytes
        (integers_set (x.0, x.1), integers_set (x.0, x.1)) bytes.now x.2.now) }
{
    let (first, last, behind) = lone_piece_at(bytes)?;
    let rest = after_again(bytes, behind)?;
    Some((first, last, rest))
}

/// Some scalar, and the usual ones. Where their bytes are the same, the set is read once, and a
/// single piece of integers or a single text without a list.
fn scalar_at(alloc: Global, level: Level, bytes: &[u8]) -> Result<(Row, u64, &[u8]), Unread>
    ensures ok { IfOk result
        (λ x. ReadsPart (λ sets. scalar sets.0 sets.1) AreScalarParts scalars_bytes level x.0 x.1
        bytes.now x.2.now) }
    ensures refused { IfErr result (λ why. IsNoneRead why
        (ReadsNoItem AreScalarParts scalars_bytes) bytes.now) }
{
    if let Some((first, last, rest)) = usual_piece_at(bytes) {
        return Ok((Row::of_range(level, first, last), 0, rest));
    }
    if let Some((text, rest)) = usual_text_at(bytes) {
        let Ok(text) = Text::from_str(alloc, text) else {
            return Err(Unread::Memory);
        };
        return Ok((Row::of_text(level, text), 0, rest));
    }
    let (value, middle) = set_at(alloc, bytes)?;
    if is_empty(&Scalars::of(&value)) {
        return Err(Unread::Wrong);
    }
    if let Some(rest) = after_again(bytes, middle) {
        let Ok(row) = Row::of_all_usual(alloc, level, value) else {
            return Err(Unread::Memory);
        };
        return Ok((row, 0, rest));
    }
    let (usual, rest) = set_at(alloc, middle)?;
    let Ok(row) = Row::of_scalars(alloc, level, value, usual) else {
        return Err(Unread::Memory);
    };
    Ok((row, 0, rest))
}

/// A struct with certain labels.
fn struct_at(alloc: Global, level: Level, bytes: &[u8]) -> Result<(Row, u64, &[u8]), Unread>
    ensures ok { IfOk result
        (λ x. ReadsPart struct AreStateLabels labels_bytes level x.0 x.1 bytes.now x.2.now) }
    ensures refused { IfErr result (λ why. IsNoneRead why
        (ReadsNoItem AreStateLabels labels_bytes) bytes.now) }
{
    let (labels, rest) = labels_at(alloc, bytes)?;
    let Ok(row) = Row::of_struct(alloc, level, labels) else {
        return Err(Unread::Memory);
    };
    Ok((row, 0, rest))
}

/// A list of certain lengths.
fn list_at(
    alloc: Global,
    version: Version,
    level: Level,
    bytes: &[u8],
) -> Result<(Row, u64, &[u8]), Unread>
    ensures ok { IfOk result
        (λ x. ReadsPart list (AreWideLengths version) (lengths_bytes version) level x.0 x.1
        bytes.now x.2.now) }
    ensures refused { IfErr result (λ why. IsNoneRead why
        (ReadsNoItem (AreWideLengths version) (lengths_bytes version)) bytes.now) }
{
    let ((least, most, fixed), rest) = lengths_at(version, bytes)?;
    let Ok(row) = Row::of_list(alloc, level, least, most) else {
        return Err(Unread::Memory);
    };
    Ok((row, fixed, rest))
}

/// Nothing, with the labels and lengths that are left out.
fn nothing_at(
    alloc: Global,
    version: Version,
    level: Level,
    bytes: &[u8],
) -> Result<(Row, u64, &[u8]), Unread>
    ensures ok { IfOk result
        (λ x. ReadsPart (λ parts. nothing parts.0 parts.1) (AreLeftOut version) (left_out_bytes version)
        level x.0 x.1 bytes.now x.2.now) }
    ensures refused { IfErr result (λ why. IsNoneRead why
        (ReadsNoItem (AreLeftOut version) (left_out_bytes version)) bytes.now) }
{
    let (labels, middle) = labels_at(alloc, bytes)?;
    let ((least, most, fixed), rest) = lengths_at(version, middle)?;
    let Ok(row) = Row::of_nothing(alloc, level, labels, least, most) else {
        return Err(Unread::Memory);
    };
    Ok((row, fixed, rest))
}

/// The row of this level whose kind and parts these are, with its index.
pub fn parts_at(
    alloc: Global,
    version: Version,
    level: Level,
    bytes: &[u8],
) -> Result<(Row, u64, &[u8]), Unread>
    ensures ok { IfOk result
        (λ x. ReadsPart (λ parts. parts) (IsStateParts version) (row_part_bytes version) level x.0 x.1
        bytes.now x.2.now) }
    ensures refused { IfErr result (λ why. IsNoneRead why
        (ReadsNoItem (IsStateParts version) (row_part_bytes version)) bytes.now) }
{
    let Some((tag, rest)) = bytes.split_first() else {
        return Err(Unread::Cut);
    };
    match *tag {
        0 => Ok((Row::of_anything(level), 0, rest)),
        1 => scalar_at(alloc, level, rest),
        2 => struct_at(alloc, level, rest),
        3 => list_at(alloc, version, level, rest),
        4 => nothing_at(alloc, version, level, rest),
        5..=u8::MAX => Err(Unread::Wrong),
    }
}
