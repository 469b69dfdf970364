//! The parts of a row, read from the front of the bytes.

ghost use Rattle.std.specs.Prelude.{◌≡◌, ◌<◌, ◌++◌, length, IfSome, IfNone, IfOk, IfErr};
ghost use Rattle.std.specs.Int.{w16, w32, w64};
ghost use Rattle.std.specs.Option.{option_map};
ghost use Rattle.cue_lattice.specs.Scalar.{IsInteger};
ghost use Rattle.cue_codec.specs.Parts.{integer_bytes, piece_bytes, text_bytes, flags, most_bytes};
ghost use Rattle.cue_codec.specs.Parts.{index_bytes, lengths_bytes};
ghost use Rattle.cue_codec.specs.Reading.{ReadsItem, ReadsNoItem, IsPieceBytes, IsWord, AreWideLengths};
ghost use Rattle.cue_codec.specs.Reading.{IsIndex, IsMost, number_at};
ghost use Rattle.cue_codec.specs.Inner.Reading.{IsNoneRead};

use crate::unread::Unread;
use crate::version::Version;

#[tactic(auto, unfolding(crate::specs::Reading::number_at))]
pub fn u16_at(bytes: &[u8]) -> Option<(u16, &[u8])>
    ensures { option_map (λ x. (x.0, x.1.now)) result ≡ number_at w16 bytes.now }
{
    let (number, rest) = bytes.split_first_chunk::<2>()?;
    Some((u16::from_be_bytes(*number), rest))
}

#[tactic(auto, unfolding(crate::specs::Reading::number_at))]
pub fn u32_at(bytes: &[u8]) -> Option<(u32, &[u8])>
    ensures { option_map (λ x. (x.0, x.1.now)) result ≡ number_at w32 bytes.now }
{
    let (number, rest) = bytes.split_first_chunk::<4>()?;
    Some((u32::from_be_bytes(*number), rest))
}

#[tactic(auto, unfolding(crate::specs::Reading::number_at))]
pub fn u64_at(bytes: &[u8]) -> Option<(u64, &[u8])>
    ensures { option_map (λ x. (x.0, x.1.now)) result ≡ number_at w64 bytes.now }
{
    let (number, rest) = bytes.split_first_chunk::<8>()?;
    Some((u64::from_be_bytes(*number), rest))
}

fn i64_at(bytes: &[u8]) -> Option<(i64, &[u8])>
    ensures some { IfSome result (λ x. ReadsItem IsInteger integer_bytes x.0 bytes.now x.1.now) }
    ensures none { IfNone result (length bytes.now < 8) }
{
    let (number, rest) = u64_at(bytes)?;
    Some((number.cast_signed(), rest))
}

/// The first and the last integer of a piece.
pub fn piece_at(bytes: &[u8]) -> Option<((i64, i64), &[u8])>
    ensures some { IfSome result (λ x. ReadsItem IsPieceBytes piece_bytes x.0 bytes.now x.1.now) }
    ensures none { IfNone result (ReadsNoItem IsPieceBytes piece_bytes bytes.now) }
{
    let (first, rest) = i64_at(bytes)?;
    let (last, rest) = i64_at(rest)?;
    Some(((first, last), rest))
}

/// So many bytes, and those after them.
fn front_at(len: usize, bytes: &[u8]) -> Option<(&[u8], &[u8])>
    ensures some { IfSome result (λ x. (bytes.now ≡ x.0.now ++ x.1.now) × (length x.0.now ≡ len)) }
    ensures none { IfNone result (length bytes.now < len) }
{
    if bytes.len() < len {
        return None;
    }
    Some(bytes.split_at(len))
}

/// A text after its length.
pub fn text_at(bytes: &[u8]) -> Result<(&str, &[u8]), Unread>
    ensures ok { IfOk result (λ x. ReadsItem IsWord text_bytes x.0.now bytes.now x.1.now) }
    ensures refused { IfErr result (λ why. IsNoneRead why
        (ReadsNoItem IsWord text_bytes) bytes.now) }
{
    let Some((len, rest)) = u16_at(bytes) else {
        return Err(Unread::Cut);
    };
    let Some((text, rest)) = front_at(len as usize, rest) else {
        return Err(Unread::Cut);
    };
    match str::from_utf8(text) {
        Ok(text) => Ok((text, rest)),
        Err(_) => Err(Unread::Wrong),
    }
}

/// Whether null, false and true are members, by the byte that says so.
pub fn flags_of(byte: u8) -> Option<(bool, bool, bool)>
    ensures some { IfSome result (λ x. flags x.0 x.1 x.2 ≡ byte) }
    ensures none { IfNone result (7 < byte) }
{
    match byte {
        0 => Some((false, false, false)),
        1 => Some((true, false, false)),
        2 => Some((false, true, false)),
        3 => Some((true, true, false)),
        4 => Some((false, false, true)),
        5 => Some((true, false, true)),
        6 => Some((false, true, true)),
        7 => Some((true, true, true)),
        8..=u8::MAX => None,
    }
}

/// The greatest length, where there is one.
fn most_at(bytes: &[u8]) -> Result<(Option<u32>, &[u8]), Unread>
    ensures ok { IfOk result (λ x. ReadsItem IsMost most_bytes x.0 bytes.now x.1.now) }
    ensures refused { IfErr result (λ why. IsNoneRead why
        (ReadsNoItem IsMost most_bytes) bytes.now) }
{
    let Some((tag, rest)) = bytes.split_first() else {
        return Err(Unread::Cut);
    };
    match *tag {
        0 => Ok((None, rest)),
        1 => {
            let Some((most, rest)) = u32_at(rest) else {
                return Err(Unread::Cut);
            };
            Ok((Some(most), rest))
        }
        2..=u8::MAX => Err(Unread::Wrong),
    }
}

/// From which index on the elements of a list are alike: 0 where the version tells nothing of it.
#[tactic(auto, unfolding(crate::specs::Parts::index_bytes))]
fn index_at(version: Version, bytes: &[u8]) -> Option<(u64, &[u8])>
    ensures some { IfSome result (λ x. ReadsItem (IsIndex version) (index_bytes version) x.0
        bytes.now x.1.now) }
    ensures none { IfNone result (ReadsNoItem (IsIndex version) (index_bytes version) bytes.now) }
{
    match version {
        Version::First => Some((0, bytes)),
        Version::Second => {
            let (fixed, rest) = u32_at(bytes)?;
            Some((u64::from(fixed), rest))
        }
    }
}

/// The least and the greatest length, and from which index on the elements are alike.
pub fn lengths_at(
    version: Version,
    bytes: &[u8],
) -> Result<((u32, Option<u32>, u64), &[u8]), Unread>
    ensures ok { IfOk result (λ x. ReadsItem (AreWideLengths version) (lengths_bytes version) x.0
        bytes.now x.1.now) }
    ensures refused { IfErr result (λ why. IsNoneRead why
        (ReadsNoItem (AreWideLengths version) (lengths_bytes version)) bytes.now) }
{
    let Some((least, rest)) = u32_at(bytes) else {
        return Err(Unread::Cut);
    };
    let (most, rest) = most_at(rest)?;
    let Some((fixed, rest)) = index_at(version, rest) else {
        return Err(Unread::Cut);
    };
    Ok(((least, most, fixed), rest))
}
