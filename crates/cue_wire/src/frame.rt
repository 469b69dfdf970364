ghost use Rattle.std.specs.Prelude.{◌≡◌, ◌⊎◌, ◌++◌, ◌<◌, ◌≤◌, length, take};
ghost use Rattle.std.specs.Prelude.{IfOk, IfErr, IfSome, IfNone};
ghost use Rattle.std.specs.Int.{w32, to_be_bytes};
ghost use Rattle.tokio_util.specs.Codec.LengthField.{default_layout};
ghost use Rattle.tokio_util.specs.Codec.LengthDelimited.{codec_layout, IsAtHead};
ghost use Rattle.cue_wire.specs.Frames.{frame_of, frame_limit, named_length, IsBody};
ghost use Rattle.cue_wire.specs.Frames.{IsUnfinished, NamesTooMany, LacksBytes};
ghost use Rattle.cue_wire.specs.Inner.Pieces.{IsWhole};

use bytes::BytesMut;
use cue_replica::Kind;
use std::io::ErrorKind;
use tokio_util::codec::{Decoder, LengthDelimitedCodec};

/// The most bytes that a frame has after its length.
pub const FRAME_LIMIT: usize = 16_777_216;

/// The most bytes that one read asks for, and that are made ready at a time.
pub const PIECE: usize = 4096;

/// The length that the first four bytes name, where they are there.
#[tactic(auto, unfolding(crate::specs::Frames::named_length))]
pub fn length_at(bytes: &[u8]) -> Option<usize>
    ensures found { IfSome result (λ len. (4 ≤ length bytes.now) × (len ≡ named_length bytes.now)) }
    ensures spelled { IfSome result (λ len. to_be_bytes w32 len ≡ take 4 bytes.now) }
    ensures none { IfNone result (length bytes.now < 4) }
{
    let (head, _) = bytes.split_first_chunk::<4>()?;
    Some(u32::from_be_bytes(*head) as usize)
}

/// How many bytes the stream lacks until the length of the frame at its front is known, or until
/// that frame is whole; at least 1.
pub fn missing(bytes: &[u8]) -> usize
    ensures some { 1 ≤ result }
    ensures exact { IsUnfinished bytes.now → LacksBytes bytes.now result }
{
    let whole = length_at(bytes).map_or(4, |len| len.saturating_add(4));
    whole.saturating_sub(bytes.len()).max(1)
}

/// The length of the body of the frame at the front, where that frame is whole.
///
/// # Errors
///
/// `FrameTooLong` where the bytes begin with a length that no frame has.
pub fn body_length(bytes: &[u8]) -> Result<Option<usize>, Kind>
    ensures whole { IfOk result (λ found. IfSome found (IsWhole bytes.now)) }
    ensures unfinished { IfOk result (λ found. IfNone found (IsUnfinished bytes.now)) }
    ensures long { IfErr result (λ kind. (kind ≡ Kind.FrameTooLong) × NamesTooMany bytes.now) }
{
    let Some(len) = length_at(bytes) else {
        return Ok(None);
    };
    if len > FRAME_LIMIT {
        return Err(Kind::FrameTooLong);
    }
    if bytes.len() - 4 < len {
        return Ok(None);
    }
    Ok(Some(len))
}

/// The body of the frame at the front, and the bytes behind it, where that frame is whole.
///
/// # Errors
///
/// `FrameTooLong` where the bytes begin with a length that no frame has.
pub fn cut_frame(bytes: &[u8]) -> Result<Option<(&[u8], &[u8])>, Kind>
    ensures whole { IfOk result (λ found. IfSome found (λ cut.
        IsBody cut.0.now × (bytes.now ≡ frame_of cut.0.now ++ cut.1.now))) }
    ensures unfinished { IfOk result (λ found. IfNone found (IsUnfinished bytes.now)) }
    ensures long { IfErr result (λ kind. (kind ≡ Kind.FrameTooLong) × NamesTooMany bytes.now) }
{
    let Some(len) = body_length(bytes)? else {
        return Ok(None);
    };
    let (_, behind) = bytes.split_at(4);
    Ok(Some(behind.split_at(len)))
}

/// What cuts one frame off a stream.
fn codec() -> LengthDelimitedCodec
    ensures layout { codec_layout result ≡ record default_layout { max_frame_len = frame_limit } }
    ensures state { IsAtHead result }
{
    LengthDelimitedCodec::builder()
        .max_frame_length(FRAME_LIMIT)
        .new_codec()
}

/// Takes the body of the next frame off the stream, where that frame is whole.
///
/// # Errors
///
/// `FrameTooLong` where the stream begins with a length that no frame has, and `Memory`.
pub fn next_frame(stream: &mut BytesMut) -> Result<Option<BytesMut>, Kind>
    ensures whole { IfOk result (λ found. IfSome found (λ body.
        IsBody body.items × (stream.old.items ≡ frame_of body.items ++ stream.new.items))) }
    ensures unfinished { IfOk result (λ found. IfNone found
        ((stream.new.items ≡ stream.old.items) × IsUnfinished stream.new.items)) }
    ensures err { IfErr result (λ kind. (kind ≡ Kind.Memory)
        ⊎ ((kind ≡ Kind.FrameTooLong) × NamesTooMany stream.old.items)) }
{
    let Some(_) = body_length(stream.as_slice())? else {
        return Ok(None);
    };
    match codec().decode(stream) {
        Ok(body) => Ok(body),
        Err(error) if error.kind() == ErrorKind::OutOfMemory => Err(Kind::Memory),
        // The frame stands there whole, so that the codec fails for want of memory alone.
        Err(_) => unreachable!(),
    }
}
