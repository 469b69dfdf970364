ghost use Rattle.std.specs.Prelude.{◌≡◌, ◌≢◌, ◌∷◌, ℕ, List, IfOk, IfSome, IfNone, IsErr, IsUtf8};
ghost use Rattle.std.specs.Prelude.{length};
ghost use Rattle.std.specs.Int.{w64, to_be_bytes};
ghost use Rattle.cue_lattice.specs.Refusal.{number_of};
ghost use Rattle.cue_replica.specs.Answers.{code_of};
ghost use Rattle.cue_net.specs.Replies.{IsReplyUnreadable, ReplySays, ReplySaysOfInput, ReplySaysOfExport};
ghost use Rattle.cue_net.specs.Replies.{IsNoReply, IsNoInputReply, IsNoExportReply};

use cue_device::Fault;
use cue_lattice::Form;
use cue_replica::{Kind, Refusal, Status};
use std::str;

/// What a reply says of its request.
#[derive(Clone, Copy, Debug)]
pub enum Verdict<'r> {
    /// It is accepted, and this is told.
    Accepted(&'r [u8]),
    /// It is refused.
    Refused(Refusal),
}

/// What the body of a reply's frame says.
///
/// # Errors
///
/// `Fault` where no site replies so.
pub fn read_reply(reply: &[u8]) -> Result<Verdict<'_>, Fault>
    ensures says { IfOk result (ReplySays reply.now) }
    ensures fault { IsErr result → IsNoReply reply.now }
{
    let Some((number, rest)) = reply.split_first() else {
        return Err(Fault);
    };
    if *number == 0 {
        return Ok(Verdict::Accepted(rest));
    }
    let Some(kind) = kind_of(*number) else {
        return Err(Fault);
    };
    let place = place_in(rest).ok_or(Fault)?;
    Ok(Verdict::Refused(Refusal { kind, place }))
}

/// The number in eight bytes, from the highest to the lowest, where there are just so many.
fn place_in(bytes: &[u8]) -> Option<u64>
    ensures some { IfSome result (λ place. bytes.now ≡ to_be_bytes w64 place) }
    ensures none { IfNone result (length bytes.now ≢ 8) }
{
    if bytes.len() != 8 {
        return None;
    }
    let (place, _) = bytes.split_first_chunk::<8>()?;
    Some(u64::from_be_bytes(*place))
}

/// The kind of this number, where a site refuses a frame so. A reply doesn't say the form of what
/// the language leaves out.
pub fn kind_of(number: u8) -> Option<Kind>
    ensures some { IfSome result (λ kind. (number_of kind ≡ number) × (IsReplyUnreadable kind → ⊥)) }
    ensures none { IfNone result ((kind : Kind) → number_of kind ≡ number → IsReplyUnreadable kind) }
{
    Some(match number {
        1 => Kind::TooLong,
        2 => Kind::BadCharacter,
        3 => Kind::BadString,
        4 => Kind::BadNumber,
        5 => Kind::IntRange,
        6 => Kind::TextTooLong,
        7 => Kind::Syntax,
        8 => Kind::Nesting,
        9 => Kind::LeftOut(Form::Embedding),
        10 => Kind::UnknownName,
        11 => Kind::FieldReference,
        12 => Kind::Repeated,
        13 => Kind::Cycle,
        14 => Kind::TooLarge,
        15 => Kind::TooDeep,
        16 => Kind::NotScalar,
        17 => Kind::Version,
        18 => Kind::NotState,
        20 => Kind::BadRequest,
        23 => Kind::ReplyTooLong,
        _ => return None,
    })
}

/// Why the reply to an input refuses it, where it does. Nothing is told of one that is accepted.
///
/// # Errors
///
/// `Fault` where no site replies so to an input.
pub fn refusal_in(reply: &[u8]) -> Result<Option<Refusal>, Fault>
    ensures says { IfOk result (ReplySaysOfInput reply.now) }
    ensures fault { IsErr result → IsNoInputReply reply.now }
{
    match read_reply(reply)? {
        Verdict::Accepted(told) if told.is_empty() => Ok(None),
        Verdict::Accepted(_) => Err(Fault),
        Verdict::Refused(why) => Ok(Some(why)),
    }
}

/// What the reply to the question for the export says.
#[derive(Clone, Copy, Debug)]
pub enum ExportReply<'r> {
    /// Its status, and the JSON or the lines that go with that.
    Told(Status, &'r [u8]),
    /// The site refuses to tell it.
    Refused(Kind),
}

/// What the reply to the question for the export says.
///
/// # Errors
///
/// `Fault` where no site replies so to it.
pub fn export_in(reply: &[u8]) -> Result<ExportReply<'_>, Fault>
    ensures says { IfOk result (ReplySaysOfExport reply.now) }
    ensures fault { IsErr result → IsNoExportReply reply.now }
{
    match read_reply(reply)? {
        Verdict::Accepted(told) => {
            let (status, text) = read_export(told).ok_or(Fault)?;
            Ok(ExportReply::Told(status, text))
        }
        Verdict::Refused(why) => Ok(ExportReply::Refused(why.kind)),
    }
}

/// The status and the text in what is told of an export.
fn read_export(told: &[u8]) -> Option<(Status, &[u8])>
    ensures some { IfSome result (λ found. (told.now ≡ code_of found.0 ∷ found.1.now)
        × IsUtf8 found.1.now) }
    ensures none { IfNone result ((status : Status) → (text : List ℕ)
        → told.now ≡ code_of status ∷ text → IsUtf8 text → ⊥) }
{
    let (code, text) = told.split_first()?;
    let status = status_of(*code)?;
    str::from_utf8(text).ok()?;
    Some((status, text))
}

/// The status with this number, where one has it.
fn status_of(code: u8) -> Option<Status>
    ensures some { IfSome result (λ status. code_of status ≡ code) }
    ensures none { IfNone result ((status : Status) → code_of status ≢ code) }
{
    match code {
        0 => Some(Status::Done),
        2 => Some(Status::Conflicts),
        3 => Some(Status::Incomplete),
        _ => None,
    }
}
