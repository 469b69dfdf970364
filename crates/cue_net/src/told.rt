ghost use Rattle.std.specs.Prelude.{◌≡◌, ◌≢◌, ◌⊎◌, ◌+◌, ◌∷◌, ◌++◌, ℕ, List, [], IfOk, IsErr};
ghost use Rattle.std.specs.Prelude.{IsErrOf};
ghost use Rattle.std.specs.Prelude.{Any, length};
ghost use Rattle.cue_replica.specs.Answers.{code_of};
ghost use Rattle.cue_wire.specs.Clients.{all_items};
ghost use Rattle.cue_net.specs.Replies.{IsNoInputReply};
ghost use Rattle.cue_net.specs.Told.{ReportReplies, IsPrinted};
ghost use Rattle.cue_net.specs.Inner.Told.{IsFound, first_of};

use crate::halt::NetError;
use crate::reply::{ExportReply, export_in, refusal_in};
use cue_device::Fault;
use cue_replica::{Answer, Memory, Refusal, SiteQuestion, Status, to_printed};
use std::alloc::Global;

/// What the replies to so many inputs and to the question for the export, which comes last, tell:
/// the export, as it is printed, where no input is refused.
///
/// # Errors
///
/// `RefusedInput` for the first input that is refused, and `RefusedExport`; `Device` where there
/// are not so many replies, or one is none of a site; and `Memory`.
pub fn answer_of_replies(
    alloc: Global,
    replies: &[Vec<u8>],
    inputs: usize,
) -> Result<Answer, NetError>
    ensures { ((to_inputs : List (List ℕ)) × (last : List ℕ)
        × (all_items replies.now ≡ to_inputs ++ last ∷ []) × (length to_inputs ≡ inputs)
        × ReportReplies to_inputs last result)
        ⊎ ((length replies.now ≢ inputs + 1) × IsErrOf result NetError.Device) }
{
    let Some((last, to_inputs)) = replies.split_last() else {
        return Err(NetError::Device);
    };
    if to_inputs.len() != inputs {
        return Err(NetError::Device);
    }
    last_answer(alloc, to_inputs, last)
}

/// What the replies to inputs and to the question for the export tell.
fn last_answer(alloc: Global, to_inputs: &[Vec<u8>], last: &[u8]) -> Result<Answer, NetError>
    ensures { ReportReplies (all_items to_inputs.now) last.now result }
{
    let first = first_refusal(to_inputs)?;
    let export = export_in(last)?;
    match (first, export) {
        (Some((why, number)), _) => Err(NetError::RefusedInput(why, number)),
        (None, ExportReply::Refused(kind)) => Err(NetError::RefusedExport(kind)),
        (None, ExportReply::Told(status, text)) => Ok(print_export(alloc, status, text)?),
    }
}

/// An export of this status and text, as it is printed.
fn print_export(alloc: Global, status: Status, text: &[u8]) -> Result<Answer, Memory>
    ensures { IfOk result (λ answer. IsPrinted answer status text.now) }
{
    let bytes = Vec::from_slice(alloc, text)?;
    to_printed(SiteQuestion::Export, Answer { bytes, status })
}

/// The first refusal among the replies to inputs, and the number of its input, from 1.
///
/// # Errors
///
/// `Fault` where one of them is none of a site.
fn first_refusal(replies: &[Vec<u8>]) -> Result<Option<(Refusal, usize)>, Fault>
    ensures found { IfOk result (IsFound (all_items replies.now)) }
    ensures fault { IsErr result → Any IsNoInputReply (all_items replies.now) }
{
    let mut first = None;
    let mut number = 0usize;
    for reply in replies {
        number += 1;
        let found = refusal_in(reply)?;
        first = first_of(first, found, number);
    }
    Ok(first)
}

/// The first of what was found before and what is found at this number.
fn first_of(
    first: Option<(Refusal, usize)>,
    found: Option<Refusal>,
    number: usize,
) -> Option<(Refusal, usize)>
    ensures { result ≡ first_of first found number }
{
    match (first, found) {
        (Some(first), _) => Some(first),
        (None, Some(why)) => Some((why, number)),
        (None, None) => None,
    }
}
