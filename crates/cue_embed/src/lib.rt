//! The store for C, and for whatever calls C: each call takes bytes and writes bytes, since a
//! site's state is its bytes. Nothing is kept between two calls, and no memory of the library's is
//! left for the caller to free.
//!
//! A call writes its answer to the front of `out`, where there is room for all of it, and tells by
//! its result what it came to. `out` must not overlap an input. Where an input is empty, its
//! pointer may be null.
#![tactic(auto)]

mod outcome;
mod site;
#[cfg(test)]
mod tests;

ghost use Rattle.cue_embed.specs.Calls.{IsNew, IsSubmitted, IsMergedState, AnswersState};
ghost use Rattle.cue_replica.specs.declared.question.SiteQuestion.TheVariants as questions;

use cue_replica::SiteQuestion;
pub use outcome::CallOutcome;
use outcome::outcome_of;
use site::{answer_state, merge_states, new_state, submit_text};
use std::alloc::Global;

/// Writes the state of a site that has accepted nothing.
#[unsafe(no_mangle)]
pub extern "C" fn cuestore_new(alloc: Global, out: &mut [u8]) -> CallOutcome
    ensures { IsNew out.old out.new result }
{
    outcome_of(new_state(alloc), out)
}

/// Writes the state of a site that has accepted all that this state has, and the text.
#[unsafe(no_mangle)]
pub extern "C" fn cuestore_submit(
    alloc: Global,
    bytes: &[u8],
    more: &[u8],
    out: &mut [u8],
) -> CallOutcome
    ensures { IsSubmitted bytes.now more.now out.old out.new result }
{
    outcome_of(submit_text(alloc, bytes, more), out)
}

/// Writes the state of a site that has accepted all that both states have.
#[unsafe(no_mangle)]
pub extern "C" fn cuestore_merge(
    alloc: Global,
    bytes: &[u8],
    other: &[u8],
    out: &mut [u8],
) -> CallOutcome
    ensures { IsMergedState bytes.now other.now out.old out.new result }
{
    outcome_of(merge_states(alloc, bytes, other), out)
}

/// Writes the JSON of the configuration; or, where there are any, the conflict lines; or else the
/// lines of what is incomplete.
#[unsafe(no_mangle)]
pub extern "C" fn cuestore_export(alloc: Global, bytes: &[u8], out: &mut [u8]) -> CallOutcome
    ensures { AnswersState questions.Export bytes.now out.old out.new result }
{
    outcome_of(answer_state(alloc, SiteQuestion::Export, bytes), out)
}

/// Writes the conflict lines, and then the lines of what is incomplete.
#[unsafe(no_mangle)]
pub extern "C" fn cuestore_report(alloc: Global, bytes: &[u8], out: &mut [u8]) -> CallOutcome
    ensures { AnswersState questions.Report bytes.now out.old out.new result }
{
    outcome_of(answer_state(alloc, SiteQuestion::Report, bytes), out)
}

/// Writes all that is known, as one text.
#[unsafe(no_mangle)]
pub extern "C" fn cuestore_print(alloc: Global, bytes: &[u8], out: &mut [u8]) -> CallOutcome
    ensures { AnswersState questions.Print bytes.now out.old out.new result }
{
    outcome_of(answer_state(alloc, SiteQuestion::Print, bytes), out)
}
