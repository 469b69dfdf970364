ghost use Rattle.std.specs.Prelude.{◌≡◌, ◌≤◌, [], ◌∷◌, ◌++◌, List, OnOk, IfErr, MatchResult};
ghost use Rattle.std.specs.Prelude.{length};
ghost use Rattle.std.specs.Str.{IsUtf8};
ghost use Rattle.cue_lattice.specs.World.{Piece, text, state};
ghost use Rattle.cue_replica.specs.Accepted.{text_limit, IsOfPieces};
ghost use Rattle.cue_replica.specs.Answers.{IsWholeAnswer};
ghost use Rattle.cue_replica.specs.declared.question.SiteQuestion.TheVariants as questions;
ghost use Rattle.cue_embed.specs.Calls.{IsCallAnswer};
ghost use Rattle.cue_embed.specs.Stops.{IsMemoryError, IsRefusedAt, IsStateError, IsTextError};
ghost use Rattle.cue_embed.specs.Stops.{IsStateStop, IsSubmitStop, IsMergeError};

use crate::outcome::CallError;
use cue_replica::{Answer, Kind, Refusal, Replica, SiteQuestion, TEXT_LIMIT, answer_to};
use std::alloc::Global;
use std::str;

/// The state of a site that has accepted nothing.
pub fn new_state(alloc: Global) -> Result<Answer, CallError>
    ensures { MatchResult result (IsCallAnswer questions.State []) IsMemoryError }
{
    answer_question(alloc, SiteQuestion::State, &Replica::new(alloc))
}

/// The state of a site that has accepted a state and a text.
pub fn submit_text(alloc: Global, bytes: &[u8], more: &[u8]) -> Result<Answer, CallError>
    ensures { MatchResult result
        (IsCallAnswer questions.State (state bytes.now ∷ text more.now ∷ []))
        (IsSubmitStop bytes.now more.now) }
{
    let mut site = site_of(alloc, bytes)?;
    submit(&mut site, more)?;
    answer_question(alloc, SiteQuestion::State, &site)
}

/// The state of a site that has accepted two states.
pub fn merge_states(alloc: Global, bytes: &[u8], other: &[u8]) -> Result<Answer, CallError>
    ensures { MatchResult result
        (IsCallAnswer questions.State (state bytes.now ∷ state other.now ∷ []))
        (IsMergeError bytes.now other.now) }
{
    let mut site = site_of(alloc, bytes)?;
    take(&mut site, other, 2)?;
    answer_question(alloc, SiteQuestion::State, &site)
}

/// What a site answers that has accepted a state.
pub fn answer_state(
    alloc: Global,
    question: SiteQuestion,
    bytes: &[u8],
) -> Result<Answer, CallError>
    ensures { MatchResult result (IsCallAnswer question (state bytes.now ∷ []))
        (IsStateStop bytes.now) }
{
    let site = site_of(alloc, bytes)?;
    answer_question(alloc, question, &site)
}

/// What this site answers.
fn answer_question(
    alloc: Global,
    question: SiteQuestion,
    site: &Replica,
) -> Result<Answer, CallError>
    ensures { MatchResult result (IsWholeAnswer question site.now) IsMemoryError }
{
    Ok(answer_to(alloc, question, site)?)
}

/// A new site that has accepted a state, the first input.
fn site_of(alloc: Global, bytes: &[u8]) -> Result<Replica, CallError>
    ensures { MatchResult result (λ site. IsOfPieces site (state bytes.now ∷ []))
        (IsRefusedAt 1 (IsStateError bytes.now)) }
{
    let mut site = Replica::new(alloc);
    take(&mut site, bytes, 1)?;
    Ok(site)
}

/// Hands a state to a site, as the input of this number.
fn take(site: &mut Replica, bytes: &[u8], number: u8) -> Result<(), CallError>
    ensures accepts { OnOk result ((pieces : List Piece) → IsOfPieces site.old pieces
        → IsOfPieces site.new (pieces ++ state bytes.now ∷ [])) }
    ensures stop { IfErr result (IsRefusedAt number (IsStateError bytes.now)) }
{
    match site.take(bytes) {
        Ok(()) => Ok(()),
        Err(why) => Err(CallError { why, input: number }),
    }
}

/// Hands a text to a site, as the second input.
fn submit(site: &mut Replica, bytes: &[u8]) -> Result<(), CallError>
    ensures accepts { OnOk result ((pieces : List Piece) → IsOfPieces site.old pieces
        → IsOfPieces site.new (pieces ++ text bytes.now ∷ [])) }
    ensures stop { IfErr result (IsRefusedAt 2 (IsTextError bytes.now)) }
{
    let words = match text_of(bytes) {
        Ok(words) => words,
        Err(why) => return Err(CallError { why, input: 2 }),
    };
    match site.submit(words) {
        Ok(()) => Ok(()),
        Err(why) => Err(CallError { why, input: 2 }),
    }
}

/// The text in these bytes: neither too long, nor anything but UTF-8.
fn text_of(bytes: &[u8]) -> Result<&str, Refusal>
    ensures { MatchResult result
        (λ words. (words.now ≡ bytes.now) × (length bytes.now ≤ text_limit) × IsUtf8 bytes.now)
        (IsTextError bytes.now) }
{
    if bytes.len() > TEXT_LIMIT {
        return Err(Refusal::at(Kind::TooLong, TEXT_LIMIT));
    }
    match str::from_utf8(bytes) {
        Ok(words) => Ok(words),
        Err(error) => Err(Refusal::at(Kind::BadCharacter, error.valid_up_to())),
    }
}
