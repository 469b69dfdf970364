//! The view of a map with what the commons says.
ghost use Rattle.std.specs.Prelude.{◌≡◌, ◌↔◌, ◌⊎◌, IfOk, OnOk, IsTrue};
ghost use Rattle.http_server.specs.Response.{IsBlank};
ghost use Rattle.cue_layers.specs.View.{IsTooLarge};
ghost use Rattle.cue_layers_site.specs.Views.{IsSent, IsSyncAnswer, IsViewAnswer, StaysSmall, row_limit};

use crate::refusal::answer_reason;
use bytes::Bytes;
use cue_layers::{Layers, LayersRefusal, Memory, Replica};
use cue_replica::SiteQuestion;
use cue_service::{
    CachedTable, answer_question, answer_tagged, answer_unchanged, has_tag, tag_text,
};
use http::{HeaderValue, Request, StatusCode};
use http_server::Response;
use std::alloc::{AllocError, Global};

/// The most rows that the view may have.
const MOST_ROWS: u64 = 10_000_000;

/// The most bytes of an answer about the view.
const MOST_ANSWER: usize = 67_108_864;

/// Answers a question about the view of a map, with what the commons says.
pub(crate) fn answer_view(
    alloc: Global,
    map: &Layers,
    commons: &Replica,
    question: SiteQuestion,
    request: &Request<Bytes>,
    response: &mut Response,
) -> Result<(), Memory>
    requires { IsBlank response.old }
    ensures { OnOk result (IsViewAnswer question map.now commons.now request.now response.new) }
{
    let whole = map.with_commons(alloc, commons)?;
    match whole.view(alloc, MOST_ROWS) {
        Ok(view) => {
            let mut board = CachedTable::new(alloc, view);
            answer_question(&mut board, MOST_ANSWER, question, request, response)
        }
        Err(LayersRefusal::ViewTooLarge) => {
            answer_reason(alloc, LayersRefusal::ViewTooLarge, response)
        }
        Err(_) => Err(Memory::from(AllocError)),
    }
}

/// Answers with layers bytes of this tag, unless who asks has them.
fn answer_layers(
    request: &Request<Bytes>,
    tag: HeaderValue,
    layers: Vec<u8>,
    response: &mut Response,
) -> Result<(), Memory>
    requires { IsBlank response.old }
    ensures { OnOk result (IsSent tag.bytes layers.items request.now response.new) }
{
    if has_tag(request, tag.as_bytes()) {
        return answer_unchanged(response, tag);
    }
    let kind = HeaderValue::from_static("application/octet-stream");
    let bytes = Bytes::from_vec(layers)?;
    answer_tagged(response, StatusCode::OK, tag, kind, bytes)
}

/// Answers with the layers bytes of a map, with what the commons says, unless who asks has them.
pub(crate) fn answer_sync(
    alloc: Global,
    map: &Layers,
    commons: &Replica,
    request: &Request<Bytes>,
    response: &mut Response,
) -> Result<(), Memory>
    requires { IsBlank response.old }
    ensures { OnOk result (IsSyncAnswer map.now commons.now request.now response.new) }
{
    let whole = map.with_commons(alloc, commons)?;
    let layers = whole.write(alloc)?;
    let tag = tag_text(alloc, &layers)?;
    answer_layers(request, tag, layers, response)
}

/// Whether the view of a map is too large.
fn is_too_large(alloc: Global, map: &Layers) -> Result<bool, Memory>
    ensures { IfOk result (λ large. IsTrue large ↔ IsTooLarge row_limit map.now) }
{
    match map.view(alloc, MOST_ROWS) {
        Ok(_) => Ok(false),
        Err(LayersRefusal::ViewTooLarge) => Ok(true),
        Err(_) => Err(Memory::from(AllocError)),
    }
}

/// Refuses a map of which the view is too large, with what the commons says, where that of the map
/// before it was not.
///
/// # Errors
///
/// `ViewTooLarge`, and want of memory.
pub(crate) fn check_view(
    alloc: Global,
    commons: &Replica,
    old: &Layers,
    new: &Layers,
) -> Result<(), LayersRefusal>
    ensures { OnOk result (StaysSmall commons.now old.now new.now) }
{
    let before = old.with_commons(alloc, commons)?;
    let after = new.with_commons(alloc, commons)?;
    if is_too_large(alloc, &after)? && !is_too_large(alloc, &before)? {
        return Err(LayersRefusal::ViewTooLarge);
    }
    Ok(())
}
