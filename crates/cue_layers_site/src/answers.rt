//! Answers about layers.
ghost use Rattle.std.specs.Prelude.{◌≡◌, ◌≢◌, [], ◌∷◌, codes, IfOk, OnOk};
ghost use Rattle.http_server.specs.Response.{IsBlank, IsResponse};
ghost use Rattle.cue_layers.specs.Extracts.{IsExtract};
ghost use Rattle.cue_layers.specs.Layers.{key};
ghost use Rattle.cue_layers_site.specs.Statuses.{layer_tag};
ghost use Rattle.cue_layers_site.specs.Inner.Changes.{IsDoneAnswer};

use crate::store::MapChange;
use bytes::Bytes;
use cue_layers::{Layer, LayerKind, Memory};
use cue_service::{answer_body, answer_tagged};
use http::{HeaderValue, StatusCode, header};
use http_server::Response;
use sha2::{Digest, Sha256};
use std::alloc::{AllocError, Global};

/// The tag of what an owner says: the revision, and the digest of the state bytes.
pub(crate) fn layer_tag_of(alloc: Global, layer: &Layer) -> Result<HeaderValue, Memory>
    ensures { IfOk result (λ tag. tag.bytes ≡ layer_tag layer.now) }
{
    let state = layer.content.state(alloc)?;
    let digits = hex::encode(alloc, Sha256::digest(&state))?;
    let text = format!(in alloc; "\"{}-{}\"", layer.revision, digits.as_str())?;
    match HeaderValue::from_bytes(alloc, text.as_bytes()) {
        Ok(value) => Ok(value),
        Err(_) => Err(Memory::from(AllocError)),
    }
}

/// Answers that a change is done, with a tag.
fn answer_done(response: &mut Response, tag: HeaderValue) -> Result<(), Memory>
    requires { IsBlank response.old }
    ensures { OnOk result (IsResponse 204 ((codes "etag", tag.bytes) ∷ []) [] response.new) }
{
    response.status = StatusCode::NO_CONTENT;
    Ok(response.add_header(header::ETAG, tag)?)
}

/// Answers that a change is done, with the tag of what the name says then.
pub(crate) fn answer_change(
    alloc: Global,
    kind: LayerKind,
    name: &str,
    change: &MapChange,
    response: &mut Response,
) -> Result<(), Memory>
    requires blank { IsBlank response.old }
    requires extract { IsExtract change.now.next (key kind name.now) change.now.more }
    ensures { OnOk result (IsDoneAnswer kind name.now change.now.next response.new) }
{
    let Some(layer) = change.more.get(kind, name) else {
        return Err(Memory::from(AllocError));
    };
    let tag = layer_tag_of(alloc, layer)?;
    answer_done(response, tag)
}

/// Answers with what a name says, with its tag.
pub(crate) fn answer_text(
    alloc: Global,
    layer: &Layer,
    response: &mut Response,
) -> Result<(), Memory>
    requires { IsBlank response.old }
    ensures { OnOk result (response.new.status ≢ 204) }
{
    let text = layer.content.print(alloc)?;
    let tag = layer_tag_of(alloc, layer)?;
    let kind = HeaderValue::from_static("text/plain; charset=utf-8");
    let body = Bytes::from_string(text)?;
    answer_tagged(response, StatusCode::OK, tag, kind, body)
}

/// The line of a name: the name, the revision, and how many bytes the state has.
fn push_line(alloc: Global, text: &mut String, layer: &Layer) -> Result<(), Memory> {
    let line = format!(in alloc;
        "{} {} {}\n",
        layer.name.as_str(),
        layer.revision,
        layer.content.state_size()
    )?;
    text.push_str(line.as_str())?;
    Ok(())
}

/// Answers with a line for each name of a kind.
pub(crate) fn answer_list(
    alloc: Global,
    kind: LayerKind,
    layers: &[Layer],
    response: &mut Response,
) -> Result<(), Memory>
    requires { IsBlank response.old }
    ensures { OnOk result (response.new.status ≢ 204) }
{
    let mut text = String::new(alloc);
    for layer in layers {
        if layer.kind == kind && layer.revision > 0 {
            push_line(alloc, &mut text, layer)?;
        }
    }
    let body = Bytes::from_string(text)?;
    answer_body(response, StatusCode::OK, "text/plain; charset=utf-8", body)
}
