//! What a request wants of the layer that it would replace.
ghost use Rattle.std.specs.Prelude.{◌≡◌, ◌↔◌, codes, map, IfOk, IsTrue, ℕ, List};
ghost use Rattle.cue_layers.specs.Puts.{HasElement};
ghost use Rattle.cue_layers_site.specs.Requests.{HasFieldValue};
ghost use Rattle.cue_layers_site.specs.Conditions.{FitsLayer, FitsName, IsMet, is_between as is_between_tags, tags_in as list_of_tags};

use crate::answers::layer_tag_of;
use bytes::Bytes;
use cue_layers::{Layer, LayerKind, Layers, Memory, Replica};
use http::{Request, header};
use std::alloc::{AllocError, Global};

/// Whether a byte stands between the tags of a list.
fn is_between(byte: u8) -> bool
    ensures { result ≡ is_between_tags byte }
{
    byte == b',' || byte == b' ' || byte == b'\t'
}

/// The tags that a field lists.
fn tags_in<'a>(alloc: Global, value: &'a [u8]) -> Result<Vec<&'a [u8]>, AllocError>
    ensures { IfOk result (λ tags. map (λ tag. tag.now) tags.items ≡ list_of_tags value.now) }
{
    value.split(|byte| is_between(*byte)).collect(alloc)
}

/// Whether both are the same bytes.
fn is_same(bytes: &[u8], others: &[u8]) -> bool
    ensures { IsTrue result ↔ (bytes.now ≡ others.now) }
{
    bytes == others
}

/// Whether a tag is one of these.
fn has_tag(tags: &[&[u8]], tag: &[u8]) -> bool
    ensures { IsTrue result ↔ HasElement (map (λ t. t.now) tags.now) tag.now }
{
    for other in tags {
        if is_same(other, tag) {
            return true;
        }
    }
    false
}

/// Whether a field fits a layer: it lists its tag, or it is `*` and the layer says something.
fn fits_layer(alloc: Global, value: &[u8], layer: &Layer) -> Result<bool, Memory>
    ensures { IfOk result (λ fits. IsTrue fits ↔ FitsLayer value.now layer.now) }
{
    if value == b"*".as_slice() {
        return Ok(!layer.content.same(&Replica::new(alloc)));
    }
    let tag = layer_tag_of(alloc, layer)?;
    let tags = tags_in(alloc, value)?;
    Ok(has_tag(&tags, tag.as_bytes()))
}

/// Whether a field fits the layer of a key.
fn fits_name(
    alloc: Global,
    value: &[u8],
    map: &Layers,
    kind: LayerKind,
    name: &str,
) -> Result<bool, Memory>
    ensures { IfOk result (λ fits. IsTrue fits ↔ FitsName value.now map.now kind name.now) }
{
    let _entries = map.entries();
    match map.get(kind, name) {
        Some(layer) => fits_layer(alloc, value, layer),
        None => Ok(false),
    }
}

/// Whether `If-Match`, where a request has it, fits the layer of a key.
fn matches(
    alloc: Global,
    map: &Layers,
    kind: LayerKind,
    name: &str,
    request: &Request<Bytes>,
) -> Result<bool, Memory>
    ensures { IfOk result (λ fits. IsTrue fits ↔ ((value : List ℕ)
        → HasFieldValue (codes "if-match") value request.now → FitsName value map.now kind name.now)) }
{
    match request.headers().get(header::IF_MATCH) {
        Some(value) => fits_name(alloc, value.as_bytes(), map, kind, name),
        None => Ok(true),
    }
}

/// Whether `If-None-Match`, where a request has it, does not fit the layer of a key.
fn matches_none(
    alloc: Global,
    map: &Layers,
    kind: LayerKind,
    name: &str,
    request: &Request<Bytes>,
) -> Result<bool, Memory>
    ensures { IfOk result (λ fits. IsTrue fits ↔ ((value : List ℕ)
        → HasFieldValue (codes "if-none-match") value request.now → ¬ FitsName value map.now kind name.now)) }
{
    match request.headers().get(header::IF_NONE_MATCH) {
        Some(value) => Ok(!fits_name(alloc, value.as_bytes(), map, kind, name)?),
        None => Ok(true),
    }
}

/// Whether what a request wants of the layer of a key is so.
pub(crate) fn is_met(
    alloc: Global,
    map: &Layers,
    kind: LayerKind,
    name: &str,
    request: &Request<Bytes>,
) -> Result<bool, Memory>
    ensures { IfOk result (λ met. IsTrue met ↔ IsMet map.now kind name.now request.now) }
{
    let fits = matches(alloc, map, kind, name, request)?;
    let differs = matches_none(alloc, map, kind, name, request)?;
    Ok(fits && differs)
}
