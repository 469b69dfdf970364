//! Layers bytes, read.
ghost use Rattle.std.specs.Prelude.{◌≡◌, ◌≢◌, ◌⊎◌, ◌<◌, ◌++◌, ◌↔◌, List, [], ◌∷◌, length, slice_get, IsTrue, IfOk, IfErr, IfSome, IfNone};
ghost use Rattle.std.specs.Option.{option_map};
ghost use Rattle.std.specs.Int.{w16, w64};
ghost use Rattle.std.specs.List.{flat_map};
ghost use Rattle.cue_codec.specs.Parts.{text_bytes, counted_bytes};
ghost use Rattle.cue_codec.specs.Reading.{number_at, ReadsItem, ReadsNoItem, IsShort};
ghost use Rattle.cue_codec.specs.Inner.Reading.{AreSo};
ghost use Rattle.cue_lattice.specs.Refusal.{memory};
ghost use Rattle.cue_replica.specs.Language.{language};
ghost use Rattle.cue_layers.specs.Refusals.{out_of_memory};
ghost use Rattle.cue_layers.specs.Bytes.{layers_mark, version, layer_bytes, block_bytes, IsLayersBytes, IsLayersFault, IsLayersRefusal};
ghost use Rattle.cue_layers.specs.Layers.{IsLayer, IsMap};
ghost use Rattle.cue_layers.specs.declared.layer.Layer.{Layer as LayerValue};
ghost use Rattle.cue_replica.specs.Language.{Table as Tables};
ghost use Rattle.cue_layers.specs.Inner.Reading.{AreBoth, both_bytes, IsKind, kind_bytes, IsWide, wide_bytes, IsLong};
ghost use Rattle.cue_layers.specs.Inner.Reading.{AreParts, parts_bytes, parts_of, IsHeld, MayHave, IsRefusedFor};
ghost use Rattle.cue_layers.specs.Inner.Reading.{AreFront, AreSoManyOfMap, IsBehind};

use crate::layer::Layer;
use crate::layers::Layers;
use crate::names::bad_place;
use crate::putting::may_put;
use crate::refusal::LayersRefusal;
use crate::writing::{MARK, VERSION};
use cue_lattice::{Kind, Refusal, Text};
use cue_policies::LayerKind;
use cue_replica::Replica;
use std::alloc::Global;
use std::cmp::Ordering;
use std::str;

/// The byte of the version of state bytes in layers.
const STATE_VERSION: u8 = 2;

impl Layers {
    /// The map with these layers bytes.
    ///
    /// # Errors
    ///
    /// `Version` of bytes of another version; `NotLayers` of all others that are of no map; and
    /// `Memory`.
    pub fn read(alloc: Global, bytes: &[u8]) -> Result<Layers, LayersRefusal>
        ensures ok { IfOk result (IsLayersBytes bytes.now) }
        ensures refused { IfErr result (IsLayersRefusal bytes.now) }
    {
        let entries = read_all(alloc, bytes)?;
        Ok(Layers::of_entries(alloc, entries))
    }
}

/// A number of 2 bytes.
#[tactic(auto, unfolding(cue_codec::specs::Reading::number_at))]
pub fn u16_at(bytes: &[u8]) -> Option<(u16, &[u8])>
    ensures { option_map (λ x. (x.0, x.1.now)) result ≡ number_at w16 bytes.now }
{
    let (number, rest) = bytes.split_first_chunk::<2>()?;
    Some((u16::from_be_bytes(*number), rest))
}

/// A number of 8 bytes, and those behind them.
#[tactic(auto, unfolding(cue_codec::specs::Reading::number_at))]
pub fn u64_at(bytes: &[u8]) -> Option<(u64, &[u8])>
    ensures { option_map (λ x. (x.0, x.1.now)) result ≡ number_at w64 bytes.now }
{
    let (number, rest) = bytes.split_first_chunk::<8>()?;
    Some((u64::from_be_bytes(*number), rest))
}

/// A number of 8 bytes.
fn wide_at(bytes: &[u8]) -> Option<(u64, &[u8])>
    ensures some { IfSome result (λ x. ReadsItem IsWide wide_bytes x.0 bytes.now x.1.now) }
    ensures none { IfNone result (ReadsNoItem IsWide wide_bytes bytes.now) }
{
    let (number, rest) = u64_at(bytes)?;
    Some((number, rest))
}

/// So many bytes, and those behind them.
fn front_at(len: usize, bytes: &[u8]) -> Option<(&[u8], &[u8])>
    ensures some { IfSome result (λ x. (bytes.now ≡ x.0.now ++ x.1.now) × (length x.0.now ≡ len)) }
    ensures none { IfNone result (length bytes.now < len) }
{
    if bytes.len() < len {
        return None;
    }
    Some(bytes.split_at(len))
}

/// Bytes behind their length, which has 2 bytes.
fn short_at(bytes: &[u8]) -> Option<(&[u8], &[u8])>
    ensures some { IfSome result (λ x. ReadsItem IsShort text_bytes x.0.now bytes.now x.1.now) }
    ensures none { IfNone result (ReadsNoItem IsShort text_bytes bytes.now) }
{
    let (len, rest) = u16_at(bytes)?;
    let (front, rest) = front_at(len as usize, rest)?;
    Some((front, rest))
}

/// Bytes behind their length, which has 8 bytes.
fn block_at(bytes: &[u8]) -> Option<(&[u8], &[u8])>
    ensures some { IfSome result (λ x. ReadsItem IsLong block_bytes x.0.now bytes.now x.1.now) }
    ensures none { IfNone result (ReadsNoItem IsLong block_bytes bytes.now) }
{
    let (len, rest) = u64_at(bytes)?;
    let (front, rest) = front_at(len as usize, rest)?;
    Some((front, rest))
}

/// A kind.
fn kind_at(bytes: &[u8]) -> Option<(LayerKind, &[u8])>
    ensures some { IfSome result (λ x. ReadsItem IsKind kind_bytes x.0 bytes.now x.1.now) }
    ensures none { IfNone result (ReadsNoItem IsKind kind_bytes bytes.now) }
{
    let (byte, rest) = bytes.split_first()?;
    match *byte {
        0 => Some((LayerKind::Layer, rest)),
        1 => Some((LayerKind::Policy, rest)),
        _ => None,
    }
}

/// A kind and a name.
fn key_at(bytes: &[u8]) -> Option<((LayerKind, &[u8]), &[u8])>
    ensures some { IfSome result (λ x. ReadsItem (AreBoth IsKind IsShort)
        (both_bytes kind_bytes text_bytes) (x.0.0, x.0.1.now) bytes.now x.1.now) }
    ensures none { IfNone result (ReadsNoItem (AreBoth IsKind IsShort)
        (both_bytes kind_bytes text_bytes) bytes.now) }
{
    let (kind, rest) = kind_at(bytes)?;
    let (name, rest) = short_at(rest)?;
    Some(((kind, name), rest))
}

/// A revision and state bytes.
fn says_at(bytes: &[u8]) -> Option<((u64, &[u8]), &[u8])>
    ensures some { IfSome result (λ x. ReadsItem (AreBoth IsWide IsLong)
        (both_bytes wide_bytes block_bytes) (x.0.0, x.0.1.now) bytes.now x.1.now) }
    ensures none { IfNone result (ReadsNoItem (AreBoth IsWide IsLong)
        (both_bytes wide_bytes block_bytes) bytes.now) }
{
    let (revision, rest) = wide_at(bytes)?;
    let (state, rest) = block_at(rest)?;
    Some(((revision, state), rest))
}

/// The parts of a layer.
#[derive(Clone, Copy)]
pub struct Parts<'a> {
    pub kind: LayerKind,
    pub name: &'a [u8],
    pub revision: u64,
    pub state: &'a [u8],
}

/// The parts of a layer in front of bytes, and what is behind them.
fn parts_at(bytes: &[u8]) -> Option<(Parts<'_>, &[u8])>
    ensures some { IfSome result (λ x. ReadsItem AreParts parts_bytes
        ((x.0.kind, x.0.name.now), (x.0.revision, x.0.state.now)) bytes.now x.1.now) }
    ensures none { IfNone result (ReadsNoItem AreParts parts_bytes bytes.now) }
{
    let ((kind, name), rest) = key_at(bytes)?;
    let ((revision, state), rest) = says_at(rest)?;
    let parts = Parts {
        kind,
        name,
        revision,
        state,
    };
    Some((parts, rest))
}

/// Whether state bytes are of the version that is written.
fn is_of_version(state: &[u8]) -> bool
    ensures { IsTrue result ↔ (slice_get state.now 4 ≡ Some 2) }
{
    match state.get(4) {
        Some(byte) => *byte == STATE_VERSION,
        None => false,
    }
}

/// The site with these state bytes, which are of the version that is written.
fn content_of(alloc: Global, state: &[u8]) -> Result<Replica, LayersRefusal>
    ensures valid { IfOk result language.IsValid }
    ensures ok { IfOk result (λ content. language.written content ≡ state.now) }
    ensures refused { IfErr result (λ why. IsRefusedFor why
        ((table : Tables) → language.IsValid table → language.written table ≡ state.now → ⊥)) }
{
    if !is_of_version(state) {
        return Err(LayersRefusal::NotLayers);
    }
    let mut content = Replica::new(alloc);
    match content.take(state) {
        Ok(()) => Ok(content),
        Err(why) => Err(layer_refusal(why)),
    }
}

/// Why a layer with a state that is refused is none.
fn layer_refusal(why: Refusal) -> LayersRefusal
    ensures memory { why ≡ memory → result ≡ out_of_memory }
    ensures other { why ≢ memory → result ≡ LayersRefusal.NotLayers }
{
    if why == Refusal::at(Kind::Memory, 0) {
        return LayersRefusal::Store(why);
    }
    LayersRefusal::NotLayers
}

/// Whether a layer with this key may have this revision.
fn may_have(kind: LayerKind, name: &[u8], revision: u64) -> bool
    ensures { IsTrue result ↔ MayHave kind name.now revision }
{
    if name.is_empty() {
        return kind == LayerKind::Layer && revision == 0;
    }
    bad_place(name).is_none() && 0 < revision
}

/// The name among the parts of a layer, where it may have their revision.
pub fn name_of<'a>(parts: Parts<'a>) -> Option<&'a str>
    ensures some { IfSome result (λ name. (name.now ≡ parts.entry.name.now)
        × MayHave parts.entry.kind parts.entry.name.now parts.entry.revision) }
    ensures none { IfNone result
        (¬ MayHave parts.entry.kind parts.entry.name.now parts.entry.revision) }
{
    if !may_have(parts.kind, parts.name, parts.revision) {
        return None;
    }
    match str::from_utf8(parts.name) {
        Ok(name) => Some(name),
        Err(_) => None,
    }
}

/// The layer with these parts.
fn layer_of(alloc: Global, parts: Parts<'_>) -> Result<Layer, LayersRefusal>
    ensures layer { IfOk result IsLayer }
    ensures ok { IfOk result (λ layer. parts_of layer ≡ (
      (parts.entry.kind, parts.entry.name.now),
      (parts.entry.revision, parts.entry.state.now),
    )) }
    ensures refused { IfErr result (λ why. IsRefusedFor why ((layer : LayerValue) → IsHeld layer
        → parts_of layer ≡ (
          (parts.entry.kind, parts.entry.name.now),
          (parts.entry.revision, parts.entry.state.now),
        ) → ⊥)) }
{
    let Some(name) = name_of(parts) else {
        return Err(LayersRefusal::NotLayers);
    };
    let content = content_of(alloc, parts.state)?;
    if !may_put(parts.kind, &content) {
        return Err(LayersRefusal::NotLayers);
    }
    Ok(Layer {
        kind: parts.kind,
        name: Text::from_str(alloc, name)?,
        revision: parts.revision,
        content,
    })
}

/// The layer in front of bytes, and what is behind it.
fn layer_at(alloc: Global, bytes: &[u8]) -> Result<(Layer, &[u8]), LayersRefusal>
    ensures ok { IfOk result (λ x. ReadsItem IsHeld layer_bytes x.0 bytes.now x.1.now) }
    ensures refused { IfErr result (λ why. IsRefusedFor why
        (ReadsNoItem IsHeld layer_bytes bytes.now)) }
{
    let Some((parts, rest)) = parts_at(bytes) else {
        return Err(LayersRefusal::NotLayers);
    };
    let layer = layer_of(alloc, parts)?;
    Ok((layer, rest))
}

/// Whether a layer comes behind all others of a map, or is its first.
fn is_behind(layers: &[Layer], layer: &Layer) -> bool
    ensures { IsTrue result ↔ IsBehind layers.now layer.now }
{
    match layers.last() {
        None => layer.name.as_bytes().is_empty(),
        Some(last) => last.compare_key(layer.kind, layer.name.as_str()) == Ordering::Less,
    }
}

/// So many layers in order.
fn each_layer(alloc: Global, count: u64, bytes: &[u8]) -> Result<(Vec<Layer>, &[u8]), LayersRefusal>
    ensures ok { IfOk result (λ x. AreFront x.0.items) }
    ensures parts { IfOk result (λ x. ReadsItem (AreSo IsHeld count) (flat_map layer_bytes)
        x.0.items bytes.now x.1.now) }
    ensures refused { IfErr result (λ why. IsRefusedFor why
        (ReadsNoItem (AreSoManyOfMap count) (flat_map layer_bytes) bytes.now)) }
{
    let mut layers = Vec::new(alloc);
    let mut rest = bytes;
    while (layers.len() as u64) < count {
        let (layer, after) = layer_at(alloc, rest)?;
        if !is_behind(layers.as_slice(), &layer) {
            return Err(LayersRefusal::NotLayers);
        }
        let Ok(()) = layers.push(layer) else {
            return Err(LayersRefusal::Store(Refusal::at(Kind::Memory, 0)));
        };
        rest = after;
    }
    Ok((layers, rest))
}

/// The layers of the map whose count and layers these bytes are.
fn layers_of(alloc: Global, bytes: &[u8]) -> Result<Vec<Layer>, LayersRefusal>
    ensures is_map { IfOk result (λ layers. IsMap layers.items) }
    ensures ok { IfOk result (λ layers. bytes.now ≡ counted_bytes layer_bytes layers.items) }
    ensures refused { IfErr result (λ why. IsRefusedFor why ((layers : List LayerValue)
        → IsMap layers → bytes.now ≡ counted_bytes layer_bytes layers → ⊥)) }
{
    let Some((count, rest)) = u64_at(bytes) else {
        return Err(LayersRefusal::NotLayers);
    };
    let (layers, after) = each_layer(alloc, count, rest)?;
    if count == 0 || !after.is_empty() {
        return Err(LayersRefusal::NotLayers);
    }
    Ok(layers)
}

/// What is behind the mark and the version of layers bytes.
fn head_at(bytes: &[u8]) -> Result<&[u8], LayersRefusal>
    ensures ok { IfOk result (λ rest. bytes.now ≡ layers_mark ++ (version ∷ rest.now)) }
    ensures refused { IfErr result (IsLayersFault bytes.now) }
{
    let Some(rest) = bytes.strip_prefix(&MARK) else {
        return Err(LayersRefusal::NotLayers);
    };
    let Some((version, rest)) = rest.split_first() else {
        return Err(LayersRefusal::NotLayers);
    };
    if *version != VERSION {
        return Err(LayersRefusal::Store(Refusal::at(Kind::Version, 0)));
    }
    Ok(rest)
}

/// The layers of the map with these layers bytes.
fn read_all(alloc: Global, bytes: &[u8]) -> Result<Vec<Layer>, LayersRefusal>
    ensures ok { IfOk result (λ layers. IsLayersBytes bytes.now layers.items) }
    ensures refused { IfErr result (IsLayersRefusal bytes.now) }
{
    let rest = head_at(bytes)?;
    layers_of(alloc, rest)
}
