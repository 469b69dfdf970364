//! Layers bytes, written.
ghost use Rattle.std.specs.Prelude.{◌≡◌, ◌++◌, ◌∷◌, IfOk, OnOk};
ghost use Rattle.std.specs.Int.{w64, to_be_bytes};
ghost use Rattle.std.specs.List.{flat_map, AllByRecursion};
ghost use Rattle.cue_codec.specs.Parts.{text_bytes};
ghost use Rattle.cue_codec.specs.Reading.{IsShort};
ghost use Rattle.cue_layers.specs.Bytes.{layers_mark, version, block_bytes, layer_bytes, layers_bytes};
ghost use Rattle.cue_layers.specs.Layers.{IsMap, kind_byte};
ghost use Rattle.cue_layers.specs.Inner.Reading.{HasShortName};

use crate::layer::Layer;
use crate::layers::Layers;
use cue_lattice::Memory;
use cue_policies::LayerKind;
use std::alloc::Global;

/// How all layers bytes begin.
pub const MARK: [u8; 4] = [0xfe, 0x4c, 0x41, 0x59];

/// The version of layers bytes.
pub const VERSION: u8 = 1;

impl Layers {
    /// The layers bytes of the map.
    pub fn write(&self, alloc: Global) -> Result<Vec<u8>, Memory>
        ensures { IfOk result (λ bytes. bytes.items ≡ layers_bytes self.now) }
    {
        write_all(alloc, self.entries())
    }
}

/// The byte of a kind.
pub fn byte_of(kind: LayerKind) -> u8
    ensures { result ≡ kind_byte kind }
{
    match kind {
        LayerKind::Layer => 0,
        LayerKind::Policy => 1,
    }
}

/// Puts a name behind other bytes.
#[tactic(auto, unfolding(cue_codec::specs::Parts::text_bytes))]
pub fn put_name(out: &mut Vec<u8>, name: &[u8]) -> Result<(), Memory>
    requires { IsShort name.now }
    ensures { OnOk result (out.new.items ≡ out.old.items ++ text_bytes name.now) }
{
    out.extend_from_slice(&(name.len() as u16).to_be_bytes())?;
    out.extend_from_slice(name)?;
    Ok(())
}

/// Puts state bytes behind other bytes.
#[tactic(auto, unfolding(crate::specs::Bytes::block_bytes))]
fn put_block(out: &mut Vec<u8>, bytes: &[u8]) -> Result<(), Memory>
    ensures { OnOk result (out.new.items ≡ out.old.items ++ block_bytes bytes.now) }
{
    out.extend_from_slice(&(bytes.len() as u64).to_be_bytes())?;
    out.extend_from_slice(bytes)?;
    Ok(())
}

/// Puts the bytes of a layer behind others.
#[tactic(auto, unfolding(crate::specs::Bytes::layer_bytes))]
fn put_layer(alloc: Global, out: &mut Vec<u8>, layer: &Layer) -> Result<(), Memory>
    requires { HasShortName layer.now }
    ensures { OnOk result (out.new.items ≡ out.old.items ++ layer_bytes layer.now) }
{
    out.push(byte_of(layer.kind))?;
    put_name(out, layer.name.as_bytes())?;
    out.extend_from_slice(&layer.revision.to_be_bytes())?;
    let state = layer.content.state(alloc)?;
    put_block(out, state.as_slice())
}

/// Puts the bytes of each layer behind others.
fn put_each(alloc: Global, out: &mut Vec<u8>, layers: &[Layer]) -> Result<(), Memory>
    requires { AllByRecursion HasShortName layers.now }
    ensures { OnOk result (out.new.items ≡ out.old.items ++ flat_map layer_bytes layers.now) }
{
    for layer in layers {
        put_layer(alloc, out, layer)?;
    }
    Ok(())
}

/// Puts the mark, the version and the count behind other bytes.
pub fn put_head(out: &mut Vec<u8>, count: u64) -> Result<(), Memory>
    ensures { OnOk result (out.new.items ≡ out.old.items
        ++ (layers_mark ++ (version ∷ to_be_bytes w64 count))) }
{
    out.extend_from_slice(&MARK)?;
    out.push(VERSION)?;
    out.extend_from_slice(&count.to_be_bytes())?;
    Ok(())
}

/// The layers bytes of a map.
#[tactic(auto, unfolding(cue_codec::specs::Parts::counted_bytes))]
fn write_all(alloc: Global, layers: &[Layer]) -> Result<Vec<u8>, Memory>
    requires { IsMap layers.now }
    ensures { IfOk result (λ bytes. bytes.items ≡ layers_bytes layers.now) }
{
    let mut out = Vec::new(alloc);
    put_head(&mut out, layers.len() as u64)?;
    put_each(alloc, &mut out, layers)?;
    Ok(out)
}
