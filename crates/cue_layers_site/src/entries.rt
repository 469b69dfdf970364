//! The entries of journals of layers.
ghost use Rattle.std.specs.Prelude.{◌≡◌, ◌++◌, ◌∷◌, [], ℕ, List, map, IfOk, OnOk};
ghost use Rattle.cue_layers.specs.Layers.{IsMap};
ghost use Rattle.cue_layers.specs.Maps.{IsJoin};
ghost use Rattle.cue_layers.specs.declared.layer.Layer.{Layer as LayerValue};
ghost use Rattle.cue_layers_site.specs.Entries.{layers_entry, AreLayersIn};

use cue_layers::{Layers, LayersRefusal};
use std::alloc::Global;

/// The first byte of an entry.
pub(crate) const LAYERS: u8 = 2;

/// The map of an entry.
///
/// # Errors
///
/// `NotLayers`, `Version`, and want of memory.
fn map_in(alloc: Global, entry: &[u8]) -> Result<Layers, LayersRefusal>
    ensures is_map { IfOk result IsMap }
    ensures entry { IfOk result (λ map. entry.now ≡ layers_entry map) }
{
    match entry.split_first() {
        Some((first, bytes)) if *first == LAYERS => Layers::read(alloc, bytes),
        _ => Err(LayersRefusal::NotLayers),
    }
}

/// Joins the map of an entry to another one.
fn add_entry(alloc: Global, joined: &mut Layers, entry: &[u8]) -> Result<(), LayersRefusal>
    ensures { OnOk result ((more : List LayerValue) × IsMap more × (entry.now ≡ layers_entry more)
        × IsJoin joined.old more joined.new) }
{
    let more = map_in(alloc, entry)?;
    joined.join(more)?;
    Ok(())
}

/// Joins the maps of entries to another one.
///
/// # Errors
///
/// Those of `Layers::read`, of which only want of memory comes where the entries are those of a
/// journal.
pub fn add_layers(
    alloc: Global,
    joined: &mut Layers,
    entries: &[Vec<u8>],
) -> Result<(), LayersRefusal>
    ensures { OnOk result ((front layers : List LayerValue) → IsJoin front layers joined.old
        → (more : List LayerValue) × AreLayersIn (map (λ v. v.items) entries.now) more
        × IsJoin front (layers ++ more) joined.new) }
{
    for entry in entries {
        add_entry(alloc, joined, entry)?;
    }
    Ok(())
}

/// How many bytes the snapshot has with which a journal of these entries begins: its first entry; 0
/// where there is none.
pub fn layers_snapshot_in(entries: &[Vec<u8>]) -> usize {
    match entries.first() {
        Some(entry) => entry.len(),
        None => 0,
    }
}
