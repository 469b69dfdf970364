//! Layers that are named, with what they wrote.
ghost use Rattle.std.specs.Prelude.{◌≡◌, ◌≤◌, map, All, IfOk};
ghost use Rattle.cue_lattice.specs.Limits.{step_limit};
ghost use Rattle.cue_row.specs.Steps.{step_of};
ghost use Rattle.cue_table.specs.Depth.{tree_depth};
ghost use Rattle.cue_why.specs.Inner.Saying.{pair_of};
ghost use Rattle.cue_layers_why.specs.Inner.Pairs.{AreNamedSources, IsNamedSource};
ghost use Rattle.cue_layers_why.specs.Why.{part_pair};

use cue_lattice::{Memory, Text};
use cue_policies::LayerKind;
use cue_report::ReportPlace;
use cue_row::{Row, Step};
use cue_table::Table;
use cue_why::{LayerSource, WrittenPart, shown_parts};
use std::alloc::Global;

/// What a layer wrote at a path, which is written as the layer wrote it.
#[derive(Drop)]
pub struct LayerPart {
    pub written: ReportPlace,
    pub table: Table<Row>,
}

/// A layer or a policy that is named for a path.
#[derive(Drop)]
pub struct NamedLayer {
    pub kind: LayerKind,
    /// The name; that of the commons is empty.
    pub name: Text,
    /// Its parts that refuse something, at the longest beginning of the path at which it has some, in
    /// the order of their paths as it wrote them. Where the label alone is reported, of the path
    /// without it.
    pub parts: Vec<LayerPart>,
}

/// Each source, named for a path.
pub(crate) fn name_layers(
    alloc: Global,
    sources: Vec<LayerSource>,
    path: &[Step],
) -> Result<Vec<NamedLayer>, Memory>
    ensures { IfOk result (λ named.
        AreNamedSources (map step_of path.now) sources.entry.items named.items) }
{
    let mut named = Vec::with_capacity(alloc, sources.len())?;
    for source in sources {
        named.push(name_layer(alloc, source, path)?)?;
    }
    Ok(named)
}

/// A source, named for a path.
fn name_layer(alloc: Global, source: LayerSource, path: &[Step]) -> Result<NamedLayer, Memory>
    ensures { IfOk result (IsNamedSource (map step_of path.now) source.entry) }
{
    let _root = source.table.root();
    let parts = layer_parts(alloc, shown_parts(alloc, &source, path)?)?;
    let LayerSource {
        kind,
        name,
        table: _,
    } = source;
    Ok(NamedLayer { kind, name, parts })
}

/// The parts with tables of their own.
fn layer_parts(alloc: Global, parts: Vec<WrittenPart>) -> Result<Vec<LayerPart>, Memory>
    requires { All (λ part. tree_depth part.branch ≤ step_limit) parts.items }
    ensures { IfOk result (λ own. map part_pair own.items ≡ map pair_of parts.entry.items) }
{
    let mut own = Vec::with_capacity(alloc, parts.len())?;
    for part in parts {
        own.push(layer_part(alloc, part)?)?;
    }
    Ok(own)
}

/// A part with a table of its own.
fn layer_part(alloc: Global, part: WrittenPart) -> Result<LayerPart, Memory>
    requires { tree_depth part.branch ≤ step_limit }
    ensures { IfOk result (λ own. part_pair own ≡ pair_of part.entry) }
{
    let table = part.branch.to_table(alloc)?;
    let WrittenPart { written, branch: _ } = part;
    Ok(LayerPart { written, table })
}
