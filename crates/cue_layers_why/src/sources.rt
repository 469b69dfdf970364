//! The layers of a map as sources.
ghost use Rattle.std.specs.Prelude.{IfOk};
ghost use Rattle.cue_layers_why.specs.Inner.Pairs.{AreSources, IsSource};

use cue_lattice::Memory;
use cue_layers::Layer;
use cue_why::LayerSource;
use std::alloc::Global;

/// Each layer of a list, as a source.
pub(crate) fn sources_of<'a>(
    alloc: Global,
    layers: &'a [Layer],
) -> Result<Vec<LayerSource<'a>>, Memory>
    ensures { IfOk result (λ sources. AreSources layers.now sources.items) }
{
    let mut sources = Vec::with_capacity(alloc, layers.len())?;
    for layer in layers {
        sources.push(source_of(alloc, layer)?)?;
    }
    Ok(sources)
}

/// A layer as a source.
fn source_of<'a>(alloc: Global, layer: &'a Layer) -> Result<LayerSource<'a>, Memory>
    ensures { IfOk result (IsSource layer.now) }
{
    Ok(LayerSource {
        kind: layer.kind,
        name: layer.name.copy(alloc)?,
        table: layer.content.table(),
    })
}
