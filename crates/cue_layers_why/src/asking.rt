//! Which layers of a map make what is reported at a path.
ghost use Rattle.std.specs.Prelude.{◌≡◌, [], map, IfOk};
ghost use Rattle.cue_row.specs.Steps.{step_of};
ghost use Rattle.cue_why.specs.Reported.{IsReported};
ghost use Rattle.cue_layers_why.specs.Why.{IsWhy, LayersRefuse};
ghost use Rattle.cue_layers_why.specs.Inner.Pairs.{IsFront};

use crate::naming::{NamedLayer, name_layers};
use crate::sources::sources_of;
use cue_lattice::Memory;
use cue_layers::Layers;
use cue_row::Step;
use cue_why::makers;
use std::alloc::Global;

/// The layers that make what the report of the view of a map says at a path, in the order of the
/// map: a least list, of which none can be left out. Where nothing is reported at the path there are
/// none.
///
/// # Errors
///
/// `Memory`. However many rows the view would have, this costs what the layers have along the path.
pub fn why(alloc: Global, layers: &Layers, path: &[Step]) -> Result<Vec<NamedLayer>, Memory>
    ensures none { ¬ IsReported (LayersRefuse layers.now) (map step_of path.now)
        → IfOk result (λ named. named.items ≡ []) }
    ensures some { IsReported (LayersRefuse layers.now) (map step_of path.now)
        → IfOk result (λ named. IsWhy layers.now (map step_of path.now) named.items) }
{
    let made = makers(alloc, sources_of(alloc, layers.entries())?, path)?;
    let place = shown_path(path, made.of_label);
    name_layers(alloc, made.sources, place)
}

/// A path, or the path without its last step.
fn shown_path(path: &[Step], of_label: bool) -> &[Step]
    ensures { IsFront (map step_of path.now) of_label (map step_of result.now) }
{
    if !of_label {
        return path;
    }
    match path.split_last() {
        None => path,
        Some((_step, front)) => front,
    }
}
