//! The view of a map of layers.
ghost use Rattle.std.specs.Prelude.{◌≡◌, ◌↔◌, IfErr, IfOk, IsTrue, OnOk};
ghost use Rattle.std.specs.List.{AllByRecursion};
ghost use Rattle.cue_policies.specs.Laws.{IsUnifiedOf};
ghost use Rattle.cue_policies.specs.Rows.{IsViewError};
ghost use Rattle.cue_policies.specs.WellFormed.{IsWellFormed};
ghost use Rattle.cue_policies.specs.declared.kind.LayerKind.TheVariants as kinds;
ghost use Rattle.cue_replica.specs.Language.{language};
ghost use Rattle.cue_layers.specs.Layers.{IsLayer};
ghost use Rattle.cue_layers.specs.View.{parts_of_layers, IsViewOf, IsTooLarge, IsViewRefusal};
ghost use Rattle.cue_layers.specs.Inner.Viewing.{AddsLayer};

use crate::layer::Layer;
use crate::layers::Layers;
use crate::refusal::LayersRefusal;
use cue_lattice::Memory;
use cue_policies::{LayerKind, ViewError, whole_view};
use cue_replica::Replica;
use std::alloc::Global;

/// Whether a layer is of a kind.
fn is_of(layer: &Layer, kind: LayerKind) -> bool
    ensures { IsTrue result ↔ (layer.now.kind ≡ kind) }
{
    match (layer.kind, kind) {
        (LayerKind::Layer, LayerKind::Layer) | (LayerKind::Policy, LayerKind::Policy) => true,
        (LayerKind::Layer, LayerKind::Policy) | (LayerKind::Policy, LayerKind::Layer) => false,
    }
}

/// Unifies the table of a layer into a site, where the layer is of a kind.
fn add_layer(
    alloc: Global,
    site: &mut Replica,
    layer: &Layer,
    kind: LayerKind,
) -> Result<(), Memory>
    requires { language.IsValid site.old }
    ensures valid { language.IsValid site.new }
    ensures adds { OnOk result (AddsLayer kind layer.now site.old site.new) }
{
    if !is_of(layer, kind) {
        return Ok(());
    }
    site.unify(layer.content.copy(alloc)?)?;
    Ok(())
}

/// The unification of the layers of a kind.
fn unified_of(alloc: Global, layers: &[Layer], kind: LayerKind) -> Result<Replica, Memory>
    requires { AllByRecursion IsLayer layers.now }
    ensures valid { IfOk result language.IsValid }
    ensures unified { IfOk result (IsUnifiedOf kind (parts_of_layers layers.now)) }
    ensures formed { IfOk result (λ site. kind ≡ kinds.Policy
        → IsWellFormed (language.table_refuses site)) }
{
    let mut site = Replica::new(alloc);
    for layer in layers {
        add_layer(alloc, &mut site, layer, kind)?;
    }
    Ok(site)
}

/// The view of layers, as a site.
pub fn view_of(alloc: Global, layers: &[Layer], limit: u64) -> Result<Replica, ViewError>
    requires { AllByRecursion IsLayer layers.now }
    ensures view { IfOk result (IsViewOf layers.now) }
    ensures few { OnOk result (¬ IsTooLarge limit layers.now) }
    ensures large { IfErr result (IsViewError (IsTooLarge limit layers.now)) }
{
    let proper = unified_of(alloc, layers, LayerKind::Layer)?;
    let policies = unified_of(alloc, layers, LayerKind::Policy)?;
    let table = whole_view(alloc, proper.table(), policies.table(), limit)?;
    Ok(Replica::of_table(alloc, table))
}

impl Layers {
    /// The view of the map, as a site: the unification of all layers proper, bound by the policies.
    /// It may have far more rows than the map.
    ///
    /// # Errors
    ///
    /// `ViewTooLarge`, where some policy has a pattern and the view has more rows than the limit. The
    /// row of a rest counts once. And `Memory`.
    pub fn view(&self, alloc: Global, limit: u64) -> Result<Replica, LayersRefusal>
        ensures view { IfOk result (IsViewOf self.now) }
        ensures few { OnOk result (¬ IsTooLarge limit self.now) }
        ensures refused { IfErr result (IsViewRefusal limit self.now) }
    {
        Ok(view_of(alloc, self.entries(), limit)?)
    }
}
