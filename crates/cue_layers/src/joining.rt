//! Two lists of layers in order, which are joined.
ghost use Rattle.std.specs.Prelude.{◌≡◌, ◌⊎◌, ◌+◌, ◌<◌, ◌≤◌, [], length, vec_len, vec_capacity, IfOk, MatchOption};
ghost use Rattle.cue_lattice.specs.World.{AllAlong};
ghost use Rattle.cue_layers.specs.Layers.{IsInOrder};
ghost use Rattle.cue_layers.specs.Inner.Merging.{IsTied, IsTiedWith, HaveTies, IsLastOrder, TakesLast, AreEmpty, IsMerged};

use crate::finding::find;
use crate::layer::Layer;
use cue_lattice::Memory;
use std::alloc::Global;
use std::cmp::Ordering;

/// The layer with what another one says at the same revision.
fn unify_tie(alloc: Global, layer: &Layer, mut other: Layer) -> Result<Layer, Memory>
    ensures { IfOk result (IsTiedWith layer.now other) }
{
    if layer.revision != other.revision {
        return Ok(other);
    }
    other.content.unify(layer.content.copy(alloc)?)?;
    Ok(other)
}

/// The layer with what a list says of its key at the same revision.
fn with_tie(alloc: Global, own: &[Layer], other: Layer) -> Result<Layer, Memory>
    requires { IsInOrder own.now }
    ensures { IfOk result (IsTied own.now other) }
{
    match find(own, other.kind, other.name.as_str()) {
        Ok(at) => unify_tie(alloc, &own[at], other),
        Err(_) => Ok(other),
    }
}

/// The layers of a list, each with what another list says of its key at the same revision.
pub fn with_ties(alloc: Global, own: &[Layer], others: Vec<Layer>) -> Result<Vec<Layer>, Memory>
    requires { IsInOrder own.now }
    ensures { IfOk result (λ tied. AllAlong (IsTied own.now) others.items tied.items) }
{
    let mut tied = Vec::with_capacity(alloc, others.len())?;
    for other in others {
        tied.push(with_tie(alloc, own, other)?)?;
    }
    Ok(tied)
}

/// How the last layers of two lists compare. A list without any comes first.
fn last_order(own: &[Layer], others: &[Layer]) -> Ordering
    ensures { IsLastOrder own.now others.now result }
{
    let Some(layer) = own.last() else {
        return Ordering::Less;
    };
    let Some(other) = others.last() else {
        return Ordering::Greater;
    };
    layer.compare_key(other.kind, other.name.as_str())
}

/// The layer with the greater revision, and the second one where both have the same.
fn later_revision(layer: Layer, other: Layer) -> Layer
    ensures { ((result ≡ layer) × (other.revision < layer.revision))
        ⊎ ((result ≡ other) × (layer.revision ≤ other.revision)) }
{
    if other.revision < layer.revision {
        layer
    } else {
        other
    }
}

/// Takes the last layer from two lists in order. Of two with one key it is the one with the greater
/// revision, and the second list's where both have the same; the other one is dropped.
fn take_last(own: &mut Vec<Layer>, others: &mut Vec<Layer>) -> Option<Layer>
    requires own { IsInOrder own.old.items }
    requires others { IsInOrder others.old.items }
    requires ties { HaveTies own.old.items others.old.items }
    ensures { MatchOption result (AreEmpty own.old.items others.old.items)
        (λ layer. TakesLast own.old.items others.old.items layer own.new.items others.new.items) }
{
    match last_order(own.as_slice(), others.as_slice()) {
        Ordering::Less => others.pop(),
        Ordering::Greater => own.pop(),
        Ordering::Equal => Some(later_revision(own.pop()?, others.pop()?)),
    }
}

/// Merges two lists in order into an empty one, which has room for both.
pub fn merge(mut own: Vec<Layer>, mut others: Vec<Layer>, merged: &mut Vec<Layer>)
    requires own { IsInOrder own.items }
    requires others { IsInOrder others.items }
    requires ties { HaveTies own.items others.items }
    requires empty { merged.old.items ≡ [] }
    requires room { vec_len own + vec_len others ≤ vec_capacity merged.old }
    ensures { IsMerged own.items others.items merged.new.items }
{
    while let Some(layer) = take_last(&mut own, &mut others) {
        merged.push(layer).unwrap();
    }
    merged.reverse();
}
