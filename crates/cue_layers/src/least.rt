//! Layers that alone make a view too large.
ghost use Rattle.std.specs.Prelude.{◌↔◌, ◌<◌, length, IsTrue, IfOk, IfSome, IfNone};
ghost use Rattle.std.specs.List.{AllByRecursion};
ghost use Rattle.cue_layers.specs.Layers.{IsLayer};
ghost use Rattle.cue_layers.specs.Least.{IsLeastTooLarge};
ghost use Rattle.cue_layers.specs.View.{IsTooLarge};
ghost use Rattle.cue_layers.specs.Inner.Least.{IsPass, IsRound};

use crate::layer::Layer;
use crate::layers::{Layers, copy_all};
use crate::view::view_of;
use cue_lattice::Memory;
use cue_policies::ViewError;
use std::alloc::Global;

impl Layers {
    /// Layers and policies of the map, in its order, that alone make a view with more rows than the
    /// limit, and of which none can be left out. There are none where the view of the map has no more.
    ///
    /// It makes a view, up to the limit, for each of some parts of the map: a few for each layer that
    /// is answered, times the number of times that the map can be halved.
    ///
    /// # Errors
    ///
    /// `Memory`.
    pub fn least_too_large(&self, alloc: Global, limit: u64) -> Result<Option<Vec<Layer>>, Memory>
        ensures some { IfOk result (λ found. IfSome found
            (λ least. IsLeastTooLarge limit self.now least.items)) }
        ensures none { IfOk result (λ found. IfNone found (¬ IsTooLarge limit self.now)) }
    {
        if !is_too_large(alloc, self.entries(), limit)? {
            return Ok(None);
        }
        let layers = copy_all(alloc, self.entries())?;
        Ok(Some(leave_out(alloc, layers, limit)?))
    }
}

/// Whether the view of layers has more rows than the limit.
fn is_too_large(alloc: Global, layers: &[Layer], limit: u64) -> Result<bool, Memory>
    requires { AllByRecursion IsLayer layers.now }
    ensures { IfOk result (λ large. IsTrue large ↔ IsTooLarge limit layers.now) }
{
    match view_of(alloc, layers, limit) {
        Ok(_) => Ok(false),
        Err(ViewError::TooLarge) => Ok(true),
        Err(ViewError::Memory(memory)) => Err(memory),
    }
}

/// Leaves out layers while the view of the others is too large: many at once first, and then one
/// after the other, again until none can be.
fn leave_out(alloc: Global, layers: Vec<Layer>, limit: u64) -> Result<Vec<Layer>, Memory>
    requires layers { AllByRecursion IsLayer layers.items }
    requires large { IsTooLarge limit layers.items }
    ensures { IfOk result (λ least. IsLeastTooLarge limit layers.items least.items) }
{
    let mut size = layers.len() / 2;
    let mut kept = layers;
    'sizes: while 1 < size {
        kept = leave_out_each(alloc, kept, size, limit)?;
        size /= 2;
    }
    let least = leave_out_singly(alloc, kept, limit)?;
    Ok(least)
}

/// Leaves out one layer after the other, again until none can be.
fn leave_out_singly(alloc: Global, layers: Vec<Layer>, limit: u64) -> Result<Vec<Layer>, Memory>
    requires layers { AllByRecursion IsLayer layers.items }
    requires large { IsTooLarge limit layers.items }
    ensures { IfOk result (λ least. IsLeastTooLarge limit layers.items least.items) }
{
    let mut kept = layers;
    'rounds: loop {
        let before = kept.len();
        kept = leave_out_each(alloc, kept, 1, limit)?;
        if kept.len() == before {
            return Ok(kept);
        }
    }
}

/// Leaves out so many layers that follow one another, at each place where the view of the others stays
/// too large.
fn leave_out_each(
    alloc: Global,
    layers: Vec<Layer>,
    size: usize,
    limit: u64,
) -> Result<Vec<Layer>, Memory>
    requires layers { AllByRecursion IsLayer layers.items }
    requires large { IsTooLarge limit layers.items }
    requires some { 0 < size }
    ensures kept { IfOk result (λ kept. IsPass limit size layers.items kept.items) }
{
    let mut kept = layers;
    let mut at = 0;
    'places: while at < kept.len() {
        let before = kept.len();
        kept = leave_out_at(alloc, kept, at, size, limit)?;
        if kept.len() == before {
            at += size.min(before - at);
        }
    }
    Ok(kept)
}

/// Leaves out so many layers from an index on, where the view of the others stays too large.
fn leave_out_at(
    alloc: Global,
    layers: Vec<Layer>,
    at: usize,
    size: usize,
    limit: u64,
) -> Result<Vec<Layer>, Memory>
    requires layers { AllByRecursion IsLayer layers.items }
    requires large { IsTooLarge limit layers.items }
    requires within { at < length layers.items }
    requires some { 0 < size }
    ensures { IfOk result (λ kept. IsRound limit at size layers.items kept.items) }
{
    let mut kept = layers;
    let mut left_out = kept.split_off(at)?;
    let mut back = left_out.split_off(size.min(left_out.len()))?;
    let count = back.len();
    kept.append(&mut back)?;
    if is_too_large(alloc, &kept, limit)? {
        return Ok(kept);
    }
    let mut back = kept.split_off(kept.len() - count)?;
    kept.append(&mut left_out)?;
    kept.append(&mut back)?;
    Ok(kept)
}
