//! Maps that are made of a map: one of a layer of it, and one whose commons says more.
ghost use Rattle.std.specs.Prelude.{◌≡◌, ◌<◌, ℕ, List, length, IfOk, IfSome, IfNone};
ghost use Rattle.std.specs.List.{AllByRecursion};
ghost use Rattle.cue_replica.specs.Language.{language};
ghost use Rattle.cue_layers.specs.Extracts.{IsExtract};
ghost use Rattle.cue_layers.specs.Join.{CommonsGrows};
ghost use Rattle.cue_layers.specs.Layers.{IsMap, key, key_of};
ghost use Rattle.cue_layers.specs.Inner.Places.{IsPlace};

use crate::finding::find;
use crate::layer::Layer;
use crate::layers::{Layers, copy_all};
use crate::putting;
use cue_lattice::Memory;
use cue_policies::LayerKind;
use cue_replica::Replica;
use std::alloc::Global;

/// The first of some layers, and the one at an index, where that is another one.
fn copy_two(alloc: Global, layers: &[Layer], at: usize) -> Result<Vec<Layer>, Memory>
    requires is_map { IsMap layers.now }
    requires within { at < length layers.now }
    ensures { (key : List ℕ) → IsPlace layers.now key at
        → IfOk result (λ copied. IsExtract layers.now key copied.items) }
{
    let mut copied = Vec::new(alloc);
    copied.push(layers[0].copy(alloc)?)?;
    if at == 0 {
        return Ok(copied);
    }
    copied.push(layers[at].copy(alloc)?)?;
    Ok(copied)
}

impl Layers {
    /// The layer of a key, with the commons, as a map of its own.
    ///
    /// # Errors
    ///
    /// `Memory`.
    pub fn extract(
        &self,
        alloc: Global,
        kind: LayerKind,
        name: &str,
    ) -> Result<Option<Layers>, Memory>
        ensures some { IfOk result (λ found. IfSome found
            (IsExtract self.now (key kind name.now))) }
        ensures none { IfOk result (λ found. IfNone found
            (AllByRecursion (λ layer. ¬ (key_of layer ≡ key kind name.now)) self.now)) }
    {
        match find(self.entries(), kind, name) {
            Ok(at) => {
                let entries = copy_two(alloc, self.entries(), at)?;
                Ok(Some(Layers::of_entries(alloc, entries)))
            }
            Err(_) => Ok(None),
        }
    }

    /// The map with what a site says in its commons, beside what the commons says.
    ///
    /// # Errors
    ///
    /// `Memory`.
    pub fn with_commons(&self, alloc: Global, site: &Replica) -> Result<Layers, Memory>
        ensures { IfOk result (CommonsGrows self.now (language.table_refuses site.now)) }
    {
        let mut entries = copy_all(alloc, self.entries())?;
        putting::unify(&mut entries, site.copy(alloc)?)?;
        Ok(Layers::of_entries(alloc, entries))
    }
}
