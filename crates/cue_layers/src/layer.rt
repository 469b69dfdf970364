ghost use Rattle.std.specs.Prelude.{◌≡◌, ◌↔◌, IfOk, IsTrue};
ghost use Rattle.std.specs.Ordering.{nat_cmp};
ghost use Rattle.std.specs.Cmp.Lexicographic.{slice_cmp};
ghost use Rattle.cue_layers.specs.Layers.{key, key_of};

use cue_lattice::{Memory, Text};
use cue_policies::LayerKind;
use cue_replica::Replica;
use std::alloc::Global;
use std::cmp::Ordering;

/// What one owner says: a kind and a name, which are its key, the revision of the put, and a site
/// that holds its table. A layer that was removed has the table of a new site.
#[derive(Drop)]
pub struct Layer {
    pub kind: LayerKind,
    pub name: Text,
    pub revision: u64,
    pub content: Replica,
}

impl Layer {
    /// How the key of this layer compares with another key: by the kind, then by the bytes of the
    /// name.
    pub fn compare_key(&self, kind: LayerKind, name: &str) -> Ordering
        ensures { result ≡ slice_cmp nat_cmp (key_of self.now) (key kind name.now) }
    {
        match (self.kind, kind) {
            (LayerKind::Layer, LayerKind::Policy) => Ordering::Less,
            (LayerKind::Policy, LayerKind::Layer) => Ordering::Greater,
            (LayerKind::Layer, LayerKind::Layer) | (LayerKind::Policy, LayerKind::Policy) => {
                self.name.as_str().cmp(name)
            }
        }
    }

    /// The same layer once more.
    pub fn copy(&self, alloc: Global) -> Result<Layer, Memory>
        ensures { IfOk result (λ copied. copied ≡ self.now) }
    {
        Ok(Layer {
            kind: self.kind,
            name: self.name.copy(alloc)?,
            revision: self.revision,
            content: self.content.copy(alloc)?,
        })
    }

    /// Whether both layers are the same.
    pub fn same(&self, other: &Layer) -> bool
        ensures { IsTrue result ↔ (self.now ≡ other.now) }
    {
        self.kind == other.kind
            && self.revision == other.revision
            && self.name.same(&other.name)
            && self.content.same(&other.content)
    }
}
