ghost use Rattle.std.specs.Prelude.{◌≡◌, ◌↔◌, ◌⊎◌, [], map, IsTrue, IfOk, IfErr, IfSome, IfNone, OnOk, OnErr};
ghost use Rattle.std.specs.List.{AllByRecursion};
ghost use Rattle.cue_lattice.specs.Refusal.{memory};
ghost use Rattle.cue_replica.specs.Language.{language};
ghost use Rattle.cue_layers.specs.Join.{IsOnePut, CommonsGrows};
ghost use Rattle.cue_layers.specs.Layers.{IsMap, key, key_of};
ghost use Rattle.cue_layers.specs.Maps.{IsMapOfPuts, IsJoin};
ghost use Rattle.cue_layers.specs.Puts.{HasElement};
ghost use Rattle.cue_layers.specs.Refusals.{piece_of_refusal, IsPutRefusal};

use crate::finding::find;
use crate::joining::{merge, with_ties};
use crate::layer::Layer;
use crate::names::bad_place;
use crate::piece::{Piece, unify_pieces};
use crate::putting;
use crate::refusal::LayersRefusal;
use cue_lattice::{Memory, Refusal, Text};
use cue_policies::LayerKind;
use cue_replica::Replica;
use std::alloc::Global;
use std::marker::Model;
use std::mem;

/// A map of layers: one for each kind and name, in the order of these. The first is the commons, the
/// layer proper with the empty name. Contracts see the list.
#[derive(Drop)]
pub struct Layers {
    entries: Vec<Layer>,
    alloc: Global,
}

impl Model for Layers {
    ghost use Rattle.std.specs.Prelude.{List};
    ghost use Rattle.cue_layers.specs.declared.layer.Layer.{Layer as LayerValue};

    ghost Value = { List LayerValue };

    ghost use Rattle.std.specs.Coded.{codes};
    ghost use Rattle.cue_table.specs.Code.{tree_code};
    ghost use Rattle.cue_layers.specs.Code.{layers_code};

    ghost coded = { layers_code (tree_code (Prim.hlevel codes)) };

    ghost use Rattle.cue_layers.specs.Layers.{IsMap};

    ghost view = { λ layers. layers.entries.items };

    ghost invariant = { λ layers. IsMap layers.entries.items };
}

impl Layers {
    /// The map of a new site: the commons, which says nothing.
    pub fn new(alloc: Global) -> Result<Layers, Memory>
        ensures { IfOk result (IsMapOfPuts []) }
    {
        let mut entries = Vec::new(alloc);
        entries.push(Layer {
            kind: LayerKind::Layer,
            name: Text::from_str(alloc, "")?,
            revision: 0,
            content: Replica::new(alloc),
        })?;
        Ok(Layers { entries, alloc })
    }

    /// The map with these layers.
    pub(crate) fn of_entries(alloc: Global, entries: Vec<Layer>) -> Layers
        requires { IsMap entries.items }
        ensures { result ≡ entries.items }
    {
        Layers { entries, alloc }
    }

    /// Puts what the owner of a name says, in place of what the owner said: the unification of the
    /// pieces. Without pieces it removes the layer, which then says nothing. Answers the revision.
    ///
    /// # Errors
    ///
    /// In this order: `BadName`; the refusal of a piece, with its index; `NotWellFormed`, of a
    /// policy; `RevisionsUsed`. And `Memory`. Nothing has changed then.
    pub fn put(
        &mut self,
        kind: LayerKind,
        name: &str,
        pieces: &[Piece],
    ) -> Result<u64, LayersRefusal>
        ensures ok { IfOk result
            (IsOnePut self.old kind name.now (map piece_of_refusal pieces.now) self.new) }
        ensures refused { IfErr result
            (IsPutRefusal self.old kind name.now (map piece_of_refusal pieces.now)) }
        ensures err { OnErr result (self.new ≡ self.old) }
    {
        if let Some(place) = bad_place(name.as_bytes()) {
            return Err(LayersRefusal::BadName(place as u64));
        }
        let content = unify_pieces(self.alloc, pieces)?;
        if !putting::may_put(kind, &content) {
            return Err(LayersRefusal::NotWellFormed);
        }
        putting::replace(self.alloc, &mut self.entries, kind, name, content)
    }

    /// Removes what the owner of a name says: a put without pieces.
    pub fn remove(&mut self, kind: LayerKind, name: &str) -> Result<u64, LayersRefusal>
        ensures ok { IfOk result (IsOnePut self.old kind name.now [] self.new) }
        ensures refused { IfErr result (IsPutRefusal self.old kind name.now []) }
        ensures err { OnErr result (self.new ≡ self.old) }
    {
        self.put(kind, name, &[])
    }

    /// Accepts a text into the commons.
    pub fn submit(&mut self, text: &str) -> Result<(), Refusal>
        ensures legal { OnOk result (language.IsLegal text.now) }
        ensures ok { OnOk result
            (CommonsGrows self.old (language.text_refuses text.now) self.new) }
        ensures refused { IfErr result (λ why.
            ((why ≡ memory) × ¬ language.IsTextRefusedAtOnce text.now)
            ⊎ language.IsTextFault text.now why) }
        ensures err { OnErr result (self.new ≡ self.old) }
        ensures is_map { IsMap self.new }
    {
        putting::submit(&mut self.entries, text)
    }

    /// Accepts state bytes into the commons.
    pub fn take(&mut self, bytes: &[u8]) -> Result<(), Refusal>
        ensures state { OnOk result (language.IsState bytes.now) }
        ensures ok { OnOk result
            (CommonsGrows self.old (language.state_refuses bytes.now) self.new) }
        ensures refused { IfErr result (λ why.
            ((why ≡ memory) × ¬ language.IsStateRefusedAtOnce bytes.now)
            ⊎ language.IsStateFault bytes.now why) }
        ensures err { OnErr result (self.new ≡ self.old) }
        ensures is_map { IsMap self.new }
    {
        putting::take(&mut self.entries, bytes)
    }

    /// Joins another map to this one: each key has the layer of the greater revision, and where both
    /// have the same one, the unification of both. What one of both alone has is moved.
    pub fn join(&mut self, other: Layers) -> Result<(), Memory>
        ensures ok { OnOk result (IsJoin self.old other self.new) }
        ensures err { OnErr result (self.new ≡ self.old) }
    {
        let Layers { entries, alloc: _ } = other;
        let others = with_ties(self.alloc, self.entries.as_slice(), entries)?;
        let Some(count) = self.entries.len().checked_add(others.len()) else {
            return Err(Memory::too_many(self.entries.len() as u64, others.len() as u64));
        };
        let mut merged = Vec::with_capacity(self.alloc, count)?;
        let own = mem::replace(&mut self.entries, Vec::new(self.alloc));
        merge(own, others, &mut merged);
        self.entries = merged;
        Ok(())
    }

    /// The layers in their order.
    pub fn entries(&self) -> &[Layer]
        ensures layers { result.now ≡ self.now }
        ensures is_map { IsMap self.now }
    {
        self.entries.as_slice()
    }

    /// The layer of a key.
    pub fn get(&self, kind: LayerKind, name: &str) -> Option<&Layer>
        ensures some { IfSome result (λ layer.
            HasElement self.now layer.now × (key_of layer.now ≡ key kind name.now)) }
        ensures none { IfNone result
            (AllByRecursion (λ layer. ¬ (key_of layer ≡ key kind name.now)) self.now) }
    {
        match find(self.entries.as_slice(), kind, name) {
            Ok(at) => Some(&self.entries[at]),
            Err(_) => None,
        }
    }

    /// The same map once more.
    pub fn copy(&self, alloc: Global) -> Result<Layers, Memory>
        ensures { IfOk result (λ copied. copied ≡ self.now) }
    {
        let entries = copy_all(alloc, self.entries.as_slice())?;
        Ok(Layers { entries, alloc })
    }

    /// Whether both maps are the same.
    pub fn same(&self, other: &Layers) -> bool
        ensures { IsTrue result ↔ (self.now ≡ other.now) }
    {
        are_same(self.entries.as_slice(), other.entries.as_slice())
    }
}

/// The same layers once more.
pub fn copy_all(alloc: Global, layers: &[Layer]) -> Result<Vec<Layer>, Memory>
    ensures { IfOk result (λ copied. copied.items ≡ layers.now) }
{
    let mut copied = Vec::with_capacity(alloc, layers.len())?;
    for layer in layers {
        copied.push(layer.copy(alloc)?)?;
    }
    Ok(copied)
}

/// Whether two lists have the same layers.
fn are_same(layers: &[Layer], others: &[Layer]) -> bool
    ensures { IsTrue result ↔ (layers.now ≡ others.now) }
{
    if layers.len() != others.len() {
        return false;
    }
    for (i, layer) in layers.iter().enumerate() {
        if !layer.same(&others[i]) {
            return false;
        }
    }
    true
}
