//! What a put and what goes into the commons do to a list of layers.
ghost use Rattle.std.specs.Prelude.{◌≡◌, ◌⊎◌, ◌+◌, ◌<◌, ◌≤◌, ◌^◌, List, [], ◌∷◌, length, insert, IsTrue, ◌↔◌, IfOk, IfErr, OnOk, OnErr};
ghost use Rattle.cue_lattice.specs.Refusal.{memory};
ghost use Rattle.cue_policies.specs.WellFormed.{IsWellFormed};
ghost use Rattle.cue_replica.specs.Language.{language};
ghost use Rattle.cue_layers.specs.Join.{CommonsGrows};
ghost use Rattle.cue_layers.specs.Layers.{key, IsMap};
ghost use Rattle.cue_layers.specs.Names.{IsLayerName};
ghost use Rattle.cue_layers.specs.Puts.{of_layers, IsUsedUp, last_revision};
ghost use Rattle.cue_layers.specs.Refusals.{out_of_memory};
ghost use Rattle.cue_layers.specs.Inner.Putting.{MayPut, Replaces};

use crate::finding::find;
use crate::layer::Layer;
use crate::refusal::LayersRefusal;
use cue_lattice::{Memory, Refusal, Text};
use cue_policies::{LayerKind, is_well_formed};
use cue_replica::Replica;
use std::alloc::Global;

/// Whether a layer of a kind may have a table: a policy is well formed.
pub fn may_put(kind: LayerKind, content: &Replica) -> bool
    ensures { IsTrue result
        ↔ (kind ≡ LayerKind.Policy → IsWellFormed (language.table_refuses content.now)) }
{
    match kind {
        LayerKind::Layer => true,
        LayerKind::Policy => is_well_formed(content.table()),
    }
}

/// Puts a table in place of what a name says, and answers the revision.
pub fn replace(
    alloc: Global,
    entries: &mut Vec<Layer>,
    kind: LayerKind,
    name: &str,
    content: Replica,
) -> Result<u64, LayersRefusal>
    requires is_map { IsMap entries.old.items }
    requires is_name { IsLayerName name.now }
    requires may_put { MayPut kind content }
    ensures ok { IfOk result
        (Replaces entries.old.items kind name.now content entries.new.items) }
    ensures refused { IfErr result (λ why.
        ((why ≡ LayersRefusal.RevisionsUsed) × IsUsedUp of_layers entries.old.items (key kind name.now))
        ⊎ (why ≡ out_of_memory)) }
    ensures err { OnErr result (entries.new.items ≡ entries.old.items) }
{
    match find(entries.as_slice(), kind, name) {
        Ok(at) => put_over(&mut entries[at], content),
        Err(at) => {
            let name = Text::from_str(alloc, name)?;
            insert(
                entries,
                at,
                Layer {
                    kind,
                    name,
                    revision: 1,
                    content,
                },
            )?;
            Ok(1)
        }
    }
}

/// Puts a table in place of that of a layer, and answers the next revision.
fn put_over(layer: &mut Layer, content: Replica) -> Result<u64, LayersRefusal>
    ensures ok { IfOk result (λ revision. (layer.new
        ≡ record layer.old { revision = revision; content = content })
        × (revision ≡ layer.old.revision + 1) × (revision < 2 ^ 64)) }
    ensures refused { IfErr result (λ why. (why ≡ LayersRefusal.RevisionsUsed)
        × (layer.old.revision ≡ last_revision)) }
    ensures err { OnErr result (layer.new ≡ layer.old) }
{
    let Some(revision) = layer.revision.checked_add(1) else {
        return Err(LayersRefusal::RevisionsUsed);
    };
    layer.revision = revision;
    layer.content = content;
    Ok(revision)
}

/// Puts a layer at an index of a list.
fn insert(entries: &mut Vec<Layer>, at: usize, layer: Layer) -> Result<(), Memory>
    requires { at ≤ length entries.old.items }
    ensures ok { OnOk result (entries.new.items ≡ insert entries.old.items at layer) }
    ensures err { OnErr result (entries.new.items ≡ entries.old.items) }
{
    entries.insert(at, layer)?;
    Ok(())
}

/// Accepts a text into the commons.
pub fn submit(entries: &mut Vec<Layer>, text: &str) -> Result<(), Refusal>
    requires { IsMap entries.old.items }
    ensures legal { OnOk result (language.IsLegal text.now) }
    ensures ok { OnOk result
        (CommonsGrows entries.old.items (language.text_refuses text.now) entries.new.items) }
    ensures refused { IfErr result (λ why.
        ((why ≡ memory) × ¬ language.IsTextRefusedAtOnce text.now)
        ⊎ language.IsTextFault text.now why) }
    ensures err { OnErr result (entries.new.items ≡ entries.old.items) }
    ensures is_map { IsMap entries.new.items }
{
    entries[0].content.submit(text)
}

/// Accepts state bytes into the commons.
pub fn take(entries: &mut Vec<Layer>, bytes: &[u8]) -> Result<(), Refusal>
    requires { IsMap entries.old.items }
    ensures state { OnOk result (language.IsState bytes.now) }
    ensures ok { OnOk result
        (CommonsGrows entries.old.items (language.state_refuses bytes.now) entries.new.items) }
    ensures refused { IfErr result (λ why.
        ((why ≡ memory) × ¬ language.IsStateRefusedAtOnce bytes.now)
        ⊎ language.IsStateFault bytes.now why) }
    ensures err { OnErr result (entries.new.items ≡ entries.old.items) }
    ensures is_map { IsMap entries.new.items }
{
    entries[0].content.take(bytes)
}

/// Unifies a site into the commons.
pub fn unify(entries: &mut Vec<Layer>, site: Replica) -> Result<(), Memory>
    requires { IsMap entries.old.items }
    ensures ok { OnOk result
        (CommonsGrows entries.old.items (language.table_refuses site) entries.new.items) }
    ensures err { OnErr result (entries.new.items ≡ entries.old.items) }
    ensures is_map { IsMap entries.new.items }
{
    entries[0].content.unify(site)
}
