//! Layers that are put into a map that lies in a file, and removed from it.
ghost use Rattle.std.specs.Prelude.{◌≡◌, ◌⊎◌, IfOk, IfErr, OnOk};
ghost use Rattle.cue_layers.specs.Names.{IsLayerName};
ghost use Rattle.cue_layers.specs.View.{IsTooLarge};
ghost use Rattle.cue_layers.specs.Refusals.{out_of_memory};
ghost use Rattle.cue_program.specs.Files.{texts_of_files};
ghost use Rattle.cue_program.specs.Inputs.{inputs_of};
ghost use Rattle.cue_layers_program.specs.Changes.{order, IsMapChange, IsChangeStop, IsMadeTooLarge};
ghost use Rattle.cue_layers_program.specs.Changes.{IsPutMade, IsPutStop, IsRemovalStop, IsRemoved};

use crate::map_file::{check_name, put_map, read_map};
use crate::stop::LayersStop;
use cue_layers::{LayerKind, Layers, LayersRefusal, Piece};
use cue_program::{FileSystem, site_for};
use std::alloc::Global;
use std::io::Read;

/// Replaces what a name says in the map that lies in a file by the unification of these files, or of
/// what the reader gives, and answers the revision. Where nothing lies there, the map is a new one.
///
/// # Errors
///
/// What is looked at first ends the run: the name (`BadName`); the map (`NotLayers`, `Version`); each
/// file in turn (`RefusedInput`, with its number from 1); whether a policy is well formed
/// (`NotWellFormed`); the revisions (`RevisionsUsed`); and the limit (`ViewTooLarge`, where the view
/// has more rows after the put, and had no more before it). And `Device`, and want of memory. What
/// lay there, a file or nothing, lies there then.
pub fn put<H: AllocGlobal + FileSystem, R: Read>(
    rt: &mut H,
    kind: LayerKind,
    name: &str,
    map: &str,
    files: &[&str],
    limit: u64,
    input: &mut R,
) -> Result<u64, LayersStop>
    ensures put { IfOk result (IsPutMade H.makes H.held
        (order kind name.now map.now (texts_of_files files.now) (R.remaining input.old) limit)
        rt.old rt.new) }
    ensures stop { IfErr result (IsPutStop H.makes H.held
        (order kind name.now map.now (texts_of_files files.now) (R.remaining input.old) limit)
        rt.old rt.new) }
{
    check_name(name)?;
    let before = read_map(rt, map)?;
    let (after, revision) = put_files(&*rt, &before, kind, name, files, input)?;
    check_limit(rt.alloc(), &before, &after, limit)?;
    put_map(rt, map, &after)?;
    Ok(revision)
}

/// Removes what a name says in the map that lies in a file, and answers the revision. Where the name
/// was never put there, nothing is written, and there is none.
///
/// # Errors
///
/// As `put`, of the name, the map and the revisions. And `Device`, and want of memory.
pub fn remove<H: AllocGlobal + FileSystem>(
    rt: &mut H,
    kind: LayerKind,
    name: &str,
    map: &str,
) -> Result<Option<u64>, LayersStop>
    ensures removed { IfOk result
        (IsRemoved H.makes H.held kind name.now map.now rt.old rt.new) }
    ensures stop { IfErr result
        (IsRemovalStop H.makes H.held kind name.now map.now rt.old rt.new) }
{
    check_name(name)?;
    let mut layers = read_map(rt, map)?;
    if layers.get(kind, name).is_none() {
        return Ok(None);
    }
    let revision = layers.remove(kind, name)?;
    put_map(rt, map, &layers)?;
    Ok(Some(revision))
}

/// A map after a put of these files, or of what the reader gives, and the revision of the put.
pub fn put_files<H: AllocGlobal + FileSystem, R: Read>(
    rt: &H,
    before: &Layers,
    kind: LayerKind,
    name: &str,
    files: &[&str],
    input: &mut R,
) -> Result<(Layers, u64), LayersStop>
    requires { IsLayerName name.now }
    ensures changed { IfOk result (λ made. IsMapChange before.now kind name.now
        (inputs_of (H.held rt.now) (texts_of_files files.now) (R.remaining input.old)) made.0 made.1) }
    ensures stop { IfErr result (IsChangeStop before.now kind name.now
        (inputs_of (H.held rt.now) (texts_of_files files.now) (R.remaining input.old))) }
{
    let site = site_for(rt, files, input)?;
    let alloc = rt.alloc();
    let piece = Piece::State(site.state(alloc)?);
    let mut after = before.copy(alloc)?;
    let revision = after.put(kind, name, &[piece])?;
    Ok((after, revision))
}

/// Refuses a map whose view has more rows than the limit, where the view of the map before had no
/// more.
fn check_limit(
    alloc: Global,
    before: &Layers,
    after: &Layers,
    limit: u64,
) -> Result<(), LayersRefusal>
    ensures within { OnOk result (IsTooLarge limit after.now → IsTooLarge limit before.now) }
    ensures refused { IfErr result (λ why. ((why ≡ LayersRefusal.ViewTooLarge)
        × IsMadeTooLarge limit before.now after.now) ⊎ (why ≡ out_of_memory)) }
{
    match after.view(alloc, limit) {
        Ok(_) => Ok(()),
        Err(LayersRefusal::ViewTooLarge) => check_was_too_large(alloc, before, limit),
        Err(why) => Err(why),
    }
}

/// Refuses a map whose view has no more rows than the limit.
fn check_was_too_large(alloc: Global, before: &Layers, limit: u64) -> Result<(), LayersRefusal>
    ensures was { OnOk result (IsTooLarge limit before.now) }
    ensures refused { IfErr result (λ why. ((why ≡ LayersRefusal.ViewTooLarge)
        × (IsTooLarge limit before.now → ⊥)) ⊎ (why ≡ out_of_memory)) }
{
    match before.view(alloc, limit) {
        Ok(_) => Err(LayersRefusal::ViewTooLarge),
        Err(LayersRefusal::ViewTooLarge) => Ok(()),
        Err(why) => Err(why),
    }
}
