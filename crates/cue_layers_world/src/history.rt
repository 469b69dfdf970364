//! What a list of events comes to.
ghost use Rattle.std.specs.Prelude.{[], IfOk, replicate};
ghost use Rattle.cue_lattice.specs.World.{AllAlong};
ghost use Rattle.cue_layers_world.specs.Sites.{IsSiteOf, IsMessageOfMap, AreEqualMaps, AreSitesOfEqualViews};
ghost use Rattle.cue_layers_world.specs.World.{LayerSets, start_layers, LayersReach};

use crate::steps::happen;
use crate::world::{LayersEvent, LayersWorld};
use cue_layers::{Layers, Memory};
use std::alloc::Global;

/// The maps of new sites.
fn new_sites(alloc: Global, count: usize) -> Result<Vec<Layers>, Memory>
    ensures { IfOk result (λ sites. AllAlong IsSiteOf sites.items (replicate count [])) }
{
    let mut sites = Vec::with_capacity(alloc, count)?;
    for _ in 0..count {
        sites.push(Layers::new(alloc)?)?;
    }
    Ok(sites)
}

/// What a list of events comes to among this many new sites, whatever the events are: layers put
/// and removed, texts submitted, maps sent, messages delivered late, repeatedly, out of order or
/// never, and bytes from outside.
///
/// An event that finds no memory is refused and changes nothing. `Memory` is answered, and no
/// world, only where the lists of the world couldn't be made.
pub fn run(alloc: Global, count: usize, events: &[LayersEvent]) -> Result<LayersWorld, Memory>
    // Each event has an outcome that the definition of a world allows at its moment: with these
    // outcomes the events reach some sets of puts.
    ensures outcomes { IfOk result (λ world.
        (sets : LayerSets) × LayersReach (start_layers count) events.now world.outcomes.items sets) }

    // Each site has the map of exactly the puts that it has accepted, directly or inside messages.
    ensures maps { IfOk result (λ world. (sets : LayerSets)
        → LayersReach (start_layers count) events.now world.outcomes.items sets
        → AllAlong IsSiteOf world.sites.items sets.sites) }

    // Each message has the layers bytes of its sender's map of the moment when it was sent.
    ensures messages { IfOk result (λ world. (sets : LayerSets)
        → LayersReach (start_layers count) events.now world.outcomes.items sets
        → AllAlong IsMessageOfMap world.messages.items sets.messages) }

    // Sites with the same set of puts have equal maps.
    ensures equal { IfOk result (λ world. (sets : LayerSets)
        → LayersReach (start_layers count) events.now world.outcomes.items sets
        → AreEqualMaps world.sites.items sets.sites) }

    // And they have equal layers bytes and, with one limit, equal views, with the same conflicts,
    // the same that is incomplete, the same export and the same printed text.
    ensures views { IfOk result (λ world. (sets : LayerSets)
        → LayersReach (start_layers count) events.now world.outcomes.items sets
        → AreSitesOfEqualViews world.sites.items sets.sites) }
{
    let mut sites = new_sites(alloc, count)?;
    let mut messages = Vec::with_capacity(alloc, events.len())?;
    let mut outcomes = Vec::with_capacity(alloc, events.len())?;
    for event in events {
        let outcome = happen(alloc, &mut sites, &mut messages, event);
        outcomes.push(outcome).unwrap();
    }
    Ok(LayersWorld {
        sites,
        messages,
        outcomes,
    })
}
