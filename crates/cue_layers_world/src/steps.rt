//! What each kind of event does to the sites and the messages of a world.
ghost use Rattle.std.specs.Prelude.{◌≡◌, ◌<◌, ◌↔◌, List, map, IsTrue, IfErr, OnOk, OnErr, vec_len, vec_capacity};
ghost use Rattle.cue_layers.specs.Bytes.{IsLayersBytes, IsLayersRefusal};
ghost use Rattle.cue_layers.specs.Maps.{IsJoin};
ghost use Rattle.cue_layers.specs.Refusals.{piece_of_refusal};
ghost use Rattle.cue_layers.specs.declared.layer.Layer.{Layer};
ghost use Rattle.cue_layers_world.specs.World.{LayerSets, IsMarked};
ghost use Rattle.cue_layers_world.specs.Inner.Steps.{HappensAtMap, PutsLayer, SubmitsToMap, TakesIntoMap, Joins, TakesForeign, SendsMap, DeliversMap};
ghost use Rattle.cue_layers_world.specs.Inner.Steps.{MapsAgree, StepsMaps, KeepsRoom};

use crate::world::{LayersEvent, LayersOutcome};
use cue_layers::{LayerKind, Layers, LayersRefusal, Piece};
use std::alloc::Global;

/// How all layers bytes begin.
const MARK: [u8; 4] = [0xfe, 0x4c, 0x41, 0x59];

/// Puts what a name says at a site.
fn put_at(
    sites: &mut [Layers],
    site: usize,
    kind: LayerKind,
    name: &str,
    pieces: &[Piece],
) -> LayersOutcome
    ensures { HappensAtMap (PutsLayer kind name.now (map piece_of_refusal pieces.now)) sites.old site sites.new result }
{
    if site >= sites.len() {
        return LayersOutcome::NoSuch;
    }
    match sites[site].put(kind, name, pieces) {
        Ok(revision) => LayersOutcome::Put(revision),
        Err(why) => LayersOutcome::Refused(why),
    }
}

/// Puts a text into the commons of a site.
fn submit_at(sites: &mut [Layers], site: usize, text: &str) -> LayersOutcome
    ensures { HappensAtMap (SubmitsToMap text.now) sites.old site sites.new result }
{
    if site >= sites.len() {
        return LayersOutcome::NoSuch;
    }
    match sites[site].submit(text) {
        Ok(()) => LayersOutcome::Accepted,
        Err(why) => LayersOutcome::Refused(LayersRefusal::Store(why)),
    }
}

/// Puts state bytes into the commons of a site.
fn take_at(sites: &mut [Layers], site: usize, bytes: &[u8]) -> LayersOutcome
    ensures { HappensAtMap (TakesIntoMap bytes.now) sites.old site sites.new result }
{
    if site >= sites.len() {
        return LayersOutcome::NoSuch;
    }
    match sites[site].take(bytes) {
        Ok(()) => LayersOutcome::Accepted,
        Err(why) => LayersOutcome::Refused(LayersRefusal::Store(why)),
    }
}

/// Joins the map with these layers bytes to a map.
fn join_bytes(alloc: Global, layers: &mut Layers, bytes: &[u8]) -> Result<(), LayersRefusal>
    ensures ok { OnOk result ((other : List Layer) × IsLayersBytes bytes.now other
        × IsJoin layers.old other layers.new) }
    ensures refused { IfErr result (IsLayersRefusal bytes.now) }
    ensures err { OnErr result (layers.new ≡ layers.old) }
{
    let other = Layers::read(alloc, bytes)?;
    layers.join(other)?;
    Ok(())
}

/// Joins the map with these layers bytes to that of a site.
fn join_at(alloc: Global, sites: &mut [Layers], site: usize, bytes: &[u8]) -> LayersOutcome
    ensures { HappensAtMap (Joins bytes.now) sites.old site sites.new result }
{
    if site >= sites.len() {
        return LayersOutcome::NoSuch;
    }
    match join_bytes(alloc, &mut sites[site], bytes) {
        Ok(()) => LayersOutcome::Accepted,
        Err(why) => LayersOutcome::Refused(why),
    }
}

/// Whether bytes begin as layers bytes.
fn is_marked(bytes: &[u8]) -> bool
    ensures { IsTrue result ↔ IsMarked bytes.now }
{
    bytes.starts_with(&MARK)
}

/// Hands bytes from outside to a site.
fn take_foreign(alloc: Global, sites: &mut [Layers], site: usize, bytes: &[u8]) -> LayersOutcome
    ensures { TakesForeign bytes.now sites.old site sites.new result }
{
    if is_marked(bytes) {
        join_at(alloc, sites, site, bytes)
    } else {
        take_at(sites, site, bytes)
    }
}

/// Makes the layers bytes of a site's map the next message.
fn send_from(
    alloc: Global,
    sites: &[Layers],
    site: usize,
    messages: &mut Vec<Vec<u8>>,
) -> LayersOutcome
    requires room { vec_len messages.old < vec_capacity messages.old }
    ensures sends { SendsMap sites.now site messages.old.items messages.new.items result }
    ensures keeps { KeepsRoom messages.old messages.new }
{
    if site >= sites.len() {
        return LayersOutcome::NoSuch;
    }
    let bytes = match sites[site].write(alloc) {
        Ok(bytes) => bytes,
        Err(memory) => return LayersOutcome::Refused(LayersRefusal::from(memory)),
    };
    let number = messages.len();
    messages.push(bytes).unwrap();
    LayersOutcome::Sent(number)
}

/// Joins a message to the map of a site.
fn deliver_to(
    alloc: Global,
    sites: &mut [Layers],
    site: usize,
    messages: &[Vec<u8>],
    message: usize,
) -> LayersOutcome
    ensures { DeliversMap messages.now message sites.old site sites.new result }
{
    if message >= messages.len() {
        return LayersOutcome::NoSuch;
    }
    join_at(alloc, sites, site, messages[message].as_slice())
}

/// What one event does to the sites and the messages, and what it comes to.
pub fn happen(
    alloc: Global,
    sites: &mut [Layers],
    messages: &mut Vec<Vec<u8>>,
    event: &LayersEvent,
) -> LayersOutcome
    requires room { vec_len messages.old < vec_capacity messages.old }
    ensures steps { (sets : LayerSets) → MapsAgree sites.old messages.old.items sets
        → StepsMaps event.now sites.new messages.new.items result sets }
    ensures keeps { KeepsRoom messages.old messages.new }
{
    match event {
        LayersEvent::Put {
            site,
            kind,
            name,
            pieces,
        } => put_at(sites, *site, *kind, name.as_str(), pieces.as_slice()),
        LayersEvent::Submit { site, text } => submit_at(sites, *site, text.as_str()),
        LayersEvent::Send { site } => send_from(alloc, sites, *site, messages),
        LayersEvent::Deliver { site, message } => deliver_to(
            alloc, sites, *site, messages, *message,
        ),
        LayersEvent::Foreign { site, bytes } => take_foreign(alloc, sites, *site, bytes.as_slice()),
    }
}
