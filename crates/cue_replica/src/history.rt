ghost use Rattle.std.specs.Prelude.{◌≡◌, ◌<◌, map, replicate, IfOk, vec_len, vec_capacity};
ghost use Rattle.cue_lattice.specs.World.{Sets, AreOutcomes, AllAlong, IsUnified, start_sets};
ghost use Rattle.cue_table.specs.Tree.{empty};
ghost use Rattle.cue_replica.specs.Documents.{IsExactSite};
ghost use Rattle.cue_replica.specs.Language.{language};
ghost use Rattle.cue_replica.specs.Inner.Events.{HappensAtSite, SendsState, DeliversState, KeepsRoom};
ghost use Rattle.cue_replica.specs.World.{SubmitsText, TakesState};
ghost use Rattle.cue_replica.specs.Inner.Events.{TablesAgree, EventHappens};
ghost use Rattle.cue_replica.specs.World.{event_of, outcome_of, reached_sets, IsSentOf};
ghost use Rattle.cue_replica.specs.World.{AreEqualSites, HaveSitesEqualReports};

use crate::{Event, Outcome, Replica, World};
use cue_lattice::{Memory, Refusal};
use std::alloc::Global;

/// Hands a text to a site.
fn submit_at(replicas: &mut [Replica], site: usize, text: &str) -> Outcome
    ensures { HappensAtSite (SubmitsText text.now) replicas.old site replicas.new result }
{
    if site >= replicas.len() {
        return Outcome::NoSuch;
    }
    match replicas[site].submit(text) {
        Ok(()) => Outcome::Accepted,
        Err(why) => Outcome::Refused(why),
    }
}

/// Hands state bytes to a site.
fn take_at(replicas: &mut [Replica], site: usize, bytes: &[u8]) -> Outcome
    ensures { HappensAtSite (TakesState bytes.now) replicas.old site replicas.new result }
{
    if site >= replicas.len() {
        return Outcome::NoSuch;
    }
    match replicas[site].take(bytes) {
        Ok(()) => Outcome::Accepted,
        Err(why) => Outcome::Refused(why),
    }
}

/// Makes a site's state the next message.
fn send_from(
    alloc: Global,
    replicas: &[Replica],
    site: usize,
    messages: &mut Vec<Vec<u8>>,
) -> Outcome
    requires room { vec_len messages.old < vec_capacity messages.old }
    ensures sends { SendsState replicas.now site messages.old.items messages.new.items result }
    ensures keeps { KeepsRoom messages.old messages.new }
{
    if site >= replicas.len() {
        return Outcome::NoSuch;
    }
    let bytes = match replicas[site].state(alloc) {
        Ok(bytes) => bytes,
        Err(memory) => return Outcome::Refused(Refusal::from(memory)),
    };
    let number = messages.len();
    messages.push(bytes).unwrap();
    Outcome::Sent(number)
}

/// Hands a message to a site.
fn deliver_to(
    replicas: &mut [Replica],
    site: usize,
    messages: &[Vec<u8>],
    message: usize,
) -> Outcome
    ensures { DeliversState messages.now message replicas.old site replicas.new result }
{
    if message >= messages.len() {
        return Outcome::NoSuch;
    }
    take_at(replicas, site, messages[message].as_slice())
}

/// What one event does to the sites and the messages, and what it comes to.
fn happen(
    alloc: Global,
    replicas: &mut [Replica],
    messages: &mut Vec<Vec<u8>>,
    event: &Event,
) -> Outcome
    requires room { vec_len messages.old < vec_capacity messages.old }
    ensures happens { (sets : Sets) → TablesAgree replicas.old messages.old.items sets
        → EventHappens replicas.old messages.old.items event.now
        replicas.new messages.new.items result sets }
    ensures keeps { KeepsRoom messages.old messages.new }
{
    match event {
        Event::Submit { site, text } => submit_at(replicas, *site, text.as_str()),
        Event::Send { site } => send_from(alloc, replicas, *site, messages),
        Event::Deliver { site, message } => deliver_to(replicas, *site, messages, *message),
        Event::Foreign { site, bytes } => take_at(replicas, *site, bytes.as_slice()),
    }
}

/// A world of new sites.
fn new_sites(alloc: Global, sites: usize) -> Result<Vec<Replica>, Memory>
    ensures { IfOk result (λ replicas. replicas.items ≡ replicate sites empty) }
{
    let mut replicas = Vec::with_capacity(alloc, sites)?;
    for _ in 0..sites {
        replicas.push(Replica::new(alloc))?;
    }
    Ok(replicas)
}

/// What a list of events comes to among this many new sites, whatever the events are: texts handed
/// in, states sent, messages delivered late, repeatedly, out of order or never, and bytes from
/// outside.
///
/// An event that finds no memory is refused and changes nothing. `Memory` is answered, and no
/// world, only where the lists of the world couldn't be made.
pub fn run(alloc: Global, sites: usize, events: &[Event]) -> Result<World, Memory>
    // Each event has an outcome that the definition of a world allows at its moment.
    ensures outcomes { IfOk result (λ world.
        AreOutcomes language (start_sets sites)
        (map event_of events.now) (map outcome_of world.outcomes.items)) }

    // Each site's table refuses a question at a path exactly where a piece does that the site has
    // accepted.
    ensures unified { IfOk result (λ world.
        AllAlong (IsUnified language)
        world.replicas.items (reached_sets sites events.now world.outcomes.items).sites) }

    // Each message has the state bytes of its sender's table of the moment when it was sent.
    ensures messages { IfOk result (λ world.
        AllAlong IsSentOf
        world.messages.items (reached_sets sites events.now world.outcomes.items).messages) }

    // Sites with the same set of pieces hold equal tables.
    ensures equal { IfOk result (λ world.
        AreEqualSites
        world.replicas.items (reached_sets sites events.now world.outcomes.items).sites) }

    // And they give the same conflicts, the same gaps, the same export, the same printed text and
    // the same state bytes.
    ensures told { IfOk result (λ world.
        HaveSitesEqualReports
        world.replicas.items (reached_sets sites events.now world.outcomes.items).sites) }

    // Each site has no conflict exactly where some document is admitted by all that it has
    // accepted, and what it exports is such a document, with the chosen scalars.
    ensures exact { IfOk result (λ world.
        AllAlong IsExactSite
        world.replicas.items (reached_sets sites events.now world.outcomes.items).sites) }
{
    let mut replicas = new_sites(alloc, sites)?;
    let mut messages = Vec::with_capacity(alloc, events.len())?;
    let mut outcomes = Vec::with_capacity(alloc, events.len())?;
    for event in events {
        let outcome = happen(alloc, &mut replicas, &mut messages, event);
        outcomes.push(outcome).unwrap();
    }
    Ok(World {
        replicas,
        messages,
        outcomes,
    })
}
