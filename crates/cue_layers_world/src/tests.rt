use crate::{
    LayerKind, LayersEvent, LayersOutcome, LayersRefusal, LayersWorld, Memory, Piece, Refusal,
    Text, run,
};
use cue_lattice::Kind;
use std::alloc::Global;
use std::test::Fail;

/// An event: the number of its site, and what happens there.
#[derive(Clone, Copy)]
enum Step<'a> {
    /// A text is put as the layer of a name.
    Put(usize, &'a str, &'a str),
    /// The layer of a name is removed.
    Remove(usize, &'a str),
    /// A text goes into the commons.
    Submit(usize, &'a str),
    /// The site sends its map.
    Send(usize),
    /// The site joins a message.
    Deliver(usize, usize),
    /// The site takes bytes from outside.
    Foreign(usize, &'a [u8]),
}

use Step::{Deliver, Foreign, Put, Remove, Send, Submit};

/// The pieces of one text.
fn piece(alloc: Global, text: &str) -> Result<Vec<Piece>, Memory> {
    let mut pieces = Vec::new(alloc);
    pieces.push(Piece::Text(Text::from_str(alloc, text)?))?;
    Ok(pieces)
}

/// A put of a layer proper.
fn put(alloc: Global, site: usize, name: &str, pieces: Vec<Piece>) -> Result<LayersEvent, Memory> {
    Ok(LayersEvent::Put {
        site,
        kind: LayerKind::Layer,
        name: Text::from_str(alloc, name)?,
        pieces,
    })
}

/// The event of a step.
fn event(alloc: Global, step: Step) -> Result<LayersEvent, Memory> {
    match step {
        Put(site, name, text) => put(alloc, site, name, piece(alloc, text)?),
        Remove(site, name) => put(alloc, site, name, Vec::new(alloc)),
        Submit(site, text) => Ok(LayersEvent::Submit {
            site,
            text: Text::from_str(alloc, text)?,
        }),
        Send(site) => Ok(LayersEvent::Send { site }),
        Deliver(site, message) => Ok(LayersEvent::Deliver { site, message }),
        Foreign(site, bytes) => Ok(LayersEvent::Foreign {
            site,
            bytes: bytes.to_vec(alloc)?,
        }),
    }
}

/// So many sites after these steps.
fn after(alloc: Global, count: usize, steps: &[Step]) -> Result<LayersWorld, Memory> {
    let mut events = Vec::new(alloc);
    for step in steps {
        events.push(event(alloc, *step)?)?;
    }
    run(alloc, count, events.as_slice())
}

/// Whether the view of a site prints as this text.
fn prints(
    alloc: Global,
    world: &LayersWorld,
    site: usize,
    text: &str,
) -> Result<bool, LayersRefusal> {
    let Some(layers) = world.sites.get(site) else {
        return Ok(false);
    };
    let printed = layers.view(alloc, 1000)?.print(alloc)?;
    Ok(printed.as_str() == text)
}

/// How many conflicts the view of a site has.
fn conflicts(alloc: Global, world: &LayersWorld, site: usize) -> Result<usize, LayersRefusal> {
    let Some(layers) = world.sites.get(site) else {
        return Ok(0);
    };
    Ok(layers.view(alloc, 1000)?.conflicts(alloc)?.len())
}

#[test]
fn the_next_put_replaces(rt: HostRuntime) -> Result<(), Fail> {
    let alloc = rt.alloc();
    let steps = [
        Put(0, "web", "replicas: 6\n"),
        Put(0, "web", "replicas: 8\n"),
    ];
    let world = after(alloc, 1, &steps)?;
    assert_eq!(rt; world.outcomes.get(0), Some(&LayersOutcome::Put(1)));
    assert_eq!(rt; world.outcomes.get(1), Some(&LayersOutcome::Put(2)));
    assert!(rt; prints(alloc, &world, 0, "\"replicas\": 8\n")?);
    Ok(())
}

/// One name is put at two sites at one revision, and each takes what the other one has.
const TIE: &[Step] = &[
    Put(0, "web", "replicas: 5\n"),
    Send(0),
    Deliver(1, 0),
    Put(0, "web", "replicas: 6\n"),
    Put(1, "web", "replicas: 8\n"),
    Send(0),
    Send(1),
    Deliver(0, 2),
    Deliver(1, 1),
];

#[test]
fn a_tie_conflicts_until_the_next_put(rt: HostRuntime) -> Result<(), Fail> {
    let alloc = rt.alloc();
    let world = after(alloc, 2, TIE)?;
    assert_eq!(rt; world.outcomes.get(3), Some(&LayersOutcome::Put(2)));
    assert_eq!(rt; world.outcomes.get(4), Some(&LayersOutcome::Put(2)));
    assert_eq!(rt; conflicts(alloc, &world, 0)?, 1);
    assert_eq!(rt; conflicts(alloc, &world, 1)?, 1);
    Ok(())
}

#[test]
fn an_old_message_brings_nothing_back(rt: HostRuntime) -> Result<(), Fail> {
    let alloc = rt.alloc();
    let steps = [
        Put(0, "web", "replicas: 5\n"),
        Send(0),
        Put(0, "web", "replicas: 7\n"),
        Send(0),
        Deliver(0, 0),
        Deliver(1, 1),
        Deliver(1, 0),
        Remove(1, "web"),
        Deliver(1, 1),
    ];
    let world = after(alloc, 2, &steps)?;
    assert_eq!(rt; world.outcomes.get(7), Some(&LayersOutcome::Put(3)));
    assert!(rt; prints(alloc, &world, 0, "\"replicas\": 7\n")?);
    assert!(rt; prints(alloc, &world, 1, "_\n")?);
    Ok(())
}

#[test]
fn a_removal_beside_a_put_says_nothing(rt: HostRuntime) -> Result<(), Fail> {
    let alloc = rt.alloc();
    let steps = [
        Put(0, "web", "a: 1\n"),
        Put(1, "web", "a: 1\n"),
        Remove(0, "web"),
        Put(1, "web", "a: 2\n"),
        Send(1),
        Deliver(0, 0),
    ];
    let world = after(alloc, 2, &steps)?;
    assert!(rt; prints(alloc, &world, 0, "\"a\": 2\n")?);
    Ok(())
}

/// The layers bytes of a map of no puts.
const NO_PUTS: &[u8] = &[
    0xfe, 0x4c, 0x41, 0x59, 1, 0, 0, 0, 0, 0, 0, 0, 1, 0, 0, 0, 0, 0, 0, 0, 0, 0, 0, 0, 0, 0, 0, 0,
    0, 0, 0, 13, 0xfe, 0x43, 0x55, 0x45, 2, 0, 0, 0, 0, 0, 0, 0, 0,
];

/// What is not there, and what is refused.
const STRAY: &[Step] = &[
    Put(1, "web", "a: 1\n"),
    Deliver(0, 0),
    Put(0, "", "a: 1\n"),
    Submit(0, "a: 1\n"),
    Foreign(0, NO_PUTS),
    Foreign(0, &[0xfe, 0x4c, 0x41, 0x59]),
    Foreign(0, &[0xfe, 0x4c, 0x41, 0x59, 2]),
    Foreign(0, &[0xfe]),
];

#[test]
fn what_is_not_there_changes_nothing(rt: HostRuntime) -> Result<(), Fail> {
    let alloc = rt.alloc();
    let world = after(alloc, 1, STRAY)?;
    let expected = [
        LayersOutcome::NoSuch,
        LayersOutcome::NoSuch,
        LayersOutcome::Refused(LayersRefusal::BadName(0)),
        LayersOutcome::Accepted,
        LayersOutcome::Accepted,
        LayersOutcome::Refused(LayersRefusal::NotLayers),
        LayersOutcome::Refused(LayersRefusal::Store(Refusal::at(Kind::Version, 0))),
        LayersOutcome::Refused(LayersRefusal::Store(Refusal::at(Kind::NotState, 0))),
    ];
    assert!(rt; world.outcomes.as_slice() == expected.as_slice());
    assert!(rt; prints(alloc, &world, 0, "\"a\": 1\n")?);
    Ok(())
}
