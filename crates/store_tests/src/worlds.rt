//! Worlds of sites after lists of events.
use cue_replica::{Event, Kind, Memory, Outcome, Refusal, Replica, Text, World, run};
use std::alloc::Global;
use std::test::Fail;

/// An event: the number of its site, and what happens there.
#[derive(Clone, Copy)]
enum Step<'a> {
    /// A text is handed to the site.
    Submit(usize, &'a str),
    /// The site sends its state.
    Send(usize),
    /// A message is handed to the site.
    Deliver(usize, usize),
    /// Bytes are handed to the site.
    Foreign(usize, &'a [u8]),
}

use Step::{Deliver, Foreign, Send, Submit};

/// The event that is told so.
fn event(alloc: Global, step: Step) -> Result<Event, Memory> {
    Ok(match step {
        Submit(site, text) => {
            let text = Text::from_str(alloc, text)?;
            Event::Submit { site, text }
        }
        Send(site) => Event::Send { site },
        Deliver(site, message) => Event::Deliver { site, message },
        Foreign(site, bytes) => {
            let bytes = bytes.to_vec(alloc)?;
            Event::Foreign { site, bytes }
        }
    })
}

/// So many sites after these events. It promises nothing, as the calls of a site here.
fn ran(alloc: Global, sites: usize, events: &[Event]) -> Result<World, Memory> {
    run(alloc, sites, events)
}

/// So many sites after the events that are told so.
fn after(alloc: Global, sites: usize, steps: &[Step]) -> Result<World, Memory> {
    let mut events = Vec::new(alloc);
    for step in steps {
        events.push(event(alloc, *step)?)?;
    }
    ran(alloc, sites, &events)
}

/// Whether so many sites come to these outcomes by the events that are told so.
fn come_to(
    alloc: Global,
    sites: usize,
    steps: &[Step],
    wanted: &[Outcome],
) -> Result<bool, Memory> {
    let world = after(alloc, sites, steps)?;
    Ok(world.outcomes.as_slice() == wanted)
}

/// Events of one site, and of another that isn't there.
const FOR_ONE: &[Step] = &[
    Submit(0, "a: 1\n"),
    Submit(1, "a: 1\n"),
    Submit(0, "a: ]\n"),
    Send(0),
    Send(1),
    Send(0),
    Deliver(0, 1),
    Deliver(0, 2),
    Deliver(1, 0),
    Foreign(0, &[]),
    Foreign(1, &[]),
];

/// What these events come to.
const FOR_ONE_CAME: &[Outcome] = &[
    Outcome::Accepted,
    Outcome::NoSuch,
    Outcome::Refused(Refusal {
        kind: Kind::Syntax,
        place: 3,
    }),
    Outcome::Sent(0),
    Outcome::NoSuch,
    Outcome::Sent(1),
    Outcome::Accepted,
    Outcome::NoSuch,
    Outcome::NoSuch,
    Outcome::Refused(Refusal {
        kind: Kind::NotState,
        place: 0,
    }),
    Outcome::NoSuch,
];

#[test]
fn each_outcome(rt: HostRuntime) -> Result<(), Fail> {
    assert!(rt; come_to(rt.alloc(), 1, FOR_ONE, FOR_ONE_CAME)?);
    Ok(())
}

/// The printed text of a site.
fn printed(alloc: Global, site: &Replica) -> Result<String, Memory> {
    site.print(alloc)
}

/// Whether the sites are printed so.
fn are_printed(alloc: Global, sites: &[Replica], wanted: &[&str]) -> Result<bool, Memory> {
    for (site, wanted) in sites.iter().zip(wanted) {
        if printed(alloc, site)?.as_str() != *wanted {
            return Ok(false);
        }
    }
    Ok(sites.len() == wanted.len())
}

/// Whether the sites of a world are printed so after the events that are told so.
fn come_to_print(alloc: Global, steps: &[Step], wanted: &[&str]) -> Result<bool, Memory> {
    let world = after(alloc, wanted.len(), steps)?;
    are_printed(alloc, &world.replicas, wanted)
}

/// Four sites are handed texts and send their states, which come late, twice, in another order, or
/// not at all: the first message is of its moment, before its sender was handed more.
const FOR_FOUR: &[Step] = &[
    Submit(0, "a: int\n"),
    Send(0),
    Submit(0, "a: 4\n"),
    Submit(1, "b: *1 | 2\n"),
    Submit(2, "c: {d?: string}\n"),
    Send(0),
    Send(1),
    Send(2),
    Deliver(0, 3),
    Deliver(0, 2),
    Deliver(1, 1),
    Deliver(1, 3),
    Deliver(1, 1),
    Deliver(2, 0),
];

#[test]
fn messages_come_late_twice_or_never(rt: HostRuntime) -> Result<(), Fail> {
    let all = "\"a\": 4\n\"b\": *1 | 2\n\"c\": {\"d\"?: string}\n";
    let late = "\"a\": int\n\"c\": {\"d\"?: string}\n";
    assert!(rt; come_to_print(rt.alloc(), FOR_FOUR, &[all, all, late, "_\n"])?);
    Ok(())
}
