//! Sites with layers, and the messages that they have sent.
use crate::event::Event;
use anyhow::Context;
use cue_layers::{Layers, LayersRefusal, Refusal};
use std::alloc::Global;

/// What an event came to.
#[derive(Drop)]
pub enum Outcome {
    Accepted,
    Put(u64),
    Sent(u64),
    /// There is no such site, or no such message.
    NoSuch,
    Refused(LayersRefusal),
}

impl Outcome {
    /// The outcome as a list has it, in JSON.
    pub fn text(&self, alloc: Global) -> anyhow::Result<String> {
        Ok(match self {
            Outcome::Accepted => String::from_str(alloc, "\"accepted\"")?,
            Outcome::Put(revision) => format!(in alloc; "[\"put\",{revision}]")?,
            Outcome::Sent(message) => format!(in alloc; "[\"sent\",{message}]")?,
            Outcome::NoSuch => String::from_str(alloc, "\"no such\"")?,
            Outcome::Refused(why) => {
                let (number, place) = (why.number(), why.place());
                match why.index() {
                    Some(index) => format!(in alloc; "[\"refused\",{number},{place},{index}]")?,
                    None => format!(in alloc; "[\"refused\",{number},{place}]")?,
                }
            }
        })
    }
}

/// The outcome of a call that answers nothing.
fn accepted(came: Result<(), Refusal>) -> Outcome {
    match came {
        Ok(()) => Outcome::Accepted,
        Err(why) => Outcome::Refused(LayersRefusal::Store(why)),
    }
}

/// Sites by their numbers, and layers bytes of messages by theirs.
#[derive(Drop)]
pub struct World {
    pub sites: Vec<Layers>,
    messages: Vec<Vec<u8>>,
}

impl World {
    /// So many new sites.
    pub fn new(alloc: Global, count: u64) -> anyhow::Result<World> {
        let mut sites = Vec::new(alloc);
        for _ in 0..count {
            sites.push(Layers::new(alloc).ok().context("out of memory")?)?;
        }
        Ok(World {
            sites,
            messages: Vec::new(alloc),
        })
    }

    /// Lets an event happen.
    pub fn happen(&mut self, alloc: Global, event: &Event) -> anyhow::Result<Outcome> {
        match event {
            Event::Put {
                site,
                kind,
                name,
                pieces,
            } => match self.site(*site) {
                Some(site) => Ok(match site.put(*kind, name.as_str(), pieces.as_slice()) {
                    Ok(revision) => Outcome::Put(revision),
                    Err(why) => Outcome::Refused(why),
                }),
                None => Ok(Outcome::NoSuch),
            },
            Event::Submit { site, text } => match self.site(*site) {
                Some(site) => Ok(accepted(site.submit(text.as_str()))),
                None => Ok(Outcome::NoSuch),
            },
            Event::Foreign { site, bytes } => match self.site(*site) {
                Some(site) => take_bytes(alloc, site, bytes.as_slice()),
                None => Ok(Outcome::NoSuch),
            },
            Event::Send { site } => self.send(alloc, *site),
            Event::Deliver { site, message } => self.deliver(alloc, *site, *message),
        }
    }

    fn site(&mut self, number: u64) -> Option<&mut Layers> {
        self.sites.get_mut(usize::try_from(number).ok()?)
    }

    fn send(&mut self, alloc: Global, site: u64) -> anyhow::Result<Outcome> {
        let Some(site) = self.site(site) else {
            return Ok(Outcome::NoSuch);
        };
        let bytes = site.write(alloc).ok().context("out of memory")?;
        let number = self.messages.len() as u64;
        self.messages.push(bytes)?;
        Ok(Outcome::Sent(number))
    }

    fn deliver(&mut self, alloc: Global, site: u64, message: u64) -> anyhow::Result<Outcome> {
        let message = usize::try_from(message).unwrap_or(usize::MAX);
        if message >= self.messages.len() {
            return Ok(Outcome::NoSuch);
        }
        let bytes = self.messages[message].as_slice().to_vec(alloc)?;
        match self.site(site) {
            Some(site) => take_bytes(alloc, site, bytes.as_slice()),
            None => Ok(Outcome::NoSuch),
        }
    }
}

/// Gives bytes to a site: layers bytes where they begin so, a state otherwise.
fn take_bytes(alloc: Global, site: &mut Layers, bytes: &[u8]) -> anyhow::Result<Outcome> {
    if !bytes.starts_with(b"\xfeLAY") {
        return Ok(accepted(site.take(bytes)));
    }
    match Layers::read(alloc, bytes) {
        Ok(layers) => {
            site.join(layers).ok().context("out of memory")?;
            Ok(Outcome::Accepted)
        }
        Err(why) => Ok(Outcome::Refused(why)),
    }
}
