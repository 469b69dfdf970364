use crate::Replica;
use cue_lattice::{Refusal, Text};

/// One whole call on one site of a world. Sites and messages are numbered from 0.
#[derive(Debug, Drop)]
pub enum Event {
    /// A text is handed to the site.
    Submit { site: usize, text: Text },
    /// The site's state becomes the next message.
    Send { site: usize },
    /// The site takes a message that some site sent.
    Deliver { site: usize, message: usize },
    /// The site is handed state bytes from outside the world.
    Foreign { site: usize, bytes: Vec<u8> },
}

/// What an event came to.
#[derive(Clone, Copy, Debug, PartialEq, Eq)]
pub enum Outcome {
    Accepted,
    /// The number of the message that was sent.
    Sent(usize),
    /// Nothing changed.
    Refused(Refusal),
    /// There is no such site or message. Nothing changed.
    NoSuch,
}

/// Sites, the messages that they sent, and what each event came to.
#[derive(Drop)]
pub struct World {
    pub replicas: Vec<Replica>,
    pub messages: Vec<Vec<u8>>,
    pub outcomes: Vec<Outcome>,
}
