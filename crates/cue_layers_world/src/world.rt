use cue_layers::{LayerKind, Layers, LayersRefusal, Piece, Text};

/// One whole call on one site of a world. Sites and messages are numbered from 0.
#[derive(Debug, Drop)]
pub enum LayersEvent {
    /// An owner puts what a name says at the site. Without pieces it is a removal.
    Put {
        site: usize,
        kind: LayerKind,
        name: Text,
        pieces: Vec<Piece>,
    },
    /// A text goes into the commons of the site.
    Submit {
        site: usize,
        text: Text,
    },
    /// The layers bytes of the site's map become the next message.
    Send {
        site: usize,
    },
    /// The site joins a message that some site sent.
    Deliver {
        site: usize,
        message: usize,
    },
    /// The site takes bytes from outside the world. Bytes that begin as layers bytes are read as
    /// layers, all others as a state for the commons.
    Foreign {
        site: usize,
        bytes: Vec<u8>,
    },
}

/// What an event came to.
#[derive(Clone, Copy, Debug, PartialEq, Eq)]
pub enum LayersOutcome {
    /// The revision of what was put.
    Put(u64),
    Accepted,
    /// The number of the message that was sent.
    Sent(usize),
    /// Nothing changed.
    Refused(LayersRefusal),
    /// There is no such site or message. Nothing changed.
    NoSuch,
}

/// The maps of sites, the messages that they sent, and what each event came to.
#[derive(Drop)]
pub struct LayersWorld {
    pub sites: Vec<Layers>,
    pub messages: Vec<Vec<u8>>,
    pub outcomes: Vec<LayersOutcome>,
}
