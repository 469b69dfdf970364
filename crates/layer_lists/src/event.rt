//! What happens in a list.
use anyhow::{Context, anyhow};
use cue_layers::{LayerKind, Piece, Text};
use serde_json::Value;
use std::alloc::Global;

/// What happens at a site, or between sites. Sites and messages are counted from 0.
#[derive(Drop)]
pub enum Event {
    /// A put of pieces; without one, a removal.
    Put {
        site: u64,
        kind: LayerKind,
        name: String,
        pieces: Vec<Piece>,
    },
    /// A text for the commons.
    Submit {
        site: u64,
        text: String,
    },
    /// Layers bytes or a state from elsewhere.
    Foreign {
        site: u64,
        bytes: Vec<u8>,
    },
    /// A message with all that the site holds.
    Send {
        site: u64,
    },
    /// A message comes to a site.
    Deliver {
        site: u64,
        message: u64,
    },
}

/// The event that a JSON list says: a word, a site, and what the word wants.
pub fn event_of(alloc: Global, event: &Value) -> anyhow::Result<Event> {
    let parts = event
        .as_array()
        .context("an event that is no list")?
        .as_slice();
    let [word, site, rest @ ..] = parts else {
        return Err(anyhow!("an event without a site"));
    };
    let site = site.as_u64().context("a site that is no number")?;
    match (word.as_str().context("an event without a word")?, rest) {
        ("put", [kind, name, pieces]) => Ok(Event::Put {
            site,
            kind: kind_of(kind)?,
            name: string_of(alloc, name)?,
            pieces: pieces_of(alloc, pieces)?,
        }),
        ("submit", [text]) => Ok(Event::Submit {
            site,
            text: string_of(alloc, text)?,
        }),
        ("foreign", [bytes]) => Ok(Event::Foreign {
            site,
            bytes: bytes_of(alloc, bytes)?,
        }),
        ("send", []) => Ok(Event::Send { site }),
        ("deliver", [message]) => Ok(Event::Deliver {
            site,
            message: message.as_u64().context("a message that is no number")?,
        }),
        _ => Err(anyhow!("an event of another form")),
    }
}

fn string_of(alloc: Global, value: &Value) -> anyhow::Result<String> {
    let text = value.as_str().context("an event whose text is none")?;
    Ok(String::from_str(alloc, text)?)
}

fn kind_of(value: &Value) -> anyhow::Result<LayerKind> {
    match value.as_str() {
        Some("layer") => Ok(LayerKind::Layer),
        Some("policy") => Ok(LayerKind::Policy),
        _ => Err(anyhow!("neither a layer nor a policy")),
    }
}

/// The pieces of a put: texts, and states in hexadecimal.
fn pieces_of(alloc: Global, value: &Value) -> anyhow::Result<Vec<Piece>> {
    let mut pieces = Vec::new(alloc);
    for piece in value.as_array().context("pieces that are no list")? {
        pieces.push(piece_of(alloc, piece)?)?;
    }
    Ok(pieces)
}

fn piece_of(alloc: Global, piece: &Value) -> anyhow::Result<Piece> {
    match piece.as_str() {
        Some(text) => {
            let text = Text::from_str(alloc, text).ok().context("out of memory")?;
            Ok(Piece::Text(text))
        }
        None => Ok(Piece::State(bytes_of(alloc, piece)?)),
    }
}

/// The bytes of `{"hex": ".."}`.
fn bytes_of(alloc: Global, value: &Value) -> anyhow::Result<Vec<u8>> {
    let digits = value
        .get("hex")
        .and_then(Value::as_str)
        .context("bytes without digits")?;
    Ok(hex::decode(alloc, digits)?)
}
