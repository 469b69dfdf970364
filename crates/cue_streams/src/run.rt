use crate::line::{End, Line};
use anyhow::anyhow;
use cue_replica::{SiteQuestion, answer_to};
use cue_wire::{Client, Kind, Replica, Session};
use std::alloc::Global;

/// Where a stream is cut into the pieces that a session is fed.
#[derive(Clone, Copy, Debug)]
pub enum Cuts {
    None,
    /// Behind each byte.
    Everywhere,
    /// Behind one byte in eight, by numbers that begin with this one.
    AtRandom(u64),
}

impl Cuts {
    pub fn name(self) -> &'static str {
        match self {
            Cuts::None => "whole",
            Cuts::Everywhere => "byte by byte",
            Cuts::AtRandom(_) => "cut at random",
        }
    }

    /// Whether there is a cut behind the next byte.
    fn next(&mut self) -> bool {
        match self {
            Cuts::None => false,
            Cuts::Everywhere => true,
            Cuts::AtRandom(state) => {
                *state = state
                    .wrapping_mul(6_364_136_223_846_793_005)
                    .wrapping_add(1_442_695_040_888_963_407);
                *state >> 61 == 0
            }
        }
    }
}

/// What a session comes to that is fed a stream.
#[derive(Drop)]
struct Fed {
    site: Replica,
    replies: Vec<u8>,
    too_long: bool,
}

/// Whether each answer to the stream of a line is the one that the line has.
pub fn agrees(alloc: Global, line: &Line, cuts: Cuts) -> anyhow::Result<bool> {
    let fed = feed(alloc, line.requests.as_slice(), cuts)?;
    let answer = answer_to(alloc, SiteQuestion::Export, &fed.site)?;
    Ok(
        fed.replies.as_slice() == line.replies.as_slice()
            && end_of(alloc, line.requests.as_slice())? == line.end
            && fed.too_long == (line.end == End::TooLong)
            && u64::from(answer.status.code()) == line.status
            && answer.bytes.as_slice() == line.output.as_bytes(),
    )
}

/// Feeds a stream to a session of a new site.
fn feed(alloc: Global, requests: &[u8], mut cuts: Cuts) -> anyhow::Result<Fed> {
    let mut site = Replica::new(alloc);
    let mut session = Session::new(alloc)?;
    let mut replies = Vec::new(alloc);
    let mut piece = Vec::new(alloc);
    let mut too_long = false;
    for byte in requests {
        piece.push(*byte)?;
        if cuts.next() {
            too_long = stops(session.feed(&mut site, piece.as_slice(), &mut replies))?;
            piece.clear();
        }
    }
    if !too_long {
        too_long = stops(session.feed(&mut site, piece.as_slice(), &mut replies))?;
    }
    Ok(Fed {
        site,
        replies,
        too_long,
    })
}

/// Whether a session ended at a length that no frame has.
fn stops(fed: Result<(), Kind>) -> anyhow::Result<bool> {
    match fed {
        Ok(()) => Ok(false),
        Err(Kind::FrameTooLong | Kind::Failed) => Ok(true),
        Err(_) => Err(anyhow!("out of memory")),
    }
}

/// How a stream ends, by a client that reads its frames as replies.
fn end_of(alloc: Global, stream: &[u8]) -> anyhow::Result<End> {
    let Ok(mut client) = Client::new(alloc, &[]) else {
        return Err(anyhow!("out of memory"));
    };
    match client.feed(stream) {
        Ok(()) => {}
        Err(Kind::FrameTooLong) => return Ok(End::TooLong),
        Err(_) => return Err(anyhow!("out of memory")),
    }
    let mut read = 0usize;
    for body in client.replies() {
        read = read.saturating_add(body.len()).saturating_add(4);
    }
    if read == stream.len() {
        Ok(End::Whole)
    } else {
        Ok(End::Cut)
    }
}
