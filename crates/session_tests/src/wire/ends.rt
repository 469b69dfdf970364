//! Both ends of a connection, in functions that promise nothing, so that the tests that call these
//! are proved without what sessions and clients promise.
use cue_wire::{Client, Kind, Memory, Replica, Request, Session};
use std::alloc::Global;
use std::test::Fail;

/// What a stream came to.
#[derive(Drop)]
pub struct Served {
    /// The replies.
    pub replies: Vec<u8>,
    /// Why the session ended, where it did.
    pub fault: Option<Kind>,
    /// Whether the session says that it reads on.
    pub open: bool,
}

/// A site that has accepted a text.
pub fn site_of(alloc: Global, text: &str) -> Result<Replica, Fail> {
    let mut site = Replica::new(alloc);
    site.submit(text)?;
    Ok(site)
}

/// Feeds a site's new session a stream in pieces of so many bytes.
pub fn serve(
    alloc: Global,
    site: &mut Replica,
    stream: &[u8],
    size: usize,
) -> Result<Served, Memory> {
    let mut session = Session::new(alloc)?;
    let mut replies = Vec::new(alloc);
    let mut fault = None;
    for piece in stream.chunks(size.max(1)) {
        if let Err(kind) = session.feed(site, piece, &mut replies) {
            fault = Some(kind);
        }
    }
    let open = session.is_open();
    Ok(Served {
        replies,
        fault,
        open,
    })
}

/// Whether a site that has accepted a text gives these replies to a stream that is cut in pieces of
/// so many bytes, and reads on.
pub fn replies(
    alloc: Global,
    text: &str,
    stream: &[u8],
    size: usize,
    wanted: &[u8],
) -> Result<bool, Fail> {
    let mut site = site_of(alloc, text)?;
    let served = serve(alloc, &mut site, stream, size)?;
    Ok(served.open && served.fault.is_none() && served.replies.as_slice() == wanted)
}

/// The fault that a new site's session ends with that is fed a stream byte by byte, whether it is
/// open, and what it replied.
pub fn ends(alloc: Global, stream: &[u8]) -> Result<Served, Memory> {
    let mut site = Replica::new(alloc);
    serve(alloc, &mut site, stream, 1)
}

/// What a client has to send.
pub fn sends(alloc: Global, requests: &[Request], wanted: &[u8]) -> bool {
    match Client::new(alloc, requests) {
        Ok(client) => client.outgoing() == wanted,
        Err(_) => false,
    }
}

/// The replies that a client reads out of a stream in pieces of so many bytes, each with a line
/// break behind it, and the fault that it met.
pub fn read(alloc: Global, stream: &[u8], size: usize) -> Result<(Vec<u8>, Option<Kind>), Fail> {
    let mut client = Client::new(alloc, &[])?;
    let mut fault = None;
    for piece in stream.chunks(size.max(1)) {
        if let Err(kind) = client.feed(piece) {
            fault = Some(kind);
        }
    }
    let mut lines = Vec::new(alloc);
    for reply in client.replies() {
        lines.extend_from_slice(reply.as_slice())?;
        lines.push(b'\n')?;
    }
    Ok((lines, fault))
}
