ghost use Rattle.std.specs.Prelude.{◌≡◌, ◌↔◌, ◌≤◌, ◌++◌, ℕ, List, [], IsTrue, IsErrOf, IfOk, OnOk};
ghost use Rattle.cue_wire.specs.Frames.{StopsAtFrame, IsUnfinished, LacksBytes};
ghost use Rattle.cue_wire.specs.Sessions.{reading, ended, IsSessionReading, Served, standing_after};

use crate::answer::answer;
use crate::frame::{missing, next_frame};
use crate::want::want_of;
use bytes::BytesMut;
use cue_replica::{Kind, Memory, Replica};
use std::alloc::Global;
use std::marker::Model;

/// The serving end of a connection: it takes a stream of requests in pieces, cut anywhere, and
/// serves each whole frame in order.
///
/// Contracts see it as the rest of the stream that it keeps, the bytes behind the last whole frame,
/// or as ended.
#[derive(Drop)]
pub struct Session {
    unread: BytesMut,
    alloc: Global,
    ended: bool,
}

impl Model for Session {
    ghost use Rattle.cue_wire.specs.Sessions.{Standing, session_standing};

    ghost Value = { Standing };

    ghost view = { λ session. session_standing session.ended session.unread.items };
}

impl Session {
    /// A session that was fed nothing.
    ///
    /// # Errors
    ///
    /// `Memory`.
    pub fn new(alloc: Global) -> Result<Session, Memory>
        ensures { IfOk result (λ session. session ≡ reading []) }
    {
        Ok(Session::new_unfed(alloc))
    }

    /// A session that was fed nothing, and has wanted no memory yet.
    pub(crate) fn new_unfed(alloc: Global) -> Session
        ensures { result ≡ reading [] }
    {
        Session {
            unread: BytesMut::new(alloc),
            alloc,
            ended: false,
        }
    }

    /// Whether the session reads on: no `feed` has answered `FrameTooLong` or `Memory`.
    pub fn is_open(&self) -> bool
        ensures { IsTrue result ↔ IsSessionReading self.now }
    {
        !self.ended
    }

    /// Whether the stream so far ends between two frames: nothing of one that isn't whole is kept.
    pub fn is_between_frames(&self) -> bool
        ensures { IsTrue result ↔ self.now ≡ reading [] }
    {
        !self.ended && self.unread.is_empty()
    }

    /// How many bytes end the frame that the stream stands in, or tell its length; at least 1. A
    /// piece of at most so many holds the end of at most one frame.
    pub fn missing(&self) -> usize
        ensures some { 1 ≤ result }
        ensures exact { (rest : List ℕ) → self.now ≡ reading rest → IsUnfinished rest
            → LacksBytes rest result }
    {
        missing(self.unread.as_slice())
    }

    /// Takes the next piece of the stream, serves all frames that are whole by now, in order, and
    /// adds their replies to `out`. A request is applied exactly when its whole reply stands there.
    ///
    /// # Errors
    ///
    /// `FrameTooLong` where the bytes behind the last whole frame name a length that no frame has,
    /// and `Memory`. Both end the session, and what was served before stands. From then on
    /// `Failed`, and nothing is changed.
    pub fn feed(&mut self, site: &mut Replica, piece: &[u8], out: &mut Vec<u8>) -> Result<(), Kind>
        // The rest kept so far and the piece are the stream. Where the answer is `Memory`, some of
        // its frames were served, and else all that are whole.
        ensures served { (kept : List ℕ) → self.old ≡ reading kept → (rest : List ℕ)
            × StopsAtFrame result rest × (self.new ≡ standing_after result rest)
            × Served (kept ++ piece.now) rest site.old site.new out.old.items out.new.items }
        ensures failed { self.old ≡ ended → IsErrOf result Kind.Failed × (self.new ≡ ended)
            × (site.new ≡ site.old) × (out.new.items ≡ out.old.items) }
    {
        if self.ended {
            return Err(Kind::Failed);
        }
        let served = serve(self.alloc, &mut self.unread, site, piece, out);
        self.ended = served.is_err();
        served
    }
}

/// Serves all frames that are whole with the next piece of the stream, and keeps what comes behind
/// them.
fn serve(
    alloc: Global,
    unread: &mut BytesMut,
    site: &mut Replica,
    piece: &[u8],
    out: &mut Vec<u8>,
) -> Result<(), Kind>
    ensures { (rest : List ℕ) × StopsAtFrame result rest × OnOk result (unread.new.items ≡ rest)
        × Served (unread.old.items ++ piece.now) rest site.old site.new
        out.old.items out.new.items }
{
    if let Err(error) = unread.extend_from_slice(piece) {
        return Err(want_of(error));
    }
    serve_frames(alloc, unread, site, out)
}

/// Serves all frames that are whole, and leaves what comes behind them.
fn serve_frames(
    alloc: Global,
    unread: &mut BytesMut,
    site: &mut Replica,
    out: &mut Vec<u8>,
) -> Result<(), Kind>
    ensures { (rest : List ℕ) × StopsAtFrame result rest × OnOk result (unread.new.items ≡ rest)
        × Served unread.old.items rest site.old site.new out.old.items out.new.items }
{
    while let Some(body) = next_frame(unread)? {
        answer(alloc, site, body.as_slice(), out)?;
    }
    Ok(())
}
