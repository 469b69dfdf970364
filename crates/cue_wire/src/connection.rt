ghost use Rattle.std.specs.Prelude.{◌≡◌, ◌-◌, ◌+◌, ◌^◌, ◌≤◌, ◌++◌, List, ℕ, [], Option, OnOk};
ghost use Rattle.std.specs.Prelude.{IfErr};
ghost use Rattle.std.specs.Io.KnownBytes.{Appends};
ghost use Rattle.cue_replica.specs.Language.{Table};
ghost use Rattle.cue_wire.specs.Connections.{ServedPassage, PassesBy, ServingEndsAt, moment_of};
ghost use Rattle.cue_wire.specs.Frames.{IsUnfinished};
ghost use Rattle.cue_wire.specs.Inner.Parts.{RepliesWritten, IsWriteFault, IsPartServed, ServesOrStops, Moves};
ghost use Rattle.cue_wire.specs.Sessions.{reading};

use crate::frame::PIECE;
use crate::session::Session;
use cue_device::{Sink, Source};
use cue_replica::{Kind, Replica};
use std::alloc::Global;

/// From how many bytes on replies are written before the rest of a piece is served.
const MANY: usize = 65_536;

/// How a connection ended that was served to its end.
#[derive(Clone, Copy, Debug, PartialEq, Eq)]
pub struct Ended {
    /// Whether it ended between two frames.
    pub whole: bool,
}

/// Serves a connection until its end: reads requests from the source, hands them to the site, and
/// writes their replies to the sink. A turn is one read or one write.
///
/// Each read asks for at most 4,096 bytes, and none begins before all replies so far are written.
/// The replies to what one read brought are written together, or as soon as they have 65,536
/// bytes, so that requests of few bytes can't ask for more memory than the longest reply takes.
///
/// # Errors
///
/// `FrameTooLong` and `Memory`, where the replies to all that was served are written; `TurnsUsed`
/// where a further turn would be needed; `Device` where a read or a write failed. In each case the
/// site has taken what was served.
pub fn serve<S: Source, K: Sink>(
    alloc: Global,
    source: &mut S,
    sink: &mut K,
    site: &mut Replica,
    turns: u64,
) -> Result<Ended, Kind>
    requires reads { S.called source.old + turns ≤ 2 ^ 64 - 1 }
    requires writes { K.called sink.old + turns ≤ 2 ^ 64 - 1 }
    ensures passage { let at = moment_of S.given S.to_come K.taken S.called K.called S.failed K.failed in
        (passage : ServedPassage site.old site.new)
        × PassesBy passage (at source.old sink.old) (at source.new sink.new)
        × ServingEndsAt result passage turns (at source.old sink.old) (at source.new sink.new) }
    ensures reads { S.called source.old ≤ S.called source.new }
    ensures writes { K.called sink.old ≤ K.called sink.new }
    ensures turns { S.called source.new + K.called sink.new
        ≤ S.called source.old + K.called sink.old + turns }
{
    let mut session = Session::new_unfed(alloc);
    let mut out = Vec::new(alloc);
    let mut piece = [0u8; PIECE];
    let mut left = turns;
    while left > 0 {
        left -= 1;
        let Ok(count) = source.read(&mut piece) else {
            return Err(Kind::Device);
        };
        if count == 0 {
            let whole = session.is_between_frames();
            return Ok(Ended { whole });
        }
        serve_piece(
            &mut session,
            site,
            &piece[..count],
            &mut out,
            sink,
            &mut left,
        )?;
    }
    Err(Kind::TurnsUsed)
}

/// Serves what is whole with this piece, and writes the replies, while there are turns.
fn serve_piece<K: Sink>(
    session: &mut Session,
    site: &mut Replica,
    piece: &[u8],
    out: &mut Vec<u8>,
    sink: &mut K,
    left: &mut u64,
) -> Result<(), Kind>
    requires { K.called sink.old + left.old ≤ 2 ^ 64 - 1 }
    ensures served { (kept : List ℕ) → session.old ≡ reading kept → IsUnfinished kept
        → RepliesWritten result (kept ++ piece.now) session.new site.old site.new
        (K.taken sink.old) (K.taken sink.new) left.old left.new
        (K.failed sink.old) (K.failed sink.new) }
    ensures turns { K.called sink.new + left.new ≡ K.called sink.old + left.old }
    ensures fewer { left.new ≤ left.old }
    ensures sound { OnOk result (K.failed sink.new ≡ K.failed sink.old) }
{
    out.clear();
    let mut rest = piece;
    while !rest.is_empty() {
        let (part, behind) = rest.split_at(session.missing().min(rest.len()));
        serve_part(session, site, part, out, sink, left)?;
        rest = behind;
    }
    write_all(sink, out, left)
}

/// Serves what is whole with this part of a piece, and writes the replies where they are many.
fn serve_part<K: Sink>(
    session: &mut Session,
    site: &mut Replica,
    part: &[u8],
    out: &mut Vec<u8>,
    sink: &mut K,
    left: &mut u64,
) -> Result<(), Kind>
    requires { K.called sink.old + left.old ≤ 2 ^ 64 - 1 }
    ensures served { (stream : List ℕ) (start : Table) (taken : Option (List ℕ)) (turns : ℕ)
        → IsPartServed stream session.old start site.old out.old.items taken (K.taken sink.old)
        turns left.old
        → ServesOrStops result (stream ++ part.now) session.new start site.new out.new.items
        taken (K.taken sink.new) turns left.new (K.failed sink.old) (K.failed sink.new) }
    ensures turns { K.called sink.new + left.new ≡ K.called sink.old + left.old }
    ensures fewer { left.new ≤ left.old }
    ensures sound { OnOk result (K.failed sink.new ≡ K.failed sink.old) }
{
    let fed = session.feed(site, part, out);
    if fed.is_err() || out.len() >= MANY {
        write_all(sink, out, left)?;
        out.clear();
    }
    fed
}

/// Writes bytes, each time all that is left of them, while there are turns.
fn write_all<K: Sink>(sink: &mut K, bytes: &[u8], left: &mut u64) -> Result<(), Kind>
    requires { K.called sink.old + left.old ≤ 2 ^ 64 - 1 }
    ensures written { (front back : List ℕ) × (bytes.now ≡ front ++ back)
        × Appends (K.taken sink.old) (K.taken sink.new) front × OnOk result (back ≡ [])
        × Moves left.old left.new (K.failed sink.old) (K.failed sink.new) front }
    ensures turns { K.called sink.new + left.new ≡ K.called sink.old + left.old }
    ensures fewer { left.new ≤ left.old }
    ensures sound { OnOk result (K.failed sink.new ≡ K.failed sink.old) }
    ensures fault { IfErr result (λ kind. IsWriteFault kind left.new (K.failed sink.old)
        (K.failed sink.new)) }
{
    let mut rest = bytes;
    while !rest.is_empty() {
        if *left == 0 {
            return Err(Kind::TurnsUsed);
        }
        *left -= 1;
        let Ok(count) = sink.write(rest) else {
            return Err(Kind::Device);
        };
        rest = &rest[count..];
    }
    Ok(())
}
