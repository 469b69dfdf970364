//! The reply that tells the state of a site.

ghost use Rattle.std.specs.Prelude.{◌≡◌, ◌++◌, ◌<◌, ℕ, List, length, OnOk, OnErr};
ghost use Rattle.cue_replica.specs.Language.{language};
ghost use Rattle.cue_wire.specs.Frames.{frame_limit};
ghost use Rattle.cue_wire.specs.Serving.{accepted_reply, IsReply};
ghost use Rattle.cue_wire.specs.Inner.Pieces.{AppendsBytes};

use crate::frame::{FRAME_LIMIT, PIECE};
use crate::reply::{begin, refuse};
use cue_replica::{Kind, Memory, Refusal, Replica, StateWriter};

/// Adds the reply to the question for the state of a site. That it is too long is told by its size
/// alone; else its bytes are written straight behind its length, without a copy of them all.
///
/// # Errors
///
/// `Memory`, and then nothing is added.
pub fn add_state_reply(site: &Replica, out: &mut Vec<u8>) -> Result<(), Memory>
    ensures ok { OnOk result ((reply : List ℕ) × IsReply (language.written site.now) reply
        × (out.new.items ≡ out.old.items ++ reply)) }
    ensures err { OnErr result (out.new.items ≡ out.old.items) }
{
    let size = site.state_size();
    if size >= FRAME_LIMIT as u64 {
        return refuse(out, Refusal::at(Kind::ReplyTooLong, 0));
    }
    let before = out.len();
    match add_state(site, size as usize, out) {
        Ok(()) => Ok(()),
        Err(memory) => {
            out.truncate(before);
            Err(memory)
        }
    }
}

/// Adds the reply that tells a state of so many bytes.
///
/// # Errors
///
/// `Memory`, where some of it may stand there.
fn add_state(site: &Replica, len: usize, out: &mut Vec<u8>) -> Result<(), Memory>
    requires size { len ≡ length (language.written site.now) }
    requires short { len < frame_limit }
    ensures ok { OnOk result (out.new.items
        ≡ out.old.items ++ accepted_reply (language.written site.now)) }
    ensures err { OnErr result (AppendsBytes out.old.items out.new.items) }
{
    begin(out, len)?;
    let mut writer = site.state_writer()?;
    add_rest(&mut writer, out)
}

/// Adds all bytes that a writer has left, a piece at a time.
///
/// # Errors
///
/// `Memory`, where some of them may stand there.
fn add_rest(writer: &mut StateWriter<'_>, out: &mut Vec<u8>) -> Result<(), Memory>
    ensures ok { OnOk result (out.new.items ≡ out.old.items ++ writer.old) }
    ensures err { OnErr result (AppendsBytes out.old.items out.new.items) }
{
    let mut piece = [0u8; PIECE];
    loop {
        let count = writer.fill(&mut piece)?;
        out.extend_from_slice(&piece[..count])?;
        if count < PIECE {
            return Ok(());
        }
    }
}
