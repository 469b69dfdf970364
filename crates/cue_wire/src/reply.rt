ghost use Rattle.std.specs.Prelude.{◌≡◌, ◌∷◌, ◌++◌, ◌+◌, ◌<◌, ◌≤◌, [], length, vec_len};
ghost use Rattle.std.specs.Prelude.{vec_capacity, OnOk, OnErr, IsOk, List, ℕ};
ghost use Rattle.std.specs.Int.{w32, to_be_bytes};
ghost use Rattle.cue_wire.specs.Frames.{frame_limit};
ghost use Rattle.cue_wire.specs.Serving.{refused_reply, IsReply};

use crate::frame::FRAME_LIMIT;
use cue_replica::{Kind, Memory, Refusal};

/// The bytes of the longest reply that says no more than whether something was accepted.
pub const SHORT_REPLY: usize = 13;

/// Adds the reply to what was accepted, with what is told in two parts.
///
/// # Errors
///
/// `Memory`, and then nothing is added.
pub fn accept(out: &mut Vec<u8>, front: &[u8], told: &[u8]) -> Result<(), Memory>
    ensures ok { OnOk result ((reply : List ℕ) × IsReply (front.now ++ told.now) reply
        × (out.new.items ≡ out.old.items ++ reply)) }
    ensures err { OnErr result (out.new.items ≡ out.old.items) }
    ensures room { vec_len out.old + SHORT_REPLY ≤ vec_capacity out.old
        → length front.now + length told.now ≤ 8 → IsOk result }
{
    let len = front.len().saturating_add(told.len());
    if len >= FRAME_LIMIT {
        return refuse(out, Refusal::at(Kind::ReplyTooLong, 0));
    }
    begin(out, len)?;
    out.extend_from_slice(front)?;
    out.extend_from_slice(told)?;
    Ok(())
}

/// Makes room for the whole reply that tells so many bytes, and adds what stands before these: its
/// length, and that something was accepted.
///
/// # Errors
///
/// `Memory`, and then nothing is added.
pub fn begin(out: &mut Vec<u8>, len: usize) -> Result<(), Memory>
    requires { len < frame_limit }
    ensures ok { OnOk result (out.new.items
        ≡ out.old.items ++ (to_be_bytes w32 (len + 1) ++ 0 ∷ [])) }
    ensures space { OnOk result (vec_len out.new + len ≤ vec_capacity out.new) }
    ensures err { OnErr result (out.new.items ≡ out.old.items) }
    ensures room { vec_len out.old + (len + 5) ≤ vec_capacity out.old → IsOk result }
{
    out.try_reserve(len + 5)?;
    out.extend_from_slice(&(len as u32 + 1).to_be_bytes())?;
    out.push(0)?;
    Ok(())
}

/// Adds the reply to what was refused.
///
/// # Errors
///
/// `Memory`, and then nothing is added.
pub fn refuse(out: &mut Vec<u8>, why: Refusal) -> Result<(), Memory>
    ensures ok { OnOk result (out.new.items ≡ out.old.items ++ refused_reply why) }
    ensures err { OnErr result (out.new.items ≡ out.old.items) }
    ensures room { vec_len out.old + SHORT_REPLY ≤ vec_capacity out.old → IsOk result }
{
    out.try_reserve(SHORT_REPLY)?;
    out.extend_from_slice(&9u32.to_be_bytes())?;
    out.push(why.kind.number())?;
    out.extend_from_slice(&why.place.to_be_bytes())?;
    Ok(())
}
