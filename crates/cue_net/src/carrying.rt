ghost use Rattle.std.specs.Prelude.{◌≡◌, ◌⊎◌, ◌+◌, ◌-◌, ◌^◌, ◌<◌, ◌≤◌, ◌++◌, ℕ, List, length, OnOk};
ghost use Rattle.std.specs.Prelude.{IfErr};
ghost use Rattle.std.specs.Io.KnownBytes.{Appends, Consumes};
ghost use Rattle.cue_net.specs.Halts.{IsDeviceNetError, IsMemoryNetError};
ghost use Rattle.cue_net.specs.Inner.Hearing.{FeedsClient, FindsLongFrame};
ghost use Rattle.cue_net.specs.Inner.Looping.{IsCarryHalt, ServesOnto, Faults, CarriedBack};
ghost use Rattle.cue_net.specs.Inner.Turns.{Moves};

use crate::halt::NetError;
use crate::pushing::feed_client;
use crate::turns::{read_some, write_some};
use cue_device::{Sink, Source};
use cue_replica::{Kind, Replica};
use cue_wire::{Client, PIECE, Session};

/// The serving end: a site and its session, and the replies that are still to be written.
#[derive(Drop)]
pub struct Serving {
    pub site: Replica,
    pub session: Session,
    pub out: Vec<u8>,
}

/// Reads just so many bytes, and serves all frames that are whole with them.
pub fn serve_so_many<S: Source>(
    source: &mut S,
    serving: &mut Serving,
    count: usize,
    left: &mut u64,
) -> Result<(), NetError>
    requires { S.called source.old + left.old ≤ 2 ^ 64 - 1 }
    ensures read { (read : List ℕ) × Appends (S.given source.old) (S.given source.new) read
        × Consumes (S.to_come source.old) (S.to_come source.new) read
        × OnOk result ((length read ≡ count) × ServesOnto serving.old.session serving.new.session
        serving.old.site serving.new.site serving.old.out.items serving.new.out.items read)
        × IfErr result (λ halt. IsCarryHalt halt left.new (S.to_come source.new)
        (length read < count) (S.failed source.old) (S.failed source.new)
        (Faults serving.old.session read))
        × Moves result left.old left.new (length read) }
    ensures turns { S.called source.new + left.new ≡ S.called source.old + left.old }
    ensures fewer { left.new ≤ left.old }
    ensures sound { OnOk result (S.failed source.new ≡ S.failed source.old) }
{
    let mut piece = [0u8; PIECE];
    let mut got = 0usize;
    while got < count {
        let most = (count - got).min(PIECE);
        let room = &mut piece[..most];
        let some = read_some(source, room, left)?;
        serve_piece(serving, &room[..some])?;
        got += some;
    }
    Ok(())
}

/// Serves what is whole with this piece, and adds the replies to those to be written.
fn serve_piece(serving: &mut Serving, piece: &[u8]) -> Result<(), NetError>
    ensures ok { OnOk result (ServesOnto serving.old.session serving.new.session
        serving.old.site serving.new.site serving.old.out.items serving.new.out.items piece.now) }
    ensures err { IfErr result (λ halt. IsMemoryNetError halt
        ⊎ (IsDeviceNetError halt × Faults serving.old.session piece.now)) }
{
    match serving
        .session
        .feed(&mut serving.site, piece, &mut serving.out)
    {
        Ok(()) => Ok(()),
        Err(Kind::Memory) => Err(NetError::Refused(Kind::Memory)),
        Err(_) => Err(NetError::Device),
    }
}

/// Writes all these bytes at one end, some at a time, each of which the client reads at the other
/// before the next are written.
pub fn carry_replies<S: Source, K: Sink>(
    sink: &mut K,
    source: &mut S,
    bytes: &[u8],
    hearing: &mut Client,
    left: &mut u64,
) -> Result<(), NetError>
    requires reads { S.called source.old + left.old ≤ 2 ^ 64 - 1 }
    requires writes { K.called sink.old + left.old ≤ 2 ^ 64 - 1 }
    ensures brought { CarriedBack result bytes.now hearing.old hearing.new (S.given source.old)
        (S.given source.new) (S.to_come source.old) (S.to_come source.new)
        (K.taken sink.old) (K.taken sink.new) left.old left.new
        (S.failed source.old + K.failed sink.old) (S.failed source.new + K.failed sink.new) }
    ensures turns { S.called source.new + K.called sink.new + left.new
        ≡ S.called source.old + K.called sink.old + left.old }
    ensures reads { S.called source.old ≤ S.called source.new }
    ensures writes { K.called sink.old ≤ K.called sink.new }
    ensures sound { OnOk result (S.failed source.new + K.failed sink.new
        ≡ S.failed source.old + K.failed sink.old) }
{
    let mut rest = bytes;
    while !rest.is_empty() {
        let most = rest.len().min(PIECE);
        let count = write_some(sink, &rest[..most], left)?;
        feed_exactly(source, hearing, count, left)?;
        rest = &rest[count..];
    }
    Ok(())
}

/// Reads just so many bytes, and hands them to the client.
fn feed_exactly<S: Source>(
    source: &mut S,
    hearing: &mut Client,
    count: usize,
    left: &mut u64,
) -> Result<(), NetError>
    requires { S.called source.old + left.old ≤ 2 ^ 64 - 1 }
    ensures read { (read : List ℕ) × Appends (S.given source.old) (S.given source.new) read
        × Consumes (S.to_come source.old) (S.to_come source.new) read
        × OnOk result ((length read ≡ count) × FeedsClient hearing.old hearing.new read)
        × IfErr result (λ halt. IsCarryHalt halt left.new (S.to_come source.new)
        (length read < count) (S.failed source.old) (S.failed source.new)
        (FindsLongFrame hearing.old read))
        × Moves result left.old left.new (length read) }
    ensures turns { S.called source.new + left.new ≡ S.called source.old + left.old }
    ensures fewer { left.new ≤ left.old }
    ensures sound { OnOk result (S.failed source.new ≡ S.failed source.old) }
{
    let mut piece = [0u8; PIECE];
    let mut got = 0usize;
    while got < count {
        let most = (count - got).min(PIECE);
        let room = &mut piece[..most];
        let some = read_some(source, room, left)?;
        feed_client(hearing, &room[..some])?;
        got += some;
    }
    Ok(())
}
