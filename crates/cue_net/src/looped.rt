ghost use Rattle.std.specs.Prelude.{◌≡◌, ◌+◌, ◌-◌, ◌^◌, ◌≤◌, ℕ, List, [], flat_map, All, OnOk};
ghost use Rattle.std.specs.Prelude.{IfOk, IfErr};
ghost use Rattle.cue_replica.specs.Language.{empty_site};
ghost use Rattle.cue_wire.specs.Clients.{request_frame, IsSendable};
ghost use Rattle.cue_wire.specs.Connections.{moment_of};
ghost use Rattle.cue_wire.specs.Sessions.{reading};
ghost use Rattle.cue_net.specs.Doors.{ConversesOver, IsLooping};
ghost use Rattle.cue_net.specs.Halts.{IsMemoryNetError};
ghost use Rattle.cue_net.specs.Inner.Looping.{ExchangedFrames};
ghost use Rattle.cue_net.specs.Loops.{IsAnswerBetween, both_ends};
ghost use Rattle.cue_net.specs.Sockets.{IsTalkAnswer};
ghost use Rattle.cue_net.specs.Talks.{Talk, IsTalk};

use crate::MAX_TURNS;
use crate::carrying::{Serving, carry_replies, serve_so_many};
use crate::halt::NetError;
use crate::network::{End, Network};
use crate::pushing::{all_fit, client_of};
use crate::told::answer_of_replies;
use crate::turns::write_some;
use cue_device::{Sink, Source};
use cue_replica::{Answer, Kind, Replica};
use cue_wire::{Client, PIECE, Request, Session};
use std::alloc::Global;

/// Does as `push_for` with both ends in this process, over a new connection between them, in turns:
/// the client's end writes at most 4,096 bytes, the site's end reads them and writes its whole
/// answer, and the client's end reads that. There are at most 100,000 reads and writes, those of
/// both ends together.
///
/// # Errors
///
/// As `push_for`.
pub fn loop_for<H>(rt: &H, inputs: &[Request]) -> Result<Answer, NetError>
where
    H: AllocGlobal + Network,
    ensures looped { IsLooping (H.joins rt.now) (ConversesOver (moment_of H.Input.given
        H.Input.to_come H.Output.taken H.Input.called H.Output.called H.Input.failed
        H.Output.failed) inputs.now result) (H.fails rt.now) inputs.now result }
    ensures answer { IsTalkAnswer inputs.now result }
{
    if !all_fit(inputs) {
        return Err(NetError::Refused(Kind::FrameTooLong));
    }
    let (mut near, mut far) = rt.join()?;
    converse(rt.alloc(), &mut near, &mut far, inputs, MAX_TURNS)
}

/// Does as `push_for` from the near end, with a new site at the far end, in so many turns, those of
/// both ends together.
///
/// # Errors
///
/// As `push_for`.
pub fn converse<S: Source, K: Sink>(
    alloc: Global,
    near: &mut End<S, K>,
    far: &mut End<S, K>,
    inputs: &[Request],
    turns: u64,
) -> Result<Answer, NetError>
    requires near { (S.called near.old.source + turns ≤ 2 ^ 64 - 1)
        × (K.called near.old.sink + turns ≤ 2 ^ 64 - 1) }
    requires far { (S.called far.old.source + turns ≤ 2 ^ 64 - 1)
        × (K.called far.old.sink + turns ≤ 2 ^ 64 - 1) }
    ensures answer { let at = moment_of S.given S.to_come K.taken S.called K.called S.failed
        K.failed in
        let before = both_ends at near.old.source near.old.sink far.old.source far.old.sink in
        let after = both_ends at near.new.source near.new.sink far.new.source far.new.sink in
        (here there : Talk) × IsTalk here before.near after.near × IsTalk there before.far after.far
        × IsAnswerBetween result inputs.now here there turns before after }
    ensures turns { S.called near.new.source + K.called near.new.sink
        + S.called far.new.source + K.called far.new.sink
        ≤ S.called near.old.source + K.called near.old.sink
        + S.called far.old.source + K.called far.old.sink + turns }
{
    if !all_fit(inputs) {
        return Err(NetError::Refused(Kind::FrameTooLong));
    }
    let mut hearing = client_of(alloc, &[])?;
    let mut serving = new_site(alloc)?;
    let mut left = turns;
    exchange(
        alloc,
        near,
        far,
        inputs,
        &mut hearing,
        &mut serving,
        &mut left,
    )?;
    let question = [Request::AskExport];
    exchange(
        alloc,
        near,
        far,
        &question,
        &mut hearing,
        &mut serving,
        &mut left,
    )?;
    answer_of_replies(alloc, hearing.replies(), inputs.len())
}

/// A new site, and a session that was sent nothing.
fn new_site(alloc: Global) -> Result<Serving, NetError>
    ensures site { IfOk result (λ serving. serving.site ≡ empty_site) }
    ensures session { IfOk result (λ serving. serving.session ≡ reading []) }
    ensures err { IfErr result IsMemoryNetError }
{
    let session = Session::new(alloc)?;
    Ok(Serving {
        site: Replica::new(alloc),
        session,
        out: Vec::new(alloc),
    })
}

/// Sends requests from the near end, some bytes at a time. The far end reads and serves these, and
/// all its replies are read, before the next are sent.
fn exchange<S: Source, K: Sink>(
    alloc: Global,
    near: &mut End<S, K>,
    far: &mut End<S, K>,
    requests: &[Request],
    hearing: &mut Client,
    serving: &mut Serving,
    left: &mut u64,
) -> Result<(), NetError>
    requires fits { All IsSendable requests.now }
    requires near { (S.called near.old.source + left.old ≤ 2 ^ 64 - 1)
        × (K.called near.old.sink + left.old ≤ 2 ^ 64 - 1) }
    requires far { (S.called far.old.source + left.old ≤ 2 ^ 64 - 1)
        × (K.called far.old.sink + left.old ≤ 2 ^ 64 - 1) }
    ensures exchanged { ExchangedFrames result (flat_map request_frame requests.now) hearing.old
        hearing.new serving.old.session serving.new.session serving.old.site serving.new.site
        (S.given near.old.source) (S.given near.new.source)
        (S.to_come near.old.source) (S.to_come near.new.source)
        (K.taken near.old.sink) (K.taken near.new.sink)
        (S.given far.old.source) (S.given far.new.source)
        (S.to_come far.old.source) (S.to_come far.new.source)
        (K.taken far.old.sink) (K.taken far.new.sink) left.old left.new
        (S.failed near.old.source + K.failed near.old.sink + S.failed far.old.source
        + K.failed far.old.sink)
        (S.failed near.new.source + K.failed near.new.sink + S.failed far.new.source
        + K.failed far.new.sink) }
    ensures turns { S.called near.new.source + K.called near.new.sink
        + S.called far.new.source + K.called far.new.sink + left.new
        ≡ S.called near.old.source + K.called near.old.sink
        + S.called far.old.source + K.called far.old.sink + left.old }
    ensures more { (S.called near.old.source ≤ S.called near.new.source)
        × (K.called near.old.sink ≤ K.called near.new.sink)
        × (S.called far.old.source ≤ S.called far.new.source)
        × (K.called far.old.sink ≤ K.called far.new.sink) }
    ensures sound { OnOk result (S.failed near.new.source + K.failed near.new.sink
        + S.failed far.new.source + K.failed far.new.sink
        ≡ S.failed near.old.source + K.failed near.old.sink
        + S.failed far.old.source + K.failed far.old.sink) }
{
    let asking = client_of(alloc, requests)?;
    let mut rest = asking.outgoing();
    while !rest.is_empty() {
        let most = rest.len().min(PIECE);
        let count = write_some(&mut near.sink, &rest[..most], left)?;
        serving.out.clear();
        serve_so_many(&mut far.source, serving, count, left)?;
        carry_replies(&mut far.sink, &mut near.source, &serving.out, hearing, left)?;
        rest = &rest[count..];
    }
    Ok(())
}
