ghost use Rattle.std.specs.Prelude.{◌≡◌, ◌≢◌, ◌⊎◌, ◌↔◌, ◌+◌, ◌-◌, ◌^◌, ◌≤◌, ◌++◌, ℕ, List, []};
ghost use Rattle.std.specs.Prelude.{length};
ghost use Rattle.std.specs.Prelude.{flat_map, All, IsTrue, IfOk, IfErr, OnOk};
ghost use Rattle.std.specs.Io.KnownBytes.{Appends};
ghost use Rattle.cue_wire.specs.Clients.{request_frame, IsSendable, ClientHasTaken};
ghost use Rattle.cue_wire.specs.Connections.{moment_of};
ghost use Rattle.cue_net.specs.Doors.{IsPushing, TalksOver};
ghost use Rattle.cue_net.specs.Halts.{IsDeviceNetError, IsMemoryNetError, IsTooLongNetError};
ghost use Rattle.cue_net.specs.Inner.Hearing.{RequestsSent, RepliesRead, FeedsClient, FindsLongFrame};
ghost use Rattle.cue_net.specs.Sockets.{IsTalkAnswer};
ghost use Rattle.cue_net.specs.Talks.{Talk, IsTalk, IsAnswerInTalk};
ghost use Rattle.cue_net.specs.Inner.Turns.{IsWriteHalt, Moves};

use crate::MAX_TURNS;
use crate::halt::NetError;
use crate::network::Network;
use crate::told::answer_of_replies;
use crate::turns::{read_some, write_some};
use cue_device::{Sink, Source};
use cue_replica::{Answer, Kind};
use cue_wire::{Client, FRAME_LIMIT, PIECE, Request};
use std::alloc::Global;

/// How many requests are sent before their replies are read. These replies are short, so that a
/// site never waits for room to write them while it is still sent requests.
const GROUP: usize = 256;

/// Sends these inputs, in order, to the site that a process serves on this port of 127.0.0.1, asks
/// it for its export, and answers that as it is printed. There are at most 100,000 reads and
/// writes, and one that waits for the site for longer than 60 seconds fails.
///
/// # Errors
///
/// `RefusedInput` for the first input that the site refuses, after all others were sent too;
/// `RefusedExport` where it refuses to tell its export; `FrameTooLong` where a frame can't hold an
/// input, before it connects; `TurnsUsed` and `Memory`; `Device`, also where the replies end early
/// or are none of a site.
pub fn push_for<H>(rt: &H, port: u16, inputs: &[Request]) -> Result<Answer, NetError>
where
    H: AllocGlobal + Network,
    ensures pushed { IsPushing (H.reaches rt.now port) (TalksOver (moment_of H.Input.given
        H.Input.to_come H.Output.taken H.Input.called H.Output.called H.Input.failed
        H.Output.failed) inputs.now result) (H.fails rt.now) inputs.now result }
    ensures answer { IsTalkAnswer inputs.now result }
{
    if !all_fit(inputs) {
        return Err(NetError::Refused(Kind::FrameTooLong));
    }
    let mut end = rt.connect(port)?;
    push(
        rt.alloc(),
        &mut end.source,
        &mut end.sink,
        inputs,
        MAX_TURNS,
    )
}

/// Does as `push_for` over any connection, with so many turns, each a read or a write.
///
/// # Errors
///
/// As `push_for`.
pub fn push<S: Source, K: Sink>(
    alloc: Global,
    source: &mut S,
    sink: &mut K,
    inputs: &[Request],
    turns: u64,
) -> Result<Answer, NetError>
    requires reads { S.called source.old + turns ≤ 2 ^ 64 - 1 }
    requires writes { K.called sink.old + turns ≤ 2 ^ 64 - 1 }
    ensures answer { let at = moment_of S.given S.to_come K.taken S.called K.called S.failed
        K.failed in
        (talk : Talk) × IsTalk talk (at source.old sink.old) (at source.new sink.new)
        × IsAnswerInTalk result inputs.now talk turns (at source.old sink.old)
        (at source.new sink.new) }
    ensures turns { S.called source.new + K.called sink.new
        ≤ S.called source.old + K.called sink.old + turns }
{
    if !all_fit(inputs) {
        return Err(NetError::Refused(Kind::FrameTooLong));
    }
    let mut hearing = client_of(alloc, &[])?;
    let mut left = turns;
    push_inputs(alloc, source, sink, inputs, &mut hearing, &mut left)?;
    let count = inputs.len() + 1;
    let question = [Request::AskExport];
    ask(
        alloc,
        source,
        sink,
        &question,
        &mut hearing,
        count,
        &mut left,
    )?;
    answer_of_replies(alloc, hearing.replies(), inputs.len())
}

/// Sends inputs, a group at a time, and hears at least so many replies.
fn push_inputs<S: Source, K: Sink>(
    alloc: Global,
    source: &mut S,
    sink: &mut K,
    inputs: &[Request],
    hearing: &mut Client,
    left: &mut u64,
) -> Result<(), NetError>
    requires fits { All IsSendable inputs.now }
    requires reads { S.called source.old + left.old ≤ 2 ^ 64 - 1 }
    requires writes { K.called sink.old + left.old ≤ 2 ^ 64 - 1 }
    ensures asked { RequestsSent result (flat_map request_frame inputs.now) hearing.old hearing.new
        (length inputs.now) (S.given source.old) (S.given source.new)
        (S.to_come source.old) (S.to_come source.new) (K.taken sink.old) (K.taken sink.new)
        left.old left.new (S.failed source.old + K.failed sink.old)
        (S.failed source.new + K.failed sink.new) }
    ensures turns { S.called source.new + K.called sink.new + left.new
        ≡ S.called source.old + K.called sink.old + left.old }
    ensures reads { S.called source.old ≤ S.called source.new }
    ensures writes { K.called sink.old ≤ K.called sink.new }
    ensures sound { OnOk result (S.failed source.new + K.failed sink.new
        ≡ S.failed source.old + K.failed sink.old) }
{
    let mut asked = 0usize;
    let mut rest = inputs;
    while !rest.is_empty() {
        let most = rest.len().min(GROUP);
        let group = &rest[..most];
        asked += most;
        ask(alloc, source, sink, group, hearing, asked, left)?;
        rest = &rest[most..];
    }
    Ok(())
}

/// Whether a frame can hold each of these requests.
pub fn all_fit(requests: &[Request]) -> bool
    ensures { IsTrue result ↔ All IsSendable requests.now }
{
    for request in requests {
        if !fits(request) {
            return false;
        }
    }
    true
}

/// Whether a frame can hold a request: its bytes with the one before them.
fn fits(request: &Request) -> bool
    ensures { IsTrue result ↔ IsSendable request.now }
{
    match request {
        Request::Text(text) => text.len() < FRAME_LIMIT,
        Request::State(bytes) => bytes.len() < FRAME_LIMIT,
        _ => true,
    }
}

/// Sends requests, and reads until at least so many replies are there.
fn ask<S: Source, K: Sink>(
    alloc: Global,
    source: &mut S,
    sink: &mut K,
    requests: &[Request],
    hearing: &mut Client,
    count: usize,
    left: &mut u64,
) -> Result<(), NetError>
    requires fits { All IsSendable requests.now }
    requires reads { S.called source.old + left.old ≤ 2 ^ 64 - 1 }
    requires writes { K.called sink.old + left.old ≤ 2 ^ 64 - 1 }
    ensures asked { RequestsSent result (flat_map request_frame requests.now) hearing.old hearing.new
        count (S.given source.old) (S.given source.new)
        (S.to_come source.old) (S.to_come source.new) (K.taken sink.old) (K.taken sink.new)
        left.old left.new (S.failed source.old + K.failed sink.old)
        (S.failed source.new + K.failed sink.new) }
    ensures turns { S.called source.new + K.called sink.new + left.new
        ≡ S.called source.old + K.called sink.old + left.old }
    ensures reads { S.called source.old ≤ S.called source.new }
    ensures writes { K.called sink.old ≤ K.called sink.new }
    ensures sound { OnOk result (S.failed source.new + K.failed sink.new
        ≡ S.failed source.old + K.failed sink.old) }
{
    let asking = client_of(alloc, requests)?;
    send(sink, asking.outgoing(), left)?;
    receive(source, hearing, count, left)
}

/// A client with these requests to send, that was fed nothing.
pub fn client_of(alloc: Global, requests: &[Request]) -> Result<Client, NetError>
    ensures outgoing { IfOk result (λ client.
        client.outgoing ≡ flat_map request_frame requests.now) }
    ensures taken { IfOk result (λ client. ClientHasTaken client []) }
    ensures err { IfErr result (λ halt. IsMemoryNetError halt ⊎ (IsTooLongNetError halt
        × (All IsSendable requests.now → ⊥))) }
{
    Client::new(alloc, requests).map_err(NetError::Refused)
}

/// Writes bytes, each time all that is left of them, while there are turns.
fn send<K: Sink>(sink: &mut K, bytes: &[u8], left: &mut u64) -> Result<(), NetError>
    requires { K.called sink.old + left.old ≤ 2 ^ 64 - 1 }
    ensures sent { (front back : List ℕ) × (bytes.now ≡ front ++ back)
        × Appends (K.taken sink.old) (K.taken sink.new) front × OnOk result (back ≡ [])
        × IfErr result (λ _. back ≢ []) × Moves result left.old left.new (length front) }
    ensures turns { K.called sink.new + left.new ≡ K.called sink.old + left.old }
    ensures fewer { left.new ≤ left.old }
    ensures sound { OnOk result (K.failed sink.new ≡ K.failed sink.old) }
    ensures halt { IfErr result (λ halt. IsWriteHalt halt left.new
        (K.failed sink.old) (K.failed sink.new)) }
{
    let mut rest = bytes;
    while !rest.is_empty() {
        let count = write_some(sink, rest, left)?;
        rest = &rest[count..];
    }
    Ok(())
}

/// Reads until a client has at least so many replies.
fn receive<S: Source>(
    source: &mut S,
    hearing: &mut Client,
    count: usize,
    left: &mut u64,
) -> Result<(), NetError>
    requires { S.called source.old + left.old ≤ 2 ^ 64 - 1 }
    ensures heard { RepliesRead result hearing.old hearing.new count (S.given source.old)
        (S.given source.new) (S.to_come source.old) (S.to_come source.new) left.old left.new
        (S.failed source.old) (S.failed source.new) }
    ensures turns { S.called source.new + left.new ≡ S.called source.old + left.old }
    ensures fewer { left.new ≤ left.old }
    ensures sound { OnOk result (S.failed source.new ≡ S.failed source.old) }
{
    let mut piece = [0u8; PIECE];
    while hearing.replies().len() < count {
        let got = read_some(source, &mut piece, left)?;
        feed_client(hearing, &piece[..got])?;
    }
    Ok(())
}

/// Hands a client the next bytes of its replies.
pub fn feed_client(hearing: &mut Client, piece: &[u8]) -> Result<(), NetError>
    ensures ok { OnOk result (FeedsClient hearing.old hearing.new piece.now) }
    ensures err { IfErr result (λ halt. IsMemoryNetError halt
        ⊎ (IsDeviceNetError halt × FindsLongFrame hearing.old piece.now)) }
{
    match hearing.feed(piece) {
        Ok(()) => Ok(()),
        Err(Kind::Memory) => Err(NetError::Refused(Kind::Memory)),
        Err(_) => Err(NetError::Device),
    }
}
