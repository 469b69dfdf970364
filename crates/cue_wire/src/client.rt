ghost use Rattle.std.specs.Prelude.{◌≡◌, ◌⊎◌, ◌++◌, ◌∷◌, ◌≤◌, ℕ, List, [], Vec, drop, length};
ghost use Rattle.std.specs.Prelude.{flat_map, All, IfOk, IfErr, OnOk, OnErr};
ghost use Rattle.std.specs.Global.{Global};
ghost use Rattle.cue_wire.specs.Frames.{frame_of, IsBody, HasFault, StopsAtFrame};
ghost use Rattle.cue_wire.specs.Clients.{request_frame, IsSendable, ClientHasTaken, all_items};
ghost use Rattle.cue_wire.specs.Inner.Pieces.{Gains, AppendsBytes};

use crate::Request;
use crate::frame::{FRAME_LIMIT, cut_frame};
use crate::want::{memory_kind, want_of};
use bytes::BytesMut;
use cue_replica::{Kind, Memory};
use std::alloc::Global;
use std::marker::Model;

/// The asking end of a connection: it has the frames of its requests to send, and takes the stream
/// of replies in pieces, cut anywhere.
///
/// Contracts see it as what it has to send, the bodies of the replies, and the bytes behind the
/// last whole reply.
#[derive(Drop)]
pub struct Client {
    outgoing: Vec<u8>,
    replies: Vec<Vec<u8>>,
    unread: BytesMut,
    alloc: Global,
}

impl Model for Client {
    ghost use Rattle.cue_wire.specs.Clients.{ClientExchange, all_items};

    ghost Value = { ClientExchange };

    ghost view = { λ client. record {
      outgoing = client.outgoing.items;
      replies = all_items client.replies.items;
      rest = client.unread.items;
    } };
}

impl Client {
    /// A client with these requests to send, in order, that was fed nothing.
    ///
    /// # Errors
    ///
    /// `FrameTooLong` where a request has more bytes than a frame may have, and `Memory`.
    pub fn new(alloc: Global, requests: &[Request]) -> Result<Client, Kind>
        ensures outgoing { IfOk result (λ client.
            client.outgoing ≡ flat_map request_frame requests.now) }
        ensures fits { OnOk result (All IsSendable requests.now) }
        ensures taken { IfOk result (λ client. ClientHasTaken client []) }
        ensures err { IfErr result (λ kind. (kind ≡ Kind.Memory) ⊎ ((kind ≡ Kind.FrameTooLong)
            × (All IsSendable requests.now → ⊥))) }
    {
        let mut outgoing = Vec::new(alloc);
        for request in requests {
            push_frame(&mut outgoing, request)?;
        }
        Ok(Client {
            outgoing,
            replies: Vec::new(alloc),
            unread: BytesMut::new(alloc),
            alloc,
        })
    }

    /// The frames of the requests, to be sent.
    pub fn outgoing(&self) -> &[u8]
        ensures { result.now ≡ self.now.outgoing }
    {
        self.outgoing.as_slice()
    }

    /// The bodies of the replies so far, one for each frame that is whole.
    pub fn replies(&self) -> &[Vec<u8>]
        ensures { all_items result.now ≡ self.now.replies }
    {
        self.replies.as_slice()
    }

    /// Takes the next piece of the stream of replies. After a refusal the client is as before.
    ///
    /// # Errors
    ///
    /// `FrameTooLong` where the bytes behind the last whole frame name a length that no frame has,
    /// and `Memory`.
    pub fn feed(&mut self, piece: &[u8]) -> Result<(), Kind>
        ensures ok { OnOk result ((stream : List ℕ) → ClientHasTaken self.old stream
            → ClientHasTaken self.new (stream ++ piece.now)) }
        ensures long { IfErr result (λ kind. (kind ≡ Kind.Memory) ⊎ ((kind ≡ Kind.FrameTooLong)
            × ((stream : List ℕ) → ClientHasTaken self.old stream → HasFault (stream ++ piece.now)))) }
        ensures err { OnErr result (self.new ≡ self.old) }
        ensures outgoing { self.new.outgoing ≡ self.old.outgoing }
    {
        let had = self.replies.len();
        let kept = self.unread.len();
        let fed = take_piece(self.alloc, &mut self.unread, piece, &mut self.replies);
        if fed.is_err() {
            self.replies.truncate(had);
            self.unread.truncate(kept);
        }
        fed
    }
}

/// Adds the frame of a request.
fn push_frame(out: &mut Vec<u8>, request: &Request) -> Result<(), Kind>
    ensures ok { OnOk result ((out.new.items ≡ out.old.items ++ request_frame request.now)
        × IsSendable request.now) }
    ensures err { IfErr result (λ kind. (kind ≡ Kind.Memory) ⊎ ((kind ≡ Kind.FrameTooLong)
        × (IsSendable request.now → ⊥))) }
{
    match request {
        Request::Text(text) => push_body(out, 1, text.as_bytes()),
        Request::State(bytes) => push_body(out, 2, bytes.as_slice()),
        Request::AskState => push_body(out, 3, &[]),
        Request::AskExport => push_body(out, 4, &[]),
        Request::AskReport => push_body(out, 5, &[]),
        Request::AskPrint => push_body(out, 6, &[]),
    }
}

/// Adds a frame with this first byte of its body and these behind it.
fn push_body(out: &mut Vec<u8>, first: u8, rest: &[u8]) -> Result<(), Kind>
    ensures ok { OnOk result ((out.new.items ≡ out.old.items ++ frame_of (first ∷ rest.now))
        × IsBody (first ∷ rest.now)) }
    ensures err { IfErr result (λ kind. (kind ≡ Kind.Memory) ⊎ ((kind ≡ Kind.FrameTooLong)
        × (IsBody (first ∷ rest.now) → ⊥))) }
{
    if rest.len() >= FRAME_LIMIT {
        return Err(Kind::FrameTooLong);
    }
    write_body(out, first, rest).map_err(memory_kind)
}

fn write_body(out: &mut Vec<u8>, first: u8, rest: &[u8]) -> Result<(), Memory>
    requires fits { IsBody (first ∷ rest.now) }
    ensures ok { OnOk result (out.new.items ≡ out.old.items ++ frame_of (first ∷ rest.now)) }
{
    out.extend_from_slice(&(rest.len() as u32 + 1).to_be_bytes())?;
    out.push(first)?;
    out.extend_from_slice(rest)?;
    Ok(())
}

/// Adds the bodies of the frames that are whole with the next piece of the stream, and keeps what
/// comes behind them. After a refusal what was there stands before what was added.
fn take_piece(
    alloc: Global,
    unread: &mut BytesMut,
    piece: &[u8],
    replies: &mut Vec<Vec<u8>>,
) -> Result<(), Kind>
    ensures { (rest : List ℕ) × StopsAtFrame result rest
        × OnOk result (unread.new.items ≡ rest)
        × OnErr result (AppendsBytes unread.old.items unread.new.items)
        × Gains (unread.old.items ++ piece.now) rest replies.old.items replies.new.items }
{
    if let Err(error) = unread.extend_from_slice(piece) {
        return Err(want_of(error));
    }
    let used = read_frames(alloc, unread.as_slice(), replies)?;
    unread.advance(used);
    Ok(())
}

/// Adds the bodies of the whole frames at the front, and tells how many bytes these take.
fn read_frames(alloc: Global, stream: &[u8], replies: &mut Vec<Vec<u8>>) -> Result<usize, Kind>
    ensures { (rest : List ℕ) × StopsAtFrame result rest
        × IfOk result (λ used. (used ≤ length stream.now) × (drop used stream.now ≡ rest))
        × Gains stream.now rest replies.old.items replies.new.items }
{
    let mut rest = stream;
    while let Some((body, behind)) = cut_frame(rest)? {
        push_copy(alloc, replies, body).map_err(memory_kind)?;
        rest = behind;
    }
    Ok(stream.len() - rest.len())
}

/// Adds a copy of a body.
fn push_copy(alloc: Global, replies: &mut Vec<Vec<u8>>, body: &[u8]) -> Result<(), Memory>
    ensures ok { OnOk result ((copy : Vec ℕ Global) × (copy.items ≡ body.now)
        × (replies.new.items ≡ replies.old.items ++ copy ∷ [])) }
    ensures err { OnErr result (replies.new.items ≡ replies.old.items) }
{
    let copy = Vec::from_slice(alloc, body)?;
    replies.push(copy)?;
    Ok(())
}
