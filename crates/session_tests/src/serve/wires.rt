//! A network in memory, with one port at which peers wait, or a site that replies.

ghost use Rattle.std.specs.Prelude.{◌≡◌, IfOk};
ghost use Rattle.cue_device.specs.Streams.{reader_calls, writer_calls};

use crate::serve::devices::{Input, Output};
use crate::serve::pushes::{Told, texts_of};
use cue_device::{Fault, Reader, Writer};
use cue_net::{End, NetError, Network, loop_for, push_for, serve_for};
use cue_replica::{Kind, Status};
use cue_wire::Request;
use std::alloc::Global;
use std::test::Fail;

/// One port, and what the peers there send, one after the other. A read moves so many bytes.
#[derive(Drop)]
struct Wires<'b> {
    alloc: Global,
    port: u16,
    peers: &'b [&'b [u8]],
    most: usize,
}

impl Alloc for Wires<'_> {
    type A = Global;

    fn alloc(&self) -> Global {
        self.alloc
    }
}

/// An end of a connection in memory.
type Wire<'b> = End<Reader<Input<'b>>, Writer<Output>>;

impl<'b> Wires<'b> {
    /// The end of a connection with the peer of this number, where there is one.
    fn wire(&self, peer: usize) -> Result<Wire<'b>, Fault>
        ensures { IfOk result (λ end. (reader_calls end.source ≡ 0) × (writer_calls end.sink ≡ 0)) }
    {
        let Some(sent) = self.peers.get(peer) else {
            return Err(Fault);
        };
        Ok(End {
            source: Reader::new(Input {
                rest: *sent,
                most: self.most,
                good: 1_000_000,
            }),
            sink: Writer::new(Output {
                written: Vec::new(self.alloc),
                most: 4096,
                good: 1_000_000,
            }),
        })
    }
}

impl<'b> Network for Wires<'b> {
    type Door = usize;

    type Input = Reader<Input<'b>>;

    type Output = Writer<Output>;

    ghost opens = { λ wires port door. port ≡ wires.port };

    ghost lets_in = { λ _ _ _ _ _. Unit {0} };

    ghost reaches = { λ wires port _ _. port ≡ wires.port };

    ghost joins = { λ _ _ _ _ _. ⊥ };

    ghost fails = { λ _. Unit {0} };

    fn open(&self, port: u16) -> Result<usize, Fault> {
        if port == self.port { Ok(0) } else { Err(Fault) }
    }

    fn accept(&self, door: &mut usize) -> Result<Wire<'b>, Fault> {
        let end = self.wire(*door)?;
        *door = door.saturating_add(1);
        Ok(end)
    }

    fn connect(&self, port: u16) -> Result<Wire<'b>, Fault> {
        if port == self.port {
            self.wire(0)
        } else {
            Err(Fault)
        }
    }

    fn join(&self) -> Result<(Wire<'b>, Wire<'b>), Fault> {
        Err(Fault)
    }
}

/// What four peers send.
const PEERS: [&[u8]; 4] = [
    b"\0\0\0\x06\x01a: 1\n",
    b"\0\0\0\x06\x01b: 2\n\0\0",
    b"\0\0\0\x06\x01c: 3\n",
    b"\0\0\0\x06\x01d: 4\n",
];

/// A network of these peers at port 7.
fn net_of<'b>(alloc: Global, peers: &'b [&'b [u8]], most: usize) -> Wires<'b> {
    Wires {
        alloc,
        port: 7,
        peers,
        most,
    }
}

#[test]
fn so_many_connections_at_this_port(rt: HostRuntime) {
    let net = net_of(rt.alloc(), &PEERS, 4096);
    let answer = serve_for(&net, 7, 3);
    let three = b"{\"a\":1,\"b\":2,\"c\":3}\n";
    assert!(rt; Told { answer }.prints(three, Status::Done));
    let elsewhere = serve_for(&net, 3, 7);
    assert!(rt; Told { answer: elsewhere }.halts(NetError::Device));
    let too_many = serve_for(&net, 7, 5);
    assert!(rt; Told { answer: too_many }.halts(NetError::Device));
}

/// A text of 2,000 bytes comes a byte a turn.
#[test]
fn a_connection_has_many_turns(rt: HostRuntime) -> Result<(), Fail> {
    let mut frame = Vec::from_slice(rt.alloc(), b"\0\0\x07\xd0\x01a: \"")?;
    let text = Vec::from_elem(rt.alloc(), b'x', 1_994)?;
    frame.extend_from_slice(&text)?;
    frame.push(b'"')?;
    let peers: [&[u8]; 1] = [&frame];
    let answer = serve_for(&net_of(rt.alloc(), &peers, 1), 7, 1);
    let Ok(answer) = answer else {
        return Ok(assert!(rt; false));
    };
    assert_eq!(rt; answer.bytes.len(), 2_003);
    assert_eq!(rt; answer.status, Status::Done);
    Ok(())
}

/// The site knows more than what is pushed to it.
#[test]
fn the_export_of_the_site_at_this_port(rt: HostRuntime) -> Result<(), Fail> {
    let replies: [&[u8]; 1] = [b"\0\0\0\x01\0\0\0\0\x0f\0\0{\"a\":1,\"z\":9}"];
    let net = net_of(rt.alloc(), &replies, 4096);
    let mut inputs = texts_of(rt.alloc(), &["a: 1\n"])?;
    let answer = push_for(&net, 7, &inputs);
    assert!(rt; Told { answer }.prints(b"{\"a\":1,\"z\":9}\n", Status::Done));
    let nobody = push_for(&net, 80, &inputs);
    assert!(rt; Told { answer: nobody }.halts(NetError::Device));
    let apart = loop_for(&net, &inputs);
    assert!(rt; Told { answer: apart }.halts(NetError::Device));
    inputs.push(Request::State(Vec::from_elem(rt.alloc(), 0u8, 16_777_216)?))?;
    let too_long = push_for(&net, 80, &inputs);
    assert!(rt; Told { answer: too_long }.halts(NetError::Refused(Kind::FrameTooLong)));
    Ok(())
}
