//! The sockets of `mio`, as the runtime of the rounds.

ghost use Rattle.std.specs.Prelude.{◌≡◌, ◌<◌, ◌↔◌, [], flat_map, IsTrue};
ghost use Rattle.cue_http.specs.Noted.{read_bytes, written_bytes};

use cue_rounds::{Accepted, ClientStream, Runtime, SourceStream, StreamFault};
use http_server::{Connection, Log};
use mio::net::{TcpListener, TcpStream};
use mio::{Interest, Poll, Token};
use std::io::{ErrorKind, Read, Write};
use std::net::{Net, SocketAddr, ToSocketAddrs};
use std::random::RandomSource;

/// The token of the listener. That of a client's connection is one more than the number of its place.
pub(crate) const LISTENER: usize = 0;

/// The token of the connection to the source with this number.
fn token_of(number: usize) -> usize {
    usize::MAX.saturating_sub(number)
}

/// Whether a token is that of a client's connection, where there are so many sources.
pub(crate) fn is_of_client(token: usize, sources: usize) -> bool
    ensures { IsTrue result → LISTENER < token }
{
    token > LISTENER && token < token_of(sources)
}

/// What a call of a socket says that failed so.
fn fault_of(kind: ErrorKind) -> StreamFault
    ensures blocks { (result ≡ StreamFault.WouldBlock) ↔ (kind ≡ ErrorKind.WouldBlock) }
    ensures interrupted { (result ≡ StreamFault.Interrupted) ↔ (kind ≡ ErrorKind.Interrupted) }
{
    match kind {
        ErrorKind::WouldBlock => StreamFault::WouldBlock,
        ErrorKind::Interrupted => StreamFault::Interrupted,
        _ => StreamFault::Broken,
    }
}

/// So of a socket that may not be connected yet.
fn source_fault_of(kind: ErrorKind) -> StreamFault {
    match kind {
        ErrorKind::NotConnected => StreamFault::WouldBlock,
        _ => fault_of(kind),
    }
}

/// The socket of a client, and notes of its reads and writes, for proofs alone.
#[derive(Drop)]
pub(crate) struct ClientSocket {
    stream: TcpStream,
    reads: Log<Connection, usize>,
    writes: Log<Connection, usize>,
}

impl ClientSocket {
    fn new(stream: TcpStream) -> ClientSocket
        ensures { result.writes.items ≡ [] }
    {
        ClientSocket {
            stream,
            reads: Log::new(),
            writes: Log::new(),
        }
    }
}

impl ClientStream for ClientSocket {
    ghost arrived = { λ socket. flat_map read_bytes socket.reads.items };

    ghost written = { λ socket. flat_map written_bytes socket.writes.items };

    fn fill(&mut self, connection: &mut Connection, most: usize) -> Result<usize, StreamFault> {
        let mut part = (&self.stream).take(most as u64);
        match connection.read_from(&mut part) {
            Ok(count) => {
                self.reads = self.reads.and(connection, &count);
                Ok(count)
            }
            Err(error) => Err(fault_of(error.kind())),
        }
    }

    fn skip(&mut self) -> Result<usize, StreamFault> {
        let mut rest = [0u8; 64];
        match self.stream.read(&mut rest) {
            Ok(count) => Ok(count),
            Err(error) => Err(fault_of(error.kind())),
        }
    }

    fn drain(&mut self, connection: &mut Connection) -> Result<usize, StreamFault> {
        match self.stream.write(connection.output()) {
            Ok(count) => {
                self.writes = self.writes.and(connection, &count);
                connection.sent(count);
                Ok(count)
            }
            Err(error) => Err(fault_of(error.kind())),
        }
    }
}

/// The socket of a source.
#[derive(Drop)]
pub(crate) struct SourceSocket {
    stream: TcpStream,
}

impl SourceStream for SourceSocket {
    fn read(&mut self, into: &mut [u8]) -> Result<usize, StreamFault> {
        match self.stream.read(into) {
            Ok(count) => Ok(count),
            Err(error) => Err(source_fault_of(error.kind())),
        }
    }

    fn write(&mut self, bytes: &[u8]) -> Result<usize, StreamFault> {
        match self.stream.write(bytes) {
            Ok(count) => Ok(count),
            Err(error) => Err(source_fault_of(error.kind())),
        }
    }
}

/// The listener, and what wakes the loop.
#[derive(Drop)]
pub(crate) struct Sockets<'a, H> {
    pub(crate) rt: &'a H,
    pub(crate) poll: Poll,
    pub(crate) listener: TcpListener,
}

impl<'a, H: AllocGlobal + Net + RandomSource> Runtime for Sockets<'a, H> {
    type Client = ClientSocket;

    type Source = SourceSocket;

    fn accept(&mut self) -> Accepted<ClientSocket> {
        match self.listener.accept() {
            Ok((stream, _)) => Accepted::Connection(ClientSocket::new(stream)),
            Err(error) => refusal_of(error.kind()),
        }
    }

    fn watch(&mut self, client: &mut ClientSocket, place: usize) -> bool {
        let _asked = client.stream.set_nodelay(true);
        let token = Token(place.saturating_add(1));
        let both = Interest::READABLE | Interest::WRITABLE;
        let registered = self
            .poll
            .registry()
            .register(&mut client.stream, token, both);
        registered.is_ok()
    }

    /// It asks the system, which may ask others, and waits until it has answered.
    fn look_up(&mut self, host: &str) -> Option<SocketAddr> {
        match host.to_socket_addrs(self.rt) {
            Ok(mut addresses) => addresses.next(),
            Err(_) => None,
        }
    }

    fn connect(&mut self, number: usize, at: SocketAddr) -> Result<SourceSocket, StreamFault> {
        let Ok(mut stream) = TcpStream::connect(self.rt, at) else {
            return Err(StreamFault::Broken);
        };
        let both = Interest::READABLE | Interest::WRITABLE;
        let token = Token(token_of(number));
        match self.poll.registry().register(&mut stream, token, both) {
            Ok(()) => Ok(SourceSocket { stream }),
            Err(_) => Err(StreamFault::Broken),
        }
    }

    fn draw(&mut self) -> u8 {
        let mut draw = [0u8; 1];
        match self.rt.fill_bytes(&mut draw) {
            Ok(()) => draw[0],
            Err(_) => 0,
        }
    }
}

/// What an `accept` that failed so says of those that wait: that none does, where it would block, and
/// else that one does.
fn refusal_of(kind: ErrorKind) -> Accepted<ClientSocket>
    ensures empty { (result ≡ Accepted.Empty) ↔ (kind ≡ ErrorKind.WouldBlock) }
    ensures refused { (result ≡ Accepted.Refused) ↔ ¬ (kind ≡ ErrorKind.WouldBlock) }
{
    match kind {
        ErrorKind::WouldBlock => Accepted::Empty,
        _ => Accepted::Refused,
    }
}
