//! The network of the system, over TCP.

ghost use Rattle.std.specs.Prelude.{◌≡◌, IfOk};
ghost use Rattle.cue_device.specs.Streams.{reader_calls, writer_calls};

use crate::network::{End, Network};
use cue_device::{Fault, Reader, Writer};
use std::io::{self, Write};
use std::net::{Ipv4Addr, Net, Shutdown, TcpListener, TcpStream};
use std::time::Duration;

/// How many seconds a read waits for the peer before it fails, and a write before it takes no more.
const PATIENCE: u64 = 60;

/// How many seconds a write waits behind one that has waited before.
const HURRY: u64 = 1;

/// A port of the system that is listened on.
#[derive(Drop)]
pub struct Port {
    listener: TcpListener,
    patience: Duration,
}

impl Port {
    /// The port of this listener. A read or a write of its connections that waits for the peer for
    /// longer than this fails.
    pub fn new(listener: TcpListener, patience: Duration) -> Port {
        Port { listener, patience }
    }
}

/// The way out over a socket whose writes wait for the peer for a limited time. The system ends a
/// write that has waited for so long as one that took a part. From then on a write waits for a
/// second alone, so that a peer that reads nothing holds nobody up for several such waits.
#[derive(Drop)]
pub struct Outward {
    stream: TcpStream,
    is_hurried: bool,
}

impl Outward {
    /// The way out over this stream.
    fn new(stream: TcpStream) -> Outward {
        Outward {
            stream,
            is_hurried: false,
        }
    }
}

impl Write for Outward {
    fn write(&mut self, bytes: &[u8]) -> io::Result<usize> {
        let count = self.stream.write(bytes)?;
        if count < bytes.len() && !self.is_hurried {
            self.is_hurried = true;
            let _asked = self
                .stream
                .set_write_timeout(Some(Duration::from_secs(HURRY)));
        }
        Ok(count)
    }

    fn flush(&mut self) -> io::Result<()> {
        self.stream.flush()
    }
}

/// An end of a connection over a socket, which it has twice, to read and to write.
type Socket = End<Reader<TcpStream>, Writer<Outward>>;

/// The ports of the system. Of what its calls come to the toolchain tells nothing, so that these
/// few lines are to be read.
impl<H: Net<Listener = TcpListener, Stream = TcpStream>> Network for H {
    type Door = Port;

    type Input = Reader<TcpStream>;

    type Output = Writer<Outward>;

    ghost opens = { λ _ _ _. Unit {0} };

    ghost lets_in = { λ _ _ _ _ _. Unit {0} };

    ghost reaches = { λ _ _ _ _. Unit {0} };

    ghost joins = { λ _ _ _ _ _. Unit {0} };

    ghost fails = { λ _. Unit {0} };

    fn open(&self, port: u16) -> Result<Port, Fault> {
        let listener = check_call(TcpListener::bind(self, (Ipv4Addr::LOCALHOST, port)))?;
        Ok(Port::new(listener, Duration::from_secs(PATIENCE)))
    }

    fn accept(&self, door: &mut Port) -> Result<Socket, Fault> {
        let (stream, _) = check_call(door.listener.accept())?;
        end_of(stream, door.patience)
    }

    fn connect(&self, port: u16) -> Result<Socket, Fault> {
        let stream = check_call(TcpStream::connect(self, (Ipv4Addr::LOCALHOST, port)))?;
        end_of(stream, Duration::from_secs(PATIENCE))
    }

    /// Over a port that the system picks. Where another process is the first to come there, it
    /// fails.
    fn join(&self) -> Result<(Socket, Socket), Fault> {
        let patience = Duration::from_secs(PATIENCE);
        let listener = check_call(TcpListener::bind(self, (Ipv4Addr::LOCALHOST, 0)))?;
        let near = check_call(TcpStream::connect(self, check_call(listener.local_addr())?))?;
        let (far, from) = check_call(listener.accept())?;
        if from != check_call(near.local_addr())? {
            return Err(Fault);
        }
        Ok((end_of(near, patience)?, end_of(far, patience)?))
    }
}

/// What a call of the system came to.
fn check_call<T>(came: io::Result<T>) -> Result<T, Fault> {
    came.map_err(|_| Fault)
}

/// The end of a connection with this stream. Where the system sets its turns no limit of time, it
/// is shut, and so at its end.
///
/// # Errors
///
/// `Fault` where the stream can't be had twice.
fn end_of(stream: TcpStream, patience: Duration) -> Result<Socket, Fault>
    ensures { IfOk result (λ end. (reader_calls end.source ≡ 0) × (writer_calls end.sink ≡ 0)) }
{
    if set_up(&stream, patience).is_err() {
        let _shut = stream.shutdown(Shutdown::Both);
    }
    let other = check_call(stream.try_clone())?;
    Ok(End {
        source: Reader::new(stream),
        sink: Writer::new(Outward::new(other)),
    })
}

/// Asks the system to send what is written at once, and not to hold small pieces back until earlier
/// ones are acknowledged (Nagle's algorithm, RFC 9293, section 3.7.4): a site waits for requests
/// and a client for replies, so that a piece that is held back makes both wait. And to let no read
/// and no write wait longer than this for its peer, so that one that says nothing, or reads
/// nothing, holds nobody up for good.
///
/// # Errors
///
/// Where the system sets no limit of time.
fn set_up(stream: &TcpStream, patience: Duration) -> io::Result<()> {
    let _asked = stream.set_nodelay(true);
    stream.set_read_timeout(Some(patience))?;
    stream.set_write_timeout(Some(patience))
}
