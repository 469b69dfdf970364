//! Several connections over sockets of this process, served one after the other.

use cue_net::{Port, serve_from};
use cue_replica::Status;
use std::io;
use std::io::{Read, Write};
use std::net::{Ipv4Addr, Net, Shutdown, SocketAddr, TcpListener, TcpStream};
use std::test::Fail;
use std::time::Duration;

/// How long a turn waits for its peer.
fn patience() -> Duration {
    Duration::from_secs(60)
}

/// A connection that has sent these bytes, and sends no more.
pub fn sent<H>(rt: &H, address: SocketAddr, bytes: &[u8]) -> io::Result<TcpStream>
where
    H: AllocGlobal + Net<Listener = TcpListener, Stream = TcpStream>,
{
    let stream = TcpStream::connect(rt, address)?;
    (&stream).write_all(bytes)?;
    stream.shutdown(Shutdown::Write)?;
    Ok(stream)
}

/// All that comes back.
pub fn heard<H: AllocGlobal>(rt: &H, stream: &TcpStream) -> io::Result<Vec<u8>> {
    let mut all = Vec::new(rt.alloc());
    (&*stream).read_to_end(&mut all)?;
    Ok(all)
}

/// A text that is sent in a frame.
pub const TEXT: [u8; 10] = *b"\0\0\0\x06\x01a: 1\n";

/// The reply to a text that is accepted.
pub const ACCEPTED: [u8; 5] = *b"\0\0\0\x01\0";

#[test]
fn five_connections(rt: HostRuntime) -> Result<(), Fail> {
    let listener = TcpListener::bind(&rt, (Ipv4Addr::LOCALHOST, 0))?;
    let address = listener.local_addr()?;
    let first = sent(&rt, address, &TEXT)?;
    let cut = sent(&rt, address, b"\0\0\0\x06\x01b: ")?;
    let silent = sent(&rt, address, b"")?;
    let no_frame = sent(&rt, address, b"\x01\0\0\x01 and more")?;
    let last = sent(&rt, address, b"\0\0\0\x06\x01c: 2\n\0\0\0\0")?;
    let answer = match serve_from(&rt, &mut Port::new(listener, patience()), 5) {
        Ok(answer) => answer,
        Err(_) => return Ok(assert!(rt; false)),
    };
    assert_eq!(rt; answer.bytes.as_slice(), b"{\"a\":1,\"c\":2}\n".as_slice());
    assert_eq!(rt; answer.status, Status::Done);
    assert_eq!(rt; heard(&rt, &first)?.as_slice(), ACCEPTED.as_slice());
    assert!(rt; heard(&rt, &cut)?.is_empty());
    assert!(rt; heard(&rt, &silent)?.is_empty());
    assert!(rt; heard(&rt, &no_frame)?.is_empty());
    let replies = b"\0\0\0\x01\0\0\0\0\x09\x14\0\0\0\0\0\0\0\0";
    assert_eq!(rt; heard(&rt, &last)?.as_slice(), replies.as_slice());
    Ok(())
}

#[test]
fn a_peer_that_is_gone(rt: HostRuntime) -> Result<(), Fail> {
    let listener = TcpListener::bind(&rt, (Ipv4Addr::LOCALHOST, 0))?;
    let address = listener.local_addr()?;
    for _ in 0..2 {
        let stream = TcpStream::connect(&rt, address)?;
        (&stream).write_all(&TEXT)?;
    }
    let last = sent(&rt, address, &TEXT)?;
    match serve_from(&rt, &mut Port::new(listener, patience()), 3) {
        Ok(answer) => assert_eq!(rt; answer.bytes.as_slice(), b"{\"a\":1}\n".as_slice()),
        Err(_) => assert!(rt; false),
    }
    assert_eq!(rt; heard(&rt, &last)?.as_slice(), ACCEPTED.as_slice());
    Ok(())
}

#[test]
fn no_connection(rt: HostRuntime) -> Result<(), Fail> {
    let listener = TcpListener::bind(&rt, (Ipv4Addr::LOCALHOST, 0))?;
    match serve_from(&rt, &mut Port::new(listener, patience()), 0) {
        Ok(answer) => assert_eq!(rt; answer.status, Status::Incomplete),
        Err(_) => assert!(rt; false),
    }
    Ok(())
}

/// One says nothing, and one stops in the middle of a frame: each holds the others up for as long
/// as a turn may wait, and what was acknowledged stands.
#[test]
fn peers_that_wait_hold_nobody_up(rt: HostRuntime) -> Result<(), Fail> {
    let listener = TcpListener::bind(&rt, (Ipv4Addr::LOCALHOST, 0))?;
    let address = listener.local_addr()?;
    let first = sent(&rt, address, &TEXT)?;
    let silent = TcpStream::connect(&rt, address)?;
    let half = TcpStream::connect(&rt, address)?;
    (&half).write_all(b"\0\0\0\x06\x01b: 2\n\0\0\0\x06\x01")?;
    let last = sent(&rt, address, b"\0\0\0\x06\x01c: 3\n")?;
    match serve_from(&rt, &mut Port::new(listener, Duration::from_millis(50)), 4) {
        Ok(answer) => {
            assert_eq!(rt;
                answer.bytes.as_slice(),
                b"{\"a\":1,\"b\":2,\"c\":3}\n".as_slice()
            );
        }
        Err(_) => assert!(rt; false),
    }
    for stream in [&first, &half, &last] {
        assert_eq!(rt; heard(&rt, stream)?.as_slice(), ACCEPTED.as_slice());
    }
    assert!(rt; heard(&rt, &silent)?.is_empty());
    Ok(())
}
