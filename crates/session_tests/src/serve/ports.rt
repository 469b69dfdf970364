//! What is done at a port, over sockets that were made before.

use crate::serve::pushes::{Told, texts_of};
use crate::serve::sockets::{ACCEPTED, TEXT, heard, sent};
use cue_net::{NetError, push_for, serve_for};
use cue_replica::{Kind, Status};
use cue_wire::Request;
use std::alloc::Global;
use std::io;
use std::io::{ErrorKind, Write};
use std::net::{Ipv4Addr, Net, Shutdown, SocketAddr, TcpListener, TcpStream};
use std::test::Fail;

/// A runtime that has these two at port 80 of this computer, and nothing elsewhere.
#[derive(Drop)]
struct Prepared<'a> {
    alloc: Global,
    listener: &'a TcpListener,
    stream: &'a TcpStream,
}

impl Alloc for Prepared<'_> {
    type A = Global;

    fn alloc(&self) -> Global {
        self.alloc
    }
}

/// Whether this is the port at which something stands.
fn at_port(address: SocketAddr) -> io::Result<()> {
    if address != SocketAddr::from((Ipv4Addr::LOCALHOST, 80)) {
        return Err(io::Error::from(ErrorKind::AddrNotAvailable));
    }
    Ok(())
}

impl Net for Prepared<'_> {
    type Stream = TcpStream;

    type Listener = TcpListener;

    fn bind(&self, address: SocketAddr) -> io::Result<TcpListener> {
        at_port(address)?;
        self.listener.try_clone()
    }

    fn connect(&self, address: SocketAddr) -> io::Result<TcpStream> {
        at_port(address)?;
        self.stream.try_clone()
    }
}

#[test]
fn a_connection_at_a_port_is_served(rt: HostRuntime) -> Result<(), Fail> {
    let listener = TcpListener::bind(&rt, (Ipv4Addr::LOCALHOST, 0))?;
    let stream = sent(&rt, listener.local_addr()?, &TEXT)?;
    let port = Prepared {
        alloc: rt.alloc(),
        listener: &listener,
        stream: &stream,
    };
    let answer = serve_for(&port, 80, 1);
    assert!(rt; Told { answer }.prints(b"{\"a\":1}\n", Status::Done));
    assert_eq!(rt; heard(&rt, &stream)?.as_slice(), ACCEPTED.as_slice());
    Ok(())
}

#[test]
fn a_port_that_the_system_picks(rt: HostRuntime) {
    let answer = serve_for(&rt, 0, 0);
    let line = b"incomplete . not a single value\n";
    assert!(rt; Told { answer }.prints(line, Status::Incomplete));
}

/// The replies stand in the connection before the requests do: nobody waits for them.
#[test]
fn an_input_is_pushed_to_a_port(rt: HostRuntime) -> Result<(), Fail> {
    let listener = TcpListener::bind(&rt, (Ipv4Addr::LOCALHOST, 0))?;
    let near = TcpStream::connect(&rt, listener.local_addr()?)?;
    let (far, _) = listener.accept()?;
    (&far).write_all(b"\0\0\0\x01\0\0\0\0\x09\0\0{\"a\":1}")?;
    let port = Prepared {
        alloc: rt.alloc(),
        listener: &listener,
        stream: &near,
    };
    let answer = push_for(&port, 80, &texts_of(rt.alloc(), &["a: 1\n"])?);
    assert!(rt; Told { answer }.prints(b"{\"a\":1}\n", Status::Done));
    near.shutdown(Shutdown::Write)?;
    let requests = b"\0\0\0\x06\x01a: 1\n\0\0\0\x01\x04";
    assert_eq!(rt; heard(&rt, &far)?.as_slice(), requests.as_slice());
    Ok(())
}

/// Nothing stands at port 81, and an input that no frame can hold is refused before that is found.
#[test]
fn sizes_are_looked_at_before_the_port(rt: HostRuntime) -> Result<(), Fail> {
    let listener = TcpListener::bind(&rt, (Ipv4Addr::LOCALHOST, 0))?;
    let stream = TcpStream::connect(&rt, listener.local_addr()?)?;
    let port = Prepared {
        alloc: rt.alloc(),
        listener: &listener,
        stream: &stream,
    };
    let mut inputs = texts_of(rt.alloc(), &["a: 1\n"])?;
    let nobody = push_for(&port, 81, &inputs);
    assert!(rt; Told { answer: nobody }.halts(NetError::Device));
    inputs.push(Request::State(Vec::from_elem(rt.alloc(), 0u8, 16_777_216)?))?;
    let refused = push_for(&port, 81, &inputs);
    assert!(rt; Told { answer: refused }.halts(NetError::Refused(Kind::FrameTooLong)));
    Ok(())
}
