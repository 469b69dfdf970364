//! Readers and writers that fail, and how often one is read.
use crate::runs::{acted, owned};
use cue_command::act;
use cue_program::{FileSystem, Output};
use std::io;
use std::io::{ErrorKind, Read, Write};
use std::net::{Net, TcpListener, TcpStream};
use std::test::Fail;

/// A reader and a writer that fail.
#[derive(Drop)]
struct Broken;

impl Read for Broken {
    fn read(&mut self, _buf: &mut [u8]) -> io::Result<usize> {
        Err(io::Error::from(ErrorKind::Other))
    }
}

impl Write for Broken {
    fn write(&mut self, _buf: &[u8]) -> io::Result<usize> {
        Err(io::Error::from(ErrorKind::Other))
    }

    fn flush(&mut self) -> io::Result<()> {
        Ok(())
    }
}

/// A reader of empty lines that gives one byte at a time.
#[derive(Drop)]
struct Drip {
    left: usize,
}

impl Read for Drip {
    fn read(&mut self, buf: &mut [u8]) -> io::Result<usize> {
        if self.left == 0 || buf.is_empty() {
            return Ok(0);
        }
        buf[0] = b'\n';
        self.left -= 1;
        Ok(1)
    }
}

/// A writer whose bytes never get out.
#[derive(Drop)]
struct Stuck;

impl Write for Stuck {
    fn write(&mut self, buf: &[u8]) -> io::Result<usize> {
        Ok(buf.len())
    }

    fn flush(&mut self) -> io::Result<()> {
        Err(io::Error::from(ErrorKind::Other))
    }
}

/// Exports what the reader gives, and answers how that ended.
fn exported<H, R: Read, W: Write>(
    rt: &mut H,
    input: &mut R,
    out: &mut W,
    faults: &mut Vec<u8>,
) -> Result<u8, Fail>
where
    H: AllocGlobal + FileSystem + Net<Listener = TcpListener, Stream = TcpStream>,
{
    let words = owned(rt.alloc(), &["export"])?;
    Ok(act(
        rt,
        &words,
        input,
        &mut Output::new(out),
        &mut Output::new(faults),
    ))
}

/// Whether an export from this reader to this writer tells that a device failed.
fn tells_a_fault<H, R: Read, W: Write>(rt: &mut H, input: &mut R, out: &mut W) -> Result<bool, Fail>
where
    H: AllocGlobal + FileSystem + Net<Listener = TcpListener, Stream = TcpStream>,
{
    let mut faults = Vec::new(rt.alloc());
    let status = exported(rt, input, out, &mut faults)?;
    Ok(status == 4 && faults.as_slice() == b"device fault\n".as_slice())
}

/// Whether an export from a reader that fails tells it, and writes nothing.
fn tells_a_failing_reader<H>(rt: &mut H) -> Result<bool, Fail>
where
    H: AllocGlobal + FileSystem + Net<Listener = TcpListener, Stream = TcpStream>,
{
    let mut out = Vec::new(rt.alloc());
    Ok(tells_a_fault(rt, &mut Broken, &mut out)? && out.is_empty())
}

/// Whether an export of this text to a writer that fails tells it.
fn tells_a_failing_writer<H>(rt: &mut H, text: &str) -> Result<bool, Fail>
where
    H: AllocGlobal + FileSystem + Net<Listener = TcpListener, Stream = TcpStream>,
{
    tells_a_fault(rt, &mut text.as_bytes(), &mut Broken)
}

#[test]
fn tells_failing_devices(mut rt: HostRuntime) -> Result<(), Fail> {
    assert!(rt; tells_a_failing_reader(&mut rt)?);
    assert!(rt; tells_a_failing_writer(&mut rt, "a: 1\n")?);
    assert!(rt; tells_a_failing_writer(&mut rt, "a 1\n")?);
    Ok(())
}

/// Whether an export of this text tells that its bytes do not get out.
fn tells_a_stuck_writer<H>(rt: &mut H, text: &str) -> Result<bool, Fail>
where
    H: AllocGlobal + FileSystem + Net<Listener = TcpListener, Stream = TcpStream>,
{
    tells_a_fault(rt, &mut text.as_bytes(), &mut Stuck)
}

#[test]
fn tells_bytes_that_do_not_get_out(mut rt: HostRuntime) -> Result<(), Fail> {
    assert!(rt; tells_a_stuck_writer(&mut rt, "a: 1\n")?);
    assert!(rt; tells_a_stuck_writer(&mut rt, "a: ]\n")?);
    Ok(())
}

/// Whether the export of so many empty lines, each read for itself, ends with this status, and
/// prints this.
fn drips<H>(rt: &mut H, left: usize, status: u8, out: &str) -> Result<bool, Fail>
where
    H: AllocGlobal + FileSystem + Net<Listener = TcpListener, Stream = TcpStream>,
{
    let words = owned(rt.alloc(), &["export"])?;
    let run = acted(rt, &words, &mut Drip { left });
    Ok(run.is(status, out.as_bytes(), b""))
}

#[test]
fn reads_so_often_and_no_more(mut rt: HostRuntime) -> Result<(), Fail> {
    assert!(rt; drips(&mut rt, 65_535, 0, "{}\n")?);
    assert!(rt; drips(&mut rt, 65_536, 1, "refused 21 TurnsUsed\n")?);
    Ok(())
}
