//! Sites that are served over devices that fail: what a site has accepted then, and what comes of
//! the same requests sent again.
use crate::hostile::sites::{are_same, site_of, taken};
use crate::hostile::states::CLASH;
use cue_replica::{Kind, Refusal, Replica};
use cue_wire::{Bytes, Ended, Reader, Writer, serve};
use std::alloc::Global;
use std::io;
use std::io::{ErrorKind, Read, Write};
use std::test::Fail;

/// Two texts and the question for the export, and where each frame ends.
const REQUESTS: [u8; 25] = *b"\0\0\0\x06\x01a: 1\n\0\0\0\x06\x01b: 2\n\0\0\0\x01\x04";

/// Their replies.
const REPLIES: [u8; 29] = *b"\0\0\0\x01\0\0\0\0\x01\0\0\0\0\x0f\0\0{\"a\":1,\"b\":2}";

/// A reader of bytes that gives one a call, and fails at their end.
#[derive(Drop)]
struct Torn<'b> {
    rest: &'b [u8],
}

impl<'b> Read for Torn<'b> {
    fn read(&mut self, buf: &mut [u8]) -> io::Result<usize> {
        let count = self.rest.len().min(buf.len()).min(1);
        if count == 0 {
            return Err(io::Error::from(ErrorKind::Other));
        }
        buf[..count].copy_from_slice(&self.rest[..count]);
        self.rest = &self.rest[count..];
        Ok(count)
    }
}

/// A writer that takes so many bytes, one a call, and then fails.
#[derive(Drop)]
struct Narrow {
    taken: Vec<u8>,
    left: usize,
}

impl Write for Narrow {
    fn write(&mut self, buf: &[u8]) -> io::Result<usize> {
        let count = buf.len().min(self.left).min(1);
        if count == 0 {
            return Err(io::Error::from(ErrorKind::Other));
        }
        self.taken.extend_from_slice(&buf[..count])?;
        self.left -= count;
        Ok(count)
    }

    fn flush(&mut self) -> io::Result<()> {
        Ok(())
    }
}

/// What all frames say that are whole in the front of the requests.
fn said(count: usize) -> &'static str {
    match count {
        0..10 => "",
        10..20 => "a: 1\n",
        _ => "a: 1\nb: 2\n",
    }
}

/// A site that has accepted what these frames say, or nothing.
fn site_after(alloc: Global, count: usize) -> Result<Replica, Refusal> {
    if count < 10 {
        return Ok(Replica::new(alloc));
    }
    site_of(alloc, said(count))
}

/// How a site ends that is served from a reader to a writer.
fn served<R: Read + Drop, W: Write + Drop>(
    alloc: Global,
    site: &mut Replica,
    input: R,
    output: W,
) -> Result<Ended, Kind> {
    serve(
        alloc,
        &mut Reader::new(input),
        &mut Writer::new(output),
        site,
        1_000,
    )
}

/// Whether a site whose reader fails after so many bytes has accepted just the whole frames.
fn has_whole_frames(alloc: Global, count: usize) -> Result<bool, Refusal> {
    let mut site = Replica::new(alloc);
    let rest = REQUESTS.get(..count).unwrap_or(&[]);
    let out: Vec<u8> = Vec::new(alloc);
    let ended = served(alloc, &mut site, Torn { rest }, out);
    let wanted = site_after(alloc, count)?;
    Ok(ended == Err(Kind::Device) && are_same(&site, &wanted))
}

#[test]
fn a_reader_that_fails_leaves_what_was_whole(rt: HostRuntime) -> Result<(), Fail> {
    for count in 0..26usize {
        assert!(rt; has_whole_frames(rt.alloc(), count)?, "after {count} bytes");
    }
    Ok(())
}

/// Serves all requests to a writer that fails after so many bytes, and answers whether it told that
/// the device failed.
fn fails_after(alloc: Global, site: &mut Replica, left: usize) -> bool {
    let output = Narrow {
        taken: Vec::new(alloc),
        left,
    };
    served(alloc, site, REQUESTS.as_slice(), output) == Err(Kind::Device)
}

/// Whether all requests have their replies.
fn replies_whole(alloc: Global, site: &mut Replica) -> bool {
    let mut source = Bytes::new(&REQUESTS);
    let mut sink = Writer::new(Vec::new(alloc));
    let ended = serve(alloc, &mut source, &mut sink, site, 1_000);
    ended == Ok(Ended { whole: true }) && sink.into_inner().as_slice() == REPLIES.as_slice()
}

/// Whether a site whose writer fails after so many bytes has accepted all requests, and whether
/// these change nothing where they are sent again, and have all their replies.
fn is_sent_again(alloc: Global, left: usize) -> Result<bool, Refusal> {
    let mut site = Replica::new(alloc);
    let failed = fails_after(alloc, &mut site, left);
    let wanted = site_after(alloc, REQUESTS.len())?;
    let applied = are_same(&site, &wanted);
    let replied = replies_whole(alloc, &mut site);
    Ok(failed && applied && replied && are_same(&site, &wanted))
}

#[test]
fn what_was_applied_is_sent_again(rt: HostRuntime) -> Result<(), Fail> {
    for left in 0..REPLIES.len() {
        assert!(rt; is_sent_again(rt.alloc(), left)?, "after {left} bytes");
    }
    Ok(())
}

/// Five times the question for the report.
const QUESTIONS: [u8; 25] =
    *b"\0\0\0\x01\x05\0\0\0\x01\x05\0\0\0\x01\x05\0\0\0\x01\x05\0\0\0\x01\x05";

/// A writer that takes all that it is given, and remembers how much that was, and the most at once.
#[derive(Drop)]
struct Measured {
    all: usize,
    most: usize,
}

impl Write for Measured {
    fn write(&mut self, buf: &[u8]) -> io::Result<usize> {
        self.all = self.all.saturating_add(buf.len());
        self.most = self.most.max(buf.len());
        Ok(buf.len())
    }

    fn flush(&mut self) -> io::Result<()> {
        Ok(())
    }
}

/// Whether long replies to what one read brought are written one by one.
fn writes_long_replies_alone(alloc: Global) -> Result<bool, Refusal> {
    let mut site = taken(alloc, CLASH)?;
    let mut sink = Writer::new(Measured { all: 0, most: 0 });
    let ended = serve(
        alloc,
        &mut Bytes::new(&QUESTIONS),
        &mut sink,
        &mut site,
        1_000,
    );
    let written = sink.into_inner();
    Ok(
        ended == Ok(Ended { whole: true })
            && written.most > 1_000_000
            && written.all / 5 == written.most,
    )
}

#[test]
fn long_replies_are_written_one_by_one(rt: HostRuntime) -> Result<(), Fail> {
    assert!(rt; writes_long_replies_alone(rt.alloc())?);
    Ok(())
}
