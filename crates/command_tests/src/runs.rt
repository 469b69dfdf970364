//! Runs over words and an input: what they write, and how they end.
use cue_command::act;
use cue_program::{FileSystem, Output};
use std::alloc::Global;
use std::io::Read;
use std::net::{Net, TcpListener, TcpStream};
use std::test::Fail;

/// What a run wrote, and how it ended.
#[derive(Drop)]
pub struct Run {
    pub status: u8,
    pub out: Vec<u8>,
    pub faults: Vec<u8>,
}

impl Run {
    /// One that ended with this status, and wrote this.
    pub fn of(status: u8, out: Output<Vec<u8>>, faults: Output<Vec<u8>>) -> Run {
        Run {
            status,
            out: out.into_inner(),
            faults: faults.into_inner(),
        }
    }

    /// Whether it ended with this status, and wrote just this.
    pub fn is(&self, status: u8, out: &[u8], faults: &[u8]) -> bool {
        self.status == status && self.out.as_slice() == out && self.faults.as_slice() == faults
    }
}

/// The words as the program takes them.
pub fn owned(alloc: Global, words: &[&str]) -> Result<Vec<String>, Fail> {
    let mut owned = Vec::new(alloc);
    for word in words {
        owned.push(String::from_str(alloc, word)?)?;
    }
    Ok(owned)
}

/// The run over these words and this input. No contract says what it writes, so that the proof of a
/// caller is short.
pub fn acted<H, R: Read>(rt: &mut H, words: &[String], input: &mut R) -> Run
where
    H: AllocGlobal + FileSystem + Net<Listener = TcpListener, Stream = TcpStream>,
{
    let mut out = Output::new(Vec::new(rt.alloc()));
    let mut faults = Output::new(Vec::new(rt.alloc()));
    let status = act(rt, words, input, &mut out, &mut faults);
    Run::of(status, out, faults)
}

pub fn ran<H>(rt: &mut H, words: &[&str], mut input: &[u8]) -> Result<Run, Fail>
where
    H: AllocGlobal + FileSystem + Net<Listener = TcpListener, Stream = TcpStream>,
{
    let words = owned(rt.alloc(), words)?;
    Ok(acted(rt, &words, &mut input))
}

/// Whether a run over these words and this input ends with this status, and writes this.
pub fn answers<H>(
    rt: &mut H,
    words: &[&str],
    input: &[u8],
    status: u8,
    out: &str,
    faults: &str,
) -> Result<bool, Fail>
where
    H: AllocGlobal + FileSystem + Net<Listener = TcpListener, Stream = TcpStream>,
{
    let run = ran(rt, words, input)?;
    Ok(run.is(status, out.as_bytes(), faults.as_bytes()))
}

/// Whether a run over these words and this input ends well and writes just these bytes.
pub fn writes<H>(rt: &mut H, words: &[&str], input: &[u8], bytes: &[u8]) -> Result<bool, Fail>
where
    H: AllocGlobal + FileSystem + Net<Listener = TcpListener, Stream = TcpStream>,
{
    let run = ran(rt, words, input)?;
    Ok(run.is(0, bytes, b""))
}

/// Whether the export of these texts ends with this status, and prints this.
pub fn exports<H>(rt: &mut H, texts: &str, status: u8, out: &str) -> Result<bool, Fail>
where
    H: AllocGlobal + FileSystem + Net<Listener = TcpListener, Stream = TcpStream>,
{
    exports_bytes(rt, texts.as_bytes(), status, out)
}

/// Whether the export of these bytes ends with this status, and prints this.
pub fn exports_bytes<H>(rt: &mut H, bytes: &[u8], status: u8, out: &str) -> Result<bool, Fail>
where
    H: AllocGlobal + FileSystem + Net<Listener = TcpListener, Stream = TcpStream>,
{
    answers(rt, &["export"], bytes, status, out, "")
}

/// The state bytes of a site that has taken these texts.
pub fn state_of<H>(rt: &mut H, texts: &str) -> Result<Vec<u8>, Fail>
where
    H: AllocGlobal + FileSystem + Net<Listener = TcpListener, Stream = TcpStream>,
{
    Ok(ran(rt, &["state"], texts.as_bytes())?.out)
}
