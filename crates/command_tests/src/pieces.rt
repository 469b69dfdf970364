//! States that are read and written in pieces.
use crate::disk::Entry;
use crate::files::{blank_pages, disk, ends, has, ran_over};
use crate::long_files::fields;
use crate::runs::{acted, answers, owned, ran};
use crate::states::ONE;
use std::alloc::Global;
use std::io;
use std::io::Read;
use std::test::Fail;

/// A reader that gives so many bytes a read.
#[derive(Drop)]
pub struct Slow<'a> {
    pub rest: &'a [u8],
    pub most: usize,
}

impl<'a> Read for Slow<'a> {
    fn read(&mut self, buf: &mut [u8]) -> io::Result<usize> {
        let count = buf.len().min(self.most);
        self.rest.read(&mut buf[..count])
    }
}

/// Whether the state of `a: 1` is taken from a file, and from standard input, that give so many
/// bytes a read.
fn takes_one_by(alloc: Global, most: usize) -> Result<bool, Fail> {
    let files = [("state", Entry::Slow(ONE, most))];
    let named = ran_over(alloc, &files, &["export", "state"], b"")?;
    let pages = blank_pages(alloc);
    let words = owned(alloc, &["state"])?;
    let mut input = Slow { rest: ONE, most };
    let streamed = acted(&mut disk(alloc, &[], &pages), &words, &mut input);
    Ok(named.is(0, b"{\"a\":1}\n", b"") && streamed.is(0, ONE, b""))
}

fn takes_one_by_any(alloc: Global) -> Result<bool, Fail> {
    for most in 1..=ONE.len() {
        if !takes_one_by(alloc, most)? {
            return Ok(false);
        }
    }
    Ok(true)
}

#[test]
fn a_state_is_read_in_pieces_of_every_size(rt: HostRuntime) -> Result<(), Fail> {
    assert!(rt; takes_one_by_any(rt.alloc())?);
    Ok(())
}

/// Whether a report on a file of this entry ends with this status, and prints this.
fn reports(alloc: Global, file: Entry, status: u8, out: &str, faults: &str) -> Result<bool, Fail> {
    let files = [("state", file)];
    let run = ran_over(alloc, &files, &["report", "state"], b"")?;
    Ok(run.is(status, out.as_bytes(), faults.as_bytes()))
}

/// These bytes, and zeros behind them up to so many.
fn padded(alloc: Global, front: &[u8], len: usize) -> Result<Vec<u8>, Fail> {
    let mut bytes = Vec::new(alloc);
    bytes.extend_from_slice(front)?;
    bytes.resize(len, 0)?;
    Ok(bytes)
}

/// Whether a fault of a state in front waits for the end of the file: where the file can't be read
/// to it, that is told.
fn reads_to_the_end(alloc: Global, mark: &[u8], refused: &str) -> Result<bool, Fail> {
    let short = padded(alloc, mark, 65_535)?;
    let bytes = padded(alloc, mark, 65_536)?;
    let used_up = "refused 21 TurnsUsed\n";
    Ok(
        reports(alloc, Entry::Bytes(&bytes), 1, refused, "")?
            && reports(alloc, Entry::Slow(&short, 1), 1, refused, "")?
            && reports(alloc, Entry::Slow(&bytes, 1), 1, used_up, "")?
            && reports(alloc, Entry::Cut(&bytes), 4, "", "device fault\n")?,
    )
}

#[test]
fn a_fault_of_a_state_waits_for_its_end(rt: HostRuntime) -> Result<(), Fail> {
    let alloc = rt.alloc();
    let no_state = "refused 18 NotState at 0 in 1\n";
    assert!(rt; reads_to_the_end(alloc, b"\xFE\x00", no_state)?);
    let version = "refused 17 Version at 0 in 1\n";
    assert!(rt; reads_to_the_end(alloc, b"\xFECUE\x09", version)?);
    Ok(())
}

/// The state of so many fields.
fn state_of_fields(alloc: Global, count: u32) -> Result<Vec<u8>, Fail> {
    let text = fields(alloc, count)?;
    let texts = [("text", Entry::Bytes(text.as_bytes()))];
    Ok(ran_over(alloc, &texts, &["state", "text"], b"")?.out)
}

/// Whether the state of so many fields, which has some pieces, is merged as it is printed.
fn merges_fields(alloc: Global, count: u32) -> Result<bool, Fail> {
    let state = state_of_fields(alloc, count)?;
    let files = [
        ("out", Entry::Bytes(&state)),
        ("a", Entry::Bytes(b"a0: 1\n")),
    ];
    let pages = blank_pages(alloc);
    pages.calls.set(100_000);
    let mut disk = disk(alloc, &files, &pages);
    let told = answers(&mut disk, &["merge", "out", "out", "a"], b"", 0, "", "")?;
    Ok(told && state.len() > 2 * 65_536 && has(&pages.bytes, &state))
}

#[test]
fn a_merge_reads_the_file_that_it_replaces(rt: HostRuntime) -> Result<(), Fail> {
    assert!(rt; merges_fields(rt.alloc(), 2_000)?);
    Ok(())
}

/// Whether a merge of the state of so many fields whose calls after so many fail spares the file at
/// `out`, and takes what it wrote beside it away.
fn spares(alloc: Global, state: &[u8], calls: usize) -> Result<bool, Fail> {
    let files = [("state", Entry::Bytes(state))];
    let pages = blank_pages(alloc);
    pages.calls.set(calls);
    let mut disk = disk(alloc, &files, &pages);
    let run = ran(&mut disk, &["merge", "out", "state"], b"")?;
    Ok(
        run.is(4, b"", b"device fault\n")
            && has(&pages.bytes, b"")
            && ends(&pages.log, b"write\nremove out.part\n"),
    )
}

/// Whether a merge spares the file at `out` whichever of its writes fails, by steps of 100.
fn spares_at_each_write(alloc: Global) -> Result<bool, Fail> {
    let state = state_of_fields(alloc, 2_000)?;
    for step in 0..state.len() / 5_000 {
        let calls = usize::saturating_add(4, usize::saturating_mul(step, 100));
        if !spares(alloc, &state, calls)? {
            return Ok(false);
        }
    }
    Ok(true)
}

#[test]
fn a_merge_whose_write_fails_spares_the_file(rt: HostRuntime) -> Result<(), Fail> {
    assert!(rt; spares_at_each_write(rt.alloc())?);
    Ok(())
}
