//! Files that are named, in their order, those that fail, and the file that a merge writes.
use crate::disk::{Disk, Entry, Out};
use crate::runs::{Run, answers, ran, writes};
use crate::states::ONE;
use cue_program::FileSystem;
use std::alloc::Global;
use std::cell::{Cell, RefCell};
use std::test::Fail;

/// What a disk writes to: its log, the bytes at `out`, those beside it, and the calls that it
/// still takes.
#[derive(Drop)]
pub struct Pages {
    pub log: RefCell<Vec<u8>>,
    pub bytes: RefCell<Vec<u8>>,
    pub part: RefCell<Vec<u8>>,
    pub calls: Cell<usize>,
}

/// Nothing was written yet, and `out` is empty.
pub fn blank_pages(alloc: Global) -> Pages {
    Pages {
        log: RefCell::new(Vec::new(alloc)),
        bytes: RefCell::new(Vec::new(alloc)),
        part: RefCell::new(Vec::new(alloc)),
        calls: Cell::new(1_000),
    }
}

/// Files, beside a file `out`.
pub fn disk<'a>(alloc: Global, files: &'a [(&'a str, Entry<'a>)], pages: &'a Pages) -> Disk<'a> {
    Disk {
        alloc,
        words: &[],
        files,
        out: Out::File,
        calls: &pages.calls,
        log: &pages.log,
        bytes: &pages.bytes,
        part: &pages.part,
    }
}

/// Four texts, the state of `a: 1`, and a file that fails.
const FILES: &[(&str, Entry)] = &[
    ("a", Entry::Bytes(b"a: 1\n")),
    ("b", Entry::Bytes(b"b: int\n")),
    ("clash", Entry::Bytes(b"a: 2\n")),
    ("lines", Entry::Bytes(b"a: 1\n---\nb: 2\n")),
    ("state", Entry::Bytes(ONE)),
    ("wrong", Entry::Bytes(b"a: ]\n")),
    ("cut", Entry::Cut(b"a: 1\n")),
];

/// The run over these words, this input and files that are written nowhere else.
pub fn ran_over(
    alloc: Global,
    files: &[(&str, Entry)],
    words: &[&str],
    input: &[u8],
) -> Result<Run, Fail> {
    let pages = blank_pages(alloc);
    ran(&mut disk(alloc, files, &pages), words, input)
}

/// Whether a run over the files that these words name ends with this status, and prints this.
fn takes(alloc: Global, words: &[&str], status: u8, out: &str) -> Result<bool, Fail> {
    let run = ran_over(alloc, FILES, words, b"z: 9\n")?;
    Ok(run.is(status, out.as_bytes(), b""))
}

/// Words that name files, how a run over these ends, and what it prints.
const TAKEN: &[(&[&str], u8, &str)] = &[
    (&["export", "a", "state"], 0, "{\"a\":1}\n"),
    (
        &["export", "a", "b"],
        3,
        "incomplete b not a single value\n",
    ),
    (
        &["report", "b", "clash"],
        3,
        "incomplete b not a single value\n",
    ),
    (&["report", "state", "clash"], 2, "conflict a no value\n"),
    (&["report", "a", "--"], 0, ""),
    (
        &["export", "a", "lines"],
        1,
        "refused 9 LeftOut at 5 in 2\n",
    ),
    (
        &["export", "wrong", "none"],
        1,
        "refused 7 Syntax at 3 in 1\n",
    ),
    (
        &["report", "--", "clash", "b", "state"],
        2,
        "conflict a no value\nincomplete b not a single value\n",
    ),
];

#[test]
fn takes_files_in_their_order(rt: HostRuntime) -> Result<(), Fail> {
    for (words, status, out) in TAKEN {
        assert!(rt; takes(rt.alloc(), words, *status, out)?);
    }
    Ok(())
}

/// Whether just these bytes were written there.
pub fn has(written: &RefCell<Vec<u8>>, bytes: &[u8]) -> bool {
    match written.try_borrow() {
        Ok(written) => written.as_slice() == bytes,
        Err(_) => false,
    }
}

/// Whether merging these words' files, over what lies at `out`, writes the state of `a: 1` by these
/// calls.
fn merges(alloc: Global, out: Out, words: &[&str], input: &[u8], log: &str) -> Result<bool, Fail> {
    let pages = blank_pages(alloc);
    let mut disk = disk(alloc, FILES, &pages);
    disk.out = out;
    let told = answers(&mut disk, words, input, 0, "", "")?;
    Ok(told && has(&pages.bytes, ONE) && has(&pages.log, log.as_bytes()))
}

#[test]
fn writes_states(rt: HostRuntime) -> Result<(), Fail> {
    let alloc = rt.alloc();
    let pages = blank_pages(alloc);
    let mut disk = disk(alloc, FILES, &pages);
    assert!(rt; writes(&mut disk, &["state", "a"], b"z: 9\n", ONE)?);
    assert!(rt; writes(&mut disk, &["state"], b"a: 1\n", ONE)?);
    assert!(rt; has(&pages.log, b""));
    Ok(())
}

/// A file is replaced by a new one with its mode, which reached the disk.
const REPLACED: &str =
    "look at out\nnew out.part\nlook behind out\nmode\nwrite\nwrite\nsync\nmove out.part\n";

#[test]
fn a_merge_replaces_a_file(rt: HostRuntime) -> Result<(), Fail> {
    let alloc = rt.alloc();
    let words = ["merge", "out", "a", "state", "a"];
    assert!(rt; merges(alloc, Out::File, &words, b"", REPLACED)?);
    assert!(rt; merges(alloc, Out::File, &["merge", "out"], b"a: 1\n", REPLACED)?);
    let made = "look at out\nnew out.part\nwrite\nwrite\nsync\nmove out.part\n";
    assert!(rt; merges(alloc, Out::Nothing, &words, b"", made)?);
    let next = "look at out\nnew out.part\nnew out.part.part\nlook behind out\nmode\n\
                write\nwrite\nsync\nmove out.part.part\n";
    assert!(rt; merges(alloc, Out::FileAndPart, &words, b"", next)?);
    let in_place = "look at out\nopen out\nwrite\nwrite\n";
    assert!(rt; merges(alloc, Out::Special, &words, b"", in_place)?);
    Ok(())
}

#[test]
fn a_merge_replaces_the_file_that_a_link_leads_to(rt: HostRuntime) -> Result<(), Fail> {
    let log = "look at out\nlook behind out\nfollow out\nnew out.there.part\n\
               look behind out.there\nmode\nwrite\nwrite\nsync\nmove out.there.part\n";
    assert!(rt; merges(rt.alloc(), Out::Link, &["merge", "out", "a"], b"", log)?);
    Ok(())
}

/// What a merge does to `out` whose calls after so many fail: whether it tells it, leaves `out`
/// empty, as it was, and ends its log so.
fn spares(alloc: Global, out: Out, calls: usize, end: &[u8]) -> Result<bool, Fail> {
    let pages = blank_pages(alloc);
    pages.calls.set(calls);
    let mut disk = disk(alloc, FILES, &pages);
    disk.out = out;
    let told = answers(
        &mut disk,
        &["merge", "out", "a"],
        b"",
        4,
        "",
        "device fault\n",
    )?;
    Ok(told && has(&pages.bytes, b"") && ends(&pages.log, end))
}

pub fn ends(log: &RefCell<Vec<u8>>, end: &[u8]) -> bool {
    match log.try_borrow() {
        Ok(log) => log.as_slice().ends_with(end),
        Err(_) => false,
    }
}

/// Whether a merge over a file whose calls after so many fail spares the file, and ends its log so.
fn spares_a_file(alloc: Global, calls: usize, end: &[u8]) -> Result<bool, Fail> {
    spares(alloc, Out::File, calls, end)
}

/// How the log of a merge over a file ends whose calls after so many fail.
const SPARED: &[(usize, &[u8])] = &[
    (0, b"look at out\n"),
    (1, b"new out.part\n"),
    (2, b"look behind out\nremove out.part\n"),
    (3, b"mode\nremove out.part\n"),
    (4, b"mode\nwrite\nremove out.part\n"),
    (5, b"write\nwrite\nremove out.part\n"),
    (6, b"sync\nremove out.part\n"),
    (7, b"move out.part\nremove out.part\n"),
];

#[test]
fn a_merge_that_fails_spares_the_file(rt: HostRuntime) -> Result<(), Fail> {
    for (calls, end) in SPARED {
        assert!(rt; spares_a_file(rt.alloc(), *calls, end)?);
    }
    Ok(())
}

#[test]
fn a_file_beside_is_taken_away(rt: HostRuntime) {
    let pages = blank_pages(rt.alloc());
    let mut disk = disk(rt.alloc(), FILES, &pages);
    assert!(rt; disk.remove("out.part").is_ok());
    assert!(rt; has(&pages.log, b"remove out.part\n"));
}

/// Nothing is written where it is not known what lies at the name, or where it leads to.
#[test]
fn a_merge_touches_nothing_that_it_could_not_look_at(rt: HostRuntime) -> Result<(), Fail> {
    let alloc = rt.alloc();
    assert!(rt; spares(alloc, Out::Nothing, 0, b"look at out\n")?);
    assert!(rt; spares(alloc, Out::Special, 0, b"look at out\n")?);
    assert!(rt; spares(alloc, Out::Link, 0, b"look at out\n")?);
    assert!(rt; spares(alloc, Out::Link, 1, b"look at out\nlook behind out\n")?);
    assert!(rt; spares(alloc, Out::Link, 2, b"look behind out\nfollow out\n")?);
    Ok(())
}

/// Whether a run over these words tells that a device failed, and touches no file.
fn fails(alloc: Global, words: &[&str]) -> Result<bool, Fail> {
    let pages = blank_pages(alloc);
    let mut disk = disk(alloc, FILES, &pages);
    Ok(answers(&mut disk, words, b"", 4, "", "device fault\n")? && has(&pages.log, b""))
}

#[test]
fn tells_failing_files(rt: HostRuntime) -> Result<(), Fail> {
    let alloc = rt.alloc();
    assert!(rt; fails(alloc, &["export", "a", "none"])?);
    assert!(rt; fails(alloc, &["state", "cut", "a"])?);
    assert!(rt; fails(alloc, &["merge", "out", "cut"])?);
    Ok(())
}

#[test]
fn a_refused_file_is_told_before_any_is_written(rt: HostRuntime) -> Result<(), Fail> {
    let pages = blank_pages(rt.alloc());
    let mut disk = disk(rt.alloc(), FILES, &pages);
    let refused = "refused 7 Syntax at 3 in 2\n";
    assert!(rt;
        answers(
            &mut disk,
            &["merge", "out", "a", "wrong"],
            b"",
            1,
            refused,
            ""
        )?
    );
    assert!(rt; has(&pages.log, b""));
    Ok(())
}

#[test]
fn a_dash_alone_names_a_file(rt: HostRuntime) -> Result<(), Fail> {
    let files = [("-", Entry::Bytes(b"a: 1\n"))];
    let run = ran_over(rt.alloc(), &files, &["export", "-"], b"z: 9\n")?;
    assert!(rt; run.is(0, b"{\"a\":1}\n", b""));
    Ok(())
}
