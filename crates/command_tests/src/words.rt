//! Words of the command line.
use crate::disk::Disk;
use crate::files::{Pages, blank_pages, disk};
use crate::runs::{Run, answers, owned};
use cue_command::{given_words, report, run, unread_fault};
use cue_program::{FileSystem, Output};
use std::alloc::Global;
use std::io;
use std::io::ErrorKind;
use std::net::{Net, TcpListener, TcpStream};
use std::process::Abort;
use std::test::Fail;

fn assert_usage<H>(rt: &mut H, words: &[&str]) -> Result<(), Fail>
where
    H: AllocGlobal + FileSystem + Abort + Net<Listener = TcpListener, Stream = TcpStream>,
{
    let told = answers(rt, words, b"a: 1\n".as_slice(), 1, "", "usage fault\n")?;
    let rt = &*rt;
    assert!(rt; told);
    Ok(())
}

/// Words that are a usage fault: no command, none that is known, a name that is no file's, no file, a
/// port or a count that is none.
const FAULTS: &[&[&str]] = &[
    &[],
    &["exp"],
    &["--help"],
    &["help"],
    &["-1"],
    &["--"],
    &[""],
    &["Export"],
    &["export", "--help"],
    &["export", "-h"],
    &["export", "-1"],
    &["export", "---"],
    &["export", "--file"],
    &["merge"],
    &["merge", "--"],
    &["report", "-", "-x"],
    &["--", "export"],
    &["serve"],
    &["serve", "80"],
    &["serve", "80", "1", "2"],
    &["serve", "+80", "1"],
    &["serve", "80", "+1"],
    &["serve", "0", "1"],
    &["serve", "65536", "1"],
    &["serve", "80", "1001"],
    &["push"],
    &["push", ""],
    &["push", "x", "80"],
    &["loop", "-x"],
];

#[test]
fn wants_its_words(mut rt: HostRuntime) -> Result<(), Fail> {
    for words in FAULTS {
        assert_usage(&mut rt, words)?;
    }
    Ok(())
}

/// A process that was given these words.
fn process<'a>(alloc: Global, words: &'a [&'a [u8]], pages: &'a Pages) -> Disk<'a> {
    Disk {
        words,
        ..disk(alloc, &[], pages)
    }
}

/// The words of a process that was given these.
fn words_of(alloc: Global, given: &[&[u8]]) -> Result<Vec<String>, Fail> {
    let pages = blank_pages(alloc);
    Ok(given_words(&process(alloc, given, &pages))?)
}

/// Whether the words of a process that was given these are the wanted ones.
fn takes(alloc: Global, given: &[&[u8]], wanted: &[&str]) -> Result<bool, Fail> {
    let words = words_of(alloc, given)?;
    let wanted = owned(alloc, wanted)?;
    Ok(words == wanted)
}

#[test]
fn the_words_are_those_after_the_name(rt: HostRuntime) -> Result<(), Fail> {
    let given = [b"cuestore".as_slice(), b"merge", b"b", b"", b"a", b"b"];
    assert!(rt; takes(rt.alloc(), &given, &["merge", "b", "", "a", "b"])?);
    Ok(())
}

/// What a process does with this input.
fn done(process: &mut Disk, mut input: &[u8]) -> Run {
    let mut out = Output::new(Vec::new(process.alloc()));
    let mut faults = Output::new(Vec::new(process.alloc()));
    let status = run(process, &mut input, &mut out, &mut faults);
    Run::of(status, out, faults)
}

/// Whether a process that was given these words ends with this status, and writes this.
fn does(alloc: Global, given: &[&[u8]], status: u8, out: &str, faults: &str) -> bool {
    let pages = blank_pages(alloc);
    let run = done(&mut process(alloc, given, &pages), b"a: 1\n");
    run.is(status, out.as_bytes(), faults.as_bytes())
}

#[test]
fn does_what_the_words_of_its_process_ask_for(rt: HostRuntime) {
    let given = [b"cuestore".as_slice(), b"print"];
    assert!(rt; does(rt.alloc(), &given, 0, "\"a\": 1\n", ""));
}

#[test]
fn a_word_that_is_no_text_is_a_usage_fault(rt: HostRuntime) {
    let given = [b"cuestore".as_slice(), b"export", b"\xFF"];
    assert!(rt; does(rt.alloc(), &given, 1, "", "usage fault\n"));
}

/// What is told where words can't be read, for this reason.
fn told(alloc: Global, kind: ErrorKind) -> Run {
    let fault = unread_fault(&io::Error::from(kind));
    let mut out = Output::new(Vec::new(alloc));
    let mut faults = Output::new(Vec::new(alloc));
    let status = report(&fault, &mut out, &mut faults);
    Run::of(status, out, faults)
}

#[test]
fn words_without_memory_are_refused(rt: HostRuntime) {
    let run = told(rt.alloc(), ErrorKind::OutOfMemory);
    assert!(rt; run.is(1, b"refused 24 Memory\n", b""));
}
