//! Sites over a network: ports and counts, both ends in this process, and what can't be sent.
use crate::disk::Entry;
use crate::files::{blank_pages, disk, ran_over};
use crate::pieces::Slow;
use crate::runs::{acted, answers, owned};
use crate::states::ONE;
use cue_command::number_in;
use cue_program::{Request, requests_for};
use std::alloc::Global;
use std::test::Fail;

/// Words, the greatest number that is asked for, and the number that they are.
const NUMBERS: &[(&str, u16, Option<u16>)] = &[
    ("080", 65_535, Some(80)),
    ("1", 65_535, Some(1)),
    ("65535", 65_535, Some(65_535)),
    ("65536", 65_535, None),
    ("1000", 1_000, Some(1_000)),
    ("1001", 1_000, None),
    ("0", 1_000, None),
    ("", 1_000, None),
    ("+80", 65_535, None),
    ("8 ", 65_535, None),
    ("99999999999999999999", 65_535, None),
];

#[test]
fn ports_and_counts_are_digits(rt: HostRuntime) {
    for (word, most, number) in NUMBERS {
        assert_eq!(rt; number_in(word, *most), *number);
    }
}

/// Whether a run of `loop` on this input ends with this status, and prints this.
fn loops(rt: &mut HostRuntime, input: &[u8], status: u8, out: &str) -> Result<bool, Fail> {
    answers(rt, &["loop"], input, status, out, "")
}

/// An input of `loop`, how the run ends, and what it prints: the site's export, its conflicts or its
/// gaps, or the first refusal.
const LOOPS: &[(&[u8], u8, &str)] = &[
    (b"port: int\n---\nport: 443\n", 0, "{\"port\":443}\n"),
    (b"a: 1\n---\na: 2\n", 2, "conflict a no value\n"),
    (b"a!: 1", 3, "incomplete a missing\n"),
    (ONE, 0, "{\"a\":1}\n"),
    (b"", 0, "{}\n"),
    (b"a: *1", 1, "refused 7 Syntax at 5 in 1\n"),
    (
        b"a: 1\n---\na: ]\n---\na 2\n",
        1,
        "refused 7 Syntax at 3 in 2\n",
    ),
];

#[test]
fn both_ends_are_in_this_process(mut rt: HostRuntime) -> Result<(), Fail> {
    for (input, status, out) in LOOPS {
        let told = loops(&mut rt, input, *status, out)?;
        assert!(rt; told);
    }
    Ok(())
}

#[test]
fn a_state_that_is_cut_is_refused(mut rt: HostRuntime) -> Result<(), Fail> {
    assert!(rt; loops(&mut rt, &ONE[..91], 1, "refused 18 NotState at 0 in 1\n")?);
    Ok(())
}

/// Whether a run of `loop` on this input, which comes three bytes a read, prints this.
fn loops_slowly(rt: &mut HostRuntime, input: &[u8], out: &[u8]) -> Result<bool, Fail> {
    let words = owned(rt.alloc(), &["loop"])?;
    let mut input = Slow {
        rest: input,
        most: 3,
    };
    Ok(acted(rt, &words, &mut input).is(0, out, b""))
}

#[test]
fn what_is_to_be_sent_comes_in_pieces(mut rt: HostRuntime) -> Result<(), Fail> {
    let both = b"{\"a\":1,\"b\":2}\n";
    assert!(rt; loops_slowly(&mut rt, b"a: 1\n---\nb: 2\n", both)?);
    assert!(rt; loops_slowly(&mut rt, ONE, b"{\"a\":1}\n")?);
    Ok(())
}

/// A text, a state, a text that is no UTF-8, and one that fails to be read.
const FILES: &[(&str, Entry)] = &[
    ("a", Entry::Bytes(b"a: 1\n")),
    ("state", Entry::Bytes(ONE)),
    ("wild", Entry::Bytes(b"a: \xFF")),
    ("cut", Entry::Cut(b"a: 1\n")),
];

/// Whether a text and a state that are named become requests that hand them in.
fn sends_what_is_named(alloc: Global) -> bool {
    let pages = blank_pages(alloc);
    let mut input = b"z: 9\n".as_slice();
    match requests_for(&disk(alloc, FILES, &pages), &["a", "state"], &mut input) {
        Ok(requests) => are_of_a_and_state(&requests),
        Err(_) => false,
    }
}

/// Whether these are the requests of the files `a` and `state`, whole.
fn are_of_a_and_state(requests: &[Request]) -> bool {
    match requests {
        [Request::Text(text), Request::State(bytes)] => {
            text.as_str() == "a: 1\n" && bytes.as_slice() == ONE
        }
        _ => false,
    }
}

#[test]
fn files_that_are_named_are_sent(rt: HostRuntime) {
    assert!(rt; sends_what_is_named(rt.alloc()));
}

/// Whether a run on these words ends with this status and prints this, where there are files and no
/// network.
fn ends(alloc: Global, words: &[&str], status: u8, out: &str, faults: &str) -> Result<bool, Fail> {
    let run = ran_over(alloc, FILES, words, b"a: 1\n---\nb: \xFE\n")?;
    Ok(run.is(status, out.as_bytes(), faults.as_bytes()))
}

/// What is told of the text that is no UTF-8, where it comes as the second input.
const WILD: &str = "refused 2 BadCharacter at 3 in 2\n";

/// Words of a network, how a run over these ends, and what it prints and tells: all inputs are
/// checked before any is sent, and a port that is not to be had is a device fault.
const ENDS: &[(&[&str], u8, &str, &str)] = &[
    (&["push", "80", "a", "wild"], 1, WILD, ""),
    (&["loop", "a", "wild", "none"], 1, WILD, ""),
    (&["loop"], 1, WILD, ""),
    (&["push", "80", "a", "cut"], 4, "", "device fault\n"),
    (&["push", "80", "none"], 4, "", "device fault\n"),
    (&["serve", "80", "1"], 4, "", "device fault\n"),
    (&["push", "80", "a"], 4, "", "device fault\n"),
    (&["loop", "a"], 4, "", "device fault\n"),
];

#[test]
fn a_network_that_is_not_there_is_a_device_fault(rt: HostRuntime) -> Result<(), Fail> {
    for (words, status, out, faults) in ENDS {
        assert!(rt; ends(rt.alloc(), words, *status, out, faults)?);
    }
    Ok(())
}
