//! Three requests and their replies through `serve`.

use crate::serve::devices::{Input, Output};
use cue_device::{Bytes, Reader, Sink, Writer};
use cue_replica::{Kind, Replica};
use cue_wire::{Ended, serve};
use std::alloc::Global;
use std::test::Fail;

/// A text, the question for the export, and an empty frame.
const REQUESTS: [u8; 19] = *b"\0\0\0\x06\x01a: 1\n\0\0\0\x01\x04\0\0\0\0";

const REPLIES: [u8; 31] = *b"\0\0\0\x01\0\0\0\0\x09\0\0{\"a\":1}\0\0\0\x09\x14\0\0\0\0\0\0\0\0";

/// Calls without end.
const ALL: u64 = 1_000_000;

/// What a connection came to, and what was written.
#[derive(Drop)]
struct Served {
    ended: Result<Ended, Kind>,
    written: Vec<u8>,
}

impl Served {
    fn is(&self, ended: Result<Ended, Kind>, written: &[u8]) -> bool {
        self.ended == ended && self.written.as_slice() == written
    }

    /// Whether a device failed after a part of the replies.
    fn is_cut(&self) -> bool {
        self.ended == Err(Kind::Device) && REPLIES.starts_with(&self.written)
    }
}

/// Serves these requests on a new site, by reads and writes of so many bytes, of which so many
/// succeed, in so many turns.
fn outcome(alloc: Global, requests: &[u8], most: usize, good: (u64, u64), turns: u64) -> Served {
    let mut source = Reader::new(Input {
        rest: requests,
        most,
        good: good.0,
    });
    let mut sink = Writer::new(Output {
        written: Vec::new(alloc),
        most,
        good: good.1,
    });
    let mut site = Replica::new(alloc);
    let ended = serve(alloc, &mut source, &mut sink, &mut site, turns);
    Served {
        ended,
        written: sink.into_inner().written,
    }
}

fn whole(alloc: Global, turns: u64) -> Served {
    outcome(alloc, &REQUESTS, 4096, (ALL, ALL), turns)
}

fn dripped(alloc: Global, turns: u64) -> Served {
    outcome(alloc, &REQUESTS, 1, (ALL, ALL), turns)
}

const BETWEEN: Result<Ended, Kind> = Ok(Ended { whole: true });

const USED: Result<Ended, Kind> = Err(Kind::TurnsUsed);

#[test]
fn all_at_once_takes_three_turns(rt: HostRuntime) {
    assert!(rt; whole(rt.alloc(), 3).is(BETWEEN, &REPLIES));
    assert!(rt; whole(rt.alloc(), 100_000).is(BETWEEN, &REPLIES));
    assert!(rt; whole(rt.alloc(), 2).is(USED, &REPLIES));
    assert!(rt; whole(rt.alloc(), 1).is(USED, b""));
    assert!(rt; whole(rt.alloc(), 0).is(USED, b""));
}

#[test]
fn byte_by_byte_takes_fifty_one_turns(rt: HostRuntime) {
    assert!(rt; dripped(rt.alloc(), 51).is(BETWEEN, &REPLIES));
    assert!(rt; dripped(rt.alloc(), 100_000).is(BETWEEN, &REPLIES));
    assert!(rt; dripped(rt.alloc(), 50).is(USED, &REPLIES));
}

#[test]
fn a_source_fails_at_each_read(rt: HostRuntime) {
    for good in 0..20u64 {
        let run = outcome(rt.alloc(), &REQUESTS, 1, (good, ALL), 100_000);
        assert!(rt; run.is_cut());
    }
    let run = outcome(rt.alloc(), &REQUESTS, 1, (20, ALL), 100_000);
    assert!(rt; run.is(BETWEEN, &REPLIES));
}

#[test]
fn a_sink_fails_at_each_write(rt: HostRuntime) {
    for good in 0..31u64 {
        let run = outcome(rt.alloc(), &REQUESTS, 1, (ALL, good), 100_000);
        assert!(rt; run.is_cut());
        assert_eq!(rt; run.written.len() as u64, good);
    }
    let run = outcome(rt.alloc(), &REQUESTS, 1, (ALL, 31), 100_000);
    assert!(rt; run.is(BETWEEN, &REPLIES));
}

#[test]
fn a_write_of_nothing_is_a_failure(rt: HostRuntime) {
    let mut source = Bytes::new(&REQUESTS);
    let mut sink = Writer::new(Output {
        written: Vec::new(rt.alloc()),
        most: 0,
        good: ALL,
    });
    let mut site = Replica::new(rt.alloc());
    let ended = serve(rt.alloc(), &mut source, &mut sink, &mut site, 100);
    assert_eq!(rt; ended, Err(Kind::Device));
}

#[test]
fn the_end_at_each_byte(rt: HostRuntime) {
    for count in 0..20usize {
        let Some(requests) = REQUESTS.get(..count) else {
            return;
        };
        let run = outcome(rt.alloc(), requests, 4096, (ALL, ALL), 100);
        let between = count == 0 || count == 10 || count == 15 || count == 19;
        assert_eq!(rt; run.ended, Ok(Ended { whole: between }));
        assert!(rt; REPLIES.starts_with(&run.written));
    }
}

#[test]
fn a_length_over_the_limit_ends_it(rt: HostRuntime) -> Result<(), Fail> {
    let mut requests = Vec::from_slice(rt.alloc(), &REQUESTS)?;
    requests.extend_from_slice(&[1, 0, 0, 1, 0])?;
    let run = outcome(rt.alloc(), &requests, 4096, (ALL, ALL), 100);
    assert!(rt; run.is(Err(Kind::FrameTooLong), &REPLIES));
    let run = outcome(rt.alloc(), &requests, 1, (ALL, ALL), 54);
    assert!(rt; run.is(Err(Kind::FrameTooLong), &REPLIES));
    let run = outcome(rt.alloc(), &requests, 4096, (ALL, ALL), 1);
    assert!(rt; run.is(USED, b""));
    let run = outcome(rt.alloc(), &requests, 4096, (ALL, 0), 100);
    assert!(rt; run.is(Err(Kind::Device), b""));
    Ok(())
}

#[test]
fn in_memory(rt: HostRuntime) {
    let mut source = Bytes::new(&REQUESTS);
    let mut sink = Writer::new(Vec::new(rt.alloc()));
    let mut site = Replica::new(rt.alloc());
    let ended = serve(rt.alloc(), &mut source, &mut sink, &mut site, 3);
    assert_eq!(rt; ended, BETWEEN);
    assert_eq!(rt; sink.into_inner().as_slice(), REPLIES.as_slice());
}

#[test]
fn a_flush_is_a_call(rt: HostRuntime) {
    let mut sink = Writer::new(Vec::new(rt.alloc()));
    assert!(rt; matches!(sink.write(b"ab"), Ok(2)));
    assert!(rt; sink.flush().is_ok());
    assert_eq!(rt; sink.calls(), 2);
    assert_eq!(rt; sink.into_inner().as_slice(), b"ab".as_slice());
}

#[test]
fn a_long_frame_takes_all_turns(rt: HostRuntime) -> Result<(), Fail> {
    let mut requests = Vec::from_elem(rt.alloc(), 0u8, 100_003)?;
    requests[0] = 1;
    let run = outcome(rt.alloc(), &requests, 1, (ALL, ALL), 100_000);
    assert!(rt; run.is(USED, b""));
    let run = outcome(rt.alloc(), &requests, 1, (ALL, ALL), 100_004);
    assert!(rt; run.is(Ok(Ended { whole: false }), b""));
    Ok(())
}
