//! The client's end over replies in memory, and both ends over a connection of this process.

use crate::serve::devices::{Input, Output};
use cue_device::{Reader, Sink, Source, Writer};
use cue_net::{MAX_TURNS, NetError, kind_of, loop_for, push};
use cue_replica::{Answer, Kind, Refusal, Status};
use cue_wire::Request;
use std::alloc::Global;
use std::net::{Net, TcpListener, TcpStream};
use std::test::Fail;

/// What is told of texts whose replies are these, read by so many bytes.
fn pushed(alloc: Global, texts: &[&str], replies: &[u8], most: usize) -> Result<Told, Fail> {
    let mut source = Reader::new(Input {
        rest: replies,
        most,
        good: 1_000_000,
    });
    let mut sink = Writer::new(Output {
        written: Vec::new(alloc),
        most,
        good: 1_000_000,
    });
    let inputs = texts_of(alloc, texts)?;
    let answer = push(alloc, &mut source, &mut sink, &inputs, 1_000);
    Ok(Told { answer })
}

/// What was answered.
#[derive(Drop)]
pub struct Told {
    pub answer: Result<Answer, NetError>,
}

impl Told {
    /// Whether just these bytes are printed, with this status.
    pub fn prints(&self, bytes: &[u8], status: Status) -> bool {
        match &self.answer {
            Ok(answer) => answer.bytes.as_slice() == bytes && answer.status == status,
            Err(_) => false,
        }
    }

    /// Whether it ended so.
    pub fn halts(&self, why: NetError) -> bool {
        match &self.answer {
            Ok(_) => false,
            Err(halt) => *halt == why,
        }
    }
}

/// These texts as requests.
pub fn texts_of(alloc: Global, texts: &[&str]) -> Result<Vec<Request>, Fail> {
    let mut inputs = Vec::new(alloc);
    for text in texts {
        inputs.push(Request::Text(String::from_str(alloc, text)?))?;
    }
    Ok(inputs)
}

/// What a run in this process tells of these texts.
fn looped<H>(rt: &H, texts: &[&str]) -> Result<Told, Fail>
where
    H: AllocGlobal + Net<Listener = TcpListener, Stream = TcpStream>,
{
    let inputs = texts_of(rt.alloc(), texts)?;
    Ok(Told {
        answer: loop_for(rt, &inputs),
    })
}

#[test]
fn replies_in_memory(rt: HostRuntime) -> Result<(), Fail> {
    let replies = b"\0\0\0\x01\0\0\0\0\x09\0\0{\"a\":1}";
    for most in [1, 4096] {
        let run = pushed(rt.alloc(), &["a: 1\n"], replies.as_slice(), most)?;
        assert!(rt; run.prints(b"{\"a\":1}\n", Status::Done));
    }
    let run = pushed(rt.alloc(), &[], b"\0\0\0\x04\0\x02ab".as_slice(), 4096)?;
    assert!(rt; run.prints(b"ab", Status::Conflicts));
    Ok(())
}

/// The site knows more than what is pushed to it: its own export is printed, and the frames of the
/// input and of the question are written.
#[test]
fn the_export_of_the_site_is_told(rt: HostRuntime) -> Result<(), Fail> {
    let mut source = Reader::new(Input {
        rest: b"\0\0\0\x01\0\0\0\0\x0f\0\0{\"a\":1,\"z\":9}",
        most: 4096,
        good: 1_000,
    });
    let mut sink = Writer::new(Vec::new(rt.alloc()));
    let inputs = texts_of(rt.alloc(), &["a: 1\n"])?;
    let answer = push(rt.alloc(), &mut source, &mut sink, &inputs, 1_000);
    assert!(rt; Told { answer }.prints(b"{\"a\":1,\"z\":9}\n", Status::Done));
    let requests = b"\0\0\0\x06\x01a: 1\n\0\0\0\x01\x04";
    assert_eq!(rt; sink.into_inner().as_slice(), requests.as_slice());
    Ok(())
}

#[test]
fn the_first_refusal_is_told(rt: HostRuntime) -> Result<(), Fail> {
    let replies =
        b"\0\0\0\x01\0\0\0\0\x09\x07\0\0\0\0\0\0\0\x05\0\0\0\x09\x08\0\0\0\0\0\0\0\0\0\0\0\x04\0\0{}";
    let run = pushed(rt.alloc(), &["", "a: *1", ""], replies.as_slice(), 4096)?;
    assert!(rt;
        run.halts(NetError::RefusedInput(
            Refusal {
                kind: Kind::Syntax,
                place: 5
            },
            2
        ))
    );
    Ok(())
}

#[test]
fn what_is_no_reply_is_a_device_fault(rt: HostRuntime) -> Result<(), Fail> {
    let none: [&[u8]; 10] = [
        b"",
        b"\0\0\0\x01",
        b"\0\0\0\0",
        b"\0\0\0\x01\0",
        b"\0\0\0\x02\0\x01",
        b"\0\0\0\x03\0\0\xff",
        b"\0\0\0\x09\x1a\0\0\0\0\0\0\0\0",
        b"\0\0\0\x09\x15\0\0\0\0\0\0\0\0",
        b"\0\0\0\x09\x18\0\0\0\0\0\0\0\0",
        b"\0\0\0\x08\x07\0\0\0\0\0\0\0",
    ];
    for replies in none {
        assert!(rt; pushed(rt.alloc(), &[], replies, 4096)?.halts(NetError::Device));
    }
    Ok(())
}

#[test]
fn refusals_of_no_input(rt: HostRuntime) -> Result<(), Fail> {
    let long = pushed(rt.alloc(), &[], b"\x01\0\0\x01".as_slice(), 4096)?;
    assert!(rt; long.halts(NetError::Device));
    let reply = b"\0\0\0\x09\x17\0\0\0\0\0\0\0\0";
    let too_long = pushed(rt.alloc(), &[], reply.as_slice(), 4096)?;
    assert!(rt; too_long.halts(NetError::RefusedExport(Kind::ReplyTooLong)));
    Ok(())
}

/// What is told of these inputs in so many turns, by calls that all succeed, and how many of the
/// turns were taken.
fn in_turns(alloc: Global, inputs: &[Request], replies: &[u8], turns: u64) -> (Told, u64) {
    let mut source = Reader::new(Input {
        rest: replies,
        most: 4096,
        good: 1_000_000,
    });
    let mut sink = Writer::new(Output {
        written: Vec::new(alloc),
        most: 4096,
        good: 1_000_000,
    });
    let answer = push(alloc, &mut source, &mut sink, inputs, turns);
    (Told { answer }, source.calls() + sink.calls())
}

#[test]
fn turns_are_counted(rt: HostRuntime) {
    let replies = b"\0\0\0\x04\0\0{}";
    for turns in 0..2u64 {
        let (told, calls) = in_turns(rt.alloc(), &[], replies.as_slice(), turns);
        assert!(rt; told.halts(NetError::Refused(Kind::TurnsUsed)));
        assert_eq!(rt; calls, turns);
    }
    let (told, calls) = in_turns(rt.alloc(), &[], replies.as_slice(), 2);
    assert!(rt; told.prints(b"{}\n", Status::Done));
    assert_eq!(rt; calls, 2);
}

#[test]
fn nothing_is_sent_with_an_input_that_is_too_long(rt: HostRuntime) -> Result<(), Fail> {
    let state = Vec::from_elem(rt.alloc(), 0u8, 16_777_216)?;
    let mut inputs = texts_of(rt.alloc(), &["a: 1"])?;
    inputs.push(Request::State(state))?;
    let (told, calls) = in_turns(rt.alloc(), &inputs, b"", 100);
    assert!(rt; told.halts(NetError::Refused(Kind::FrameTooLong)));
    assert_eq!(rt; calls, 0);
    Ok(())
}

#[test]
fn three_hundred_inputs(rt: HostRuntime) -> Result<(), Fail> {
    let mut inputs = Vec::new(rt.alloc());
    let mut replies = Vec::new(rt.alloc());
    for _ in 0..300u16 {
        inputs.push(Request::Text(String::new(rt.alloc())))?;
        replies.extend_from_slice(b"\0\0\0\x01\0")?;
    }
    replies.extend_from_slice(b"\0\0\0\x04\0\0{}")?;
    let (told, calls) = in_turns(rt.alloc(), &inputs, &replies, 100);
    assert!(rt; told.prints(b"{}\n", Status::Done));
    assert_eq!(rt; calls, 4);
    Ok(())
}

#[test]
fn kinds_have_their_numbers(rt: HostRuntime) {
    let untold = [0u8, 19, 21, 22, 24, 25];
    for number in 0..26u8 {
        assert_eq!(rt; kind_of(number).is_none(), untold.contains(&number));
    }
    assert!(rt; kind_of(26).is_none());
    assert_eq!(rt; MAX_TURNS, 100_000);
}

#[test]
fn both_ends_in_one_process(rt: HostRuntime) -> Result<(), Fail> {
    let run = looped(&rt, &["port: int\n", "port: 443\n"])?;
    assert!(rt; run.prints(b"{\"port\":443}\n", Status::Done));
    let run = looped(&rt, &["a: 1\n", "a: 2\n"])?;
    assert!(rt; run.prints(b"conflict a no value\n", Status::Conflicts));
    let run = looped(&rt, &["a: 1\n", "a: *1"])?;
    assert!(rt;
        run.halts(NetError::RefusedInput(
            Refusal {
                kind: Kind::Syntax,
                place: 5
            },
            2
        ))
    );
    Ok(())
}
