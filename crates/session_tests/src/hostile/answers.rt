//! Questions whose answers no frame holds: these are made no further than a frame goes.
use crate::hostile::sites::site_of;
use cue_replica::{Kind, Memory, Refusal, Replica};
use cue_wire::{Bytes, Writer, serve};
use std::alloc::Global;
use std::test::Fail;

/// Lists of nine in lists of nine, four levels deep, of one text.
const MANY: &str = "\"
#A: [_, _, _, _, _, _, _, _, _]
l: [...[...[...[...#T] & #A] & #A] & #A] & #A
";

/// The questions for the export, the printed text and the report.
const QUESTIONS: [u8; 15] = *b"\0\0\0\x01\x04\0\0\0\x01\x06\0\0\0\x01\x05";

/// That a reply is too long, twice, and a report without a line.
const REPLIES: [u8; 31] =
    *b"\0\0\0\x09\x17\0\0\0\0\0\0\0\0\0\0\0\x09\x17\0\0\0\0\0\0\0\0\0\0\0\x01\0";

/// A fragment that says 6,561 texts of 3,000 bytes.
fn fragment(alloc: Global) -> Result<String, Memory> {
    let mut text = String::from_str(alloc, "#T: \"")?;
    for _ in 0..300 {
        text.push_str("0123456789")?;
    }
    text.push_str(MANY)?;
    Ok(text)
}

/// Whether a site replies so to the questions.
fn replies_so(alloc: Global, site: &mut Replica) -> Result<bool, Kind> {
    let out: Vec<u8> = Vec::new(alloc);
    let mut out = Writer::new(out);
    serve(alloc, &mut Bytes::new(&QUESTIONS), &mut out, site, 1_000)?;
    Ok(out.into_inner().as_slice() == REPLIES.as_slice())
}

/// Whether a site with more to tell than a frame holds says that, and goes on.
fn tells_that_it_is_too_long(alloc: Global) -> Result<bool, Refusal> {
    let mut site = site_of(alloc, fragment(alloc)?.as_str())?;
    Ok(replies_so(alloc, &mut site) == Ok(true))
}

#[test]
fn answers_that_no_frame_holds(rt: HostRuntime) -> Result<(), Fail> {
    assert!(rt; tells_that_it_is_too_long(rt.alloc())?);
    Ok(())
}
