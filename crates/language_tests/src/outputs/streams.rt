//! Reports and exports that are told to a sink while a table is walked.
ghost use Rattle.std.specs.Prelude.{Some, string_bytes};

use crate::outputs::sample::{Known, LACKING, Made, WHOLE, table};
use cue_device::TextSink;
use cue_lattice::Memory;
use cue_report::{write_conflicts, write_export, write_gaps};
use std::alloc::Global;
use std::test::Fail;

/// A sink of so many bytes, which takes a piece as a whole or not at all.
#[derive(Drop)]
struct Room {
    left: usize,
    text: String,
}

/// Why it takes no more.
#[derive(Debug, Drop)]
enum Stop {
    Full,
    Memory(Memory),
}

impl From<Memory> for Stop {
    fn from(memory: Memory) -> Stop {
        Stop::Memory(memory)
    }
}

impl TextSink for Room {
    type SinkError = Stop;

    ghost taken = { λ room. Some (string_bytes room.text) };

    #[tactic(auto, using(cue_device::proofs::Texts::begins_none))]
    fn put(&mut self, piece: &str) -> Result<(), Stop> {
        if piece.len() > self.left {
            return Err(Stop::Full);
        }
        self.text.put(piece)?;
        self.left -= piece.len();
        Ok(())
    }
}

/// An empty sink of so many bytes.
fn room_of(alloc: Global, left: usize) -> Room {
    Room {
        left,
        text: String::new(alloc),
    }
}

/// Whether the conflicts of these places were told to so many bytes, and what those have.
fn write_conflicts_to(alloc: Global, places: &[Known], left: usize) -> Made<(bool, String)> {
    let table = table(alloc, places)?;
    let mut out = room_of(alloc, left);
    let whole = write_conflicts(alloc, &table, &mut out).is_ok();
    Ok((whole, out.text))
}

/// The same of gaps.
fn write_gaps_to(alloc: Global, places: &[Known], left: usize) -> Made<(bool, String)> {
    let table = table(alloc, places)?;
    let mut out = room_of(alloc, left);
    let whole = write_gaps(alloc, &table, &mut out).is_ok();
    Ok((whole, out.text))
}

/// The same of an export.
fn write_export_to(alloc: Global, places: &[Known], left: usize) -> Made<(bool, String)> {
    let table = table(alloc, places)?;
    let mut out = room_of(alloc, left);
    let whole = write_export(alloc, &table, &mut out).is_ok();
    Ok((whole, out.text))
}

/// Whether this was told, the whole of it or a front.
fn was(told: Made<(bool, String)>, whole: bool, text: &str) -> Made<bool> {
    let (all, found) = told?;
    Ok(all == whole && found.as_str() == text)
}

#[test]
fn conflicts_are_told_to_a_sink(rt: HostRuntime) -> Result<(), Fail> {
    let alloc = rt.alloc();
    assert!(rt;
        was(
            write_conflicts_to(alloc, LACKING, 100),
            true,
            "conflict c no value\n"
        )?
    );
    assert!(rt; was(write_conflicts_to(alloc, LACKING, 10), false, "")?);
    assert!(rt; was(write_conflicts_to(alloc, WHOLE, 0), true, "")?);
    Ok(())
}

#[test]
fn gaps_are_told_until_a_sink_is_full(rt: HostRuntime) -> Result<(), Fail> {
    let alloc = rt.alloc();
    assert!(rt;
        was(
            write_gaps_to(alloc, &[], 100),
            true,
            "incomplete . not a single value\n"
        )?
    );
    assert!(rt;
        was(
            write_gaps_to(alloc, LACKING, 50),
            false,
            "incomplete a missing\n"
        )?
    );
    Ok(())
}

#[test]
fn exports_are_told_to_a_sink(rt: HostRuntime) -> Result<(), Fail> {
    let alloc = rt.alloc();
    let json = "{\"a\":{\"c\":-1},\"b\":2,\"l\":[1,[]]}";
    assert!(rt; was(write_export_to(alloc, WHOLE, 100), true, json)?);
    assert!(rt; was(write_export_to(alloc, WHOLE, 3), false, "")?);
    assert!(rt;
        was(
            write_export_to(alloc, LACKING, 100),
            true,
            "conflict c no value\n"
        )?
    );
    Ok(())
}
