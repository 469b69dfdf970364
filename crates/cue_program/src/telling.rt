//! Answers that are written while they are made.
ghost use Rattle.std.specs.Prelude.{◌≡◌, ◌⊎◌, IfOk, IfErr, Option, List, ℕ, true};
ghost use Rattle.cue_replica.specs.Answers.{line_end as end_of, of_text};
ghost use Rattle.cue_program.specs.Outlets.{outlet_failed, outlet_inner, passage_of};
ghost use Rattle.cue_program.specs.Runs.{IsAnswerAdded, IsAnswerCut};
ghost use Rattle.cue_program.specs.Stops.{IsDeviceStop, IsMemoryStop};

use crate::output::Output;
use crate::stop::RunError;
use crate::writing::write_state;
use cue_replica::{Memory, Replica, SiteQuestion, Status, TextQuestion, TextSink, write_answer};
use std::alloc::Global;
use std::io::Write;

/// Why a text was not written to its end.
#[derive(Drop)]
pub enum WriteError {
    /// A call of the stream failed.
    Device,
    Memory(Memory),
}

impl From<Memory> for WriteError {
    fn from(memory: Memory) -> WriteError {
        WriteError::Memory(memory)
    }
}

impl<W: Write> TextSink for Output<W> {
    type SinkError = WriteError;

    ghost use Rattle.cue_program.specs.Outlets.{outlet_inner};

    ghost taken = { λ outlet. W.contents (outlet_inner outlet) };

    fn put(&mut self, piece: &str) -> Result<(), WriteError> {
        self.write_all(piece.as_bytes())
            .map_err(|_| WriteError::Device)
    }
}

/// Writes what a site answers, as a run prints it, while it is made, and says how it ends the run.
/// Memory goes with the table, and not with what is written.
///
/// # Errors
///
/// `Device` and `Memory`, after which the front of the answer may have been written.
pub fn write_out<W: Write>(
    alloc: Global,
    question: SiteQuestion,
    site: &Replica,
    out: &mut Output<W>,
) -> Result<Status, RunError>
    ensures told { IfOk result
        (IsAnswerAdded question site.now (passage_of W.contents out.old out.new)) }
    ensures cut { IfErr result
        (IsAnswerCut question site.now (passage_of W.contents out.old out.new)) }
{
    match question.as_text() {
        None => {
            write_state(alloc, site, out)?;
            Ok(Status::Done)
        }
        Some(question) => write_text(alloc, question, site, out),
    }
}

/// Writes what a site answers in a text.
fn write_text<W: Write>(
    alloc: Global,
    question: TextQuestion,
    site: &Replica,
    out: &mut Output<W>,
) -> Result<Status, RunError>
    ensures told { IfOk result
        (IsAnswerAdded (of_text question) site.now (passage_of W.contents out.old out.new)) }
    ensures cut { IfErr result
        (IsAnswerCut (of_text question) site.now (passage_of W.contents out.old out.new)) }
{
    match write_answer(alloc, question, site, out) {
        Ok(status) => {
            out.write_out(line_end(question, status))?;
            Ok(status)
        }
        Err(untold) => Err(write_stop(untold, out)),
    }
}

/// What a run prints behind an answer.
fn line_end(question: TextQuestion, status: Status) -> &'static [u8]
    ensures { result.now ≡ end_of (of_text question) status }
{
    match (question, status) {
        (TextQuestion::Export, Status::Done) => b"\n",
        _ => b"",
    }
}

/// What stops a run whose text was not written to its end.
fn write_stop<W: Write>(untold: WriteError, out: &mut Output<W>) -> RunError
    ensures stop { (IsDeviceStop result × (outlet_failed out.new ≡ true)) ⊎ IsMemoryStop result }
    ensures kept { outlet_inner out.new ≡ outlet_inner out.old }
{
    match untold {
        WriteError::Device => {
            out.fail();
            RunError::Device
        }
        WriteError::Memory(memory) => RunError::from(memory),
    }
}
