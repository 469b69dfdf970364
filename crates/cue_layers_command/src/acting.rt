//! Whole runs: what is printed for the arguments, and how a run ends.
ghost use Rattle.std.specs.Prelude.{◌≡◌, ◌⊎◌, ◌++◌, List, ℕ, [], codes, map, string_bytes};
ghost use Rattle.cue_layers_command.specs.Faults.{IsLayersComplaint, IsMeaning, IsMemoryLayersFault, IsLayersRefused};
ghost use Rattle.cue_layers_command.specs.Faults.{EndsByLayersFault};
ghost use Rattle.cue_layers_command.specs.Runs.{layers_run_world, IsLayersRun, EndsByText, revision_line};
ghost use Rattle.cue_layers_command.specs.Words.{asked_by_arguments};
ghost use Rattle.cue_layers_command.specs.inner.Replies.{IsEnd, EndsByLayersReply};
ghost use Rattle.cue_program.specs.Outlets.{IsOutputUntouched, passage_of};

use crate::command::{LayersCommand, command_of, given_words};
use crate::explaining::explanation;
use crate::fault::{LINE, LayersCommandError, LayersRunRefusal, text_of};
use crate::reply::LayersReply;
use crate::replying::reply_for;
use arrayvec::ArrayString;
use cue_program::{FileSystem, Output, write_out};
use itoa::Buffer;
use std::alloc::Global;
use std::env::Env;
use std::fmt::Write as _;
use std::io::{Read, Write};

/// Runs the program on the arguments behind its name, and answers the exit status: 0 done, 1 refused,
/// absent or a usage fault, 2 conflicts, 3 incomplete, 4 a device fault.
///
/// `put` and `remove` change the map at the name that comes first, and print the revision; `try`
/// prints the report lines that a put would add. `merge` joins files into one. `export`, `report` and
/// `print` answer about the view of the files, or about a place of it; `list` prints a line for each
/// layer, `show` what a name says, and `why` which layers make what is reported at a path.
///
/// The first refusal ends the run with the line `refused NUMBER NAME at PLACE in K`, which goes to
/// `out` too; without `in K` where it is no input that is refused, and then a line that says what is
/// meant goes to `faults`. `usage fault` and `device fault` go to `faults`.
pub fn act<H, R: Read, W: Write, F: Write>(
    rt: &mut H,
    words: &[String],
    input: &mut R,
    out: &mut Output<W>,
    faults: &mut Output<F>,
) -> u8
where
    H: AllocGlobal + FileSystem,
    ensures { IsLayersRun (map string_bytes words.now)
        (layers_run_world H.held H.makes rt.old rt.new (R.remaining input.old))
        (passage_of W.contents out.old out.new) (passage_of F.contents faults.old faults.new) result }
{
    match command_of(rt.alloc(), words) {
        Ok(command) => perform(rt, &command, input, out, faults),
        Err(fault) => report(&fault, "", out, faults),
    }
}

/// Runs the program on the arguments that the process was given, as `act` does. Arguments that can't
/// be read are a usage fault, or there is no memory for them.
pub fn run<H, R: Read, W: Write, F: Write>(
    rt: &mut H,
    input: &mut R,
    out: &mut Output<W>,
    faults: &mut Output<F>,
) -> u8
where
    H: AllocGlobal + Env + FileSystem,
    ensures { ((words : List (List ℕ)) × IsLayersRun words
        (layers_run_world H.held H.makes rt.old rt.new (R.remaining input.old))
        (passage_of W.contents out.old out.new) (passage_of F.contents faults.old faults.new) result)
        ⊎ ((fault : LayersCommandError) × ((fault ≡ LayersCommandError.Usage) ⊎ IsMemoryLayersFault fault)
        × EndsByLayersFault fault result
        (passage_of W.contents out.old out.new) (passage_of F.contents faults.old faults.new)
        × (rt.new ≡ rt.old)) }
{
    match given_words(&*rt) {
        Ok(words) => act(rt, &words, input, out, faults),
        Err(fault) => report(&fault, "", out, faults),
    }
}

/// Does what a command asks for, and answers the exit status.
fn perform<H, R: Read, W: Write, F: Write>(
    rt: &mut H,
    command: &LayersCommand,
    input: &mut R,
    out: &mut Output<W>,
    faults: &mut Output<F>,
) -> u8
where
    H: AllocGlobal + FileSystem,
    ensures { IsEnd (asked_by_arguments command.now)
        (layers_run_world H.held H.makes rt.old rt.new (R.remaining input.old))
        (passage_of W.contents out.old out.new) (passage_of F.contents faults.old faults.new) result }
{
    match reply_for(rt, command, input) {
        Ok(reply) => show(rt.alloc(), &reply, out, faults),
        Err(fault) => stop(rt.alloc(), command, &fault, out, faults),
    }
}

/// Writes what is printed, and answers the exit status.
fn show<W: Write, F: Write>(
    alloc: Global,
    reply: &LayersReply,
    out: &mut Output<W>,
    faults: &mut Output<F>,
) -> u8
    ensures { EndsByLayersReply reply.now (passage_of W.contents out.old out.new)
        (passage_of F.contents faults.old faults.new) result }
{
    match reply {
        LayersReply::Text(bytes, status) => write_text(bytes, *status, out, faults),
        LayersReply::Revision(revision) => write_revision(*revision, out, faults),
        LayersReply::Site(question, site) => match write_out(alloc, *question, site, out) {
            Ok(status) => status.code(),
            Err(stop) => report(&LayersCommandError::from(stop), "", out, faults),
        },
    }
}

/// Writes the line of a revision, and answers the exit status.
fn write_revision<W: Write, F: Write>(
    revision: u64,
    out: &mut Output<W>,
    faults: &mut Output<F>,
) -> u8
    ensures { EndsByText (revision_line revision) 0 (passage_of W.contents out.old out.new)
        (passage_of F.contents faults.old faults.new) result }
{
    let mut line = ArrayString::<LINE>::new();
    line.push_str(Buffer::new().format(revision));
    line.push_str("\n");
    write_text(line.as_str().as_bytes(), 0, out, faults)
}

/// Writes a text, and answers the exit status, which is this one where nothing fails.
fn write_text<W: Write, F: Write>(
    bytes: &[u8],
    status: u8,
    out: &mut Output<W>,
    faults: &mut Output<F>,
) -> u8
    ensures { EndsByText bytes.now status (passage_of W.contents out.old out.new)
        (passage_of F.contents faults.old faults.new) result }
{
    match out.write_out(bytes) {
        Ok(()) => status,
        Err(_) => {
            complain(&LayersCommandError::Device, faults);
            4
        }
    }
}

/// Writes what ended a command, and what is meant, and answers the exit status.
fn stop<W: Write, F: Write>(
    alloc: Global,
    command: &LayersCommand,
    fault: &LayersCommandError,
    out: &mut Output<W>,
    faults: &mut Output<F>,
) -> u8
    ensures { EndsByLayersFault fault.now result (passage_of W.contents out.old out.new)
        (passage_of F.contents faults.old faults.new) }
{
    match explanation(alloc, command, fault) {
        Ok(meaning) => report(fault, meaning.as_str(), out, faults),
        Err(_) => report(fault, "", out, faults),
    }
}

/// Writes the line of what ended the run, and beside that of a refusal, what is meant by it where
/// faults go, unless that is empty. Answers the exit status.
pub fn report<W: Write, F: Write>(
    fault: &LayersCommandError,
    meaning: &str,
    out: &mut Output<W>,
    faults: &mut Output<F>,
) -> u8
    ensures { IsMeaning fault.now meaning.now
        → EndsByLayersFault fault.now result (passage_of W.contents out.old out.new)
        (passage_of F.contents faults.old faults.new) }
{
    match fault {
        LayersCommandError::Usage | LayersCommandError::Device => {
            complain(fault, faults);
            fault.status()
        }
        LayersCommandError::Refused(refusal) => refuse(refusal, meaning, out, faults),
    }
}

/// Writes the line of a refusal, and then what is meant.
fn refuse<W: Write, F: Write>(
    refusal: &LayersRunRefusal,
    meaning: &str,
    out: &mut Output<W>,
    faults: &mut Output<F>,
) -> u8
    ensures { IsMeaning (LayersCommandError.Refused refusal.now) meaning.now
        → IsLayersRefused (LayersCommandError.Refused refusal.now) result (passage_of W.contents out.old out.new)
        (passage_of F.contents faults.old faults.new) }
{
    let mut line = text_of(refusal);
    line.push_str("\n");
    match out.write_out(line.as_str().as_bytes()) {
        Ok(()) => {
            explain(meaning, faults);
            1
        }
        Err(_) => {
            complain(&LayersCommandError::Device, faults);
            4
        }
    }
}

/// Writes what is meant where faults go, unless it is empty.
fn explain<F: Write>(meaning: &str, faults: &mut Output<F>)
    ensures none { meaning.now ≡ [] → IsOutputUntouched (passage_of F.contents faults.old faults.new) }
    ensures some { (front : List ℕ) → meaning.now ≡ front ++ codes "\n"
        → IsLayersComplaint (passage_of F.contents faults.old faults.new) }
{
    if !meaning.is_empty() {
        let _ = faults.write_out(meaning.as_bytes());
    }
}

/// Writes a fault where faults go, in one piece. Where nothing can be written, the status still is.
fn complain<F: Write>(fault: &LayersCommandError, faults: &mut Output<F>)
    ensures { IsLayersComplaint (passage_of F.contents faults.old faults.new) }
{
    let mut line = ArrayString::<LINE>::new();
    // No text of a fault fills the line.
    if write!(line, "{fault}").is_err() || line.is_full() {
        line.clear();
    }
    line.push_str("\n");
    let _ = faults.write_out(line.as_str().as_bytes());
}
