ghost use Rattle.std.specs.Prelude.{◌≡◌, ◌⊎◌, ◌++◌, IfOk, IfErr, List, ℕ, codes, map, string_bytes};
ghost use Rattle.cue_wire.specs.Connections.{moment_of};
ghost use Rattle.cue_command.specs.Faults.{IsComplaint, IsMemoryFault, IsRefusedFault, EndsByFault, refusal_text};
ghost use Rattle.cue_command.specs.Networks.{reach_of};
ghost use Rattle.cue_command.specs.Runs.{run_world, IsAnswerTo, IsFaultOfWords, IsRun, IsStopTo};
ghost use Rattle.cue_command.specs.inner.Replies.{IsReplyTo, EndsByReply, IsReplyToWords};
ghost use Rattle.cue_command.specs.Words.{asked_by_words, merging};
ghost use Rattle.cue_program.specs.Files.{texts_of_files};
ghost use Rattle.cue_program.specs.Outlets.{passage_of};

use crate::command::{Command, command_of, given_words};
use crate::fault::{CommandError, LINE, RunRefusal, text_of};
use crate::network::{loop_inputs, push_inputs, serve_port};
use arrayvec::ArrayString;
use cue_net::Network;
use cue_program::{
    Answer, FileSystem, Output, Replica, RunError, SiteQuestion, Status, merge_into, site_for,
    write_out,
};
use std::alloc::Global;
use std::env::Env;
use std::fmt::Write as _;
use std::io::{Read, Write};
use std::mem;

/// Runs the program on the words after its name, and answers the exit status: 0 done, 1 refused or
/// a usage fault, 2 conflicts, 3 incomplete, 4 a device fault.
///
/// Each command hands inputs to one new site: the files that it names, of which those that begin
/// with the byte FE (hexadecimal) are states and all others texts; or, where it names none, what
/// `input` has: one state, or texts, which are split at lines that are exactly `---`. `export`
/// writes to `out` the JSON and a line break, or the conflict lines, or the incomplete lines;
/// `print` the canonical text; `report` the conflict lines and then the incomplete lines; `state`
/// the state bytes. `merge` puts the state bytes at the name that stands first. The first refused
/// input ends the run with the line `refused NUMBER NAME at PLACE in K`, which goes to `out` too.
/// `usage fault` and `device fault` go to `faults`.
///
/// State bytes are read, and made while they are written, in pieces of 65,536 bytes, and what is
/// told of a site is written while it is made. Where memory runs out meanwhile, the line `refused
/// 24 Memory` stands behind what was written.
///
/// `serve` listens on a port of 127.0.0.1, serves so many connections from one new site, one after
/// the other, and then prints as `export` does. `push` sends the inputs to the site that is served
/// on a port, and prints its export; `loop` does both in this process. Their inputs are all read
/// and checked before any is sent; after one that the site refuses the others are still sent.
pub fn act<H, R: Read, W: Write, F: Write>(
    rt: &mut H,
    words: &[String],
    input: &mut R,
    out: &mut Output<W>,
    faults: &mut Output<F>,
) -> u8
where
    H: AllocGlobal + FileSystem + Network,
    ensures { IsRun (map string_bytes words.now)
        (run_world H.held H.makes (reach_of (H.opens rt.old) (H.lets_in rt.old) (H.reaches rt.old)
        (H.joins rt.old) (H.fails rt.old) (moment_of H.Input.given H.Input.to_come H.Output.taken
        H.Input.called H.Output.called H.Input.failed H.Output.failed))
        rt.old rt.new (R.remaining input.old))
        (passage_of W.contents out.old out.new) (passage_of F.contents faults.old faults.new) result }
{
    match reply_to(rt, words, input) {
        Ok(reply) => {
            let status = show(rt.alloc(), &reply, out, faults);
            // The process ends after this: nobody needs the memory of the site.
            mem::forget(reply);
            status
        }
        Err(fault) => report(&fault, out, faults),
    }
}

/// Runs the program on the words that the process was given, as `act` does. Words that can't be
/// read are a usage fault, or there is no memory for them.
pub fn run<H, R: Read, W: Write, F: Write>(
    rt: &mut H,
    input: &mut R,
    out: &mut Output<W>,
    faults: &mut Output<F>,
) -> u8
where
    H: AllocGlobal + Env + FileSystem + Network,
    ensures { ((words : List (List ℕ)) × IsRun words
        (run_world H.held H.makes (reach_of (H.opens rt.old) (H.lets_in rt.old) (H.reaches rt.old)
        (H.joins rt.old) (H.fails rt.old) (moment_of H.Input.given H.Input.to_come H.Output.taken
        H.Input.called H.Output.called H.Input.failed H.Output.failed))
        rt.old rt.new (R.remaining input.old))
        (passage_of W.contents out.old out.new) (passage_of F.contents faults.old faults.new) result)
        ⊎ ((fault : CommandError) × ((fault ≡ CommandError.Usage) ⊎ IsMemoryFault fault)
        × EndsByFault fault result
        (passage_of W.contents out.old out.new) (passage_of F.contents faults.old faults.new)
        × (rt.new ≡ rt.old)) }
{
    match given_words(&*rt) {
        Ok(words) => act(rt, &words, input, out, faults),
        Err(fault) => report(&fault, out, faults),
    }
}

/// What is printed of a run that was not stopped.
#[derive(Drop)]
enum Reply {
    /// An answer, whole.
    Answer(Answer),
    /// What this site answers, which is made while it is written.
    Site(SiteQuestion, Replica),
}

/// What the command that the words ask for prints.
fn reply_to<H, R: Read>(rt: &mut H, words: &[String], input: &mut R) -> Result<Reply, CommandError>
where
    H: AllocGlobal + FileSystem + Network,
    ensures reply { IfOk result (IsReplyToWords (map string_bytes words.now)
        (run_world H.held H.makes (reach_of (H.opens rt.old) (H.lets_in rt.old) (H.reaches rt.old)
        (H.joins rt.old) (H.fails rt.old) (moment_of H.Input.given H.Input.to_come H.Output.taken
        H.Input.called H.Output.called H.Input.failed H.Output.failed))
        rt.old rt.new (R.remaining input.old))) }
    ensures fault { IfErr result (IsFaultOfWords (map string_bytes words.now)
        (run_world H.held H.makes (reach_of (H.opens rt.old) (H.lets_in rt.old) (H.reaches rt.old)
        (H.joins rt.old) (H.fails rt.old) (moment_of H.Input.given H.Input.to_come H.Output.taken
        H.Input.called H.Output.called H.Input.failed H.Output.failed))
        rt.old rt.new (R.remaining input.old))) }
{
    let command = command_of(rt.alloc(), words)?;
    match reply_for(rt, &command, input) {
        Ok(reply) => Ok(reply),
        Err(stop) => Err(CommandError::from(stop)),
    }
}

/// Writes what is printed, and answers the exit status.
fn show<W: Write, F: Write>(
    alloc: Global,
    reply: &Reply,
    out: &mut Output<W>,
    faults: &mut Output<F>,
) -> u8
    ensures { EndsByReply reply.now (passage_of W.contents out.old out.new)
        (passage_of F.contents faults.old faults.new) result }
{
    match reply {
        Reply::Answer(answer) => match out.write_out(&answer.bytes) {
            Ok(()) => answer.status.code(),
            Err(_) => report(&CommandError::Device, out, faults),
        },
        Reply::Site(question, site) => match write_out(alloc, *question, site, out) {
            Ok(status) => status.code(),
            Err(stop) => report(&CommandError::from(stop), out, faults),
        },
    }
}

/// What is printed for a command.
fn reply_for<H, R: Read>(rt: &mut H, command: &Command, input: &mut R) -> Result<Reply, RunError>
where
    H: AllocGlobal + FileSystem + Network,
    ensures reply { IfOk result (IsReplyTo (asked_by_words command.now)
        (run_world H.held H.makes (reach_of (H.opens rt.old) (H.lets_in rt.old) (H.reaches rt.old)
        (H.joins rt.old) (H.fails rt.old) (moment_of H.Input.given H.Input.to_come H.Output.taken
        H.Input.called H.Output.called H.Input.failed H.Output.failed))
        rt.old rt.new (R.remaining input.old))) }
    ensures stop { IfErr result (IsStopTo (asked_by_words command.now)
        (run_world H.held H.makes (reach_of (H.opens rt.old) (H.lets_in rt.old) (H.reaches rt.old)
        (H.joins rt.old) (H.fails rt.old) (moment_of H.Input.given H.Input.to_come H.Output.taken
        H.Input.called H.Output.called H.Input.failed H.Output.failed))
        rt.old rt.new (R.remaining input.old))) }
{
    match command {
        Command::Ask { question, files } => {
            Ok(Reply::Site(*question, site_for(&*rt, files, input)?))
        }
        Command::Merge { out, files } => Ok(Reply::Answer(merge_inputs(rt, out, files, input)?)),
        Command::Serve { port, count } => Ok(Reply::Answer(serve_port(&*rt, *port, *count)?)),
        Command::Push { port, files } => Ok(Reply::Answer(push_inputs(&*rt, *port, files, input)?)),
        Command::Loop { files } => Ok(Reply::Answer(loop_inputs(&*rt, files, input)?)),
    }
}

/// Merges, and says nothing.
fn merge_inputs<H: AllocGlobal + FileSystem + Network, R: Read>(
    rt: &mut H,
    out: &str,
    files: &[&str],
    input: &mut R,
) -> Result<Answer, RunError>
    ensures answer { IfOk result (IsAnswerTo (merging out.now (texts_of_files files.now))
        (run_world H.held H.makes (reach_of (H.opens rt.old) (H.lets_in rt.old) (H.reaches rt.old)
        (H.joins rt.old) (H.fails rt.old) (moment_of H.Input.given H.Input.to_come H.Output.taken
        H.Input.called H.Output.called H.Input.failed H.Output.failed))
        rt.old rt.new (R.remaining input.old))) }
    ensures stop { IfErr result (IsStopTo (merging out.now (texts_of_files files.now))
        (run_world H.held H.makes (reach_of (H.opens rt.old) (H.lets_in rt.old) (H.reaches rt.old)
        (H.joins rt.old) (H.fails rt.old) (moment_of H.Input.given H.Input.to_come H.Output.taken
        H.Input.called H.Output.called H.Input.failed H.Output.failed))
        rt.old rt.new (R.remaining input.old))) }
{
    match merge_into(rt, out, files, input) {
        Ok(()) => Ok(Answer {
            bytes: Vec::new(rt.alloc()),
            status: Status::Done,
        }),
        Err(stop) => Err(stop),
    }
}

/// Writes the line of what ended the run, and answers the exit status.
pub fn report<W: Write, F: Write>(
    fault: &CommandError,
    out: &mut Output<W>,
    faults: &mut Output<F>,
) -> u8
    ensures { EndsByFault fault.now result (passage_of W.contents out.old out.new)
        (passage_of F.contents faults.old faults.new) }
{
    match fault {
        CommandError::Usage | CommandError::Device => {
            complain(fault, faults);
            fault.status()
        }
        CommandError::Refused(refusal) => refuse(refusal, out, faults),
    }
}

/// Writes the line of a refusal.
fn refuse<W: Write, F: Write>(
    refusal: &RunRefusal,
    out: &mut Output<W>,
    faults: &mut Output<F>,
) -> u8
    ensures { IsRefusedFault (refusal_text refusal.now ++ codes "\n") result
        (passage_of W.contents out.old out.new) (passage_of F.contents faults.old faults.new) }
{
    let mut line = text_of(refusal);
    line.push_str("\n");
    match out.write_out(line.as_str().as_bytes()) {
        Ok(()) => 1,
        Err(_) => {
            complain(&CommandError::Device, faults);
            4
        }
    }
}

/// Tells of a fault where faults go, in one piece. Where nothing can be told, the status still is.
fn complain<F: Write>(fault: &CommandError, faults: &mut Output<F>)
    ensures { IsComplaint (passage_of F.contents faults.old faults.new) }
{
    let mut line = ArrayString::<LINE>::new();
    // No text of a fault fills the line.
    if write!(line, "{fault}").is_err() || line.is_full() {
        line.clear();
    }
    line.push_str("\n");
    let _ = faults.write_out(line.as_str().as_bytes());
}
