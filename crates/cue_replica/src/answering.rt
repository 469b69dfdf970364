//! Answers that are written while they are made.
ghost use Rattle.std.specs.Prelude.{◌≡◌, IfOk, OnErr};
ghost use Rattle.cue_replica.specs.Answers.{of_text, status_of, WritesAnswerPrefix, WritesAnswer};
ghost use Rattle.cue_replica.specs.Inner.Statuses.{lines_status};

use crate::question::{Status, TextQuestion};
use crate::replica::Replica;
use cue_device::TextSink;
use cue_report::ExportKind;
use std::alloc::Global;

/// Tells what the site answers in a text, while it is made, and how it ends the run that prints it.
/// Memory goes with the table, and not with what is told.
///
/// # Errors
///
/// Where no more is taken, or memory ran out; then the front of the answer was taken.
pub fn write_answer<S: TextSink>(
    alloc: Global,
    question: TextQuestion,
    site: &Replica,
    out: &mut S,
) -> Result<Status, S::SinkError>
    ensures told { IfOk result (λ status. WritesAnswer (of_text question) site.now status
        (S.taken out.old) (S.taken out.new)) }
    ensures begun { OnErr result
        (WritesAnswerPrefix (of_text question) site.now (S.taken out.old) (S.taken out.new)) }
{
    match question {
        TextQuestion::Export => Ok(status_by(site.write_export(alloc, out)?)),
        TextQuestion::Print => {
            site.write_printed(alloc, out)?;
            Ok(Status::Done)
        }
        TextQuestion::Report => write_report(alloc, site, out),
    }
}

/// Tells a line for each conflict, and then one for each place that is incomplete.
fn write_report<S: TextSink>(
    alloc: Global,
    site: &Replica,
    out: &mut S,
) -> Result<Status, S::SinkError>
    ensures told { IfOk result (λ status. WritesAnswer (of_text TextQuestion.Report) site.now status
        (S.taken out.old) (S.taken out.new)) }
    ensures begun { OnErr result
        (WritesAnswerPrefix (of_text TextQuestion.Report) site.now (S.taken out.old) (S.taken out.new)) }
{
    let conflicting = site.write_conflicts(alloc, out)?;
    let lacking = site.write_gaps(alloc, out)?;
    Ok(status_of_lines(conflicting, lacking))
}

/// How an export of this kind ends.
fn status_by(kind: ExportKind) -> Status
    ensures { result ≡ status_of kind }
{
    match kind {
        ExportKind::Json => Status::Done,
        ExportKind::Conflicts => Status::Conflicts,
        ExportKind::Incomplete => Status::Incomplete,
    }
}

/// How a report ends that has lines of conflicts or not, and of gaps or not.
fn status_of_lines(conflicting: bool, lacking: bool) -> Status
    ensures { result ≡ lines_status conflicting lacking }
{
    if conflicting {
        Status::Conflicts
    } else if lacking {
        Status::Incomplete
    } else {
        Status::Done
    }
}
