//! Lines of a report that another has not.
ghost use Rattle.std.specs.Prelude.{◌≡◌, IfOk};
ghost use Rattle.std.specs.List.{concat, list_any};
ghost use Rattle.cue_program.specs.Files.{texts_of_files};
ghost use Rattle.cue_program.specs.Parts.{lines_of};
ghost use Rattle.cue_layers_program.specs.Tries.{is_conflict, status_of_lines};
ghost use Rattle.cue_layers_program.specs.Inner.Lines.{HasLines};
ghost use Rattle.cue_layers_program.specs.Tries.{new_lines as lines_that_are_new, AreNewLines};

use cue_program::{Answer, Memory, Status, first_line};
use std::alloc::Global;
use std::collections::BTreeSet;

/// How the line of a conflict begins.
const CONFLICT: &[u8] = b"conflict ";

/// The lines of a report that are none of a former one, with the status that they have: that of
/// conflicts, where one of them tells of a conflict; else that of gaps, where there are any.
pub fn new_lines(alloc: Global, former: &[u8], report: &[u8]) -> Result<Answer, Memory>
    ensures { IfOk result (AreNewLines former.now report.now) }
{
    let lines = added_lines(alloc, former, report)?;
    Ok(Answer {
        status: status_of(&lines),
        bytes: whole(alloc, &lines)?,
    })
}

/// The lines of a report that are none of a former one.
fn added_lines<'r>(alloc: Global, former: &[u8], report: &'r [u8]) -> Result<Vec<&'r [u8]>, Memory>
    ensures { IfOk result (λ kept.
        texts_of_files kept.items ≡ lines_that_are_new former.now report.now) }
{
    let known = set_of_lines(alloc, former)?;
    let mut kept = Vec::new(alloc);
    for line in split_lines(alloc, report)? {
        if !known.contains(&line) {
            kept.push(line)?;
        }
    }
    Ok(kept)
}

/// The lines of bytes, as a set.
fn set_of_lines(alloc: Global, bytes: &[u8]) -> Result<BTreeSet<&[u8], Global>, Memory>
    ensures { IfOk result (HasLines (lines_of bytes.now)) }
{
    let mut known = BTreeSet::new(alloc);
    for line in split_lines(alloc, bytes)? {
        known.insert(line)?;
    }
    Ok(known)
}

/// The lines of bytes, each with its line break, which the last one may lack.
fn split_lines(alloc: Global, bytes: &[u8]) -> Result<Vec<&[u8]>, Memory>
    ensures { IfOk result (λ lines. texts_of_files lines.items ≡ lines_of bytes.now) }
{
    let mut lines = Vec::new(alloc);
    let mut rest = bytes;
    while !rest.is_empty() {
        let (line, after) = first_line(rest);
        lines.push(line)?;
        rest = after;
    }
    Ok(lines)
}

/// Lines one behind the other.
fn whole(alloc: Global, lines: &[&[u8]]) -> Result<Vec<u8>, Memory>
    ensures { IfOk result (λ bytes. bytes.items ≡ concat (texts_of_files lines.now)) }
{
    let mut bytes = Vec::new(alloc);
    for line in lines {
        bytes.extend_from_slice(line)?;
    }
    Ok(bytes)
}

/// The status of lines of a report.
fn status_of(lines: &[&[u8]]) -> Status
    ensures { result ≡ status_of_lines (texts_of_files lines.now) }
{
    if lines.is_empty() {
        return Status::Done;
    }
    if has_conflict(lines) {
        return Status::Conflicts;
    }
    Status::Incomplete
}

/// Whether one of the lines is that of a conflict.
fn has_conflict(lines: &[&[u8]]) -> bool
    ensures { result ≡ list_any is_conflict (texts_of_files lines.now) }
{
    for line in lines {
        if line.starts_with(CONFLICT) {
            return true;
        }
    }
    false
}
