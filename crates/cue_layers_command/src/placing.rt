//! Places of a view, each as a root of its own, and what makes what is reported at one.
ghost use Rattle.std.specs.Prelude.{◌≡◌, ◌⊎◌, IfOk, IfErr, List, Option, Some, ℕ, map};
ghost use Rattle.std.specs.Prelude.{string_bytes};
ghost use Rattle.cue_program.specs.Files.{texts_of_files};
ghost use Rattle.cue_row.specs.PathText.{path_text};
ghost use Rattle.cue_row.specs.Steps.{step_of};
ghost use Rattle.cue_layers_command.specs.Faults.{IsMemoryLayersFault};
ghost use Rattle.cue_layers_command.specs.Places.{IsFoundText, IsPrintedAt, IsShownAt};
ghost use Rattle.cue_layers_command.specs.Runs.{layers_run_world, IsFaultTo};
ghost use Rattle.cue_layers_command.specs.Words.{asking, tracing};
ghost use Rattle.cue_layers_command.specs.inner.Lines.{lines_code};
ghost use Rattle.cue_layers_command.specs.inner.Replies.{IsReplyTo};

use crate::fault::LayersCommandError;
use crate::reply::{LayersReply, absence_line};
use cue_layers_program::{join_files, view_of};
use cue_layers_why::{why, why_lines};
use cue_places::{Lookup, is_file, place_at, read_path, value_text};
use cue_print::print;
use cue_program::{FileSystem, Memory, SiteQuestion};
use cue_report::{ExportKind, lines, write_conflicts, write_export, write_gaps};
use cue_row::{Row, Step};
use cue_table::Table;
use std::alloc::Global;

/// Answers a question about the place of this path in the view of files.
pub fn place_reply<H>(
    rt: &H,
    question: SiteQuestion,
    path: &str,
    files: &[&str],
    limit: u64,
) -> Result<LayersReply, LayersCommandError>
where
    H: AllocGlobal + FileSystem,
    ensures reply { (known : Option (List ℕ)) → IfOk result (IsReplyTo
        (asking question (Some path.now) (texts_of_files files.now) limit)
        (layers_run_world H.held H.makes rt.now rt.now known)) }
    ensures fault { (known : Option (List ℕ)) → IfErr result (IsFaultTo
        (asking question (Some path.now) (texts_of_files files.now) limit)
        (layers_run_world H.held H.makes rt.now rt.now known)) }
{
    let steps = steps_of(rt.alloc(), path)?;
    match view_of(rt, files, limit) {
        Ok(view) => {
            let found = place_at(rt.alloc(), view.table(), &steps)?;
            let (bytes, status) = answer_lookup(rt.alloc(), question, path, found)?;
            Ok(LayersReply::Text(bytes, status))
        }
        Err(stop) => Err(LayersCommandError::from(stop)),
    }
}

/// Prints which layers of files make what is reported at a path.
pub fn why_reply<H>(rt: &H, path: &str, files: &[&str]) -> Result<LayersReply, LayersCommandError>
where
    H: AllocGlobal + FileSystem,
    ensures reply { (known : Option (List ℕ)) → IfOk result (IsReplyTo
        (tracing path.now (texts_of_files files.now)) (layers_run_world H.held H.makes rt.now rt.now known)) }
    ensures fault { (known : Option (List ℕ)) → IfErr result (IsFaultTo
        (tracing path.now (texts_of_files files.now)) (layers_run_world H.held H.makes rt.now rt.now known)) }
{
    let steps = steps_of(rt.alloc(), path)?;
    match join_files(rt, files) {
        Ok(map) => {
            let named = why(rt.alloc(), &map, &steps)?;
            let text = why_lines(rt.alloc(), &named)?;
            Ok(LayersReply::Text(text.into_bytes(), 0))
        }
        Err(stop) => Err(LayersCommandError::from(stop)),
    }
}

/// The steps of a path, as report lines write it.
///
/// # Errors
///
/// `Usage` where it is none, and want of memory.
fn steps_of(alloc: Global, path: &str) -> Result<Vec<Step>, LayersCommandError>
    ensures steps { IfOk result (λ steps. path_text (map step_of steps.items) ≡ path.now) }
    ensures fault { IfErr result (λ fault. IsMemoryLayersFault fault ⊎ (fault ≡ LayersCommandError.Usage)) }
{
    match read_path(alloc, path)? {
        Some(steps) => Ok(steps),
        None => Err(LayersCommandError::Usage),
    }
}

/// What is printed of what is found at a path, and the exit status.
fn answer_lookup(
    alloc: Global,
    question: SiteQuestion,
    path: &str,
    found: Lookup,
) -> Result<(Vec<u8>, u8), Memory>
    ensures { IfOk result (λ text. IsFoundText question path.now found text.0.items text.1) }
{
    match found {
        Lookup::Absent => Ok((absence_line(alloc, path)?, 1)),
        Lookup::Barred(conflict) => Ok((lines(alloc, &[conflict], &[])?.into_bytes(), 2)),
        Lookup::Root(table) => answer_at(alloc, question, &table),
    }
}

/// What is answered about a table as a root, as a run prints it, and the exit status. Its root need
/// not be an open struct.
fn answer_at(
    alloc: Global,
    question: SiteQuestion,
    table: &Table<Row>,
) -> Result<(Vec<u8>, u8), Memory>
    ensures { IfOk result (λ text. IsShownAt question table.now text.0.items text.1) }
{
    match question {
        SiteQuestion::Export => export_at(alloc, table),
        SiteQuestion::Report => report_at(alloc, table),
        _ => Ok((print_at(alloc, table)?.into_bytes(), 0)),
    }
}

/// The JSON and a line break, or the conflict lines, or the incomplete lines.
fn export_at(alloc: Global, table: &Table<Row>) -> Result<(Vec<u8>, u8), Memory>
    ensures { IfOk result (λ text. IsShownAt SiteQuestion.Export table.now text.0.items text.1) }
{
    let mut text = String::new(alloc);
    match write_export(alloc, table, &mut text)? {
        ExportKind::Json => {
            text.push('\n')?;
            Ok((text.into_bytes(), 0))
        }
        ExportKind::Conflicts => Ok((text.into_bytes(), 2)),
        ExportKind::Incomplete => Ok((text.into_bytes(), 3)),
    }
}

/// The conflict lines, and then the incomplete lines.
fn report_at(alloc: Global, table: &Table<Row>) -> Result<(Vec<u8>, u8), Memory>
    ensures { IfOk result (λ text. IsShownAt SiteQuestion.Report table.now text.0.items text.1) }
{
    let mut text = String::new(alloc);
    let conflicting = write_conflicts(alloc, table, &mut text)?;
    let lacking = write_gaps(alloc, table, &mut text)?;
    Ok((text.into_bytes(), code_of_lines(conflicting, lacking)))
}

/// The exit status of a report that has lines of conflicts or not, and of gaps or not.
fn code_of_lines(conflicting: bool, lacking: bool) -> u8
    ensures { result ≡ lines_code conflicting lacking }
{
    if conflicting {
        2
    } else if lacking {
        3
    } else {
        0
    }
}

/// The canonical text: of a file, where the root is an open struct or anything may be there, and
/// else of a value, and a line break.
fn print_at(alloc: Global, table: &Table<Row>) -> Result<String, Memory>
    ensures { IfOk result (λ text. IsPrintedAt table.now (string_bytes text)) }
{
    if is_file(table) {
        print(alloc, table)
    } else {
        value_text(alloc, table)
    }
}
