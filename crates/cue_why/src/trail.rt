//! What one source refuses at each place along a path.
ghost use Rattle.std.specs.Prelude.{◌≡◌, ◌↔◌, ◌∷◌, [], map, IfOk, OnOk};
ghost use Rattle.cue_lattice.specs.OneOf.{OneOf};
ghost use Rattle.cue_lattice.specs.Question.{Question};
ghost use Rattle.cue_row.specs.Row.{RowRefusesQuestion};
ghost use Rattle.cue_row.specs.Steps.{step_of};
ghost use Rattle.cue_why.specs.Inner.Parts.{AreParts, GainsPart, HoldsPart, IsHeldRow};
ghost use Rattle.cue_why.specs.Inner.Stacks.{IsTrailOf};

use crate::below::parts_below;
use crate::part::{WrittenPart, ends_in_pattern};
use crate::source::LayerSource;
use cue_lattice::{Memory, Narrow};
use cue_policies::LayerKind;
use cue_report::ReportPlace;
use cue_row::{Level, Row, Step};
use std::alloc::Global;

/// What a source has at the root.
pub(crate) fn root_parts<'a>(
    alloc: Global,
    source: &LayerSource<'a>,
) -> Result<Vec<WrittenPart<'a>>, Memory>
    ensures { IfOk result (λ parts.
        AreParts source.now.kind source.now.table.now [] parts.items) }
{
    let mut parts = Vec::with_capacity(alloc, 1)?;
    parts.push(WrittenPart {
        written: ReportPlace::new(Vec::new(alloc)),
        branch: source.table.root(),
    })?;
    Ok(parts)
}

/// What a source refuses at each place along a path: a row for the root, and one behind each step.
pub(crate) fn trail_of(
    alloc: Global,
    source: &LayerSource,
    path: &[Step],
) -> Result<Vec<Row>, Memory>
    ensures { IfOk result (λ rows.
        IsTrailOf (map step_of path.now) (source.now ∷ []) rows.items) }
{
    let mut parts = root_parts(alloc, source)?;
    let mut rows = Vec::new(alloc);
    rows.push(row_of(alloc, source.kind, &parts)?)?;
    for step in path {
        parts = parts_below(alloc, source.kind, &parts, step)?;
        rows.push(row_of(alloc, source.kind, &parts)?)?;
    }
    Ok(rows)
}

/// What parts of one place refuse there together.
fn row_of(alloc: Global, kind: LayerKind, parts: &[WrittenPart]) -> Result<Row, Memory>
    ensures { IfOk result (λ row. (question : Question) → RowRefusesQuestion row question
        ↔ OneOf (λ part. HoldsPart kind part question) parts.now) }
{
    let mut row = Row::free(alloc)?;
    for part in parts {
        add_row(alloc, &mut row, kind, part)?;
    }
    Ok(row)
}

/// Unifies what a part refuses at its place into a row.
fn add_row(alloc: Global, row: &mut Row, kind: LayerKind, part: &WrittenPart) -> Result<(), Memory>
    ensures { OnOk result (GainsPart kind row.old part.now row.new) }
{
    match part.branch.row() {
        None => Ok(()),
        Some(own) => {
            let held = held_row(alloc, kind, part.written.steps(), own)?;
            row.narrow(alloc, held)?;
            Ok(())
        }
    }
}

/// A row at a path as it counts in the view: where the path ends in a pattern, of no level.
pub(crate) fn held_row(
    alloc: Global,
    kind: LayerKind,
    path: &[Step],
    row: &Row,
) -> Result<Row, Memory>
    ensures { IfOk result (λ held. IsHeldRow kind (map step_of path.now) row.now held) }
{
    let row = row.copy(alloc)?;
    if ends_in_pattern(kind, path) {
        Ok(row.at_level(Level::Optional))
    } else {
        Ok(row)
    }
}
