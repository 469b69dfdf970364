//! The parts of a source that are shown for a path.
ghost use Rattle.std.specs.Prelude.{◌≡◌, ◌≢◌, ◌↔◌, ◌⊎◌, [], map, IfOk, IsTrue, OnOk};
ghost use Rattle.cue_lattice.specs.OneOf.{OneOf};
ghost use Rattle.cue_row.specs.Steps.{step_of};
ghost use Rattle.cue_table.specs.Tree.{below, rest_below, none, no_rest};
ghost use Rattle.cue_why.specs.Inner.Parts.{IsIn};
ghost use Rattle.cue_why.specs.Inner.Saying.{RefusesAny, pair_of};
ghost use Rattle.cue_why.specs.Shown.{AreShown};
ghost use Rattle.cue_why.specs.declared.part.WrittenPart.{WrittenPart as Part};

use crate::below::parts_below;
use crate::part::WrittenPart;
use crate::source::LayerSource;
use crate::trail::{held_row, root_parts};
use cue_lattice::{Memory, Narrow};
use cue_policies::LayerKind;
use cue_row::{Row, Step};
use cue_table::Branch;
use std::alloc::Global;

/// The parts of a source that refuse something, at the longest beginning of a path at which it has
/// some, in the order of their paths as the source wrote them.
///
/// # Errors
///
/// `Memory`.
pub fn shown_parts<'a>(
    alloc: Global,
    source: &LayerSource<'a>,
    path: &[Step],
) -> Result<Vec<WrittenPart<'a>>, Memory>
    ensures { IfOk result (λ parts. AreShown source.now.kind source.now.table.now
        (map step_of path.now) (map pair_of parts.items)) }
{
    let mut parts = root_parts(alloc, source)?;
    let mut shown = select_refusing(alloc, source.kind, root_parts(alloc, source)?)?;
    for step in path {
        let found = parts_below(alloc, source.kind, &parts, step)?;
        shown = keep_later(shown, select_refusing(alloc, source.kind, found)?);
        parts = parts_below(alloc, source.kind, &parts, step)?;
    }
    Ok(shown)
}

/// The later ones of two lists of parts, unless there are none.
fn keep_later<'a>(shown: Vec<WrittenPart<'a>>, next: Vec<WrittenPart<'a>>) -> Vec<WrittenPart<'a>>
    ensures none { next.entry.items ≡ [] → result.items ≡ shown.entry.items }
    ensures some { next.entry.items ≢ [] → result.items ≡ next.entry.items }
{
    if next.is_empty() { shown } else { next }
}

/// Those of some parts that refuse something.
fn select_refusing<'a>(
    alloc: Global,
    kind: LayerKind,
    parts: Vec<WrittenPart<'a>>,
) -> Result<Vec<WrittenPart<'a>>, Memory>
    ensures { IfOk result (λ kept. (one : Part) → IsIn one kept.items
        ↔ OneOf (λ part. (part ≡ one) × RefusesAny kind part) parts.entry.items) }
{
    let mut kept = Vec::with_capacity(alloc, parts.len())?;
    for part in parts {
        keep_refusing(alloc, &mut kept, kind, part)?;
    }
    Ok(kept)
}

/// Puts a part behind others, where it refuses something.
fn keep_refusing<'a>(
    alloc: Global,
    kept: &mut Vec<WrittenPart<'a>>,
    kind: LayerKind,
    part: WrittenPart<'a>,
) -> Result<(), Memory>
    ensures { OnOk result ((one : Part) → IsIn one kept.new.items
        ↔ (IsIn one kept.old.items ⊎ ((part.entry ≡ one) × RefusesAny kind part.entry))) }
{
    if !refuses_any(alloc, kind, &part)? {
        return Ok(());
    }
    kept.push(part)?;
    Ok(())
}

/// Whether a part refuses something, at its path or below; at a pattern its level plays no part.
fn refuses_any(alloc: Global, kind: LayerKind, part: &WrittenPart) -> Result<bool, Memory>
    ensures { IfOk result (λ any. IsTrue any ↔ RefusesAny kind part.now) }
{
    let row = part.branch.row();
    if has_below(&part.branch) {
        return Ok(true);
    }
    match row {
        None => Ok(false),
        Some(row) => {
            let held = held_row(alloc, kind, part.written.steps(), row)?;
            Ok(!held.is_free())
        }
    }
}

/// Whether something is below a place.
fn has_below(branch: &Branch<Row>) -> bool
    ensures { IsTrue result
        ↔ ¬ ((below branch.now ≡ none) × (rest_below branch.now ≡ no_rest)) }
{
    let mut children = branch.children();
    match children.next() {
        Some(_) => true,
        None => branch.rest().is_some(),
    }
}
