//! Where a policy has a pattern that may not be there.
ghost use Rattle.std.specs.Prelude.{◌≡◌, ◌++◌, ◌∷◌, ◌↔◌, [], IsTrue, IfOk, IfSome, IfNone};
ghost use Rattle.cue_lattice.specs.Path.{index};
ghost use Rattle.cue_row.specs.Row.{RowRefusesQuestion};
ghost use Rattle.cue_table.specs.Refuses.{TableRefuses};
ghost use Rattle.cue_table.specs.StepsOfCode.{step_at};
ghost use Rattle.cue_table.specs.Tree.{row_of};
ghost use Rattle.cue_policies.specs.Inner.Forms.{ArePlain, IsForm, IsPlainRow};
ghost use Rattle.cue_policies.specs.Inner.Misplaced.{IsBarred, IsMisplacedUp, IsListedAt, IsOneOf};
ghost use Rattle.cue_policies.specs.Misplaced.{first_steps, IsMisplaced};
ghost use Rattle.cue_policies.specs.Patterns.{IsPattern};
ghost use Rattle.cue_policies.specs.WellFormed.{IsWellFormed};

use crate::forms::is_in_list;
use crate::labels::is_pattern;
use cue_lattice::{Memory, Text};
use cue_row::Row;
use cue_table::{Branch, Slot, StepRef, Table};
use std::alloc::Global;

/// The path of a pattern that keeps a policy from being well formed, where there is one: below an
/// element or a rest of a list, or in a set of labels.
///
/// # Errors
///
/// `Memory`.
pub fn misplaced_pattern(alloc: Global, policy: &Table<Row>) -> Result<Option<Vec<Slot>>, Memory>
    ensures some { IfOk result (λ found. IfSome found (λ path.
        IsMisplaced (TableRefuses RowRefusesQuestion policy.now) (first_steps path.items))) }
    ensures none { IfOk result (λ found. IfNone found
        (IsWellFormed (TableRefuses RowRefusesQuestion policy.now))) }
{
    let root = policy.root();
    match find_in(alloc, &root, false)? {
        None => Ok(None),
        Some(mut path) => {
            path.reverse();
            Ok(Some(path))
        }
    }
}

/// The path from a place to such a pattern at it or below, the last step first.
fn find_in(alloc: Global, branch: &Branch<Row>, in_list: bool) -> Result<Option<Vec<Slot>>, Memory>
    ensures some { IfOk result (λ found. IfSome found
        (λ up. IsMisplacedUp in_list branch.now (first_steps up.items))) }
    ensures none { IfOk result (λ found. IfNone found (IsForm in_list branch.now)) }
{
    if let Some(pattern) = pattern_in_set(branch) {
        return Ok(Some(behind(alloc, Vec::new(alloc), StepRef::Label(pattern))?));
    }
    for (span, below) in branch.spans() {
        let step = span.first();
        if is_barred(in_list, step) {
            return Ok(Some(behind(alloc, Vec::new(alloc), step)?));
        }
        if let Some(up) = find_in(alloc, &below, is_in_list(in_list, step))? {
            return Ok(Some(behind(alloc, up, step)?));
        }
    }
    let Some(rest) = branch.rest() else {
        return Ok(None);
    };
    match find_in(alloc, &rest, true)? {
        None => Ok(None),
        Some(up) => Ok(Some(behind_rest(up, branch.fixed())?)),
    }
}

/// Whether a step is a pattern in a list.
fn is_barred(in_list: bool, step: StepRef) -> bool
    ensures { IsTrue result ↔ IsBarred in_list (step_at step.entry) }
{
    match step {
        StepRef::Label(label) => in_list && is_pattern(label.as_str()),
        StepRef::Index(_) => false,
    }
}

/// A path, the last step first, with one more step in front.
fn behind(alloc: Global, up: Vec<Slot>, step: StepRef) -> Result<Vec<Slot>, Memory>
    ensures { IfOk result (λ longer.
        first_steps longer.items ≡ first_steps up.items ++ (step_at step.entry ∷ [])) }
{
    let mut longer = up;
    longer.push(Slot::At(step.to_step(alloc)?))?;
    Ok(longer)
}

/// A path, the last step first, with the rest from an index on in front.
fn behind_rest(up: Vec<Slot>, from: u64) -> Result<Vec<Slot>, Memory>
    ensures { IfOk result (λ longer.
        first_steps longer.items ≡ first_steps up.items ++ (index from ∷ [])) }
{
    let mut longer = up;
    longer.push(Slot::From(from))?;
    Ok(longer)
}

/// A pattern in the set of labels of a place, where there is one.
fn pattern_in_set<'a>(branch: &Branch<'a, Row>) -> Option<&'a Text>
    ensures some { IfSome result (λ pattern. IsListedAt (row_of branch.now) pattern.now) }
    ensures none { IfNone result (IsPlainRow (row_of branch.now)) }
{
    let row = branch.row()?;
    let labels = row.labels()?;
    pattern_among(labels)
}

/// The first pattern among labels.
fn pattern_among(labels: &[Text]) -> Option<&Text>
    ensures some { IfSome result (λ pattern.
        IsPattern pattern.now × IsOneOf labels.now pattern.now) }
    ensures none { IfNone result (ArePlain labels.now) }
{
    for label in labels {
        if is_pattern(label.as_str()) {
            return Some(label);
        }
    }
    None
}
