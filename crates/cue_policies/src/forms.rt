//! Which policies are well formed.
ghost use Rattle.std.specs.Prelude.{◌≡◌, ◌↔◌, IsTrue};
ghost use Rattle.cue_row.specs.Row.{RowRefusesQuestion};
ghost use Rattle.cue_table.specs.Refuses.{TableRefuses};
ghost use Rattle.cue_table.specs.StepsOfCode.{step_at};
ghost use Rattle.cue_table.specs.Tree.{row_of};
ghost use Rattle.cue_policies.specs.Inner.Forms.{ArePlain, IsForm, IsPlainRow, MayStep, below_step};
ghost use Rattle.cue_policies.specs.WellFormed.{IsPlain, IsWellFormed};

use crate::labels::is_pattern;
use cue_lattice::Text;
use cue_row::Row;
use cue_table::{Branch, StepRef, Table};

/// Whether a policy is well formed: no pattern is below an element or a rest of a list, and no set
/// of labels has a pattern. This takes no memory.
pub fn is_well_formed(table: &Table<Row>) -> bool
    ensures { IsTrue result ↔ IsWellFormed (TableRefuses RowRefusesQuestion table.now) }
{
    let root = table.root();
    is_form(&root, false)
}

/// Whether a well-formed policy has no pattern at all. This takes no memory.
pub fn is_plain(policy: &Table<Row>) -> bool
    requires { IsWellFormed (TableRefuses RowRefusesQuestion policy.now) }
    ensures { IsTrue result ↔ IsPlain (TableRefuses RowRefusesQuestion policy.now) }
{
    let root = policy.root();
    is_form(&root, true)
}

/// Whether a place, and each below it, is as a well-formed policy has it.
fn is_form(branch: &Branch<Row>, in_list: bool) -> bool
    ensures { IsTrue result ↔ IsForm in_list branch.now }
{
    if !has_plain_row(branch) {
        return false;
    }
    for (span, below) in branch.spans() {
        if !may_step(in_list, span.first()) {
            return false;
        }
        if !is_form(&below, is_in_list(in_list, span.first())) {
            return false;
        }
    }
    match branch.rest() {
        None => true,
        Some(rest) => is_form(&rest, true),
    }
}

/// Whether no pattern is in the set of labels of a place, where it has one.
fn has_plain_row(branch: &Branch<Row>) -> bool
    ensures { IsTrue result ↔ IsPlainRow (row_of branch.now) }
{
    let Some(row) = branch.row() else {
        return true;
    };
    match row.labels() {
        None => true,
        Some(labels) => are_plain(labels),
    }
}

/// Whether none of the labels is a pattern.
fn are_plain(labels: &[Text]) -> bool
    ensures { IsTrue result ↔ ArePlain labels.now }
{
    for label in labels {
        if is_pattern(label.as_str()) {
            return false;
        }
    }
    true
}

/// Whether a step is no pattern in a list.
fn may_step(in_list: bool, step: StepRef) -> bool
    ensures { IsTrue result ↔ MayStep in_list (step_at step.entry) }
{
    match step {
        StepRef::Label(label) => !in_list || !is_pattern(label.as_str()),
        StepRef::Index(_) => true,
    }
}

/// Whether what is below a step is in a list.
pub(crate) fn is_in_list(in_list: bool, step: StepRef) -> bool
    ensures { result ≡ below_step in_list (step_at step.entry) }
{
    match step {
        StepRef::Label(_) => in_list,
        StepRef::Index(_) => true,
    }
}
