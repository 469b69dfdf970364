//! Which tables are valid.
ghost use Rattle.std.specs.Prelude.{◌≡◌, ◌↔◌, ◌⊎◌, IsTrue};
ghost use Rattle.cue_row.specs.Kinds.{IsRowKind};
ghost use Rattle.cue_row.specs.Row.{IsRow, RefusesAsked};
ghost use Rattle.cue_row.specs.declared.parts.RowParts.{RowParts as RowValue};
ghost use Rattle.cue_row.specs.declared.kind.RowKind.TheVariants.{Nothing};
ghost use Rattle.cue_row.specs.declared.level.Level.TheVariants.{Optional};
ghost use Rattle.cue_table.specs.Tree.{Tree, row_of, rest_below, below, none, no_rest};
ghost use Rattle.cue_table.specs.Form.{IsTable};
ghost use Rattle.cue_table.specs.Meet.{IsMet};
ghost use Rattle.cue_table.specs.StepsOfCode.{step_at};
ghost use Rattle.cue_table.specs.Valid.{IsOpenStruct, IsValidTable};
ghost use Rattle.cue_table.specs.Inner.ValidWalk.{HasChild, HasElement, IsSound};
ghost use Rattle.cue_table.specs.Inner.ValidWalk.{MayBeElement, MayStand};

use crate::{Branch, StepRef, Table};
use cue_row::{Level, Row, RowKind};

impl Table<Row> {
    /// Whether a site may hold the table, and state bytes tell it. This takes no memory.
    pub fn is_valid(&self) -> bool
        ensures { IsTrue result ↔ IsValidTable self.now }
    {
        let root = self.root();
        match root.row() {
            None => is_end(&root),
            Some(row) => is_root(row) && is_sound(&root),
        }
    }
}

/// Valid tables are met to a valid table: the law of a call that does nothing.
pub fn valid_tables_meet()
    ensures { (a b met : Tree RowValue) → IsTable RefusesAsked IsRow met → IsMet RefusesAsked a b met
        → IsValidTable a → IsValidTable b → IsValidTable met }
{}

/// Whether a row may stand at the root, of all that is asked of it there alone.
fn is_root(row: &Row) -> bool
    ensures { IsTrue result ↔ (IsOpenStruct row.now × (row.now.level ≡ Optional)) }
{
    if row.labels().is_some() || !row.level().same(Level::Optional) {
        return false;
    }
    match row.kind() {
        None => false,
        Some(kind) => kind == RowKind::Struct,
    }
}

/// Whether there is no branch below a place.
fn is_end(branch: &Branch<Row>) -> bool
    ensures { IsTrue result ↔ ((below branch.now ≡ none) × (rest_below branch.now ≡ no_rest)) }
{
    if branch.rest().is_some() {
        return false;
    }
    let mut below = branch.children();
    match below.next() {
        None => true,
        Some(_) => false,
    }
}

/// Whether a valid row stands at the place and at each below it, each may stand below its parent,
/// and the elements of a list are alike from its least length on.
fn is_sound(branch: &Branch<Row>) -> bool
    ensures { IsTrue result ↔ IsSound branch.now }
{
    let Some(row) = branch.row() else {
        return false;
    };
    if !row.is_valid() {
        return false;
    }
    if branch.fixed() > u64::from(row.least()) {
        return false;
    }
    for (span, below) in branch.spans() {
        if !has_child(row, span.first(), &below) {
            return false;
        }
        if !is_sound(&below) {
            return false;
        }
    }
    match branch.rest() {
        None => true,
        Some(rest) => has_element(row, &rest) && is_sound(&rest),
    }
}

/// Whether a row stands one step below a row, and may stand there.
fn has_child(parent: &Row, step: StepRef, below: &Branch<Row>) -> bool
    ensures { IsTrue result ↔ HasChild parent.now (step_at step.entry) (row_of below.now) }
{
    match below.row() {
        None => false,
        Some(row) => may_stand(parent, step, row),
    }
}

/// Whether a row stands at further elements below a row, and may stand there.
fn has_element(parent: &Row, rest: &Branch<Row>) -> bool
    ensures { IsTrue result ↔ HasElement parent.now (row_of rest.now) }
{
    match rest.row() {
        None => false,
        Some(row) => may_be_element(parent, row),
    }
}

/// Whether a row may stand one step below another.
fn may_stand(parent: &Row, step: StepRef, row: &Row) -> bool
    ensures { IsTrue result ↔ MayStand parent.now (step_at step.entry) row.now }
{
    if !step.is_short() {
        return false;
    }
    match step {
        StepRef::Label(_) => is_kind(parent, RowKind::Struct),
        StepRef::Index(_) => may_be_element(parent, row),
    }
}

/// Whether a row may be that of an element below another.
fn may_be_element(parent: &Row, row: &Row) -> bool
    ensures { IsTrue result ↔ MayBeElement parent.now row.now }
{
    row.level().same(Level::Optional) && is_kind(parent, RowKind::List)
}

/// Whether a row is of this kind, or lets nothing stand.
fn is_kind(row: &Row, kind: RowKind) -> bool
    ensures { IsTrue result ↔ (IsRowKind row.now kind ⊎ IsRowKind row.now Nothing) }
{
    match row.kind() {
        None => false,
        Some(found) => found == kind || found == RowKind::Nothing,
    }
}
