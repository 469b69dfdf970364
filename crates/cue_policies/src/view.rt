//! The view of layers and policies as one table.
ghost use Rattle.std.specs.Prelude.{◌≡◌, ◌<◌, ◌≤◌, ◌∷◌, [], Bool, IfErr, IfOk, IfSome, OnOk};
ghost use Rattle.cue_lattice.specs.Limits.{step_limit};
ghost use Rattle.cue_lattice.specs.Question.{SameAnswers};
ghost use Rattle.cue_row.specs.Row.{IsRow, RefusesAsked, RowRefusesQuestion};
ghost use Rattle.cue_table.specs.Depth.{tree_depth};
ghost use Rattle.cue_table.specs.Form.{IsTable};
ghost use Rattle.cue_table.specs.Refuses.{TableRefuses};
ghost use Rattle.cue_table.specs.Valid.{IsValidTable};
ghost use Rattle.cue_policies.specs.Inner.Parts.{AreFields, AreLimited, AreSoundParts, IsFit};
ghost use Rattle.cue_policies.specs.Inner.Parts.{PartsRefuse, most_depth, two_parts};
ghost use Rattle.cue_policies.specs.Rows.{HasMoreRows, IsViewError, row_count};
ghost use Rattle.cue_policies.specs.Tables.{ViewOfTwo};
ghost use Rattle.cue_policies.specs.WellFormed.{IsPlain, IsWellFormed};
ghost use Rattle.cue_policies.specs.declared.part.Role.TheVariants as roles;

use crate::below::parts_below;
use crate::error::ViewError;
use crate::forms::is_plain;
use crate::names::labels_of;
use crate::part::{Role, ViewPart};
use crate::place::places_of;
use crate::rows::rows_within;
use cue_lattice::Memory;
use cue_row::{Row, Step};
use cue_table::Table;
use std::alloc::Global;

/// A part of the view, and a number of rows that it has at least.
#[derive(Drop)]
struct CountedView {
    table: Table<Row>,
    rows: u64,
}

/// The view of the unification of all layers proper and of that of all policies.
///
/// # Errors
///
/// `TooLarge`, where some policy has a pattern and the view has more rows than the limit. And
/// `Memory`. A view that is too large is refused after steps for some 64 times the limit.
pub fn whole_view(
    alloc: Global,
    layers: &Table<Row>,
    policies: &Table<Row>,
    limit: u64,
) -> Result<Table<Row>, ViewError>
    requires layers { IsValidTable layers.now }
    requires policies { IsValidTable policies.now }
    requires formed { IsWellFormed (TableRefuses RowRefusesQuestion policies.now) }
    ensures valid { IfOk result IsValidTable }
    ensures refused { IfOk result (λ view.
        SameAnswers (TableRefuses RowRefusesQuestion view) (ViewOfTwo layers.now policies.now)) }
    ensures few { IfOk result (λ view.
        ¬ IsPlain (TableRefuses RowRefusesQuestion policies.now) → row_count view ≤ limit) }
    ensures large { IfErr result (IsViewError ((¬ IsPlain (TableRefuses RowRefusesQuestion policies.now))
        × HasMoreRows limit (ViewOfTwo layers.now policies.now))) }
{
    if is_plain(policies) {
        return Ok(layers.meet(alloc, policies)?);
    }
    let parts = root_parts(alloc, layers, policies)?;
    let view = view_of(alloc, &parts, limit)?;
    Ok(count_rows(view.table, limit)?.table)
}

/// The parts of the root of a view.
fn root_parts<'a>(
    alloc: Global,
    layers: &'a Table<Row>,
    policies: &'a Table<Row>,
) -> Result<Vec<ViewPart<'a>>, Memory>
    ensures parts { IfOk result (λ parts. parts.items ≡ two_parts layers.now policies.now) }
    ensures depth { OnOk result ((tree_depth layers.now ≤ step_limit)
        × (tree_depth policies.now ≤ step_limit)) }
{
    let mut parts = Vec::with_capacity(alloc, 2)?;
    parts.push(ViewPart {
        role: Role::Layer,
        branch: layers.root(),
    })?;
    parts.push(ViewPart {
        role: Role::Policy,
        branch: policies.root(),
    })?;
    Ok(parts)
}

/// The view of the parts of a place, where it has no more than `most` rows at its ends. The
/// recursion is as deep as the deepest part.
fn view_of(alloc: Global, parts: &[ViewPart<'_>], most: u64) -> Result<CountedView, ViewError>
    requires sound { AreSoundParts parts.now }
    requires depth { most_depth parts.now ≤ step_limit }
    ensures form { IfOk result (λ view. IsTable RefusesAsked IsRow view.table) }
    ensures refused { IfOk result (λ view.
        SameAnswers (TableRefuses RowRefusesQuestion view.table) (PartsRefuse parts.now)) }
    ensures fit { IfOk result (λ view.
        (top : Bool) → AreLimited top parts.now → IsFit top view.table) }
    ensures rows { IfOk result (λ view. (view.rows ≤ row_count view.table) × (view.rows ≤ most)) }
    ensures large { IfErr result (IsViewError (HasMoreRows most (PartsRefuse parts.now))) }
{
    if let Some(part) = lone_layer(parts) {
        return count_rows(part.branch.to_table(alloc)?, most);
    }
    let labels = labels_of(alloc, parts, false)?;
    let patterns = labels_of(alloc, parts, true)?;
    let mut fields = Vec::with_capacity(alloc, labels.len())?;
    let mut rows = 0;
    for label in labels {
        let below = parts_below(alloc, parts, &patterns, &label)?;
        let field = view_of(alloc, &below, most - rows)?;
        rows += field.rows;
        fields.push((Step::Label(label), field.table))?;
    }
    let table = join_parts(alloc, parts, fields)?;
    if rows == 0 {
        return count_rows(table, most);
    }
    Ok(CountedView { table, rows })
}

/// A table with all its rows, where it has no more than `most`.
fn count_rows(table: Table<Row>, most: u64) -> Result<CountedView, ViewError>
    ensures table { IfOk result (λ view. view.table ≡ table) }
    ensures form { IfOk result (λ view. IsTable RefusesAsked IsRow view.table) }
    ensures rows { IfOk result (λ view. (view.rows ≡ row_count table) × (view.rows ≤ most)) }
    ensures large { IfErr result (IsViewError (IsTable RefusesAsked IsRow table
        × (most < row_count table))) }
{
    match rows_within(&table.root(), most) {
        Some(rows) => Ok(CountedView { table, rows }),
        None => Err(ViewError::TooLarge),
    }
}

/// The only part, where it is one of a layer proper.
fn lone_layer<'p, 'a>(parts: &'p [ViewPart<'a>]) -> Option<&'p ViewPart<'a>>
    ensures { IfSome result (λ part. (parts.now ≡ part.now ∷ []) × (part.now.role ≡ roles.Layer)) }
{
    let (part, others) = parts.split_first()?;
    if !others.is_empty() || part.role != Role::Layer {
        return None;
    }
    Some(part)
}

/// The fields of a place together with what its parts refuse elsewhere.
fn join_parts(
    alloc: Global,
    parts: &[ViewPart<'_>],
    fields: Vec<(Step, Table<Row>)>,
) -> Result<Table<Row>, Memory>
    requires sound { AreSoundParts parts.now }
    requires depth { most_depth parts.now ≤ step_limit }
    requires fields { AreFields parts.now fields.items }
    ensures form { IfOk result (IsTable RefusesAsked IsRow) }
    ensures refused { IfOk result (λ view.
        SameAnswers (TableRefuses RowRefusesQuestion view) (PartsRefuse parts.now)) }
    ensures fit { IfOk result (λ view. (top : Bool) → AreLimited top parts.now → IsFit top view) }
{
    let mut view = places_of(alloc, parts)?;
    view.meet_with(Table::of_branches(alloc, fields)?)?;
    Ok(view)
}
