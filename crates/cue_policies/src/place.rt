//! What parts refuse at a place of the view itself, and in its elements.
ghost use Rattle.std.specs.Prelude.{◌≡◌, ◌↔◌, ◌⊎◌, ◌≤◌, [], Bool, IfOk};
ghost use Rattle.cue_lattice.specs.Limits.{step_limit};
ghost use Rattle.cue_lattice.specs.Path.{Path};
ghost use Rattle.cue_lattice.specs.Question.{Question};
ghost use Rattle.cue_row.specs.Row.{IsRow, RefusesAsked, RowRefusesQuestion};
ghost use Rattle.cue_table.specs.Depth.{tree_depth};
ghost use Rattle.cue_table.specs.Form.{IsTable};
ghost use Rattle.cue_table.specs.Refuses.{TableRefuses};
ghost use Rattle.cue_policies.specs.Inner.Parts.{AreLimited, ArePlaces, AreSoundParts, IsElements};
ghost use Rattle.cue_policies.specs.Inner.Parts.{IsFit, IsLimited, IsPlace, IsSoundPart, RestRefuses};
ghost use Rattle.cue_policies.specs.Inner.Parts.{refused_in_role, held_row, most_depth};

use crate::part::{Role, ViewPart};
use cue_lattice::{Memory, Narrow};
use cue_row::{Level, Row, Step};
use cue_table::{Branch, Table};
use std::alloc::Global;

/// What the parts refuse together, but at labels.
pub(crate) fn places_of(alloc: Global, parts: &[ViewPart<'_>]) -> Result<Table<Row>, Memory>
    requires sound { AreSoundParts parts.now }
    requires depth { most_depth parts.now ≤ step_limit }
    ensures form { IfOk result (IsTable RefusesAsked IsRow) }
    ensures refused { IfOk result (ArePlaces parts.now) }
    ensures fit { IfOk result (λ table. (top : Bool) → AreLimited top parts.now → IsFit top table) }
{
    let mut table = Table::new(alloc);
    for part in parts {
        table.meet_with(place_of(alloc, part)?)?;
    }
    Ok(table)
}

/// The table of a part without what it has at labels. What a pattern holds refuses no level itself.
fn place_of(alloc: Global, part: &ViewPart<'_>) -> Result<Table<Row>, Memory>
    requires sound { IsSoundPart part.now }
    requires depth { tree_depth part.now.branch ≤ step_limit }
    ensures form { IfOk result (IsTable RefusesAsked IsRow) }
    ensures refused { IfOk result (IsPlace part.now) }
    ensures fit { IfOk result (λ table. (top : Bool) → IsLimited top part.now.branch
        → IsFit top table) }
{
    with_row(alloc, elements_of(alloc, &part.branch)?, part)
}

/// A table, and what a part refuses at its place itself.
fn with_row(alloc: Global, mut table: Table<Row>, part: &ViewPart<'_>) -> Result<Table<Row>, Memory>
    requires { IsTable RefusesAsked IsRow table }
    ensures form { IfOk result (IsTable RefusesAsked IsRow) }
    ensures refused { IfOk result (λ whole. (path : Path) (question : Question) →
        TableRefuses RowRefusesQuestion whole path question ↔ (TableRefuses RowRefusesQuestion table path question
        ⊎ ((path ≡ []) × refused_in_role part.now.role part.now.branch [] question))) }
{
    match part.branch.row() {
        None => Ok(table),
        Some(row) => {
            table.meet_row(row_of(alloc, part.role, row)?)?;
            Ok(table)
        }
    }
}

/// A row as a part of this role has it.
fn row_of(alloc: Global, role: Role, row: &Row) -> Result<Row, Memory>
    ensures { IfOk result (λ refused_in_role. refused_in_role ≡ held_row role row.now) }
{
    let row = row.copy(alloc)?;
    match role {
        Role::Layer | Role::Policy => Ok(row),
        Role::Pattern => Ok(row.at_level(Level::Optional)),
    }
}

/// The table of the elements of a place alone.
fn elements_of(alloc: Global, branch: &Branch<Row>) -> Result<Table<Row>, Memory>
    requires { tree_depth branch.now ≤ step_limit }
    ensures form { IfOk result (IsTable RefusesAsked IsRow) }
    ensures refused { IfOk result (IsElements branch.now) }
{
    let mut own = Vec::new(alloc);
    for (number, below) in branch.items() {
        own.push((Step::Index(number), below.to_table(alloc)?))?;
    }
    with_rest(alloc, Table::of_branches(alloc, own)?, branch)
}

/// A table, and what the rest of a list refuses in its elements.
fn with_rest(
    alloc: Global,
    mut table: Table<Row>,
    branch: &Branch<Row>,
) -> Result<Table<Row>, Memory>
    requires form { IsTable RefusesAsked IsRow table }
    requires depth { tree_depth branch.now ≤ step_limit }
    ensures form { IfOk result (IsTable RefusesAsked IsRow) }
    ensures refused { IfOk result (λ whole. (path : Path) (question : Question) →
        TableRefuses RowRefusesQuestion whole path question ↔ (TableRefuses RowRefusesQuestion table path question
        ⊎ RestRefuses branch.now path question)) }
{
    match branch.rest() {
        None => Ok(table),
        Some(rest) => {
            table.meet_rest(branch.fixed(), rest.to_table(alloc)?)?;
            Ok(table)
        }
    }
}
