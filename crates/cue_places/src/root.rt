//! A place as a root of its own.
ghost use Rattle.std.specs.Prelude.{◌≡◌, ◌≤◌, [], map, IfOk, IfSome};
ghost use Rattle.cue_lattice.specs.Limits.{step_limit};
ghost use Rattle.cue_row.specs.Row.{RowRefusesQuestion};
ghost use Rattle.cue_row.specs.Steps.{step_of};
ghost use Rattle.cue_table.specs.Depth.{tree_depth};
ghost use Rattle.cue_table.specs.Refuses.{TableRefuses};
ghost use Rattle.cue_table.specs.Tree.{step_into};
ghost use Rattle.cue_places.specs.Places.{IsRootAt};

use cue_lattice::Memory;
use cue_row::{Level, Row, Step};
use cue_table::{Branch, Table};
use std::alloc::Global;

/// The place to which a path leads from another place, as a root of its own.
pub(crate) fn root_at(
    alloc: Global,
    branch: &Branch<Row>,
    steps: &[Step],
) -> Result<Table<Row>, Memory>
    requires { tree_depth branch.now ≤ step_limit }
    ensures { IfOk result (λ table. IsRootAt (TableRefuses RowRefusesQuestion branch.now)
        (map step_of steps.now) (TableRefuses RowRefusesQuestion table)) }
{
    match steps {
        [] => as_root(alloc, branch),
        [step, rest @ ..] => match next_below(branch, step) {
            None => Ok(Table::new(alloc)),
            Some(next) => root_at(alloc, &next, rest),
        },
    }
}

/// The place one step below another.
fn next_below<'a>(branch: &Branch<'a, Row>, step: &Step) -> Option<Branch<'a, Row>>
    requires { tree_depth branch.now ≤ step_limit }
    ensures next { result ≡ step_into branch.now (step_of step.now) }
    ensures depth { IfSome result (λ next. tree_depth next ≤ step_limit) }
{
    branch.find(step)
}

/// A place as a root of its own.
fn as_root(alloc: Global, branch: &Branch<Row>) -> Result<Table<Row>, Memory>
    requires { tree_depth branch.now ≤ step_limit }
    ensures { IfOk result (λ table. IsRootAt (TableRefuses RowRefusesQuestion branch.now) []
        (TableRefuses RowRefusesQuestion table)) }
{
    let mut table = branch.to_table(alloc)?;
    match table.take_row() {
        None => Ok(table),
        Some(row) => {
            table.meet_row(row.at_level(Level::Optional))?;
            Ok(table)
        }
    }
}
