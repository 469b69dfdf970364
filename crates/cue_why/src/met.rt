//! Trails: what is refused at each place along a path, by a row for the root and one behind each
//! step.
ghost use Rattle.std.specs.Prelude.{◌≡◌, [], length, map, IfOk};
ghost use Rattle.cue_row.specs.Row.{RowRefusesQuestion};
ghost use Rattle.cue_row.specs.Steps.{step_of};
ghost use Rattle.cue_why.specs.Inner.Trails.{AreMet};
ghost use Rattle.cue_why.specs.Inner.Stacks.{IsTrailOf};

use cue_lattice::{Memory, Narrow};
use cue_row::{Row, Step};
use std::alloc::Global;

/// The trail of no source along a path.
pub(crate) fn free_trail(alloc: Global, path: &[Step]) -> Result<Vec<Row>, Memory>
    ensures { IfOk result (λ rows. IsTrailOf (map step_of path.now) [] rows.items) }
{
    let mut rows = Vec::new(alloc);
    rows.push(Row::free(alloc)?)?;
    for _step in path {
        rows.push(Row::free(alloc)?)?;
    }
    Ok(rows)
}

/// What two trails along one path refuse together.
pub(crate) fn meet_trails(alloc: Global, one: &[Row], other: &[Row]) -> Result<Vec<Row>, Memory>
    requires { length one.now ≡ length other.now }
    ensures { IfOk result (λ rows. AreMet RowRefusesQuestion one.now other.now rows.items) }
{
    let mut rows = Vec::with_capacity(alloc, one.len())?;
    for (i, row) in one.iter().enumerate() {
        rows.push(row.meet(alloc, &other[i])?)?;
    }
    Ok(rows)
}
