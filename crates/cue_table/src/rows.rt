//! The rows of a table as a list.
ghost use Rattle.std.specs.Prelude.{◌≡◌, ◌+◌, ◌≤◌, ◌++◌, length, map, IfOk, OnOk};
ghost use Rattle.cue_lattice.specs.Limits.{step_limit};
ghost use Rattle.cue_table.specs.Depth.{tree_depth};
ghost use Rattle.cue_table.specs.Form.{IsTable};
ghost use Rattle.cue_table.specs.Inner.Rows.{row_beyond};
ghost use Rattle.cue_table.specs.Slots.{rows_of};

use crate::{Branch, Place, Slot, Table};
use cue_lattice::{Memory, Narrow};
use std::alloc::Global;

impl<R: Narrow> Table<R> {
    /// The rows with their places, in the order of these.
    pub fn rows(&self, alloc: Global) -> Result<Vec<(Place, &R)>, Memory>
        ensures rows { IfOk result (λ rows. map (λ row. (row.0, row.1.now)) rows.items
            ≡ rows_of self.now) }
        ensures form { IsTable R.refuses R.is_value self.now }
    {
        let mut rows = Vec::new(alloc);
        push_rows(alloc, &mut rows, &Place::root(alloc), &self.root())?;
        Ok(rows)
    }
}

/// Writes down the rows of a branch at a place.
fn push_rows<'a, R: Narrow>(
    alloc: Global,
    rows: &mut Vec<(Place, &'a R)>,
    place: &Place,
    branch: &Branch<'a, R>,
) -> Result<(), Memory>
    requires { length place.now + tree_depth branch.now ≤ step_limit }
    ensures { OnOk result (map (λ row. (row.0, row.1.now)) rows.new.items
        ≡ map (λ row. (row.0, row.1.now)) rows.old.items
        ++ map (row_beyond place.now) (rows_of branch.now)) }
{
    if let Some(row) = branch.row() {
        rows.push((place.copy(alloc)?, row))?;
    }
    for (step, below) in branch.children() {
        let slot = Slot::At(step.to_step(alloc)?);
        push_rows(alloc, rows, &place.then(alloc, slot)?, &below)?;
    }
    if let Some(rest) = branch.rest() {
        let slot = Slot::From(branch.fixed());
        push_rows(alloc, rows, &place.then(alloc, slot)?, &rest)?;
    }
    Ok(())
}
