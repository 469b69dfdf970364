//! What is found at a path of a table.
ghost use Rattle.std.specs.Prelude.{◌≡◌, map, take, IfOk};
ghost use Rattle.cue_row.specs.Row.{RowRefusesQuestion};
ghost use Rattle.cue_row.specs.Steps.{step_of};
ghost use Rattle.cue_table.specs.Refuses.{TableRefuses};
ghost use Rattle.cue_places.specs.Places.{IsFoundPlace};

use crate::bars::first_bar;
use crate::declared::is_declared;
use crate::root::root_at;
use cue_lattice::Memory;
use cue_report::{Conflict, ReportPlace};
use cue_row::{Row, Step};
use cue_table::Table;
use std::alloc::Global;

/// What is found at a path.
#[derive(Drop)]
pub enum Lookup {
    /// The path is not declared: nothing is said of a label of it or below that, or an index of it
    /// is at or beyond the least length.
    Absent,
    /// The path is declared, but a label of it is not allowed, or nothing may be at a place above
    /// its end. This is the first such place.
    Barred(Conflict),
    /// This is known at the place, as a root of its own: the level of the place plays no part.
    Root(Table<Row>),
}

/// What is found where these steps lead from the root of a table.
///
/// # Errors
///
/// `Memory`.
pub fn place_at(alloc: Global, table: &Table<Row>, steps: &[Step]) -> Result<Lookup, Memory>
    ensures { IfOk result
        (IsFoundPlace (TableRefuses RowRefusesQuestion table.now) (map step_of steps.now)) }
{
    let root = table.root();
    if !is_declared(&root, steps) {
        return Ok(Lookup::Absent);
    }
    match first_bar(&root, steps) {
        Some(bar) => Ok(Lookup::Barred(Conflict {
            path: ReportPlace::new(copy_steps(alloc, &steps[..bar.depth])?),
            no_value: bar.no_value,
            not_allowed: bar.not_allowed,
        })),
        None => Ok(Lookup::Root(root_at(alloc, &root, steps)?)),
    }
}

/// The same steps.
fn copy_steps(alloc: Global, steps: &[Step]) -> Result<Vec<Step>, Memory>
    ensures { IfOk result (λ copied. copied.items ≡ steps.now) }
{
    let mut copied = Vec::with_capacity(alloc, steps.len())?;
    for step in steps {
        copied.push(step.copy(alloc)?)?;
    }
    Ok(copied)
}
