//! Whether a path is declared.
ghost use Rattle.std.specs.Prelude.{◌↔◌, [], map, IsTrue};
ghost use Rattle.cue_row.specs.Row.{RowRefusesQuestion};
ghost use Rattle.cue_row.specs.Steps.{step_of};
ghost use Rattle.cue_table.specs.Refuses.{TableRefuses};
ghost use Rattle.cue_places.specs.Places.{IsDeclaredPlace, IsStepDeclared};

use cue_row::{Row, Step};
use cue_table::Branch;

/// Whether each step of a path from a place is declared.
pub(crate) fn is_declared(branch: &Branch<Row>, steps: &[Step]) -> bool
    ensures { IsTrue result
        ↔ IsDeclaredPlace (TableRefuses RowRefusesQuestion branch.now) (map step_of steps.now) }
{
    match steps {
        [] => true,
        [step, rest @ ..] => {
            if !is_step_declared(branch, step) {
                return false;
            }
            match branch.find(step) {
                None => rest.is_empty(),
                Some(next) => is_declared(&next, rest),
            }
        }
    }
}

/// Whether a step from a place is declared.
fn is_step_declared(branch: &Branch<Row>, step: &Step) -> bool
    ensures { IsTrue result
        ↔ IsStepDeclared (TableRefuses RowRefusesQuestion branch.now) [] (step_of step.now) }
{
    match step {
        Step::Label(_) => branch.find(step).is_some(),
        Step::Index(number) => match branch.row() {
            None => false,
            Some(row) => *number < row.least(),
        },
    }
}
