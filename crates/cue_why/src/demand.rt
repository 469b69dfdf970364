//! What rows along a path say of its steps and of its end.
ghost use Rattle.std.specs.Prelude.{◌≡◌, ◌↔◌, suc, length, map, IsTrue};
ghost use Rattle.cue_lattice.specs.Question.{level_at_most};
ghost use Rattle.cue_report.specs.Answers.{IsDemanded, IsNotAllowed};
ghost use Rattle.cue_row.specs.Row.{RowRefusesQuestion};
ghost use Rattle.cue_row.specs.Steps.{step_of};
ghost use Rattle.cue_why.specs.Inner.Trails.{IsDemandedBy, IsRefusedBy, TrailRefuses};

use cue_row::{Level, Row, Step};

/// Whether each step of a path is demanded, by the rows along it.
pub(crate) fn is_demanded(rows: &[Row], path: &[Step]) -> bool
    requires { length rows.now ≡ suc (length path.now) }
    ensures { let steps = map step_of path.now in
        IsTrue result ↔ IsDemanded (TrailRefuses RowRefusesQuestion steps rows.now) steps }
{
    match path {
        [] => true,
        [step, steps @ ..] => match rows {
            [] => false,
            [above, below @ ..] => {
                is_step_demanded(above, step, below) && is_demanded(below, steps)
            }
        },
    }
}

/// Whether a step is demanded, by the row above it and the rows from behind it on.
fn is_step_demanded(above: &Row, step: &Step, below: &[Row]) -> bool
    ensures { IsTrue result ↔ IsDemandedBy RowRefusesQuestion above.now (step_of step.now) below.now }
{
    match step {
        Step::Label(_) => match below {
            [] => false,
            [row, ..] => is_asked(row),
        },
        Step::Index(number) => *number < above.least(),
    }
}

/// Whether the field of a row is required or there.
fn is_asked(row: &Row) -> bool
    ensures { IsTrue result ↔ RowRefusesQuestion row.now (level_at_most 0) }
{
    match row.level() {
        Level::Optional => false,
        Level::Required | Level::Given => true,
    }
}

/// Whether the label at the end of a path is not allowed, by the rows along it.
pub(crate) fn is_not_allowed(rows: &[Row], path: &[Step]) -> bool
    requires { length rows.now ≡ suc (length path.now) }
    ensures { let steps = map step_of path.now in
        IsTrue result ↔ IsNotAllowed (TrailRefuses RowRefusesQuestion steps rows.now) steps }
{
    match path {
        [] => false,
        [step, steps @ ..] => match rows {
            [] => false,
            [above, below @ ..] => {
                if steps.is_empty() {
                    is_refused(above, step)
                } else {
                    is_not_allowed(below, steps)
                }
            }
        },
    }
}

/// Whether a row does not allow the label of a step.
fn is_refused(above: &Row, step: &Step) -> bool
    ensures { IsTrue result ↔ IsRefusedBy RowRefusesQuestion above.now (step_of step.now) }
{
    match step {
        Step::Label(label) => !above.allows(label.as_str()),
        Step::Index(_) => false,
    }
}
