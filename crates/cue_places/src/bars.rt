//! What bars a path.
ghost use Rattle.std.specs.Prelude.{◌≡◌, ◌↔◌, ◌≤◌, [], ◌∷◌, length, map, IfNone, IfSome, IsTrue};
ghost use Rattle.cue_report.specs.Answers.{HasNoValue, IsNotAllowed};
ghost use Rattle.cue_report.specs.Inner.Search as search;
ghost use Rattle.cue_row.specs.Row.{IsRow, RowRefusesQuestion};
ghost use Rattle.cue_row.specs.Steps.{step_of};
ghost use Rattle.cue_table.specs.Refuses.{TableRefuses};
ghost use Rattle.cue_places.specs.Inner.Bars.{IsBarOf, at_row};
ghost use Rattle.cue_places.specs.Places.{HasNoKind, IsFreePlace};

use cue_lattice::Narrow;
use cue_row::{Row, Step};
use cue_table::Branch;

/// A place that bars a path, by how many steps lead there, and why.
#[derive(Clone, Copy, Debug, PartialEq, Eq)]
pub(crate) struct Bar {
    pub depth: usize,
    /// No value may be there.
    pub no_value: bool,
    /// The struct above does not allow the label.
    pub not_allowed: bool,
}

/// The first place that bars a path from another place.
pub(crate) fn first_bar(branch: &Branch<Row>, steps: &[Step]) -> Option<Bar>
    ensures deep { IfSome result (λ bar. bar.depth ≤ length steps.now) }
    ensures some { IfSome result
        (IsBarOf (TableRefuses RowRefusesQuestion branch.now) (map step_of steps.now)) }
    ensures none { IfNone result
        (IsFreePlace (TableRefuses RowRefusesQuestion branch.now) (map step_of steps.now)) }
{
    match steps {
        [] => None,
        [step, rest @ ..] => {
            if has_no_kind(branch) {
                return Some(Bar {
                    depth: 0,
                    no_value: true,
                    not_allowed: false,
                });
            }
            if is_refused(branch, step) {
                return Some(Bar {
                    depth: 1,
                    no_value: has_no_value_at(branch, step),
                    not_allowed: true,
                });
            }
            let next = branch.find(step)?;
            let bar = first_bar(&next, rest)?;
            Some(Bar {
                depth: bar.depth + 1,
                no_value: bar.no_value,
                not_allowed: bar.not_allowed,
            })
        }
    }
}

/// Whether a place does not allow the label of a step.
fn is_refused(branch: &Branch<Row>, step: &Step) -> bool
    ensures { IsTrue result
        ↔ IsNotAllowed (TableRefuses RowRefusesQuestion branch.now) (step_of step.now ∷ []) }
{
    match step {
        Step::Index(_) => false,
        Step::Label(label) => match branch.row() {
            None => false,
            Some(row) => !row.allows(label.as_str()),
        },
    }
}

/// Whether no scalar, struct or list may be at a place.
fn has_no_kind(branch: &Branch<Row>) -> bool
    ensures { IsTrue result ↔ HasNoKind (TableRefuses RowRefusesQuestion branch.now) [] }
{
    match branch.row() {
        None => false,
        Some(row) => is_of_no_kind(row),
    }
}

/// Whether a row lets no scalar, struct or list be.
fn is_of_no_kind(row: &Row) -> bool
    ensures { IsTrue result ↔ HasNoKind (at_row row.now) [] }
{
    row.known();
    if row.list_ok() {
        return false;
    }
    if row.struct_ok() {
        return false;
    }
    row.has_no_scalar()
}

/// Whether no value may be one step below a place.
fn has_no_value_at(branch: &Branch<Row>, step: &Step) -> bool
    ensures { IsTrue result
        ↔ HasNoValue (TableRefuses RowRefusesQuestion branch.now) (step_of step.now ∷ []) }
{
    match branch.find(step) {
        None => false,
        Some(next) => has_no_value(&next),
    }
}

/// Whether no value may be at a place: no scalar, struct or list, or a list of no length.
fn has_no_value(branch: &Branch<Row>) -> bool
    ensures { IsTrue result ↔ HasNoValue (TableRefuses RowRefusesQuestion branch.now) [] }
{
    match branch.row() {
        None => false,
        Some(row) => lacks_value(row),
    }
}

/// Whether a row lets no value be.
fn lacks_value(row: &Row) -> bool
    requires { IsRow row.now }
    ensures { result ≡ search.lacks_value row.now }
{
    if row.list_ok() {
        return match row.most() {
            None => false,
            Some(most) => most < row.least(),
        };
    }
    !row.struct_ok() && row.has_no_scalar()
}
