ghost use Rattle.std.specs.Prelude.{◌≡◌, ◌+◌, min};
ghost use Rattle.std.specs.Option.{option_map};
ghost use Rattle.cue_row.specs.Row.{IsRow};
ghost use Rattle.cue_table.specs.StepsOfCode.{step_at};
ghost use Rattle.cue_table.specs.Tree.{rest_below};
ghost use Rattle.cue_report.specs.Inner.Search as search;
ghost use Rattle.cue_report.specs.Inner.Search.{least_at, rest_from};

use cue_row::{Level, Row};
use cue_table::{Branch, StepRef};

/// Whether no value may stand at a place: no scalar, struct or list, or a list of no length.
pub(crate) fn lacks_value(row: &Row) -> bool
    requires { IsRow row.now }
    ensures { result ≡ search.lacks_value row.now }
{
    if row.list_ok() {
        return match row.most() {
            None => false,
            Some(most) => most < row.least(),
        };
    }
    !row.struct_ok() && row.has_no_scalar()
}

/// Whether the step from one place to the next is demanded: to a field that is required or there,
/// or to an element that each list has.
pub(crate) fn is_demanded(above: Option<&Row>, step: StepRef, row: Option<&Row>) -> bool
    ensures { result ≡ search.is_demanded (option_map (λ row. row.now) above.entry)
        (step_at step.entry)
        (option_map (λ row. row.now) row.entry) }
{
    match step {
        StepRef::Label(_) => match row {
            None => false,
            Some(row) => match row.level() {
                Level::Optional => false,
                Level::Required | Level::Given => true,
            },
        },
        StepRef::Index(number) => match above {
            None => false,
            Some(above) => number < above.least(),
        },
    }
}

/// Whether a place does not allow the label of a step.
#[inline(always)]
pub(crate) fn is_refused(above: Option<&Row>, step: StepRef) -> bool
    ensures { result ≡ search.is_refused (option_map (λ row. row.now) above.entry)
        (step_at step.entry) }
{
    match (above, step) {
        (Some(row), StepRef::Label(label)) => !row.allows(label.as_str()),
        _ => false,
    }
}

/// How many elements each list has at a place.
pub(crate) fn least_of(row: Option<&Row>) -> u32
    ensures { result ≡ least_at (option_map (λ row. row.now) row.entry) }
{
    match row {
        None => 0,
        Some(row) => row.least(),
    }
}

/// Before which index those of an element and so many behind it end that are demanded, where so
/// many elements of the list are.
pub(crate) fn demanded_end(least: u32, first: u32, more: u32) -> u32
    ensures { result ≡ min least (first + more + 1) }
{
    let last = first.saturating_add(more);
    if last < least { last + 1 } else { least }
}

/// From which of the elements that each list has on they are the rest of the list at a place: how
/// many there are, where none is.
pub(crate) fn rest_from(branch: &Branch<Row>, least: u32) -> u32
    ensures { result ≡ rest_from (rest_below branch.now) least }
{
    if branch.rest().is_none() {
        return least;
    }
    let from = branch.fixed();
    if from < u64::from(least) {
        from as u32
    } else {
        least
    }
}
