//! The rows of scalars, structs, lists and marks at their own place.
ghost use Rattle.std.specs.Prelude.{◌≡◌, ◌≤◌, ◌↔◌, ◌⊎◌, IfOk};
ghost use Rattle.cue_row.specs.Levels as levels;
ghost use Rattle.cue_lattice.specs.Question.{Question as Asked};
ghost use Rattle.cue_lattice.specs.Limits.{length_limit};
ghost use Rattle.cue_scalars.specs.Values.{pair_of_value};
ghost use Rattle.cue_row.specs.Row.{RowRefusesQuestion};
ghost use Rattle.cue_eval.specs.Places.{ScalarRefuses, StructRefuses, ListRefuses, MarkRefuses};
ghost use Rattle.cue_eval.specs.Places.{level_of_mark};
ghost use Rattle.cue_eval.specs.Inner.Gathered.{LabelsRefuse};
ghost use Rattle.cue_eval.specs.Pairs.{plain_pair};
ghost use Rattle.cue_eval.specs.Sets.{integer_alone, text_alone};

use cue_lattice::{Memory, Text};
use cue_row::{LabelSet, Level, Row};
use cue_scalars::Valued;
use cue_syntax::Mark;
use std::alloc::Global;

/// The row of a place where these scalars stand.
pub(crate) fn scalar_row(alloc: Global, valued: Valued) -> Result<Row, Memory>
    ensures { IfOk result (λ row. (question : Asked) →
        RowRefusesQuestion row question ↔ ScalarRefuses (pair_of_value valued) question) }
{
    let Valued { value, usual } = valued;
    match usual {
        None => Row::of_all_usual(alloc, Level::Optional, value),
        Some(usual) => Row::of_scalars(alloc, Level::Optional, value, usual),
    }
}

/// The row of a place where one integer stands.
pub(crate) fn integer_row(number: i64) -> Row
    ensures { (question : Asked) → RowRefusesQuestion result question
        ↔ ScalarRefuses (plain_pair (integer_alone number)) question }
{
    Row::of_integer(Level::Optional, number)
}

/// The row of a place where one text stands.
pub(crate) fn text_row(text: Text) -> Row
    ensures { (question : Asked) → RowRefusesQuestion result question
        ↔ ScalarRefuses (plain_pair (text_alone text)) question }
{
    Row::of_text(Level::Optional, text)
}

/// The row of a place where a struct stands that has these labels alone.
pub(crate) fn struct_row(alloc: Global, labels: LabelSet) -> Result<Row, Memory>
    ensures { IfOk result (λ row. (question : Asked) →
        RowRefusesQuestion row question ↔ (StructRefuses question ⊎ LabelsRefuse labels question)) }
{
    Row::of_struct(alloc, Level::Optional, labels)
}

/// The row of a place where a list of so many elements stands, and whether it ends in `...`.
pub(crate) fn list_row(alloc: Global, count: usize, goes_on: bool) -> Result<Row, Memory>
    requires { count ≤ length_limit }
    ensures { IfOk result (λ row. (question : Asked) →
        RowRefusesQuestion row question ↔ ListRefuses count goes_on question) }
{
    let count = count as u32;
    let most = if goes_on { None } else { Some(count) };
    Row::of_list(alloc, Level::Optional, count, most)
}

/// The row that a field's mark alone makes.
pub(crate) fn mark_row(mark: Mark) -> Row
    ensures { (question : Asked) → RowRefusesQuestion result question ↔ MarkRefuses mark question }
{
    Row::of_anything(level_of(mark))
}

/// The row of a field with this mark, where its value has this row.
pub(crate) fn raise_level(row: Row, mark: Mark) -> Row
    ensures { (question : Asked) → RowRefusesQuestion result question
        ↔ (RowRefusesQuestion row question ⊎ MarkRefuses mark question) }
{
    let level = row.level().greater(level_of(mark));
    row.at_level(level)
}

/// The level of a field with this mark.
fn level_of(mark: Mark) -> Level
    ensures { levels.level_of result ≡ level_of_mark mark }
{
    match mark {
        Mark::Regular => Level::Given,
        Mark::Optional => Level::Optional,
        Mark::Required => Level::Required,
    }
}
