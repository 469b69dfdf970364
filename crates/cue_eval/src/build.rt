//! Tables of literals, made of those of their parts.
ghost use Rattle.std.specs.Prelude.{◌≡◌, ◌≤◌, ◌<◌, ◌+◌, ◌⊎◌, All, IfOk, length, OnOk};
ghost use Rattle.cue_lattice.specs.Limits.{step_limit, length_limit};
ghost use Rattle.cue_lattice.specs.Question.{SameAnswers};
ghost use Rattle.cue_row.specs.Row.{RowRefusesQuestion, RefusesAsked, IsRow};
ghost use Rattle.cue_scalars.specs.Values.{pair_of_value};
ghost use Rattle.cue_scope.specs.Core.{Core};
ghost use Rattle.cue_scope.specs.Meaning.{nest_in_labels, text_of};
ghost use Rattle.cue_table.specs.Depth.{tree_depth};
ghost use Rattle.cue_table.specs.Form.{IsTable};
ghost use Rattle.cue_eval.specs.Evaluated.{HasAnswersOf};
ghost use Rattle.cue_eval.specs.Inner.Gathered.{TreeRefusals, LabelsRefuse, LiteralAnswers};
ghost use Rattle.cue_eval.specs.Inner.Parts.{AreJoined};
ghost use Rattle.cue_eval.specs.Places.{IsAtPlace, ScalarRefuses, StructRefuses, ListRefuses};
ghost use Rattle.cue_eval.specs.Places.{MarkRefuses};

use crate::rows::{list_row, mark_row, raise_level, scalar_row, struct_row};
use cue_lattice::Memory;
use cue_row::{LabelSet, Row, Step};
use cue_scalars::Valued;
use cue_syntax::{Label, LabelName, Mark};
use cue_table::Table;
use std::alloc::Global;
use std::mem;

/// Adds what a row says to the root of a table.
#[inline(always)]
fn add_row(table: &mut Table<Row>, row: Row) -> Result<(), Memory>
    ensures form { IsTable RefusesAsked IsRow table.new }
    ensures answers { OnOk result (SameAnswers (TreeRefusals table.new)
        (λ path question. TreeRefusals table.old path question ⊎ IsAtPlace (RowRefusesQuestion row) path question)) }
{
    table.meet_row(row)
}

/// What is known where a row stands alone.
#[inline(always)]
pub(crate) fn table_of(alloc: Global, row: Row) -> Result<Table<Row>, Memory>
    ensures form { IfOk result (IsTable RefusesAsked IsRow) }
    ensures answers { IfOk result (λ table. SameAnswers (TreeRefusals table)
        (IsAtPlace (RowRefusesQuestion row))) }
{
    let mut table = Table::new(alloc);
    add_row(&mut table, row)?;
    Ok(table)
}

/// What is known where these scalars stand.
pub(crate) fn scalar_table(alloc: Global, valued: Valued) -> Result<Table<Row>, Memory>
    ensures form { IfOk result (IsTable RefusesAsked IsRow) }
    ensures answers { IfOk result (λ table. SameAnswers (TreeRefusals table)
        (IsAtPlace (ScalarRefuses (pair_of_value valued)))) }
{
    table_of(alloc, scalar_row(alloc, valued)?)
}

/// To the tables of the parts of an `&` comes one of the scalars among its parts, where there are
/// some.
pub(crate) fn push_scalars(
    alloc: Global,
    scalars: Vec<Valued>,
    tables: &mut Vec<Table<Row>>,
) -> Result<(), Memory>
    ensures { OnOk result (AreJoined tables.old.items scalars.items tables.new.items) }
{
    if scalars.is_empty() {
        return Ok(());
    }
    let joined = Valued::and_all(alloc, scalars)?;
    tables.push(scalar_table(alloc, joined)?)?;
    Ok(())
}

/// A struct of these fields, with these labels alone.
pub(crate) fn struct_of(
    alloc: Global,
    fields: Vec<(Step, Table<Row>)>,
    labels: LabelSet,
) -> Result<Table<Row>, Memory>
    requires { All (λ field. tree_depth field.1 < step_limit) fields.items }
    ensures form { IfOk result (IsTable RefusesAsked IsRow) }
    ensures answers { IfOk result (λ table. SameAnswers (TreeRefusals table)
        (LiteralAnswers (λ question. StructRefuses question ⊎ LabelsRefuse labels question)
        fields.items)) }
{
    let mut table = Table::of_branches(alloc, fields)?;
    add_row(&mut table, struct_row(alloc, labels)?)?;
    Ok(table)
}

/// A list of these elements, and whether it ends in `...`.
pub(crate) fn list_of(
    alloc: Global,
    elements: Vec<(Step, Table<Row>)>,
    goes_on: bool,
) -> Result<Table<Row>, Memory>
    requires count { length elements.items ≤ length_limit }
    requires depth { All (λ element. tree_depth element.1 < step_limit) elements.items }
    ensures form { IfOk result (IsTable RefusesAsked IsRow) }
    ensures answers { IfOk result (λ table. SameAnswers (TreeRefusals table)
        (LiteralAnswers (ListRefuses (length elements.items) goes_on) elements.items)) }
{
    let count = elements.len();
    let mut table = Table::of_branches(alloc, elements)?;
    add_row(&mut table, list_row(alloc, count, goes_on)?)?;
    Ok(table)
}

/// Adds the mark of a field to what is known of its value.
#[inline(always)]
pub(crate) fn mark(table: &mut Table<Row>, mark: Mark) -> Result<(), Memory>
    ensures form { IsTable RefusesAsked IsRow table.new }
    ensures answers { OnOk result (SameAnswers (TreeRefusals table.new)
        (λ path question. IsAtPlace (MarkRefuses mark) path question
        ⊎ TreeRefusals table.old path question)) }
{
    let row = match table.take_row() {
        None => mark_row(mark),
        Some(row) => raise_level(row, mark),
    };
    add_row(table, row)
}

/// The step to the field of a label.
#[inline(always)]
pub(crate) fn step_to(alloc: Global, label: &Label) -> Result<Step, Memory>
    ensures { IfOk result (λ step. step ≡ Step.Label (text_of label.now.name)) }
{
    match &label.name {
        LabelName::Plain(name) => Ok(Step::Label(name.to_text(alloc)?)),
        LabelName::Quoted(text) => Ok(Step::Label(text.to_text(alloc)?)),
    }
}

/// Puts a table behind a chain of labels, each of which is in a struct of its own. After want of
/// memory it is some table. Most fields have no chain.
#[inline(always)]
pub(crate) fn put_behind(
    alloc: Global,
    chain: &[Label],
    table: &mut Table<Row>,
) -> Result<(), Memory>
    requires form { IsTable RefusesAsked IsRow table.old }
    requires depth { tree_depth table.old + length chain.now ≤ step_limit }
    ensures form { OnOk result (IsTable RefusesAsked IsRow table.new) }
    ensures depth { OnOk result (tree_depth table.new ≤ tree_depth table.old + length chain.now) }
    ensures answers { OnOk result ((c : Core) → HasAnswersOf c table.old →
        HasAnswersOf (nest_in_labels chain.now c) table.new) }
{
    if chain.is_empty() {
        return Ok(());
    }
    nest(alloc, chain, table)
}

/// Puts a table behind the labels of a chain, the innermost first.
fn nest(alloc: Global, chain: &[Label], table: &mut Table<Row>) -> Result<(), Memory>
    requires form { IsTable RefusesAsked IsRow table.old }
    requires depth { tree_depth table.old + length chain.now ≤ step_limit }
    ensures form { OnOk result (IsTable RefusesAsked IsRow table.new) }
    ensures depth { OnOk result (tree_depth table.new ≤ tree_depth table.old + length chain.now) }
    ensures answers { OnOk result ((c : Core) → HasAnswersOf c table.old →
        HasAnswersOf (nest_in_labels chain.now c) table.new) }
{
    match chain {
        [] => Ok(()),
        [first, rest @ ..] => {
            nest(alloc, rest, table)?;
            mark(table, first.mark)?;
            let inner = mem::replace(table, Table::new(alloc));
            let mut fields = Vec::with_capacity(alloc, 1)?;
            fields.push((step_to(alloc, first)?, inner))?;
            *table = struct_of(alloc, fields, LabelSet::all(alloc))?;
            Ok(())
        }
    }
}
