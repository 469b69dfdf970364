//! Branches that all stand at one step.
ghost use Rattle.std.specs.Prelude.{◌≡◌, ◌↔◌, ◌⊎◌, ◌++◌, map, [], List, All, IfOk, IfSome, IsTrue, OnOk};
ghost use Rattle.cue_lattice.specs.OneOf.{OneOf};
ghost use Rattle.cue_lattice.specs.Path.{Path};
ghost use Rattle.cue_table.specs.Form.{IsTable};
ghost use Rattle.cue_table.specs.Inner.Child as seen;
ghost use Rattle.cue_table.specs.Inner.Given.{given_of, RefusesAtRoot, IsBranch};
ghost use Rattle.cue_table.specs.Inner.View.{branches};
ghost use Rattle.cue_table.specs.Many.{AreUnified, IsOfBranches};
ghost use Rattle.cue_table.specs.Refuses.{RowRefuses, TableRefuses};
ghost use Rattle.cue_table.specs.Tree.{below, no_rest, rest_below, row_of};

use crate::Table;
use crate::child::Child;
use crate::many::{of_branch, of_steps};
use crate::node::{Node, copy_row};
use crate::same::same_row;
use cue_lattice::{Memory, Narrow};
use cue_row::Step;
use std::alloc::Global;

/// The step at which all branches stand.
pub(crate) fn common_step<R: Narrow>(children: &[Child<R>]) -> Option<&Step>
    ensures { IfSome result (λ step. All (λ child. child.step ≡ step.now) children.now) }
{
    let step = children.first()?.step();
    for child in children {
        if !child.step().same(step) {
            return None;
        }
    }
    Some(step)
}

/// The table of branches that all stand at one step.
pub(crate) fn of_one_step<R: Narrow>(
    alloc: Global,
    step: Step,
    children: Vec<Child<R>>,
) -> Result<Table<R>, Memory>
    requires branches { All (IsBranch R.refuses R.is_value) children.items }
    requires step { All (λ child. child.step ≡ step) children.items }
    ensures form { IfOk result (IsTable R.refuses R.is_value) }
    ensures refused { IfOk result (IsOfBranches R.refuses (map given_of children.items)) }
{
    let met = unify_places(alloc, children)?;
    if met.has_rows() {
        return of_branch(alloc, Child::new(alloc, step, met.into_root())?);
    }
    Ok(met)
}

/// What the places of branches and all below them know together. Where a place has the row of the
/// first one and no rest, the branches below it are put into one list, which is sorted once. All
/// other places are unified by halves.
fn unify_places<R: Narrow>(alloc: Global, places: Vec<Child<R>>) -> Result<Table<R>, Memory>
    requires { All (IsBranch R.refuses R.is_value) places.items }
    ensures form { IfOk result (IsTable R.refuses R.is_value) }
    ensures refused { IfOk result
        (AreUnified R.refuses (map (λ place. place.node) places.items)) }
{
    let row = first_row(alloc, &places)?;
    let mut below = Vec::with_capacity(alloc, places.len())?;
    let mut others = Vec::new(alloc);
    for place in places {
        let node = place.into_node(alloc)?;
        if has_just(&node, &row) {
            push_below(node, &mut below)?;
        } else {
            others.push(Table::of_root(alloc, node))?;
        }
    }
    let mut met = of_steps(alloc, below)?;
    met.meet_with(Table::unify_all(alloc, others)?)?;
    meet_row(met, row)
}

/// The row of the first place.
fn first_row<R: Narrow>(alloc: Global, places: &[Child<R>]) -> Result<Option<R>, Memory>
    ensures { IfOk result (λ row. (question : R.Question) → RowRefuses R.refuses row question
        → OneOf (λ place. TableRefuses R.refuses place.node [] question) places.now) }
{
    match places.first() {
        Some(first) => copy_row(alloc, &first.node().row),
        None => Ok(None),
    }
}

/// Whether a place has this row, and no rest.
fn has_just<R: Narrow>(place: &Node<R>, row: &Option<R>) -> bool
    ensures { IsTrue result → (row_of place.now ≡ row.now) × (rest_below place.now ≡ no_rest) }
{
    place.rest.is_none() && same_row(&place.row, row)
}

/// Puts the branches below a place without a rest behind others.
fn push_below<R: Narrow>(place: Node<R>, others: &mut Vec<Child<R>>) -> Result<(), Memory>
    requires { rest_below place ≡ no_rest }
    ensures { OnOk result ((own : List (seen.Child R))
        × (branches own ≡ below place) × (others.new.items ≡ others.old.items ++ own)) }
{
    let Node {
        row: _,
        mut children,
        rest: _,
    } = place;
    others.append(&mut children)?;
    Ok(())
}

/// A table unified with a row at its root.
fn meet_row<R: Narrow>(mut table: Table<R>, row: Option<R>) -> Result<Table<R>, Memory>
    ensures form { IfOk result (IsTable R.refuses R.is_value) }
    ensures refused { IfOk result (λ met. (path : Path) (question : R.Question) →
        TableRefuses R.refuses met path question ↔
        (TableRefuses R.refuses table path question ⊎ RefusesAtRoot R.refuses row path question)) }
{
    match row {
        None => Ok(table),
        Some(row) => {
            table.meet_row(row)?;
            Ok(table)
        }
    }
}
