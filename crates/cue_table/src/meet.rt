//! A place that takes another one over. One branch alone is met where it stands, or put in among
//! the others; where there are more, all that changes is made before anything moves.
ghost use Rattle.std.specs.Prelude.{◌≡◌, IfOk, OnErr, OnOk};
ghost use Rattle.std.specs.Option.{option_map};
ghost use Rattle.cue_row.specs.Steps.{step_of};
ghost use Rattle.cue_table.specs.Tree.{child, none, no_rest, rest_below};
ghost use Rattle.cue_table.specs.Form.{AreBranches, IsRowKept, IsTableRow, IsTable};
ghost use Rattle.cue_table.specs.Meet.{IsMet, IsUnion};
ghost use Rattle.cue_table.specs.Inner.Meet.{IsMerge};
ghost use Rattle.cue_table.specs.Refuses.{RowRefuses};
ghost use Rattle.cue_table.specs.Inner.Changes.{or_old};
ghost use Rattle.cue_table.specs.Inner.Parts.{or_row};
ghost use Rattle.cue_table.specs.Inner.View.{branches};

use crate::changes::changes;
use crate::child::Child;
use crate::fill::{carry_out, insert};
use crate::lists::meet_lists;
use crate::node::{Node, copy_children, copy_row, place};
use cue_lattice::{Memory, Narrow, Narrowed};
use std::alloc::Global;

/// Unifies another place into a place, with all below. After want of memory it is as it was.
#[cycle(meet)]
pub(crate) fn meet_into<R: Narrow>(
    alloc: Global,
    left: &mut Node<R>,
    right: Node<R>,
) -> Result<(), Memory>
    requires left { IsTable R.refuses R.is_value left.old }
    requires right { IsTable R.refuses R.is_value right }
    ensures form { IsTable R.refuses R.is_value left.new }
    ensures ok { OnOk result (IsMet R.refuses left.old right left.new) }
    ensures err { OnErr result (left.new ≡ left.old) }
{
    if left.rest.is_none() && right.rest.is_none() {
        return meet_own(alloc, left, right);
    }
    *left = meet_lists(alloc, left, &right)?;
    Ok(())
}

/// Unifies another place into a place, where neither has a rest.
#[cycle(meet)]
fn meet_own<R: Narrow>(alloc: Global, left: &mut Node<R>, right: Node<R>) -> Result<(), Memory>
    requires left { IsTable R.refuses R.is_value left.old }
    requires right { IsTable R.refuses R.is_value right }
    requires left_rest { rest_below left.old ≡ no_rest }
    requires right_rest { rest_below right ≡ no_rest }
    ensures form { IsTable R.refuses R.is_value left.new }
    ensures ok { OnOk result (IsMet R.refuses left.old right left.new) }
    ensures err { OnErr result (left.new ≡ left.old) }
{
    let Node {
        row,
        children,
        rest: _,
    } = right;
    if children.is_empty() {
        return narrow_row(alloc, &mut left.row, row);
    }
    let met = meet_rows(alloc, &left.row, row)?;
    meet_below(alloc, &mut left.children, children)?;
    if let Some(row) = met {
        left.row = Some(row);
    }
    Ok(())
}

/// Unifies other branches into those of a place. After want of memory these are as they were.
#[cycle(meet)]
pub(crate) fn meet_below<R: Narrow>(
    alloc: Global,
    left: &mut Vec<Child<R>>,
    mut right: Vec<Child<R>>,
) -> Result<(), Memory>
    requires left { AreBranches (IsRowKept R.refuses R.is_value) (branches left.old.items) }
    requires right { AreBranches (IsRowKept R.refuses R.is_value) (branches right.items) }
    ensures ok { OnOk result (IsMerge R.refuses (IsRowKept R.refuses R.is_value)
        (branches left.old.items) (branches right.items) (branches left.new.items)) }
    ensures err { OnErr result (left.new.items ≡ left.old.items) }
{
    if left.is_empty() {
        *left = right;
        return Ok(());
    }
    if right.len() == 1 {
        if let Some(child) = right.pop() {
            return meet_one(alloc, left, child);
        }
    }
    let changes = changes(alloc, left, right)?;
    carry_out(alloc, left, changes)
}

/// Unifies one branch into those of a place, where it stands or would stand.
#[cycle(meet)]
fn meet_one<R: Narrow>(
    alloc: Global,
    left: &mut Vec<Child<R>>,
    other: Child<R>,
) -> Result<(), Memory>
    requires left { AreBranches (IsRowKept R.refuses R.is_value) (branches left.old.items) }
    requires right { AreBranches (IsRowKept R.refuses R.is_value)
        (child (step_of other.step) other.node none) }
    ensures ok { OnOk result (IsMerge R.refuses (IsRowKept R.refuses R.is_value)
        (branches left.old.items) (child (step_of other.step) other.node none)
        (branches left.new.items)) }
    ensures err { OnErr result (left.new.items ≡ left.old.items) }
{
    match place(left, other.step()) {
        Ok(at) => {
            let node = other.into_node(alloc)?;
            meet_child(alloc, &mut left[at], node)
        }
        Err(at) => insert(left, at, other),
    }
}

/// Unifies a place into a branch: where it stands, unless the branch has another owner.
#[cycle(meet)]
fn meet_child<R: Narrow>(alloc: Global, left: &mut Child<R>, right: Node<R>) -> Result<(), Memory>
    requires left { IsTable R.refuses R.is_value left.old.node }
    requires right { IsTable R.refuses R.is_value right }
    ensures step { left.new.step ≡ left.old.step }
    ensures form { IsTable R.refuses R.is_value left.new.node }
    ensures ok { OnOk result (IsMet R.refuses left.old.node right left.new.node) }
    ensures err { OnErr result (left.new ≡ left.old) }
{
    if let Some(held) = left.own() {
        return meet_into(alloc, &mut held.node, right);
    }
    if let Some(met) = unify_child(alloc, left, right)? {
        *left = met;
    }
    Ok(())
}

/// A branch unified with a place, unless it stays as it is.
#[cycle(meet)]
pub(crate) fn unify_child<R: Narrow>(
    alloc: Global,
    left: &Child<R>,
    right: Node<R>,
) -> Result<Option<Child<R>>, Memory>
    requires left { IsTable R.refuses R.is_value left.now.node }
    requires right { IsTable R.refuses R.is_value right }
    ensures step { IfOk result (λ met. (or_old met left.now).step ≡ left.now.step) }
    ensures form { IfOk result (λ met. IsTable R.refuses R.is_value (or_old met left.now).node) }
    ensures refused { IfOk result (λ met.
        IsMet R.refuses left.now.node right (or_old met left.now).node) }
{
    let Some(node) = meet_nodes(alloc, left.node(), right)? else {
        return Ok(None);
    };
    Ok(Some(Child::new(alloc, left.step().copy(alloc)?, node)?))
}

/// A place unified with another one, unless it stays as it is. It shares what stays below.
#[cycle(meet)]
pub(crate) fn meet_nodes<R: Narrow>(
    alloc: Global,
    left: &Node<R>,
    right: Node<R>,
) -> Result<Option<Node<R>>, Memory>
    requires left { IsTable R.refuses R.is_value left.now }
    requires right { IsTable R.refuses R.is_value right }
    ensures form { IfOk result (λ met. IsTable R.refuses R.is_value (or_old met left.now)) }
    ensures refused { IfOk result (λ met. IsMet R.refuses left.now right (or_old met left.now)) }
{
    if left.rest.is_some() || right.rest.is_some() {
        return Ok(Some(meet_lists(alloc, left, &right)?));
    }
    let row = meet_rows(alloc, &left.row, right.row)?;
    let children = meet_branches(alloc, &left.children, right.children)?;
    if row.is_none() && children.is_none() {
        return Ok(None);
    }
    Ok(Some(Node {
        row: row_or(alloc, row, &left.row)?,
        children: children_or(alloc, children, &left.children)?,
        rest: None,
    }))
}

/// Branches unified with others, unless they stay as they are.
#[cycle(meet)]
fn meet_branches<R: Narrow>(
    alloc: Global,
    left: &[Child<R>],
    right: Vec<Child<R>>,
) -> Result<Option<Vec<Child<R>>>, Memory>
    requires left { AreBranches (IsRowKept R.refuses R.is_value) (branches left.now) }
    requires right { AreBranches (IsRowKept R.refuses R.is_value) (branches right.items) }
    ensures { IfOk result (λ met. IsMerge R.refuses (IsRowKept R.refuses R.is_value)
        (branches left.now) (branches right.items)
        (branches (or_old (option_map (λ list. list.items) met) left.now))) }
{
    if left.is_empty() && !right.is_empty() {
        return Ok(Some(right));
    }
    let changes = changes(alloc, left, right)?;
    if changes.is_empty() {
        return Ok(None);
    }
    let mut met = copy_children(alloc, left)?;
    carry_out(alloc, &mut met, changes)?;
    Ok(Some(met))
}

/// Unifies another row into that of a place, where it stands. After want of memory it is as it was.
pub(crate) fn narrow_row<R: Narrow>(
    alloc: Global,
    left: &mut Option<R>,
    right: Option<R>,
) -> Result<(), Memory>
    requires left { IsTableRow (IsRowKept R.refuses R.is_value) left.old }
    requires right { IsTableRow (IsRowKept R.refuses R.is_value) right }
    ensures form { IsTableRow (IsRowKept R.refuses R.is_value) left.new }
    ensures ok { OnOk result
        (IsUnion (RowRefuses R.refuses left.old) (RowRefuses R.refuses right)
        (RowRefuses R.refuses left.new)) }
    ensures err { OnErr result (left.new ≡ left.old) }
{
    let Some(row) = right else {
        return Ok(());
    };
    if let Some(old) = left {
        old.narrow(alloc, row)?;
        old.known();
        return Ok(());
    }
    *left = Some(row);
    Ok(())
}

/// The row that will stand at a place, unless it stays as it is.
pub(crate) fn meet_rows<R: Narrow>(
    alloc: Global,
    left: &Option<R>,
    right: Option<R>,
) -> Result<Option<R>, Memory>
    requires left { IsTableRow (IsRowKept R.refuses R.is_value) left.now }
    requires right { IsTableRow (IsRowKept R.refuses R.is_value) right }
    ensures form { IfOk result (λ row. IsTableRow (IsRowKept R.refuses R.is_value) (or_row row left.now)) }
    ensures refused { IfOk result (λ row.
        IsUnion (RowRefuses R.refuses left.now) (RowRefuses R.refuses right)
        (RowRefuses R.refuses (or_row row left.now))) }
{
    match (left, right) {
        (None, row) => Ok(row),
        (Some(_), None) => Ok(None),
        (Some(old), Some(row)) => match old.narrowed_by(alloc, row)? {
            Narrowed::Unchanged => Ok(None),
            Narrowed::To(met) => {
                met.known();
                Ok(Some(met))
            }
        },
    }
}

/// The new row, if there is one, and else a copy of the old one.
pub(crate) fn row_or<R: Narrow>(
    alloc: Global,
    new: Option<R>,
    old: &Option<R>,
) -> Result<Option<R>, Memory>
    ensures { IfOk result (λ row. row ≡ or_row new old.now) }
{
    match new {
        None => copy_row(alloc, old),
        Some(row) => Ok(Some(row)),
    }
}

/// The new place, if there is one, and else the old one, with what is below shared.
pub(crate) fn node_or<R: Narrow>(
    alloc: Global,
    new: Option<Node<R>>,
    old: &Node<R>,
) -> Result<Node<R>, Memory>
    ensures { IfOk result (λ node. node ≡ or_old new old.now) }
{
    match new {
        None => old.copy(alloc),
        Some(node) => Ok(node),
    }
}

/// The new branches, if there are some, and else the old ones, shared.
fn children_or<R: Narrow>(
    alloc: Global,
    new: Option<Vec<Child<R>>>,
    old: &[Child<R>],
) -> Result<Vec<Child<R>>, Memory>
    ensures { IfOk result (λ children.
        children.items ≡ or_old (option_map (λ list. list.items) new) old.now) }
{
    match new {
        None => copy_children(alloc, old),
        Some(children) => Ok(children),
    }
}
