//! What changes in a list of branches that takes others over. It is made before the list changes,
//! so that the change itself only moves branches.
ghost use Rattle.std.specs.Prelude.{◌≡◌, ◌≤◌, ◌<◌, ◌+◌, length, slice_index_or, IfOk, IsTrue};
ghost use Rattle.cue_row.specs.Steps.{step_of};
ghost use Rattle.cue_table.specs.Form.{AreBranches, IsRowKept, IsTable};
ghost use Rattle.cue_table.specs.Inner.Meet.{IsMerge};
ghost use Rattle.cue_table.specs.Meet.{IsMet};
ghost use Rattle.cue_table.specs.Inner.Changes.{ChangesFit, IsFound, branches_behind, carry_out_changes};
ghost use Rattle.cue_table.specs.Inner.Changes.{or_old, replaced_count};
ghost use Rattle.cue_table.specs.Inner.Place.{AreBefore};
ghost use Rattle.cue_table.specs.Inner.View.{branches};

use crate::child::Child;
use crate::meet::unify_child;
use crate::near::place_from;
use cue_lattice::{Memory, Narrow};
use std::alloc::Global;

/// A branch that is new in a list. So many branches before it stay as they are.
#[derive(Drop)]
pub(crate) struct Change<R: Narrow> {
    pub(crate) kept: usize,
    /// Whether it stands in place of the next branch.
    pub(crate) replaces: bool,
    pub(crate) child: Child<R>,
}

/// What another branch does to a list.
#[derive(Drop)]
enum FoundChange<R: Narrow> {
    /// Nothing. So many branches of the list stand at its step or before it.
    Same(usize),
    /// It makes this change.
    New(Change<R>),
}

/// What changes in a list of branches that takes others over. What they add nothing to stays.
#[cycle(meet)]
pub(crate) fn changes<R: Narrow>(
    alloc: Global,
    left: &[Child<R>],
    right: Vec<Child<R>>,
) -> Result<Vec<Change<R>>, Memory>
    requires left { AreBranches (IsRowKept R.refuses R.is_value) (branches left.now) }
    requires right { AreBranches (IsRowKept R.refuses R.is_value) (branches right.items) }
    ensures fit { IfOk result (λ changes. ChangesFit changes.items left.now) }
    ensures union { IfOk result (λ changes. IsMerge R.refuses (IsRowKept R.refuses R.is_value)
        (branches left.now) (branches right.items) (branches (carry_out_changes changes.items left.now))) }
{
    let mut changes = Vec::with_capacity(alloc, right.len())?;
    let mut rest = left;
    // So many branches of the rest stand before all others that are left.
    let mut past = 0;
    let mut others = right.into_iter();
    while let Some(other) = others.next() {
        match change_by(alloc, rest, past, other)? {
            FoundChange::Same(count) => past = count,
            FoundChange::New(change) => {
                rest = skip_change(rest, &change);
                past = 0;
                changes.push(change)?;
            }
        }
    }
    Ok(changes)
}

/// What another branch does to a list, of which the first branches, as many as `past` says, stand
/// before it.
#[cycle(meet)]
fn change_by<R: Narrow>(
    alloc: Global,
    left: &[Child<R>],
    past: usize,
    other: Child<R>,
) -> Result<FoundChange<R>, Memory>
    requires left { AreBranches (IsRowKept R.refuses R.is_value) (branches left.now) }
    requires right { IsTable R.refuses R.is_value other.node }
    requires past { AreBefore past (step_of other.step) (branches left.now) }
    ensures { IfOk result
        (IsFound R.refuses (IsRowKept R.refuses R.is_value) left.now other) }
{
    match place_from(left, past, other.step()) {
        Err(kept) => Ok(FoundChange::New(Change {
            kept,
            replaces: false,
            child: other,
        })),
        Ok(kept) => {
            let Some(child) = unify_with(alloc, branch_at(left, kept), other)? else {
                return Ok(FoundChange::Same(kept + 1));
            };
            Ok(FoundChange::New(Change {
                kept,
                replaces: true,
                child,
            }))
        }
    }
}

/// A branch unified with another one, unless it stays as it is.
#[cycle(meet)]
fn unify_with<R: Narrow>(
    alloc: Global,
    left: &Child<R>,
    other: Child<R>,
) -> Result<Option<Child<R>>, Memory>
    requires left { IsTable R.refuses R.is_value left.now.node }
    requires right { IsTable R.refuses R.is_value other.node }
    ensures step { IfOk result (λ met. (or_old met left.now).step ≡ left.now.step) }
    ensures form { IfOk result (λ met. IsTable R.refuses R.is_value (or_old met left.now).node) }
    ensures refused { IfOk result (λ met.
        IsMet R.refuses left.now.node other.node (or_old met left.now).node) }
{
    if is_same_leaf(left, &other) {
        return Ok(None);
    }
    let node = other.into_node(alloc)?;
    unify_child(alloc, left, node)
}

/// Whether at both stands the same row and nothing below, as many places are that two sites
/// share. Others may be the same too.
#[inline(always)]
fn is_same_leaf<R: Narrow>(left: &Child<R>, right: &Child<R>) -> bool
    ensures { IsTrue result → left.now.node ≡ right.now.node }
{
    let (left, right) = (left.node(), right.node());
    if !left.children.is_empty() || !right.children.is_empty() {
        return false;
    }
    match (&left.row, &left.rest, &right.row, &right.rest) {
        (Some(row), None, Some(other), None) => row.same(other),
        _ => false,
    }
}

/// The branch at a place of a list.
fn branch_at<R: Narrow>(children: &[Child<R>], at: usize) -> &Child<R>
    requires { at < length children.now }
    ensures { result.now ≡ slice_index_or children.now at result.now }
{
    &children[at]
}

/// The branches behind a change.
fn skip_change<'a, R: Narrow>(children: &'a [Child<R>], change: &Change<R>) -> &'a [Child<R>]
    requires { change.now.kept + replaced_count change.now.replaces ≤ length children.now }
    ensures { result.now ≡ branches_behind change.now children.now }
{
    let rest = &children[change.kept..];
    if change.replaces { &rest[1..] } else { rest }
}
