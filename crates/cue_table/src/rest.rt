//! Lists with a rest: how they go on, and a rest that begins as early as it can.
ghost use Rattle.std.specs.Prelude.{◌≡◌, ◌↔◌, ◌≤◌, ◌^◌, IfSome, IfNone};
ghost use Rattle.std.specs.Option.{option_map};
ghost use Rattle.cue_table.specs.Form.{IsRowKept, IsTable, IsTreeTaken};
ghost use Rattle.cue_table.specs.Inner.Rests.{AreElements, IsLastRun, IsSettled, RepeatsRest};
ghost use Rattle.cue_table.specs.Inner.View.{run_branches};
ghost use Rattle.cue_table.specs.Tree.{fixed_of, rest_below, rest_at};

use crate::branch::behind_last;
use crate::node::{ElementRun, Node, Onward};
use cue_lattice::Narrow;

/// From which index on all elements of a place are alike.
pub(crate) fn fixed_from<R: Narrow>(node: &Node<R>) -> u64
    requires { IsTable R.refuses R.is_value node.now }
    ensures number { result ≡ fixed_of node.now }
    ensures few { result ≤ 2 ^ 32 }
{
    match &node.rest {
        None => behind_last(&node.children),
        Some(rest) => rest.from,
    }
}

/// What each of these elements is.
pub(crate) fn rest<R: Narrow>(node: &Node<R>) -> Option<&Node<R>>
    ensures { option_map (λ node. node.now) result ≡ rest_at (rest_below node.now) }
{
    match &node.rest {
        None => None,
        Some(rest) => Some(&rest.node),
    }
}

/// How a list goes on that has these elements, and this rest from an index on. The rest begins
/// earlier where the last elements before it are as it is.
pub(crate) fn settle_rest<R: Narrow>(
    mut runs: Vec<ElementRun<R>>,
    fixed: u64,
    node: Node<R>,
) -> Onward<R>
    requires elements { AreElements (IsRowKept R.refuses R.is_value) fixed (run_branches runs.items) }
    requires few { fixed ≤ 2 ^ 32 }
    requires taken { IsTreeTaken node }
    requires rest { IsTable R.refuses R.is_value node }
    ensures { IsSettled (IsRowKept R.refuses R.is_value) fixed (run_branches runs.items) node result }
{
    let mut from = fixed;
    while let Some(first) = first_repeated(&runs, from, &node) {
        runs.pop();
        from = u64::from(first);
    }
    Onward { runs, from, node }
}

/// The first index of the last run, where this ends at an index and is as the rest from there on.
fn first_repeated<R: Narrow>(runs: &[ElementRun<R>], from: u64, rest: &Node<R>) -> Option<u32>
    requires { AreElements (IsRowKept R.refuses R.is_value) from (run_branches runs.now) }
    ensures some { IfSome result (IsLastRun runs.now from rest.now) }
    ensures none { IfNone result (¬ RepeatsRest from rest.now (run_branches runs.now)) }
{
    let (last, _) = runs.split_last()?;
    if u64::from(last.last()) + 1 == from && last.node.same(rest) {
        Some(last.first)
    } else {
        None
    }
}
