//! A list by its stretches of elements that are alike.
ghost use Rattle.std.specs.Prelude.{◌≡◌, ℕ, ◌≤◌, ◌<◌, ◌^◌, All, IfOk, IfNone, IfSome, None, OnOk};
ghost use Rattle.std.specs.Vec.Iter.{into_iter_items};
ghost use Rattle.cue_lattice.specs.Limits.{step_limit};
ghost use Rattle.cue_lattice.specs.Path.{index};
ghost use Rattle.cue_table.specs.Depth.{tree_depth};
ghost use Rattle.cue_table.specs.Form.{IsRowKept, IsTable};
ghost use Rattle.cue_table.specs.Inner.Join.{join_children};
ghost use Rattle.cue_table.specs.Inner.Rests.{AreElements, IsListOf, IsRunOf};
ghost use Rattle.cue_table.specs.Inner.View.{branches, more_of, run_branches};
ghost use Rattle.cue_table.specs.Many.{IsOfElements, element_given};
ghost use Rattle.cue_table.specs.Spans.{alike_elements};
ghost use Rattle.cue_table.specs.Tree.{find, no_rest, node, none, onward, if_not_empty};

use crate::Table;
use crate::child::Child;
use crate::node::{ElementRun, Node, Onward};
use crate::rest::settle_rest;
use cue_lattice::{Memory, Narrow};
use cue_row::Step;
use std::alloc::Global;
use std::vec::IntoIter;

impl<R: Narrow> Table<R> {
    /// The table of a list that is given by its stretches, from the last one to the first: each
    /// begins at its index and goes up to where the one given before it begins, and the first one
    /// given goes on for all further elements. So an element is that of the first stretch given
    /// that begins at its index or before it. Each is less than 64 steps deep, as [`Table::depth`]
    /// tells. The tables are taken over; where the list has a rest, each is kept once.
    pub fn of_elements(alloc: Global, stretches: Vec<(u64, Table<R>)>) -> Result<Table<R>, Memory>
        requires few { All (λ one. one.0 ≤ 2 ^ 32) stretches.items }
        requires depth { All (λ one. tree_depth one.1 < step_limit) stretches.items }
        ensures form { IfOk result (IsTable R.refuses R.is_value) }
        ensures refused { IfOk result (IsOfElements R.refuses stretches.items) }
    {
        let mut others = stretches.into_iter();
        let Some((from, further)) = others.next() else {
            return Ok(Table::new(alloc));
        };
        let runs = runs_before(alloc, from, others)?;
        let root = list_of(alloc, runs, from, further.into_root())?;
        Ok(Table::of_root(alloc, root))
    }
}

/// The elements before an index as runs, in their order: those of stretches that are given from the
/// last one to the first.
fn runs_before<R: Narrow>(
    alloc: Global,
    from: u64,
    mut stretches: IntoIter<(u64, Table<R>), Global>,
) -> Result<Vec<ElementRun<R>>, Memory>
    requires { from ≤ 2 ^ 32 }
    ensures form { IfOk result (λ runs. AreElements (IsRowKept R.refuses R.is_value) from
        (run_branches runs.items)) }
    ensures same { IfOk result (λ runs. (i : ℕ) → i < from → find (index i) (run_branches runs.items)
        ≡ if_not_empty (element_given i (into_iter_items stretches))) }
{
    let mut runs = Vec::new(alloc);
    let mut end = from;
    while let Some((start, table)) = stretches.next() {
        if start < end {
            let last = end - 1;
            end = start;
            if let Some(run) = run_of(start, last, table) {
                runs.push(run)?;
            }
        }
    }
    runs.reverse();
    Ok(runs)
}

/// The elements from one index to another as a run, where they have a row.
fn run_of<R: Narrow>(first: u64, last: u64, table: Table<R>) -> Option<ElementRun<R>>
    requires order { first ≤ last }
    requires few { last < 2 ^ 32 }
    ensures some { IfSome result (IsRunOf (IsRowKept R.refuses R.is_value) first last table) }
    ensures none { IfNone result (if_not_empty table ≡ None) }
{
    let node = table.into_root();
    if node.non_empty().is_none() {
        return None;
    }
    Some(ElementRun {
        first: first as u32,
        more: (last - first) as u32,
        node,
    })
}

/// A list of these elements before an index, and of this from the index on, and nothing else.
fn list_of<R: Narrow>(
    alloc: Global,
    runs: Vec<ElementRun<R>>,
    from: u64,
    further: Node<R>,
) -> Result<Node<R>, Memory>
    requires elements { AreElements (IsRowKept R.refuses R.is_value) from (run_branches runs.items) }
    requires few { from ≤ 2 ^ 32 }
    requires further { IsTable R.refuses R.is_value further }
    ensures { IfOk result (IsListOf (IsRowKept R.refuses R.is_value) from (run_branches runs.items)
        (if_not_empty further)) }
{
    if further.non_empty().is_none() {
        return list_of_runs(alloc, &runs);
    }
    list_with_rest(alloc, settle_rest(runs, from, further))
}

/// A list that goes on so, and nothing else.
fn list_with_rest<R: Narrow>(alloc: Global, made: Onward<R>) -> Result<Node<R>, Memory>
    ensures { IfOk result (λ list. list
        ≡ node None (run_branches made.runs.items) (onward made.from made.node)) }
{
    Ok(Node {
        row: None,
        children: Vec::new(alloc),
        rest: Some(Box::new(alloc, made)?),
    })
}

/// A list that ends with these elements, and nothing else. Each is a branch of its own.
fn list_of_runs<R: Narrow>(alloc: Global, runs: &[ElementRun<R>]) -> Result<Node<R>, Memory>
    ensures { IfOk result (λ list. list ≡ node None (run_branches runs.now) no_rest) }
{
    let mut children = Vec::new(alloc);
    for run in runs {
        push_elements(alloc, &mut children, run)?;
    }
    Ok(Node {
        row: None,
        children,
        rest: None,
    })
}

/// Puts each element of a run behind other branches.
fn push_elements<R: Narrow>(
    alloc: Global,
    children: &mut Vec<Child<R>>,
    run: &ElementRun<R>,
) -> Result<(), Memory>
    ensures { OnOk result (branches children.new.items ≡ join_children (branches children.old.items)
        (alike_elements run.now.first (more_of run.now.first run.now.more) run.now.node none)) }
{
    let end = u64::from(run.last()) + 1;
    for number in u64::from(run.first)..end {
        let node = run.node.copy(alloc)?;
        let child = Child::new(alloc, Step::Index(number as u32), node)?;
        children.push(child)?;
    }
    Ok(())
}
