ghost use Rattle.std.specs.Prelude.{◌≡◌, ◌≤◌, ◌^◌, IfOk};
ghost use Rattle.std.specs.Option.{option_map};
ghost use Rattle.cue_table.specs.Tree.{row_of, below, rest_below, rest_at, fixed_of, step_into};
ghost use Rattle.cue_table.specs.Tree.{behind_last, labels_of, items_of};
ghost use Rattle.cue_table.specs.Depth.{tree_depth};
ghost use Rattle.cue_lattice.specs.Limits.{step_limit};
ghost use Rattle.cue_table.specs.Form.{AreBranches, IsRowKept, IsTable};
ghost use Rattle.cue_row.specs.Steps.{step_of};
ghost use Rattle.cue_table.specs.Spans.{branches_of_spans};
ghost use Rattle.cue_table.specs.Inner.View.{branches};

use crate::Table;
use crate::child::Child;
use crate::iter::{Children, Items, Labels, Spans};
use crate::node::Node;
use crate::rest::{fixed_from, rest};
use cue_lattice::{Memory, Narrow};
use cue_row::Step;
use std::alloc::Global;
use std::marker::Model;

/// A place of a table, with all that is known there and below. Contracts see it as a tree. Its
/// readers take no memory.
#[derive(Drop)]
pub struct Branch<'a, R: Narrow> {
    node: &'a Node<R>,
}

impl<'a, R: Narrow> Model for Branch<'a, R> {
    ghost use Rattle.cue_table.specs.Tree.{Tree};
    ghost use Rattle.cue_table.specs.Code.{tree_code};

    ghost Value = { Tree R };

    ghost coded = { tree_code R.code };

    ghost use Rattle.cue_table.specs.Form.{IsTable};

    ghost view = { λ branch. branch.node.now };

    ghost invariant = { λ branch. IsTable R.refuses R.is_value branch.node.now };
}

impl<'a, R: Narrow> Branch<'a, R> {
    pub(crate) fn new(node: &'a Node<R>) -> Branch<'a, R>
        requires { IsTable R.refuses R.is_value node.now }
        ensures { result ≡ node.now }
    {
        Branch { node }
    }

    /// The place as the root of a table of its own, which shares what is known below: this costs
    /// the branches of the place alone.
    ///
    /// # Errors
    ///
    /// `Memory`.
    pub fn to_table(&self, alloc: Global) -> Result<Table<R>, Memory>
        requires depth { tree_depth self.now ≤ step_limit }
        ensures { IfOk result (λ table. table ≡ self.now) }
    {
        Ok(Table::of_root(alloc, self.node.copy(alloc)?))
    }

    /// What is known at the place itself; nothing means that this is free.
    pub fn row(&self) -> Option<&'a R>
        ensures row { option_map (λ row. row.now) result ≡ row_of self.now }
        ensures form { IsTable R.refuses R.is_value self.now }
    {
        let node = self.node;
        node.row()
    }

    /// The branch one step below. An element of a list from the index of its rest on is the rest.
    pub fn find(&self, step: &Step) -> Option<Branch<'a, R>>
        ensures branch { result ≡ step_into self.now (step_of step.now) }
        ensures form { IsTable R.refuses R.is_value self.now }
    {
        let node = self.node;
        match node.step_into(step) {
            None => None,
            Some(found) => Some(Branch::new(found)),
        }
    }

    /// The branches below that stand at a step of their own, each with it, in the order of the
    /// steps: labels before indexes.
    pub fn children(&self) -> Children<'a, R>
        ensures list { result ≡ below self.now }
        ensures form { IsTable R.refuses R.is_value self.now }
    {
        let node = self.node;
        Children::new(node.cursor())
    }

    /// The branches below that stand at a step of their own. Those of neighbouring elements that
    /// are kept as one come together, so that a walk costs what the table holds.
    pub fn spans(&self) -> Spans<'a, R>
        ensures list { branches_of_spans result ≡ below self.now }
        ensures form { IsTable R.refuses R.is_value self.now }
    {
        let node = self.node;
        Spans::new(node.cursor())
    }

    /// The branches at labels, by the bytes of the labels.
    pub fn labels(&self) -> Labels<'a, R>
        ensures list { result ≡ labels_of (below self.now) }
        ensures form { IsTable R.refuses R.is_value self.now }
    {
        let node = self.node;
        Labels::new(&node.children)
    }

    /// The branches at indexes of their own, by number.
    pub fn items(&self) -> Items<'a, R>
        ensures list { result ≡ items_of (below self.now) }
        ensures form { IsTable R.refuses R.is_value self.now }
    {
        let node = self.node;
        Items::new(node.cursor())
    }

    /// What each element is from index [`Branch::fixed`] on, unless nothing is known of it.
    pub fn rest(&self) -> Option<Branch<'a, R>>
        ensures rest { result ≡ rest_at (rest_below self.now) }
        ensures form { IsTable R.refuses R.is_value self.now }
    {
        match rest(self.node) {
            None => None,
            Some(found) => Some(Branch::new(found)),
        }
    }

    /// From which index on all elements are alike: that of the rest or, where nothing is known of
    /// further elements, the one behind the last element that stands by itself.
    pub fn fixed(&self) -> u64
        ensures fixed { result ≡ fixed_of self.now }
        ensures few { result ≤ 2 ^ 32 }
        ensures form { IsTable R.refuses R.is_value self.now }
    {
        fixed_from(self.node)
    }
}

/// The index behind the last element among the branches.
pub(crate) fn behind_last<R: Narrow>(children: &[Child<R>]) -> u64
    requires { AreBranches (IsRowKept R.refuses R.is_value) (branches children.now) }
    ensures number { result ≡ behind_last (branches children.now) }
    ensures few { result ≤ 2 ^ 32 }
{
    let Some((last, _)) = children.split_last() else {
        return 0;
    };
    match last.step() {
        Step::Label(_) => 0,
        Step::Index(number) => u64::from(*number) + 1,
    }
}
