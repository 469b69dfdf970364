ghost use Rattle.std.specs.Prelude.{◌≡◌, [], None, Some, map, IfOk, IfSome, MatchResult};
ghost use Rattle.std.specs.Option.{option_map};
ghost use Rattle.cue_table.specs.Tree.{empty, node, none, no_rest, below, row_of, if_not_empty, find};
ghost use Rattle.cue_table.specs.Tree.{step_into, branch_at};
ghost use Rattle.cue_table.specs.Form.{IsTable};
ghost use Rattle.cue_table.specs.Inner.Form.{StepsRise};
ghost use Rattle.cue_lattice.specs.Path.{index};
ghost use Rattle.cue_row.specs.Steps.{step_of};
ghost use Rattle.cue_table.specs.Spans.{branches_of_spans};
ghost use Rattle.cue_table.specs.Inner.Cursors.{spans_left};
ghost use Rattle.cue_table.specs.Inner.View.{branches, last_of, rest_in, run_branches, runs_in};
ghost use Rattle.cue_table.specs.Inner.Place.{IsGap, IsPlace};

use crate::child::Child;
use crate::cursor::BranchCursor;
use crate::runs::{find_element, find_run};
use cue_lattice::{Memory, Narrow};
use cue_row::Step;
use std::alloc::Global;
use std::marker::Model;

/// How many indexes there are.
pub(crate) const INDEXES: u64 = 1 << 32;

/// A place of a table, with all that is known there and below. Contracts see it as a tree.
#[derive(Drop)]
#[cycle(node)]
pub struct Node<R: Narrow> {
    /// What is known at the place itself, unless that is nothing.
    pub(crate) row: Option<R>,
    /// The branches below, each at its step, in the order of the steps.
    pub(crate) children: Vec<Child<R>>,
    /// How a list goes on behind these branches, where something is known of its further elements.
    pub(crate) rest: Option<Box<Onward<R>>>,
}

/// How a list goes on: elements of their own, and what each element is from an index on.
#[derive(Drop)]
#[cycle(node)]
pub(crate) struct Onward<R: Narrow> {
    /// Elements behind those among the branches, in their order.
    pub(crate) runs: Vec<ElementRun<R>>,
    /// The first index from which on all elements are alike, at most [`INDEXES`].
    pub(crate) from: u64,
    pub(crate) node: Node<R>,
}

/// Neighbouring elements that are alike, kept once: that with the first index, and so many behind
/// it, as far as there are indexes.
#[derive(Drop)]
#[cycle(node)]
pub(crate) struct ElementRun<R: Narrow> {
    pub(crate) first: u32,
    pub(crate) more: u32,
    pub(crate) node: Node<R>,
}

impl<R: Narrow> Model for Node<R> {
    ghost use Rattle.cue_table.specs.Tree.{Tree};
    ghost use Rattle.cue_table.specs.Code.{tree_code};

    ghost Value = { Tree R };

    ghost coded = { tree_code R.code };

    ghost use Rattle.cue_table.specs.Inner.View.{tree_of};
    ghost use Rattle.cue_table.specs.Inner.Child.{node_size};

    ghost view = { tree_of };

    ghost size = { node_size };

    ghost use Rattle.cue_table.specs.Inner.Falls.{parts_fall};

    ghost size_decreases = { λ a h. parts_fall R.Narrow a };
}

impl<R: Narrow> Node<R> {
    /// The place where nothing is known.
    pub(crate) fn new(alloc: Global) -> Node<R>
        ensures { result ≡ empty }
    {
        Node {
            row: None,
            children: Vec::new(alloc),
            rest: None,
        }
    }

    /// The place where this row stands, and nothing below.
    pub(crate) fn of_row(alloc: Global, row: R) -> Node<R>
        ensures { result ≡ node (Some row) none no_rest }
    {
        Node {
            row: Some(row),
            children: Vec::new(alloc),
            rest: None,
        }
    }

    /// The place itself, where a row stands here or below.
    pub(crate) fn non_empty(&self) -> Option<&Node<R>>
        ensures { option_map (λ node. node.now) result ≡ if_not_empty self.now }
    {
        match (&self.row, &self.rest) {
            (Some(_), _) | (None, Some(_)) => Some(self),
            (None, None) if self.children.is_empty() => None,
            (None, None) => Some(self),
        }
    }

    /// The row at the place itself.
    pub(crate) fn row(&self) -> Option<&R>
        ensures { option_map (λ row. row.now) result ≡ row_of self.now }
    {
        self.row.as_ref()
    }

    /// The branch one step below: an element from the index of the rest on is the rest.
    pub(crate) fn step_into(&self, step: &Step) -> Option<&Node<R>>
        requires { StepsRise (below self.now) }
        ensures { option_map (λ node. node.now) result ≡ step_into self.now (step_of step.now) }
    {
        match step {
            Step::Label(_) => find(&self.children, step),
            Step::Index(number) => self.element(*number),
        }
    }

    /// The element with an index.
    pub(crate) fn element(&self, number: u32) -> Option<&Node<R>>
        requires { StepsRise (below self.now) }
        ensures { option_map (λ node. node.now) result ≡ step_into self.now (index number) }
    {
        let own = find_element(&self.children, number);
        let Some(onward) = &self.rest else {
            return own;
        };
        if u64::from(number) >= onward.from {
            return Some(&onward.node);
        }
        own.or(find_run(&onward.runs, number))
    }

    /// The way along the branches.
    pub(crate) fn cursor(&self) -> BranchCursor<R>
        ensures all { branches_of_spans (spans_left result) ≡ below self.now }
        ensures begun { result.begun ≡ None }
    {
        BranchCursor {
            begun: None,
            own: &self.children,
            runs: runs_behind(&self.rest),
        }
    }

    /// The branch at a path.
    pub(crate) fn walk(&self, steps: &[Step]) -> Option<&Node<R>>
        requires { IsTable R.refuses R.is_value self.now }
        ensures found { option_map (λ node. node.now) result
            ≡ branch_at self.now (map step_of steps.now) }
        ensures form { IfSome result (λ node. IsTable R.refuses R.is_value node.now) }
    {
        let mut node = self;
        for step in steps {
            node = node.step_into(step)?;
        }
        Some(node)
    }

    /// An equal place. Its branches are shared.
    #[cycle(copy)]
    pub(crate) fn copy(&self, alloc: Global) -> Result<Node<R>, Memory>
        ensures { IfOk result (λ node. node ≡ self.now) }
    {
        Ok(Node {
            row: copy_row(alloc, &self.row)?,
            children: copy_children(alloc, &self.children)?,
            rest: copy_rest(alloc, &self.rest)?,
        })
    }
}

impl<R: Narrow> Onward<R> {
    /// A rest behind no elements of its own.
    pub(crate) fn rest_only(alloc: Global, from: u64, node: Node<R>) -> Onward<R>
        ensures { (result.runs.items ≡ []) × (result.from ≡ from) × (result.node ≡ node) }
    {
        Onward {
            runs: Vec::new(alloc),
            from,
            node,
        }
    }
}

impl<R: Narrow> ElementRun<R> {
    #[cycle(copy)]
    pub(crate) fn copy(&self, alloc: Global) -> Result<ElementRun<R>, Memory>
        ensures { IfOk result (λ copied. copied ≡ self.now) }
    {
        Ok(ElementRun {
            first: self.first,
            more: self.more,
            node: self.node.copy(alloc)?,
        })
    }

    /// The index of the last of its elements.
    pub(crate) fn last(&self) -> u32
        ensures { result ≡ last_of self.now.first self.now.more }
    {
        self.first.saturating_add(self.more)
    }
}

pub(crate) fn copy_row<R: Narrow>(alloc: Global, row: &Option<R>) -> Result<Option<R>, Memory>
    ensures { IfOk result (λ copied. copied ≡ row.now) }
{
    match row {
        None => Ok(None),
        Some(row) => Ok(Some(row.copy(alloc)?)),
    }
}

/// The same branches once more, which share what they hold.
pub(crate) fn copy_children<R: Narrow>(
    alloc: Global,
    children: &[Child<R>],
) -> Result<Vec<Child<R>>, Memory>
    ensures { IfOk result (λ copied. copied.items ≡ children.now) }
{
    let mut copied = Vec::with_capacity(alloc, children.len())?;
    for child in children {
        copied.push(child.copy()?)?;
    }
    Ok(copied)
}

#[cycle(copy)]
fn copy_rest<R: Narrow>(
    alloc: Global,
    rest: &Option<Box<Onward<R>>>,
) -> Result<Option<Box<Onward<R>>>, Memory>
    ensures runs { IfOk result (λ copied. runs_in copied ≡ runs_in rest.now) }
    ensures rest { IfOk result (λ copied. rest_in copied ≡ rest_in rest.now) }
{
    match rest {
        None => Ok(None),
        Some(onward) => {
            let copied = Onward {
                runs: copy_runs(alloc, &onward.runs)?,
                from: onward.from,
                node: onward.node.copy(alloc)?,
            };
            Ok(Some(Box::new(alloc, copied)?))
        }
    }
}

#[cycle(copy)]
fn copy_runs<R: Narrow>(alloc: Global, runs: &[ElementRun<R>]) -> Result<Vec<ElementRun<R>>, Memory>
    ensures { IfOk result (λ copied. copied.items ≡ runs.now) }
{
    let mut copied = Vec::with_capacity(alloc, runs.len())?;
    for run in runs {
        copied.push(run.copy(alloc)?)?;
    }
    Ok(copied)
}

/// The elements behind those among the branches.
fn runs_behind<R: Narrow>(rest: &Option<Box<Onward<R>>>) -> &[ElementRun<R>]
    ensures { run_branches result.now ≡ runs_in rest.now }
{
    match rest {
        None => &[],
        Some(onward) => &onward.runs,
    }
}

/// The branch that stands at a step of its own among the branches.
pub(crate) fn find<'a, R: Narrow>(children: &'a [Child<R>], step: &Step) -> Option<&'a Node<R>>
    requires { StepsRise (branches children.now) }
    ensures { option_map (λ node. node.now) result
        ≡ find (step_of step.now) (branches children.now) }
{
    match place(children, step) {
        Ok(at) => Some(children[at].node()),
        Err(_) => None,
    }
}

/// Where the branch at a step is among the branches, or where it would stand.
#[inline(always)]
pub(crate) fn place<R: Narrow>(children: &[Child<R>], step: &Step) -> Result<usize, usize>
    requires { StepsRise (branches children.now) }
    ensures { MatchResult result (IsPlace children.now (step_of step.now))
        (IsGap children.now (step_of step.now)) }
{
    children.binary_search_by(|child| child.step().compare(step))
}
