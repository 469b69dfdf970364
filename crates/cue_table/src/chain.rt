//! One branch alone and one rest alone, as a tree, and a place further from the root.
ghost use Rattle.std.specs.Prelude.{◌≡◌, map, IfOk, None};
ghost use Rattle.cue_row.specs.Steps.{step_of};
ghost use Rattle.cue_table.specs.Inner.Rests.{tree_along};
ghost use Rattle.cue_table.specs.Inner.View.{branches};
ghost use Rattle.cue_table.specs.Inner.RowList.{last_cmp};
ghost use Rattle.cue_table.specs.Tree.{node, none, child, no_rest, onward};

use crate::child::Child;
use crate::node::{Node, Onward};
use cue_lattice::{Memory, Narrow};
use cue_row::Step;
use std::alloc::Global;
use std::cmp::Ordering;

/// One branch alone, at its step.
pub(crate) fn one_branch<R: Narrow>(
    alloc: Global,
    step: Step,
    below: Node<R>,
) -> Result<Node<R>, Memory>
    ensures { IfOk result (λ above. above
        ≡ node None (child (step_of step) below none) no_rest) }
{
    let mut children = Vec::with_capacity(alloc, 1)?;
    children.push(Child::new(alloc, step, below)?)?;
    Ok(Node {
        row: None,
        children,
        rest: None,
    })
}

/// A place with a rest alone.
pub(crate) fn rest_alone<R: Narrow>(
    alloc: Global,
    from: u64,
    below: Node<R>,
) -> Result<Node<R>, Memory>
    ensures { IfOk result (λ list. list ≡ node None none (onward from below)) }
{
    let rest = Box::new(alloc, Onward::rest_only(alloc, from, below))?;
    Ok(Node {
        row: None,
        children: Vec::new(alloc),
        rest: Some(rest),
    })
}

/// A place further from the root, at the end of a path.
pub(crate) fn build_along<R: Narrow>(
    alloc: Global,
    steps: &[Step],
    node: Node<R>,
) -> Result<Node<R>, Memory>
    ensures { IfOk result (λ above. above ≡ tree_along (map step_of steps.now) node) }
{
    match steps {
        [] => Ok(node),
        [first, rest @ ..] => {
            let step = first.copy(alloc)?;
            let below = build_along(alloc, rest, node)?;
            one_branch(alloc, step, below)
        }
    }
}

/// How the step of the last branch compares with another; where there is no branch, it is before.
pub(crate) fn last_against<R: Narrow>(children: &[Child<R>], step: &Step) -> Ordering
    ensures { result ≡ last_cmp (step_of step.now) (branches children.now) }
{
    match children.split_last() {
        None => Ordering::Less,
        Some((last, _)) => last.step().compare(step),
    }
}
