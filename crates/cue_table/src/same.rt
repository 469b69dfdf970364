//! Whether two places are the same.
ghost use Rattle.std.specs.Prelude.{◌≡◌, ◌↔◌, IsTrue};
ghost use Rattle.cue_table.specs.Spans.{branches_of_spans};
ghost use Rattle.cue_table.specs.Tree.{below};
ghost use Rattle.cue_table.specs.Inner.Cursors.{spans_left};
ghost use Rattle.cue_table.specs.Inner.View.{rest_in};

use crate::Span;
use crate::child::Child;
use crate::cursor::BranchCursor;
use crate::node::{Node, Onward};
use cue_lattice::Narrow;

impl<R: Narrow> Node<R> {
    /// Whether both are the same place.
    #[cycle(same)]
    pub(crate) fn same(&self, other: &Node<R>) -> bool
        ensures { IsTrue result ↔ (self.now ≡ other.now) }
    {
        same_row(&self.row, &other.row)
            && same_rest(&self.rest, &other.rest)
            && self.same_branches(other)
    }

    /// Whether both have the same branches.
    #[cycle(same)]
    fn same_branches(&self, other: &Node<R>) -> bool
        ensures { IsTrue result ↔ (below self.now ≡ below other.now) }
    {
        if self.rest.is_none() && other.rest.is_none() {
            return same_children(&self.children, &other.children);
        }
        same_below(self.cursor(), other.cursor())
    }
}

/// Whether both rows are the same, or none stands on either side.
pub(crate) fn same_row<R: Narrow>(left: &Option<R>, right: &Option<R>) -> bool
    ensures { IsTrue result ↔ (left.now ≡ right.now) }
{
    match (left, right) {
        (None, None) => true,
        (Some(a), Some(b)) => a.same(b),
        _ => false,
    }
}

#[cycle(same)]
fn same_rest<R: Narrow>(left: &Option<Box<Onward<R>>>, right: &Option<Box<Onward<R>>>) -> bool
    ensures { IsTrue result ↔ (rest_in left.now ≡ rest_in right.now) }
{
    match (left, right) {
        (None, None) => true,
        (Some(a), Some(b)) => a.from == b.from && a.node.same(&b.node),
        _ => false,
    }
}

/// Whether both are the same branches, where each is kept by itself.
#[cycle(same)]
fn same_children<R: Narrow>(left: &[Child<R>], right: &[Child<R>]) -> bool
    ensures { IsTrue result ↔ (left.now ≡ right.now) }
{
    if left.len() != right.len() {
        return false;
    }
    for (index, child) in left.iter().enumerate() {
        let other = &right[index];
        if !child.step().same(other.step()) || !child.node().same(other.node()) {
            return false;
        }
    }
    true
}

/// Whether the same branches are left on both ways. Elements that are alike on both are compared
/// once.
#[cycle(same)]
fn same_below<'a, R: Narrow>(mut left: BranchCursor<'a, R>, mut right: BranchCursor<'a, R>) -> bool
    ensures { IsTrue result ↔ (branches_of_spans (spans_left left.entry) ≡ branches_of_spans (spans_left right.entry)) }
{
    while let Some((span, node)) = left.next() {
        let Some((other_span, other)) = right.next() else {
            return false;
        };
        if !span.first().same(other_span.first()) || !node.same(other) {
            return false;
        }
        let passed = u32::min(span.more(), other_span.more());
        left.put_back(span, passed, node);
        right.put_back(other_span, passed, other);
    }
    right.next().is_none()
}
