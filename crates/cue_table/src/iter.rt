//! The iterators over the branches of a place.
ghost use Rattle.std.specs.Prelude.{◌≡◌, None};
ghost use Rattle.std.specs.Iterator.{YieldsFirstBy, item_count};
ghost use Rattle.cue_table.specs.Tree.{children_of, labels_of, items_of};
ghost use Rattle.cue_table.specs.Form.{AreBranches, IsRowKept};
ghost use Rattle.cue_table.specs.StepsOfCode.{step_at, span_of};
ghost use Rattle.cue_table.specs.Spans.{branches_of_spans};
ghost use Rattle.cue_table.specs.Inner.Cursors.{spans_left};
ghost use Rattle.cue_table.specs.Inner.View.{branches};

use crate::child::Child;
use crate::cursor::BranchCursor;
use crate::{Branch, Span, StepRef};
use cue_lattice::Narrow;
use cue_row::Step;
use std::marker::Model;

/// The branches below a place, each with its step, in the order of the steps. Contracts see those
/// that are left.
#[derive(Drop)]
pub struct Children<'a, R: Narrow> {
    left: BranchCursor<'a, R>,
}

impl<'a, R: Narrow> Model for Children<'a, R> {
    ghost use Rattle.cue_table.specs.Tree as tree;
    ghost use Rattle.cue_table.specs.Code.{children_code};

    ghost Value = { tree.Children R };

    ghost coded = { children_code R.code };

    ghost use Rattle.cue_table.specs.Spans.{branches_of_spans};
    ghost use Rattle.cue_table.specs.Inner.Cursors.{spans_left};
    ghost use Rattle.cue_table.specs.Form.{AreBranches, IsRowKept};

    ghost view = { λ it. branches_of_spans (spans_left it.left) };

    ghost invariant = { λ it.
        AreBranches (IsRowKept R.refuses R.is_value) (branches_of_spans (spans_left it.left)) };
}

impl<'a, R: Narrow> Children<'a, R> {
    pub(crate) fn new(left: BranchCursor<'a, R>) -> Children<'a, R>
        requires { AreBranches (IsRowKept R.refuses R.is_value) (branches_of_spans (spans_left left)) }
        ensures { result ≡ branches_of_spans (spans_left left.entry) }
    {
        Children { left }
    }
}

impl<'a, R: Narrow> Iterator for Children<'a, R> {
    type Item = (StepRef<'a>, Branch<'a, R>);

    ghost next_gives = { YieldsFirstBy (λ item. (step_at item.0, item.1)) children_of };

    ghost remaining = { item_count children_of };

    fn next(&mut self) -> Option<(StepRef<'a>, Branch<'a, R>)> {
        let (span, node) = self.left.next()?;
        self.left.put_back(span, 0, node);
        Some((span.first(), Branch::new(node)))
    }
}

/// The branches below a place, those of neighbouring elements that are kept as one together, in the
/// order of the steps. Contracts see the list of those that are left.
#[derive(Drop)]
pub struct Spans<'a, R: Narrow> {
    left: BranchCursor<'a, R>,
}

impl<'a, R: Narrow> Model for Spans<'a, R> {
    ghost use Rattle.std.specs.Prelude.{List};
    ghost use Rattle.cue_table.specs.Spans.{Span};
    ghost use Rattle.cue_table.specs.Tree.{Tree};
    ghost use Rattle.cue_table.specs.Code.{spans_code};

    ghost Value = { List (Span × Tree R) };

    ghost coded = { spans_code R.code };

    ghost use Rattle.cue_table.specs.Spans.{branches_of_spans};
    ghost use Rattle.cue_table.specs.Inner.Cursors.{spans_left};
    ghost use Rattle.cue_table.specs.Form.{AreBranches, IsRowKept};

    ghost view = { λ it. spans_left it.left };

    ghost invariant = { λ it.
        AreBranches (IsRowKept R.refuses R.is_value) (branches_of_spans (spans_left it.left)) };
}

impl<'a, R: Narrow> Spans<'a, R> {
    pub(crate) fn new(left: BranchCursor<'a, R>) -> Spans<'a, R>
        requires { AreBranches (IsRowKept R.refuses R.is_value) (branches_of_spans (spans_left left)) }
        ensures { result ≡ spans_left left.entry }
    {
        Spans { left }
    }
}

impl<'a, R: Narrow> Iterator for Spans<'a, R> {
    type Item = (Span<'a>, Branch<'a, R>);

    ghost next_gives = { YieldsFirstBy (λ item. (span_of item.0, item.1)) (λ rest. rest) };

    ghost remaining = { item_count (λ rest. rest) };

    fn next(&mut self) -> Option<(Span<'a>, Branch<'a, R>)> {
        let (span, node) = self.left.next()?;
        Some((span, Branch::new(node)))
    }
}

/// The branches at the labels below a place, in the order of the labels. Contracts see the list of
/// those that are left.
#[derive(Drop)]
pub struct Labels<'a, R: Narrow> {
    rest: &'a [Child<R>],
}

impl<'a, R: Narrow> Model for Labels<'a, R> {
    ghost use Rattle.std.specs.Prelude.{List, ℕ};
    ghost use Rattle.cue_table.specs.Tree.{Tree};
    ghost use Rattle.cue_table.specs.Code.{labels_code};

    ghost Value = { List (List ℕ × Tree R) };

    ghost coded = { labels_code R.code };

    ghost use Rattle.cue_table.specs.Tree.{labels_of};
    ghost use Rattle.cue_table.specs.Inner.View.{branches};
    ghost use Rattle.cue_table.specs.Form.{AreBranches, IsRowKept};

    ghost view = { λ it. labels_of (branches it.rest.now) };

    ghost invariant = { λ it. AreBranches (IsRowKept R.refuses R.is_value) (branches it.rest.now) };
}

impl<'a, R: Narrow> Labels<'a, R> {
    pub(crate) fn new(rest: &'a [Child<R>]) -> Labels<'a, R>
        requires { AreBranches (IsRowKept R.refuses R.is_value) (branches rest.now) }
        ensures { result ≡ labels_of (branches rest.now) }
    {
        Labels { rest }
    }
}

impl<'a, R: Narrow> Iterator for Labels<'a, R> {
    type Item = (&'a str, Branch<'a, R>);

    ghost next_gives = { YieldsFirstBy (λ item. (item.0.now, item.1)) (λ rest. rest) };

    ghost remaining = { item_count (λ rest. rest) };

    fn next(&mut self) -> Option<(&'a str, Branch<'a, R>)> {
        let (child, rest) = self.rest.split_first()?;
        match child.step() {
            Step::Label(text) => {
                self.rest = rest;
                Some((text.as_str(), Branch::new(child.node())))
            }
            // No label stands after an index.
            Step::Index(_) => None,
        }
    }
}

/// The branches at the indexes below a place, in the order of the indexes. Contracts see the list
/// of those that are left.
#[derive(Drop)]
pub struct Items<'a, R: Narrow> {
    left: BranchCursor<'a, R>,
}

impl<'a, R: Narrow> Model for Items<'a, R> {
    ghost use Rattle.std.specs.Prelude.{List, ℕ};
    ghost use Rattle.cue_table.specs.Tree.{Tree};
    ghost use Rattle.cue_table.specs.Code.{items_code};

    ghost Value = { List (ℕ × Tree R) };

    ghost coded = { items_code R.code };

    ghost use Rattle.cue_table.specs.Tree.{items_of};
    ghost use Rattle.cue_table.specs.Spans.{branches_of_spans};
    ghost use Rattle.cue_table.specs.Inner.Cursors.{spans_left};
    ghost use Rattle.cue_table.specs.Form.{AreBranches, IsRowKept, StartsAtIndex};

    ghost view = { λ it. items_of (branches_of_spans (spans_left it.left)) };

    ghost invariant = { λ it.
        AreBranches (IsRowKept R.refuses R.is_value) (branches_of_spans (spans_left it.left))
        × StartsAtIndex (branches_of_spans (spans_left it.left)) };
}

impl<'a, R: Narrow> Items<'a, R> {
    pub(crate) fn new(mut left: BranchCursor<'a, R>) -> Items<'a, R>
        requires begun { left.begun ≡ None }
        requires form { AreBranches (IsRowKept R.refuses R.is_value) (branches_of_spans (spans_left left)) }
        ensures { result ≡ items_of (branches_of_spans (spans_left left.entry)) }
    {
        let labels = left
            .own
            .partition_point(|child| matches!(child.step(), Step::Label(_)));
        left.own = left.own.split_at(labels).1;
        Items { left }
    }
}

impl<'a, R: Narrow> Iterator for Items<'a, R> {
    type Item = (u32, Branch<'a, R>);

    ghost next_gives = { YieldsFirstBy (λ item. item) (λ rest. rest) };

    ghost remaining = { item_count (λ rest. rest) };

    fn next(&mut self) -> Option<(u32, Branch<'a, R>)> {
        let (span, node) = self.left.next()?;
        match span {
            // Only indexes are left.
            Span::Label(_) => None,
            Span::Elements { first, more: _ } => {
                self.left.put_back(span, 0, node);
                Some((first, Branch::new(node)))
            }
        }
    }
}
