//! A way along the branches of a place, those that are kept as one at once.
ghost use Rattle.std.specs.Prelude.{◌≡◌, [], ◌∷◌, ◌++◌, None, IfSome, IfNone};
ghost use Rattle.cue_table.specs.StepsOfCode.{span_of};
ghost use Rattle.cue_table.specs.Spans.{elements};
ghost use Rattle.cue_table.specs.Inner.Cursors.{CursorFits, span_behind, spans_left};
ghost use Rattle.cue_table.specs.Inner.View.{more_of, span_at};

use crate::Span;
use crate::child::Child;
use crate::node::{ElementRun, Node};
use cue_lattice::Narrow;
use cue_row::Step;

/// The branches of a place that are left.
#[derive(Drop)]
pub(crate) struct BranchCursor<'a, R: Narrow> {
    pub(crate) begun: Option<Begun<'a, R>>,
    pub(crate) own: &'a [Child<R>],
    pub(crate) runs: &'a [ElementRun<R>],
}

/// Elements that are alike and come next, as others of their run have been passed: that with the
/// first index, and so many behind it.
#[derive(Drop)]
pub(crate) struct Begun<'a, R: Narrow> {
    first: u32,
    more: u32,
    node: &'a Node<R>,
}

impl<'a, R: Narrow> BranchCursor<'a, R> {
    /// The next branches that are kept as one.
    pub(crate) fn next(&mut self) -> Option<(Span<'a>, &'a Node<R>)>
        ensures some { IfSome result (λ found.
            spans_left self.old ≡ (span_of found.0, found.1.now) ∷ spans_left self.new) }
        ensures fits { IfSome result (λ found. CursorFits (span_of found.0)) }
        ensures none { IfNone result (spans_left self.old ≡ []) }
        ensures end { IfNone result (spans_left self.new ≡ []) }
        ensures begun { self.new.begun ≡ None }
    {
        if let Some(begun) = self.begun.take() {
            return Some((elements(begun.first, begun.more), begun.node));
        }
        if let Some((child, own)) = self.own.split_first() {
            self.own = own;
            return Some((span_at(child.step()), child.node()));
        }
        let (run, runs) = self.runs.split_first()?;
        self.runs = runs;
        Some((elements(run.first, run.more), &run.node))
    }

    /// Puts back what a span has behind its first branch and so many others.
    pub(crate) fn put_back(&mut self, span: Span<'a>, passed: u32, node: &'a Node<R>)
        requires begun { self.old.begun ≡ None }
        requires fits { CursorFits (span_of span) }
        ensures { spans_left self.new
            ≡ span_behind passed (span_of span.entry) node.now ++ spans_left self.old }
    {
        let Span::Elements { first, more } = span else {
            return;
        };
        if passed < more {
            self.begun = Some(Begun {
                first: first + passed + 1,
                more: more - passed - 1,
                node,
            });
        }
    }
}

/// So many elements behind the first one, as far as there are indexes.
fn elements<'a>(first: u32, more: u32) -> Span<'a>
    ensures span { span_of result ≡ elements first (more_of first more) }
    ensures fits { CursorFits (span_of result) }
{
    let last = first.saturating_add(more);
    Span::Elements {
        first,
        more: last - first,
    }
}

/// A step of its own as a span.
fn span_at<'a>(step: &'a Step) -> Span<'a>
    ensures span { span_of result ≡ span_at step.now }
    ensures fits { CursorFits (span_of result) }
{
    match step {
        Step::Label(label) => Span::Label(label),
        Step::Index(number) => Span::Elements {
            first: *number,
            more: 0,
        },
    }
}
