//! What the branches of a table hang at, borrowed from there.
ghost use Rattle.std.specs.Prelude.{◌≡◌, ◌↔◌, IfOk, IsTrue};
ghost use Rattle.cue_row.specs.Steps.{step_of};
ghost use Rattle.cue_row.specs.ValidRow.{IsWordStep};
ghost use Rattle.cue_table.specs.Spans.{first_of_span, more_in};
ghost use Rattle.cue_table.specs.StepsOfCode.{step_at, span_of};

use cue_lattice::{Memory, Text, WORD_LIMIT};
use cue_row::Step;
use std::alloc::Global;

/// A step to a branch of a table. Its label is borrowed from there.
#[derive(Clone, Copy, Debug)]
pub enum StepRef<'a> {
    /// The field with this label.
    Label(&'a Text),
    /// The element with this index, counted from 0.
    Index(u32),
}

/// Branches of a table that are kept as one, as they are alike: that at a label, or those of
/// neighbouring elements.
#[derive(Clone, Copy, Debug)]
pub enum Span<'a> {
    /// The field with this label.
    Label(&'a Text),
    /// The element with the first index, and so many behind it.
    Elements { first: u32, more: u32 },
}

impl<'a> StepRef<'a> {
    pub fn of(step: &'a Step) -> StepRef<'a>
        ensures { step_at result ≡ step_of step.now }
    {
        match step {
            Step::Label(label) => StepRef::Label(label),
            Step::Index(number) => StepRef::Index(*number),
        }
    }

    /// The step as a value of its own.
    pub fn to_step(self, alloc: Global) -> Result<Step, Memory>
        ensures { IfOk result (λ step. step_of step ≡ step_at self.entry) }
    {
        match self {
            StepRef::Label(label) => Ok(Step::Label(label.copy(alloc)?)),
            StepRef::Index(number) => Ok(Step::Index(number)),
        }
    }

    /// Whether both are one step.
    pub fn same(self, other: StepRef) -> bool
        ensures { IsTrue result ↔ (step_at self.entry ≡ step_at other.entry) }
    {
        match (self, other) {
            (StepRef::Label(left), StepRef::Label(right)) => left.same(right),
            (StepRef::Index(left), StepRef::Index(right)) => left == right,
            _ => false,
        }
    }

    /// Whether the step is none of a label that is too long, of more than [`WORD_LIMIT`] bytes.
    pub fn is_short(self) -> bool
        ensures { IsTrue result ↔ IsWordStep (step_at self.entry) }
    {
        match self {
            StepRef::Label(label) => label.as_str().len() <= WORD_LIMIT,
            StepRef::Index(_) => true,
        }
    }
}

impl<'a> Span<'a> {
    /// The step to the first of the branches.
    pub fn first(self) -> StepRef<'a>
        ensures { step_at result ≡ first_of_span (span_of self.entry) }
    {
        match self {
            Span::Label(label) => StepRef::Label(label),
            Span::Elements { first, more: _ } => StepRef::Index(first),
        }
    }

    /// How many branches stand behind the first one.
    pub fn more(self) -> u32
        ensures { result ≡ more_in (span_of self.entry) }
    {
        match self {
            Span::Label(_) => 0,
            Span::Elements { first: _, more } => more,
        }
    }
}
