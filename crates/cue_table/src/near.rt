//! Where a branch is among others, searched for from the front on, or from behind the first ones.
ghost use Rattle.std.specs.Prelude.{MatchResult};
ghost use Rattle.cue_row.specs.Steps.{step_of};
ghost use Rattle.cue_table.specs.Inner.Form.{StepsRise};
ghost use Rattle.cue_table.specs.Inner.Near.{ReachesNear};
ghost use Rattle.cue_table.specs.Inner.Place.{AreBefore, IsGap, IsPlace};
ghost use Rattle.cue_table.specs.Inner.View.{branches};

use crate::child::Child;
use crate::node::place;
use cue_lattice::Narrow;
use cue_row::Step;
use std::cmp::Ordering;

/// As `place` where the first branches, as many as `past` says, stand before the step, with few
/// comparisons where the branch is near behind them.
pub(crate) fn place_from<R: Narrow>(
    children: &[Child<R>],
    past: usize,
    step: &Step,
) -> Result<usize, usize>
    requires rise { StepsRise (branches children.now) }
    requires past { AreBefore past (step_of step.now) (branches children.now) }
    ensures { MatchResult result (IsPlace children.now (step_of step.now))
        (IsGap children.now (step_of step.now)) }
{
    let (_, later) = children.split_at(past);
    match place_near(later, step) {
        Ok(at) => Ok(past + at),
        Err(at) => Err(past + at),
    }
}

/// As `place`, with few comparisons where the branch is near the front.
fn place_near<R: Narrow>(children: &[Child<R>], step: &Step) -> Result<usize, usize>
    requires { StepsRise (branches children.now) }
    ensures { MatchResult result (IsPlace children.now (step_of step.now))
        (IsGap children.now (step_of step.now)) }
{
    let end = near_end(children, step);
    place(&children[..end], step)
}

/// A place of the list behind which no branch stands at a step: one that is reached by going on
/// from the front as far again as was gone before.
fn near_end<R: Narrow>(children: &[Child<R>], step: &Step) -> usize
    ensures { ReachesNear children.now (step_of step.now) result }
{
    let mut end = 1;
    while end < children.len() {
        match children[end - 1].step().compare(step) {
            Ordering::Less => end = end.saturating_add(end),
            Ordering::Equal | Ordering::Greater => return end,
        }
    }
    children.len()
}
