//! A least list of sources that make a finding.
ghost use Rattle.std.specs.Prelude.{◌≡◌, [], ◌∷◌, map, IfOk};
ghost use Rattle.cue_row.specs.Steps.{step_of};
ghost use Rattle.cue_why.specs.Inner.Stacks.{IsStack, IsTrailOf, Suffice, ahead_of};
ghost use Rattle.cue_why.specs.Least.{IsLeft};

use crate::finding::Finding;
use crate::met::{free_trail, meet_trails};
use crate::source::LayerSource;
use crate::trail::trail_of;
use cue_lattice::Memory;
use cue_row::{Row, Step};
use std::alloc::Global;

/// A source, what it refuses along a path, and what all sources behind it refuse there.
#[derive(Drop)]
pub(crate) struct Traced<'a> {
    pub source: LayerSource<'a>,
    pub trail: Vec<Row>,
    pub behind: Vec<Row>,
}

/// The sources with their trails, the last one first, and the trail of all.
pub(crate) fn trace_all<'a>(
    alloc: Global,
    sources: Vec<LayerSource<'a>>,
    path: &[Step],
) -> Result<(Vec<Traced<'a>>, Vec<Row>), Memory>
    ensures stack { IfOk result (λ all. IsStack (map step_of path.now) [] all.0.items) }
    ensures sources { IfOk result (λ all. ahead_of [] all.0.items ≡ sources.entry.items) }
    ensures trail { IfOk result (λ all.
        IsTrailOf (map step_of path.now) sources.entry.items all.1.items) }
{
    let mut left = sources;
    let mut stack = Vec::with_capacity(alloc, left.len())?;
    let mut behind = free_trail(alloc, path)?;
    while let Some(source) = left.pop() {
        let trail = trail_of(alloc, &source, path)?;
        let all = meet_trails(alloc, &trail, &behind)?;
        stack.push(Traced {
            source,
            trail,
            behind,
        })?;
        behind = all;
    }
    Ok((stack, behind))
}

/// The sources of a stack without those that are left out, each once and in turn, where what remains
/// still makes the finding.
pub(crate) fn reduce_sources<'a>(
    alloc: Global,
    stack: Vec<Traced<'a>>,
    finding: Finding,
    path: &[Step],
) -> Result<Vec<LayerSource<'a>>, Memory>
    requires { IsStack (map step_of path.now) [] stack.items }
    ensures { IfOk result (λ kept. IsLeft (Suffice finding (map step_of path.now)) []
        (ahead_of [] stack.entry.items) kept.items) }
{
    let mut left = stack;
    let mut kept = Vec::new(alloc);
    let mut own = free_trail(alloc, path)?;
    while let Some(one) = left.pop() {
        let Traced {
            source,
            trail,
            behind,
        } = one;
        let others = meet_trails(alloc, &own, &behind)?;
        if !finding.is_made_by(&others, path) {
            own = meet_trails(alloc, &own, &trail)?;
            kept.push(source)?;
        }
    }
    Ok(kept)
}
