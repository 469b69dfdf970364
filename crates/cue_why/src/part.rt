//! What one source has at the paths that concern a place.
ghost use Rattle.std.specs.Prelude.{◌≡◌, ◌↔◌, ◌++◌, ◌∷◌, [], map, IfOk, IsTrue};
ghost use Rattle.cue_policies.specs.Patterns.{IsPatternOf};
ghost use Rattle.cue_policies.specs.View.{EndsInPattern};
ghost use Rattle.cue_row.specs.Steps.{step_of};

use cue_lattice::Memory;
use cue_policies::{LayerKind, is_pattern};
use cue_report::ReportPlace;
use cue_row::{Row, Step};
use cue_table::Branch;
use std::alloc::Global;

/// What a source has at a path, as it wrote that.
#[derive(Drop)]
pub struct WrittenPart<'a> {
    pub written: ReportPlace,
    pub branch: Branch<'a, Row>,
}

/// The path one step further.
pub(crate) fn step_further(
    alloc: Global,
    written: &ReportPlace,
    step: &Step,
) -> Result<ReportPlace, Memory>
    ensures { IfOk result (λ path. path ≡ written.now ++ step_of step.now ∷ []) }
{
    let mut steps = copy_steps(alloc, written.steps())?;
    steps.push(step.copy(alloc)?)?;
    Ok(ReportPlace::new(steps))
}

/// The same steps.
fn copy_steps(alloc: Global, steps: &[Step]) -> Result<Vec<Step>, Memory>
    ensures { IfOk result (λ copied. copied.items ≡ steps.now) }
{
    let mut copied = Vec::with_capacity(alloc, steps.len())?;
    for step in steps {
        copied.push(step.copy(alloc)?)?;
    }
    Ok(copied)
}

/// Whether a label is a pattern in a source of a kind.
pub(crate) fn is_pattern_of(kind: LayerKind, label: &str) -> bool
    ensures { IsTrue result ↔ IsPatternOf kind label.now }
{
    match kind {
        LayerKind::Layer => false,
        LayerKind::Policy => is_pattern(label),
    }
}

/// Whether the last step of a path is a pattern in a source of a kind: then the level at the path
/// plays no part.
pub(crate) fn ends_in_pattern(kind: LayerKind, path: &[Step]) -> bool
    ensures { IsTrue result ↔ EndsInPattern kind (map step_of path.now) }
{
    match path.split_last() {
        None => false,
        Some((step, _front)) => match step {
            Step::Label(label) => is_pattern_of(kind, label.as_str()),
            Step::Index(_) => false,
        },
    }
}
