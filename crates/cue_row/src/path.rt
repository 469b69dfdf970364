ghost use Rattle.std.specs.Prelude.{◌≡◌, ◌<◌, [], ◌∷◌, ◌++◌, length, map, IfOk, IfSome, IfNone};
ghost use Rattle.std.specs.Cmp.Lexicographic.{slice_cmp};
ghost use Rattle.cue_lattice.specs.Path.{path_cmp, step_cmp};
ghost use Rattle.cue_lattice.specs.Limits.{step_limit};
ghost use Rattle.cue_row.specs.Steps.{step_of, IsWithinDepth};

use crate::Step;
use cue_lattice::{Memory, STEP_LIMIT};
use std::alloc::Global;
use std::cmp::Ordering;
use std::marker::Model;

/// Where something stands in a configuration: the steps that lead there from the root, at most
/// [`STEP_LIMIT`] of them. Contracts see the list of them.
#[derive(Debug, Drop)]
pub struct Path {
    steps: Vec<Step>,
}

impl Model for Path {
    ghost use Rattle.std.specs.Prelude.{map};
    ghost use Rattle.cue_lattice.specs.Path.{Path};

    ghost Value = { Path };

    ghost use Rattle.cue_row.specs.Steps.{step_of, IsWithinDepth};

    ghost view = { λ path. map step_of path.steps.items };

    ghost invariant = { λ path. IsWithinDepth (map step_of path.steps.items) };
}

impl Path {
    /// The path of these steps, or nothing where they are more than [`STEP_LIMIT`].
    pub fn new(steps: Vec<Step>) -> Option<Path>
        ensures some { IfSome result (λ path. path ≡ map step_of steps.items) }
        ensures none { IfNone result (step_limit < length steps.items) }
    {
        if steps.len() > STEP_LIMIT {
            return None;
        }
        Some(Path { steps })
    }

    /// The root, to which no step leads. This takes no memory.
    pub fn root(alloc: Global) -> Path
        ensures { result ≡ [] }
    {
        Path {
            steps: Vec::new(alloc),
        }
    }

    /// The steps from the root.
    pub fn steps(&self) -> &[Step]
        ensures list { map step_of result.now ≡ self.now }
        ensures few { IsWithinDepth self.now }
    {
        self.steps.as_slice()
    }

    /// Gives the steps back.
    pub fn into_steps(self) -> Vec<Step>
        ensures list { map step_of result.items ≡ self }
        ensures few { IsWithinDepth self }
    {
        self.steps
    }

    /// How two paths compare: step by step, a path before those that it begins.
    pub fn compare(&self, other: &Path) -> Ordering
        ensures { result ≡ path_cmp self.now other.now }
    {
        compare_steps(self.steps(), other.steps())
    }

    /// The path one step further.
    pub fn then(&self, alloc: Global, step: &Step) -> Result<Path, Memory>
        requires { length self.now < step_limit }
        ensures { IfOk result (λ path. path ≡ self.now ++ step_of step.now ∷ []) }
    {
        let mut steps = copy_steps(alloc, self.steps())?;
        steps.push(step.copy(alloc)?)?;
        Ok(Path { steps })
    }

    pub fn copy(&self, alloc: Global) -> Result<Path, Memory>
        ensures { IfOk result (λ path. path ≡ self.now) }
    {
        Ok(Path {
            steps: copy_steps(alloc, self.steps())?,
        })
    }
}

/// How two lists of steps compare. The recursion is as deep as the shorter list.
fn compare_steps(left: &[Step], right: &[Step]) -> Ordering
    ensures { result ≡ slice_cmp step_cmp (map step_of left.now) (map step_of right.now) }
{
    match left {
        [] => match right {
            [] => Ordering::Equal,
            [_, ..] => Ordering::Less,
        },
        [first, left_rest @ ..] => match right {
            [] => Ordering::Greater,
            [other, right_rest @ ..] => match first.compare(other) {
                Ordering::Equal => compare_steps(left_rest, right_rest),
                unequal => unequal,
            },
        },
    }
}

/// The same steps.
fn copy_steps(alloc: Global, steps: &[Step]) -> Result<Vec<Step>, Memory>
    ensures { IfOk result (λ copied. copied.items ≡ steps.now) }
{
    let mut copied = Vec::with_capacity(alloc, steps.len())?;
    for step in steps {
        copied.push(step.copy(alloc)?)?;
    }
    Ok(copied)
}
