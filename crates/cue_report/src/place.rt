ghost use Rattle.std.specs.Prelude.{◌≡◌, ◌++◌, [], ◌∷◌, map, string_bytes, IfOk, OnOk};
ghost use Rattle.cue_row.specs.PathText.{path_text};
ghost use Rattle.cue_row.specs.Steps.{step_of};
ghost use Rattle.cue_report.specs.Inner.Trail.{shown_steps};

use cue_lattice::Memory;
use cue_row::{Step, push_steps};
use cue_table::StepRef;
use std::alloc::Global;
use std::marker::Model;

/// A place that is reported: the steps that lead there from the root. The element of a list at the
/// end of the longest path of a table is one step further than a [`cue_row::Path`] leads. Contracts
/// see the list of the steps.
#[derive(Debug, Drop)]
pub struct ReportPlace {
    steps: Vec<Step>,
}

impl Model for ReportPlace {
    ghost use Rattle.std.specs.Prelude.{map};
    ghost use Rattle.cue_lattice.specs.Path.{Path};

    ghost Value = { Path };

    ghost use Rattle.cue_row.specs.Steps.{step_of};

    ghost view = { λ place. map step_of place.steps.items };
}

impl ReportPlace {
    /// The place to which these steps lead.
    pub fn new(steps: Vec<Step>) -> ReportPlace
        ensures { result ≡ map step_of steps.items }
    {
        ReportPlace { steps }
    }

    /// The steps from the root.
    pub fn steps(&self) -> &[Step]
        ensures { map step_of result.now ≡ self.now }
    {
        self.steps.as_slice()
    }

    /// The place as reports write it, in the way of [`cue_row::path_text`].
    pub fn to_text(&self, alloc: Global) -> Result<String, Memory>
        ensures { IfOk result (λ text. string_bytes text ≡ path_text self.now) }
    {
        let mut out = String::new(alloc);
        push_steps(&mut out, self.steps())?;
        Ok(out)
    }
}

/// Copies of the steps.
pub(crate) fn copy_steps(alloc: Global, steps: &[StepRef]) -> Result<Vec<Step>, Memory>
    ensures { IfOk result (λ copies. map step_of copies.items ≡ shown_steps steps.now) }
{
    let mut copies = Vec::with_capacity(alloc, steps.len())?;
    for step in steps {
        copies.push(step.to_step(alloc)?)?;
    }
    Ok(copies)
}

/// Takes one step further.
pub(crate) fn enter<'a>(steps: &mut Vec<StepRef<'a>>, step: StepRef<'a>) -> Result<(), Memory>
    ensures { OnOk result (steps.new.items ≡ steps.old.items ++ step.entry ∷ []) }
{
    steps.push(step)?;
    Ok(())
}
