ghost use Rattle.std.specs.Prelude.{◌≡◌, ◌++◌, [], ◌∷◌, Some, false, length, OnOk, OnErr};
ghost use Rattle.cue_lattice.specs.Path.{index};
ghost use Rattle.cue_report.specs.Inner.Trail.{shown_steps};

use crate::place::copy_steps;
use crate::sink::{ConflictSink, GapSink};
use crate::{Conflict, Gap, ReportPlace};
use cue_lattice::Memory;
use cue_row::Step;
use cue_table::StepRef;
use std::alloc::Global;

/// What a search finds, told as a list.
#[derive(Drop)]
pub(crate) struct Listed {
    alloc: Global,
}

impl Listed {
    /// A way to tell in lists.
    pub fn new(alloc: Global) -> Listed {
        Listed { alloc }
    }

    /// Tells of one free element.
    fn element(&self, out: &mut Vec<Gap>, steps: &[StepRef], number: u32) -> Result<(), Memory>
        ensures told { OnOk result (out.new.items ≡ out.old.items
            ++ record { path = shown_steps steps.now ++ index number ∷ []; missing = false } ∷ []) }
        ensures kept { OnErr result (out.new.items ≡ out.old.items) }
    {
        let mut path = copy_steps(self.alloc, steps)?;
        path.push(Step::Index(number))?;
        out.push(Gap {
            path: ReportPlace::new(path),
            missing: false,
        })?;
        Ok(())
    }
}

impl ConflictSink for Listed {
    type Out = Vec<Conflict>;

    type Piece = Conflict;

    type SinkError = Memory;

    ghost tally = { λ listed out. record { count = length out.items; known = Some out.items } };

    ghost piece = { λ conflict. conflict ∷ [] };

    fn len(&self, out: &Vec<Conflict>) -> u64 {
        out.len() as u64
    }

    fn conflict(
        &mut self,
        out: &mut Vec<Conflict>,
        steps: &[StepRef],
        no_value: bool,
        not_allowed: bool,
    ) -> Result<(), Memory> {
        let path = ReportPlace::new(copy_steps(self.alloc, steps)?);
        out.push(Conflict {
            path,
            no_value,
            not_allowed,
        })?;
        Ok(())
    }
}

impl GapSink for Listed {
    type Out = Vec<Gap>;

    type Piece = Gap;

    type SinkError = Memory;

    ghost tally = { λ listed out. record { count = length out.items; known = Some out.items } };

    ghost piece = { λ gap. gap ∷ [] };

    fn len(&self, out: &Vec<Gap>) -> u64 {
        out.len() as u64
    }

    fn gap(&mut self, out: &mut Vec<Gap>, steps: &[StepRef], missing: bool) -> Result<(), Memory> {
        let path = ReportPlace::new(copy_steps(self.alloc, steps)?);
        out.push(Gap { path, missing })?;
        Ok(())
    }

    fn free_elements(
        &mut self,
        out: &mut Vec<Gap>,
        steps: &[StepRef],
        first: u32,
        end: u32,
    ) -> Result<(), Memory> {
        for number in first..end {
            self.element(out, steps, number)?;
        }
        Ok(())
    }
}
