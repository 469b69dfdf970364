//! The parts of one source one step below a place.
ghost use Rattle.std.specs.Prelude.{◌↔◌, ◌⊎◌, IfOk, IsTrue, OnOk};
ghost use Rattle.cue_lattice.specs.OneOf.{OneOf};
ghost use Rattle.cue_lattice.specs.Path as paths;
ghost use Rattle.cue_policies.specs.Inner.Parts.{IsIn};
ghost use Rattle.cue_policies.specs.Patterns.{Concerns};
ghost use Rattle.cue_policies.specs.declared.kind.LayerKind.TheVariants as kinds;
ghost use Rattle.cue_row.specs.Steps.{step_of};
ghost use Rattle.cue_why.specs.Inner.Parts.{IsBelow, IsOwnBelow};
ghost use Rattle.cue_why.specs.declared.part.WrittenPart.{WrittenPart as Part};

use crate::part::{WrittenPart, step_further};
use cue_lattice::{Memory, Text};
use cue_policies::{LayerKind, fits, is_pattern};
use cue_row::Step;
use std::alloc::Global;

/// The parts one step below others: what each has at the step and, in a policy, at each pattern that
/// fits its label. Parts in the order of their paths give parts in that order.
pub(crate) fn parts_below<'a>(
    alloc: Global,
    kind: LayerKind,
    parts: &[WrittenPart<'a>],
    step: &Step,
) -> Result<Vec<WrittenPart<'a>>, Memory>
    ensures { IfOk result (λ found. (next : Part) → IsIn next found.items
        ↔ OneOf (λ part. IsBelow kind (step_of step.now) part next) parts.now) }
{
    let mut found = Vec::new(alloc);
    for part in parts {
        add_below(alloc, &mut found, kind, part, step)?;
    }
    Ok(found)
}

/// Puts what a part has one step below behind others.
fn add_below<'a>(
    alloc: Global,
    found: &mut Vec<WrittenPart<'a>>,
    kind: LayerKind,
    part: &WrittenPart<'a>,
    step: &Step,
) -> Result<(), Memory>
    ensures { OnOk result ((next : Part) → IsIn next found.new.items
        ↔ (IsIn next found.old.items ⊎ IsBelow kind (step_of step.now) part.now next)) }
{
    match kind {
        LayerKind::Layer => add_own(alloc, found, part, step),
        LayerKind::Policy => match step {
            Step::Label(label) => add_labels(alloc, found, part, label.as_str()),
            Step::Index(_) => add_own(alloc, found, part, step),
        },
    }
}

/// Puts what a part has at a step as it wrote that behind others.
fn add_own<'a>(
    alloc: Global,
    found: &mut Vec<WrittenPart<'a>>,
    part: &WrittenPart<'a>,
    step: &Step,
) -> Result<(), Memory>
    ensures { OnOk result ((next : Part) → IsIn next found.new.items
        ↔ (IsIn next found.old.items ⊎ IsOwnBelow (step_of step.now) part.now next)) }
{
    match part.branch.find(step) {
        None => Ok(()),
        Some(branch) => {
            let written = step_further(alloc, &part.written, step)?;
            found.push(WrittenPart { written, branch })?;
            Ok(())
        }
    }
}

/// Puts what a part of a policy has at each label that concerns this one behind others.
fn add_labels<'a>(
    alloc: Global,
    found: &mut Vec<WrittenPart<'a>>,
    part: &WrittenPart<'a>,
    label: &str,
) -> Result<(), Memory>
    ensures { OnOk result ((next : Part) → IsIn next found.new.items
        ↔ (IsIn next found.old.items ⊎ IsBelow kinds.Policy (paths.label label.now) part.now next)) }
{
    for (own, _branch) in part.branch.labels() {
        add_label(alloc, found, part, own, label)?;
    }
    Ok(())
}

/// Puts what a part of a policy has at its own label behind others, where that concerns a label.
fn add_label<'a>(
    alloc: Global,
    found: &mut Vec<WrittenPart<'a>>,
    part: &WrittenPart<'a>,
    own: &str,
    label: &str,
) -> Result<(), Memory>
    ensures { OnOk result ((next : Part) → IsIn next found.new.items
        ↔ (IsIn next found.old.items ⊎ (Concerns kinds.Policy own.now label.now
        × IsOwnBelow (paths.label own.now) part.now next))) }
{
    if !concerns(own, label) {
        return Ok(());
    }
    let step = Step::Label(Text::from_str(alloc, own)?);
    add_own(alloc, found, part, &step)
}

/// Whether what a policy writes at its own label concerns a label: by name, or by a pattern that
/// fits.
fn concerns(own: &str, label: &str) -> bool
    ensures { IsTrue result ↔ Concerns kinds.Policy own.now label.now }
{
    if is_pattern(own) {
        fits(own, label)
    } else {
        own == label
    }
}
