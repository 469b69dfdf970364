//! The parts one step below a place of the view.
ghost use Rattle.std.specs.Prelude.{◌↔◌, ◌⊎◌, IfOk, OnOk};
ghost use Rattle.cue_lattice.specs.OneOf.{OneOf};
ghost use Rattle.cue_policies.specs.Patterns.{MatchesPattern, IsPatternOf};
ghost use Rattle.cue_policies.specs.declared.part.Role.TheVariants as roles;
ghost use Rattle.cue_policies.specs.declared.part.ViewPart.{ViewPart as Part};
ghost use Rattle.cue_policies.specs.Inner.Parts.{HasPartAt, IsBelow, IsIn, kind_of, role_below};

use crate::labels::fits;
use crate::part::{Role, ViewPart};
use cue_lattice::{Memory, Text};
use cue_row::Step;
use std::alloc::Global;

/// The parts below a label: what each part has at the label itself, where it is plain there, and at
/// those of the patterns that fit it.
pub(crate) fn parts_below<'a>(
    alloc: Global,
    parts: &[ViewPart<'a>],
    patterns: &[Text],
    label: &Text,
) -> Result<Vec<ViewPart<'a>>, Memory>
    ensures { IfOk result (λ found. (next : Part) → IsIn next found.items
        ↔ OneOf (λ part. IsBelow patterns.now label.now part next) parts.now) }
{
    let mut found = Vec::new(alloc);
    for part in parts {
        add_below(alloc, &mut found, part, patterns, label)?;
    }
    Ok(found)
}

/// Puts what a part has for a label behind others.
fn add_below<'a>(
    alloc: Global,
    found: &mut Vec<ViewPart<'a>>,
    part: &ViewPart<'a>,
    patterns: &[Text],
    label: &Text,
) -> Result<(), Memory>
    ensures { OnOk result ((next : Part) → IsIn next found.new.items
        ↔ (IsIn next found.old.items ⊎ IsBelow patterns.now label.now part.now next)) }
{
    add_named(alloc, found, part, label)?;
    for pattern in patterns {
        add_bound(alloc, found, part, pattern, label)?;
    }
    Ok(())
}

/// Puts what a part has at a label behind others, where the label is plain in it.
fn add_named<'a>(
    alloc: Global,
    found: &mut Vec<ViewPart<'a>>,
    part: &ViewPart<'a>,
    label: &Text,
) -> Result<(), Memory>
    ensures { OnOk result ((next : Part) → IsIn next found.new.items
        ↔ (IsIn next found.old.items ⊎ ((¬ IsPatternOf (kind_of part.now.role) label.now)
        × HasPartAt part.now (role_below part.now.role) label.now next))) }
{
    if part.role.has_pattern(label.as_str()) {
        return Ok(());
    }
    add_at(alloc, found, part, part.role.role_below(), label)
}

/// Puts what a part has at a pattern behind others, where it fits the label.
fn add_bound<'a>(
    alloc: Global,
    found: &mut Vec<ViewPart<'a>>,
    part: &ViewPart<'a>,
    pattern: &Text,
    label: &Text,
) -> Result<(), Memory>
    ensures { OnOk result ((next : Part) → IsIn next found.new.items
        ↔ (IsIn next found.old.items ⊎ (IsPatternOf (kind_of part.now.role) pattern.now
        × MatchesPattern pattern.now label.now × HasPartAt part.now roles.Pattern pattern.now next))) }
{
    if !part.role.has_pattern(pattern.as_str()) {
        return Ok(());
    }
    if !fits(pattern.as_str(), label.as_str()) {
        return Ok(());
    }
    add_at(alloc, found, part, Role::Pattern, pattern)
}

/// Puts what a part has at a label behind others, in this role.
fn add_at<'a>(
    alloc: Global,
    found: &mut Vec<ViewPart<'a>>,
    part: &ViewPart<'a>,
    role: Role,
    label: &Text,
) -> Result<(), Memory>
    ensures { OnOk result ((next : Part) → IsIn next found.new.items
        ↔ (IsIn next found.old.items ⊎ HasPartAt part.now role label.now next)) }
{
    let step = Step::Label(label.copy(alloc)?);
    match part.branch.find(&step) {
        None => Ok(()),
        Some(branch) => {
            found.push(ViewPart { role, branch })?;
            Ok(())
        }
    }
}
