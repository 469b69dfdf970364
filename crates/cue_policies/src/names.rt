//! The labels of a place of the view.
ghost use Rattle.std.specs.Prelude.{◌≡◌, ◌↔◌, ◌⊎◌, ℕ, List, IfOk, IsTrue, OnOk};
ghost use Rattle.std.specs.Cmp.Lexicographic.{slice_cmp};
ghost use Rattle.std.specs.List.Sorted.{IsStrictlySortedBy};
ghost use Rattle.std.specs.Ordering.{nat_cmp};
ghost use Rattle.cue_policies.specs.Inner.Parts.{GainsLabels, HasLabels, IsIn, IsOf};

use crate::part::{Role, ViewPart};
use cue_lattice::{Memory, Text};
use std::alloc::Global;

/// The labels of the parts in order, each once: those that are patterns of their part, or the others.
pub(crate) fn labels_of(
    alloc: Global,
    parts: &[ViewPart<'_>],
    patterns: bool,
) -> Result<Vec<Text>, Memory>
    ensures labels { IfOk result (λ labels. HasLabels patterns parts.now labels.items) }
    ensures order { IfOk result (λ labels. IsStrictlySortedBy (slice_cmp nat_cmp) labels.items) }
{
    let mut labels = Vec::new(alloc);
    for part in parts {
        add_labels(alloc, &mut labels, part, patterns)?;
    }
    in_order(labels)
}

/// Puts the labels of a part behind others: those that are its patterns, or the others.
fn add_labels(
    alloc: Global,
    labels: &mut Vec<Text>,
    part: &ViewPart<'_>,
    patterns: bool,
) -> Result<(), Memory>
    ensures { OnOk result (GainsLabels patterns labels.old.items part.now labels.new.items) }
{
    for (label, _branch) in part.branch.labels() {
        add_label(alloc, labels, part.role, label, patterns)?;
    }
    Ok(())
}

/// Puts a label of a part behind others, where it is one of those that are wanted.
fn add_label(
    alloc: Global,
    labels: &mut Vec<Text>,
    role: Role,
    label: &str,
    patterns: bool,
) -> Result<(), Memory>
    ensures { OnOk result ((l : List ℕ) → IsIn l labels.new.items
        ↔ (IsIn l labels.old.items ⊎ (IsOf patterns role label.now × (label.now ≡ l)))) }
{
    if is_of(patterns, role, label) {
        labels.push(Text::from_str(alloc, label)?)?;
    }
    Ok(())
}

/// Whether a label is a pattern in a part of this role, or is none, as is asked.
fn is_of(patterns: bool, role: Role, label: &str) -> bool
    ensures { IsTrue result ↔ IsOf patterns role label.now }
{
    let is_pattern = role.has_pattern(label);
    if patterns { is_pattern } else { !is_pattern }
}

/// The texts of a list in order, each once.
fn in_order(mut texts: Vec<Text>) -> Result<Vec<Text>, Memory>
    ensures order { IfOk result (λ kept. IsStrictlySortedBy (slice_cmp nat_cmp) kept.items) }
    ensures same { IfOk result (λ kept. (text : List ℕ) → IsIn text kept.items
        ↔ IsIn text texts.items) }
{
    texts.sort_by(|one, other| one.compare(other))?;
    texts.dedup_by(|one, other| one.compare(other).is_eq());
    Ok(texts)
}
