//! The labels of struct literals.
ghost use Rattle.std.specs.Prelude.{◌≡◌, ◌↔◌, ℕ, List, IfOk, [], ◌∷◌};
ghost use Rattle.cue_sets.specs.Texts.{is_text_member};
ghost use Rattle.cue_row.specs.LabelSets.{RefusesLabel};
ghost use Rattle.cue_scope.specs.Core.{Core};
ghost use Rattle.cue_scope.specs.Definitions.{Definition};
ghost use Rattle.cue_scope.specs.Meaning.{meant_members};
ghost use Rattle.cue_syntax.specs.Syntax.{entries, entry, no_entries, entry_tree};
ghost use Rattle.cue_eval.specs.Literals.{has_declaration, has_dots, LeaveOut};

use cue_lattice::Memory;
use cue_row::LabelSet;
use cue_sets::TextSet;
use cue_syntax::{Declaration, LabelName};
use std::alloc::Global;

/// The labels that may stand in a struct literal of these declarations alone where it is closed:
/// those that it declares, or all where it has `...`.
pub(crate) fn labels_of(alloc: Global, declarations: &[Declaration]) -> Result<LabelSet, Memory>
    ensures { IfOk result (λ labels. (ds : List Definition) (meaning : ℕ → Core) (l : List ℕ) →
        RefusesLabel labels l ↔ LeaveOut (meant_members ds meaning (entries declarations.now) ∷ [])
        l) }
{
    if has_ellipsis(declarations) {
        return Ok(LabelSet::all(alloc));
    }
    let (_, labels) = collect_labels(alloc, declarations)?.into_texts();
    Ok(LabelSet::listing(labels).unwrap())
}

/// Whether there is a `...` among the declarations.
pub(crate) fn has_ellipsis(declarations: &[Declaration]) -> bool
    ensures { (ds : List Definition) (meaning : ℕ → Core) →
        result ≡ has_dots (meant_members ds meaning (entries declarations.now)) }
{
    for declaration in declarations {
        match declaration {
            Declaration::Ellipsis => return true,
            Declaration::Field { .. } => {}
            Declaration::Definition { .. } => {}
        }
    }
    false
}

/// The labels that are declared. The declarations are halved, so that many are united in balance.
pub(crate) fn collect_labels(alloc: Global, declarations: &[Declaration]) -> Result<TextSet, Memory>
    ensures { IfOk result (λ set. (ds : List Definition) (meaning : ℕ → Core) (l : List ℕ) →
        is_text_member set l ≡ has_declaration l (meant_members ds meaning (entries declarations.now))) }
{
    let count = declarations.len();
    if count == 0 {
        return Ok(TextSet::none(alloc));
    }
    if count == 1 {
        return declared_by(alloc, &declarations[0]);
    }
    let (front, back) = declarations.split_at(count / 2);
    let left = collect_labels(alloc, front)?;
    let right = collect_labels(alloc, back)?;
    left.union(alloc, &right)
}

/// The label that a declaration has.
fn declared_by(alloc: Global, declaration: &Declaration) -> Result<TextSet, Memory>
    ensures { IfOk result (λ set. (ds : List Definition) (meaning : ℕ → Core) (l : List ℕ) →
        is_text_member set l ≡ has_declaration l (meant_members ds meaning
        (entry (entry_tree declaration.now) no_entries))) }
{
    match declaration {
        Declaration::Ellipsis => Ok(TextSet::none(alloc)),
        Declaration::Definition { .. } => Ok(TextSet::none(alloc)),
        Declaration::Field { label, .. } => match &label.name {
            LabelName::Plain(name) => TextSet::one(alloc, name.as_str()),
            LabelName::Quoted(text) => TextSet::one(alloc, text.as_str()),
        },
    }
}
