ghost use Rattle.std.specs.Prelude.{◌↔◌, IsTrue};
ghost use Rattle.cue_row.specs.Row.{IsMetRow, IsRow};
ghost use Rattle.cue_scalars.specs.Scalars.{IsScalarsWithin};
ghost use Rattle.cue_row.specs.Steps.{step_of};
ghost use Rattle.cue_row.specs.declared.parts.RowParts.{RowParts as RowValue};
ghost use Rattle.cue_row.specs.ValidRow.{IsValidRow, UsualFits, LabelsFit, LengthsFit, AreLengths};
ghost use Rattle.cue_row.specs.Inner.Forms.{IsFitRow};
ghost use Rattle.cue_row.specs.ValidRow.{IsWord, AreWords, HasWords, IsWordStep};

use crate::row::RowForm;
use crate::{Row, RowKind, Step};
use cue_lattice::{LENGTH_LIMIT, Narrow, Text, WORD_LIMIT};

impl Row {
    /// Whether the row may stand in a valid table, as far as it alone decides. This takes no
    /// memory.
    pub fn is_valid(&self) -> bool
        ensures { IsTrue result ↔ IsValidRow self.now }
    {
        if !self.is_fit() {
            return false;
        }
        !self.is_free()
    }

    /// Whether the row is of a kind, fits it, and keeps the limits.
    fn is_fit(&self) -> bool
        ensures { IsTrue result ↔ IsFitRow self.now }
    {
        let Some(kind) = self.kind() else {
            return false;
        };
        if !self.usual_fits(kind) {
            return false;
        }
        if !self.labels_fit(kind) {
            return false;
        }
        if !self.lengths_fit(kind) {
            return false;
        }
        if !self.has_lengths() {
            return false;
        }
        self.has_words()
    }

    /// Whether the usual scalars fit a kind: all of a free place, some of those that may stand
    /// where scalars do, and none elsewhere.
    fn usual_fits(&self, kind: RowKind) -> bool
        ensures { IsTrue result ↔ UsualFits self.now kind }
    {
        match kind {
            RowKind::Free => self.usual().is_full(),
            RowKind::Scalar => self.is_usual_within(),
            RowKind::Struct | RowKind::List | RowKind::Nothing => self.usual().is_empty(),
        }
    }

    /// Whether all usual scalars may stand.
    fn is_usual_within(&self) -> bool
        ensures { IsTrue result ↔ IsScalarsWithin self.now.usual self.now.value }
    {
        match &self.form {
            RowForm::Small(_, _) => true,
            RowForm::Whole(_, parts) => parts.usual.is_within(&parts.value),
        }
    }

    /// Whether labels are left out only where a struct or nothing may stand.
    fn labels_fit(&self, kind: RowKind) -> bool
        ensures { IsTrue result ↔ LabelsFit self.now kind }
    {
        match kind {
            RowKind::Struct | RowKind::Nothing => true,
            RowKind::Free | RowKind::Scalar | RowKind::List => self.labels().is_none(),
        }
    }

    /// Whether lengths are left out only where a list or nothing may stand.
    fn lengths_fit(&self, kind: RowKind) -> bool
        ensures { IsTrue result ↔ LengthsFit self.now kind }
    {
        match kind {
            RowKind::List | RowKind::Nothing => true,
            RowKind::Free | RowKind::Scalar | RowKind::Struct => {
                self.least() == 0 && self.most().is_none()
            }
        }
    }

    /// Whether the least length is at most the limit, and a greatest length at most the least.
    fn has_lengths(&self) -> bool
        ensures { IsTrue result ↔ AreLengths self.now.least self.now.most }
    {
        if self.least() as usize > LENGTH_LIMIT {
            return false;
        }
        match self.most() {
            None => true,
            Some(most) => most <= self.least(),
        }
    }

    /// Whether no label and no text of the sets is too long. That they are in UTF-8 is what their
    /// type says.
    fn has_words(&self) -> bool
        ensures { IsTrue result ↔ HasWords self.now }
    {
        if let Some(labels) = self.labels() {
            if !are_words(labels) {
                return false;
            }
        }
        let (_, value) = self.value().texts();
        if !are_words(value) {
            return false;
        }
        let (_, usual) = self.usual().texts();
        are_words(usual)
    }
}

/// Whether none of the texts is too long.
fn are_words(texts: &[Text]) -> bool
    ensures { IsTrue result ↔ AreWords texts.now }
{
    for text in texts {
        if !is_word(text) {
            return false;
        }
    }
    true
}

/// Whether a text is not too long for a label or a decoded string.
fn is_word(text: &Text) -> bool
    ensures { IsTrue result ↔ IsWord text.now }
{
    text.as_str().len() <= WORD_LIMIT
}

impl Step {
    /// Whether the step is none of a label that is too long, of more than [`WORD_LIMIT`] bytes.
    pub fn is_short(&self) -> bool
        ensures { IsTrue result ↔ IsWordStep (step_of self.now) }
    {
        match self {
            Step::Label(label) => is_word(label),
            Step::Index(_) => true,
        }
    }
}

/// Valid rows are met to a valid row: the law of a call that does nothing.
pub fn valid_rows_meet()
    ensures { (a b met : RowValue) → IsRow a → IsRow b → IsRow met → IsMetRow a b met
        → IsValidRow a → IsValidRow b → IsValidRow met }
{}
