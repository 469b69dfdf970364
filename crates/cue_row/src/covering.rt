//! Which rows refuse all that others refuse, but for levels, as far as a glance tells.
ghost use Rattle.std.specs.Prelude.{◌≡◌, false, None, IsTrue};
ghost use Rattle.cue_row.specs.declared.level.Level.{Level as Levels};
ghost use Rattle.cue_row.specs.Inner.Covers.{CoversRow, IsOpenBelow, IsPieceWithin};
ghost use Rattle.cue_row.specs.Kept.{small_parts, IsSmallRow};
ghost use Rattle.cue_row.specs.Kinds.{IsEmptySet};
ghost use Rattle.cue_row.specs.Made.{at_level};

use crate::row::RowForm;
use crate::small::Small;
use crate::{Level, Row, RowParts};
use cue_sets::IntSet;

impl Row {
    /// Whether the row is told at a glance to refuse all that the other refuses, but for levels.
    #[inline(always)]
    pub(crate) fn covers(&self, other: &Row) -> bool
        ensures { IsTrue result → CoversRow self.now other.now }
    {
        match (&self.form, &other.form) {
            (RowForm::Small(_, small), RowForm::Small(_, other)) => small.covers(other),
            (RowForm::Small(_, small), RowForm::Whole(_, other)) => small.covers_parts(other),
            (RowForm::Whole(_, parts), RowForm::Small(_, other)) => parts.cover_small(other),
            (RowForm::Whole(_, parts), RowForm::Whole(_, other)) => parts.cover(other),
        }
    }
}

impl Small {
    /// Whether it is told at a glance to refuse all that another small one refuses.
    fn covers(&self, other: &Small) -> bool
        requires left { IsSmallRow self.now }
        requires right { IsSmallRow other.now }
        ensures { IsTrue result → (a b : Levels) →
            CoversRow (small_parts a self.now) (small_parts b other.now) }
    {
        match (self, other) {
            (_, Small::Anything) => true,
            (Small::Integers(left), Small::Integers(right)) => is_piece_within(*left, *right),
            (Small::Text(_), Small::Few(few)) => few.texts,
            _ => self.same(other),
        }
    }

    /// Whether it is told at a glance to refuse all that these parts refuse, but for levels.
    fn covers_parts(&self, parts: &RowParts) -> bool
        requires { IsSmallRow self.now }
        ensures { IsTrue result → (a b : Levels) →
            CoversRow (small_parts a self.now) (at_level b parts.now) }
    {
        if !parts.are_open_below() {
            return false;
        }
        match self {
            Small::Anything => false,
            Small::Struct => parts.struct_ok,
            Small::Few(_) => false,
            Small::Integers(piece) => {
                let set = IntSet::between(piece.0, piece.1);
                set.is_within(&parts.value.ints) && set.is_within(&parts.usual.ints)
            }
            Small::Text(text) => {
                let text = text.as_str();
                parts.value.texts.contains(text) && parts.usual.texts.contains(text)
            }
        }
    }
}

impl RowParts {
    /// Whether they are told at a glance to refuse all that others refuse, but for levels: that is
    /// so where they let no scalar stand, and the others any label.
    fn cover(&self, other: &RowParts) -> bool
        ensures { IsTrue result → (a b : Levels) →
            CoversRow (at_level a self.now) (at_level b other.now) }
    {
        if !self.is_form_within(Level::Given, other) {
            return false;
        }
        if !other.allow_all_labels() {
            return false;
        }
        if !self.value.is_empty() {
            return false;
        }
        self.usual.is_empty()
    }

    /// Whether they are told at a glance to refuse all that a small one refuses, but for levels.
    fn cover_small(&self, small: &Small) -> bool
        ensures { IsTrue result → (a b : Levels) →
            CoversRow (at_level a self.now) (small_parts b small.now) }
    {
        match small {
            Small::Anything => true,
            Small::Struct => self.have_no_scalar_and_no_list(),
            Small::Few(_) => false,
            Small::Integers(_) => false,
            Small::Text(_) => false,
        }
    }

    /// Whether neither a scalar nor a list may stand, nor is a scalar usual.
    fn have_no_scalar_and_no_list(&self) -> bool
        ensures { IsTrue result → (self.now.list_ok ≡ false)
            × IsEmptySet self.now.value × IsEmptySet self.now.usual }
    {
        if self.list_ok {
            return false;
        }
        if !self.value.is_empty() {
            return false;
        }
        self.usual.is_empty()
    }

    /// Whether they refuse no label and no length.
    fn are_open_below(&self) -> bool
        ensures { IsTrue result → IsOpenBelow self.now }
    {
        self.allow_all_labels() && self.least == 0 && self.most.is_none()
    }

    /// Whether they refuse no label.
    fn allow_all_labels(&self) -> bool
        ensures { IsTrue result → self.now.labels ≡ None }
    {
        self.labels.listed().is_none()
    }
}

/// Whether the numbers from a first to a last one are all among others.
fn is_piece_within(piece: (i64, i64), other: (i64, i64)) -> bool
    ensures { IsTrue result → IsPieceWithin piece other }
{
    other.0 <= piece.0 && piece.1 <= other.1
}
