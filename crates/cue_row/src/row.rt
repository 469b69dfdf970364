ghost use Rattle.std.specs.Prelude.{◌≡◌, ◌↔◌, max, IfOk, IfSome, IsTrue};
ghost use Rattle.std.specs.Option.{option_map};
ghost use Rattle.cue_row.specs.LabelSets.{allows_label, AreLabels};
ghost use Rattle.cue_row.specs.Made.{at_level};
ghost use Rattle.cue_row.specs.Row.{IsMetRow, RefusesAsked};
ghost use Rattle.cue_lattice.specs.Narrowed.{IsNarrowedBy};

use crate::small::Small;
use crate::{LabelSet, Level, Question, RowParts, Scalars};
use cue_lattice::{Memory, Narrow, Narrowed, Text};
use cue_sets::are_same;
use std::alloc::Global;
use std::marker::Model;
use std::rc::Rc;

/// How a row is kept.
#[derive(Debug, Drop)]
pub(crate) enum RowForm {
    /// In the value itself.
    Small(Level, Small),
    /// Part by part, which copies share. The level of the parts says nothing.
    Whole(Level, Rc<RowParts>),
}

/// What is known of one place of a configuration. A row refuses questions, and unification refuses
/// what one side refuses.
///
/// Contracts see its parts, a [`RowParts`]. The rows that most places have lie in its 40 bytes:
/// those where anything may stand, a struct with any labels, integers of one range, one text, all
/// texts, or some of null, false and true. Others are shared by their copies.
#[derive(Debug, Drop)]
pub struct Row {
    pub(crate) form: RowForm,
}

impl Model for Row {
    ghost use Rattle.cue_row.specs.declared.parts.RowParts.{RowParts as Parts};
    ghost use Rattle.cue_row.specs.Kept.{row_parts_of, IsSetKept};

    ghost Value = { Parts };

    ghost view = { λ row. row_parts_of row.form };

    ghost invariant = { λ row. IsSetKept row.form };
}

impl Row {
    ghost use Rattle.cue_row.specs.Kept.{small_parts, IsSmallRow};
    ghost use Rattle.cue_row.specs.Inner.Covers.{CoversRow};
    ghost use Rattle.cue_row.specs.Levels.{level_of};
    ghost use Rattle.cue_row.specs.declared.parts.RowParts.{RowParts as Parts};

    /// The row with these parts.
    pub fn from_parts(alloc: Global, parts: RowParts) -> Result<Row, Memory>
        ensures { IfOk result (λ row. row ≡ parts) }
    {
        match parts.small(alloc)? {
            Some(small) => Ok(Row::small(parts.level, small)),
            None => Row::whole(alloc, parts),
        }
    }

    /// The parts of the row, which is taken over. They are copied where another row shares them.
    fn into_parts(self, alloc: Global) -> Result<RowParts, Memory>
        ensures { IfOk result (λ parts. parts ≡ self) }
    {
        match self.form {
            RowForm::Small(level, small) => small.parts(alloc, level),
            RowForm::Whole(level, parts) => match Rc::try_unwrap(parts) {
                Ok(parts) => Ok(parts.at_level(level)),
                Err(shared) => Ok(shared.copy(alloc)?.at_level(level)),
            },
        }
    }

    /// How much is asked of the place.
    #[inline(always)]
    pub fn level(&self) -> Level
        ensures { result ≡ self.now.level }
    {
        match &self.form {
            RowForm::Small(level, _) | RowForm::Whole(level, _) => *level,
        }
    }

    /// The same row, of this level.
    #[inline(always)]
    pub fn at_level(self, level: Level) -> Row
        ensures { result ≡ at_level level self }
    {
        match self.form {
            RowForm::Small(_, small) => Row::small(level, small),
            RowForm::Whole(_, parts) => Row {
                form: RowForm::Whole(level, parts),
            },
        }
    }

    /// Which scalars may stand.
    pub fn value(&self) -> Scalars
        ensures { result ≡ self.now.value }
    {
        match &self.form {
            RowForm::Small(_, small) => small.scalars(),
            RowForm::Whole(_, parts) => Scalars::of(&parts.value),
        }
    }

    /// Of which scalars a default is chosen.
    pub fn usual(&self) -> Scalars
        ensures { result ≡ self.now.usual }
    {
        match &self.form {
            RowForm::Small(_, small) => small.scalars(),
            RowForm::Whole(_, parts) => Scalars::of(&parts.usual),
        }
    }

    /// Whether a struct may stand.
    pub fn struct_ok(&self) -> bool
        ensures { result ≡ self.now.struct_ok }
    {
        match &self.form {
            RowForm::Small(_, small) => matches!(small, Small::Anything | Small::Struct),
            RowForm::Whole(_, parts) => parts.struct_ok,
        }
    }

    /// Whether a list may stand.
    pub fn list_ok(&self) -> bool
        ensures { result ≡ self.now.list_ok }
    {
        match &self.form {
            RowForm::Small(_, small) => matches!(small, Small::Anything),
            RowForm::Whole(_, parts) => parts.list_ok,
        }
    }

    /// The labels that may stand directly below, where not all may.
    pub fn labels(&self) -> Option<&[Text]>
        ensures list { option_map (λ labels. labels.now) result ≡ self.now.labels }
        ensures ascending { AreLabels self.now.labels }
    {
        match &self.form {
            RowForm::Small(_, _) => None,
            RowForm::Whole(_, parts) => parts.labels.listed(),
        }
    }

    /// Whether a label may stand directly below. This is a binary search.
    pub fn allows(&self, label: &str) -> bool
        ensures { result ≡ allows_label self.now.labels label.now }
    {
        match &self.form {
            RowForm::Small(_, _) => true,
            RowForm::Whole(_, parts) => parts.labels.allows(label),
        }
    }

    /// The least length of a list.
    pub fn least(&self) -> u32
        ensures { result ≡ self.now.least }
    {
        match &self.form {
            RowForm::Small(_, _) => 0,
            RowForm::Whole(_, parts) => parts.least,
        }
    }

    /// The greatest length of a list, where there is one.
    pub fn most(&self) -> Option<u32>
        ensures { result ≡ self.now.most }
    {
        match &self.form {
            RowForm::Small(_, _) => None,
            RowForm::Whole(_, parts) => parts.most,
        }
    }

    /// A small row of this level.
    pub(crate) fn small(level: Level, small: Small) -> Row
        requires { IsSmallRow small }
        ensures { result ≡ small_parts level small }
    {
        Row {
            form: RowForm::Small(level, small),
        }
    }

    /// A row that is kept part by part.
    pub(crate) fn whole(alloc: Global, parts: RowParts) -> Result<Row, Memory>
        ensures { IfOk result (λ row. row ≡ parts) }
    {
        Ok(Row {
            form: RowForm::Whole(parts.level, Rc::new(alloc, parts)?),
        })
    }

    /// Whether both are small, and told to be the same at a glance.
    fn is_alike(&self, other: &Row) -> bool
        ensures { IsTrue result → self.now ≡ other.now }
    {
        match (&self.form, &other.form) {
            (RowForm::Small(left, small), RowForm::Small(right, other)) => {
                left.same(*right) && small.same(other)
            }
            _ => false,
        }
    }

    /// The unification of two small rows, where it is found without parts.
    fn meet_small(&self, alloc: Global, other: &Row) -> Result<Option<Row>, Memory>
        ensures { IfOk result (λ found. IfSome found (IsMetRow self.now other.now)) }
    {
        let (RowForm::Small(left, small), RowForm::Small(right, other)) = (&self.form, &other.form)
        else {
            return Ok(None);
        };
        match small.meet(alloc, other)? {
            None => Ok(None),
            Some(met) => Ok(Some(Row::small(left.greater(*right), met))),
        }
    }

    /// What the row becomes that changes in its level alone.
    fn raise_to(&self, alloc: Global, level: Level) -> Result<Narrowed<Row>, Memory>
        ensures { (other : Parts) → CoversRow self.now other
            → level_of level ≡ max (level_of self.now.level) (level_of other.level)
            → IfOk result (IsNarrowedBy RefusesAsked self.now other) }
    {
        if level.same(self.level()) {
            return Ok(Narrowed::Unchanged);
        }
        Ok(Narrowed::To(self.copy(alloc)?.at_level(level)))
    }

    /// Changes the level alone.
    fn set_level(&mut self, level: Level)
        ensures { self.new ≡ at_level level self.old }
    {
        match &mut self.form {
            RowForm::Small(old, _) => *old = level,
            RowForm::Whole(old, _) => *old = level,
        }
    }

    /// The unification with a row that is taken over, part by part.
    fn meet_parts(&self, alloc: Global, other: Row) -> Result<Row, Memory>
        ensures { IfOk result (IsMetRow self.now other) }
    {
        let other = other.into_parts(alloc)?;
        let met = match &self.form {
            RowForm::Small(level, small) => small
                .parts(alloc, *level)?
                .meet_at(alloc, *level, other)?,
            RowForm::Whole(level, parts) => parts.meet_at(alloc, *level, other)?,
        };
        Row::from_parts(alloc, met)
    }

    /// Keeps the row in the value itself, where it is small and there is memory for its text.
    fn shrink(&mut self, alloc: Global)
        ensures { self.new ≡ self.old }
    {
        let RowForm::Whole(level, parts) = &self.form else {
            return;
        };
        if let Ok(Some(small)) = parts.small(alloc) {
            *self = Row::small(*level, small);
        }
    }
}

/// A row refuses what its parts refuse.
impl Narrow for Row {
    ghost use Rattle.cue_row.specs.Row.{RefusesAsked, IsRow};
    ghost use Rattle.cue_row.specs.RowLaws.{same_rows};

    type Question = Question;

    ghost refuses = { RefusesAsked };

    ghost is_value = { IsRow };

    ghost exact = { same_rows };

    fn free(_alloc: Global) -> Result<Row, Memory> {
        Ok(Row::of_anything(Level::Optional))
    }

    #[inline(always)]
    fn is_free(&self) -> bool {
        match &self.form {
            RowForm::Small(level, small) => level.same(Level::Optional) && small.is_anything(),
            RowForm::Whole(level, parts) => parts.is_free_at(*level),
        }
    }

    fn meet(&self, alloc: Global, other: &Row) -> Result<Row, Memory> {
        match self.narrowed_by(alloc, other.copy(alloc)?)? {
            Narrowed::Unchanged => self.copy(alloc),
            Narrowed::To(met) => Ok(met),
        }
    }

    fn narrowed_by(&self, alloc: Global, other: Row) -> Result<Narrowed<Row>, Memory> {
        let level = self.level().greater(other.level());
        if self.covers(&other) {
            return self.raise_to(alloc, level);
        }
        if other.covers(self) {
            return Ok(Narrowed::To(other.at_level(level)));
        }
        let met = match self.meet_small(alloc, &other)? {
            Some(met) => met,
            None => self.meet_parts(alloc, other)?,
        };
        if met.same(self) {
            return Ok(Narrowed::Unchanged);
        }
        Ok(Narrowed::To(met))
    }

    fn narrow(&mut self, alloc: Global, other: Row) -> Result<(), Memory> {
        let level = self.level().greater(other.level());
        if self.covers(&other) {
            self.set_level(level);
            return Ok(());
        }
        if other.covers(self) {
            *self = other.at_level(level);
            return Ok(());
        }
        if let RowForm::Whole(level, parts) = &mut self.form {
            if let Some(parts) = Rc::get_mut(parts) {
                let other = other.into_parts(alloc)?;
                parts.level = *level;
                parts.narrow(alloc, other)?;
                *level = parts.level;
                self.shrink(alloc);
                return Ok(());
            }
        }
        if let Narrowed::To(met) = self.narrowed_by(alloc, other)? {
            *self = met;
        }
        Ok(())
    }

    fn same(&self, other: &Row) -> bool {
        if self.is_alike(other) {
            return true;
        }
        self.level().same(other.level())
            && self.struct_ok() == other.struct_ok()
            && self.list_ok() == other.list_ok()
            && self.least() == other.least()
            && self.most() == other.most()
            && self.value().same(&other.value())
            && self.usual().same(&other.usual())
            && same_labels(self.labels(), other.labels())
    }

    fn copy(&self, alloc: Global) -> Result<Row, Memory> {
        match &self.form {
            RowForm::Small(level, small) => Ok(Row::small(*level, small.copy(alloc)?)),
            RowForm::Whole(level, parts) => Ok(Row {
                form: RowForm::Whole(*level, Rc::clone(parts)?),
            }),
        }
    }

    fn known(&self) {
        match &self.form {
            RowForm::Small(_, _) => {}
            RowForm::Whole(_, parts) => parts.known(),
        }
    }
}

/// Whether both allow the same labels.
fn same_labels(left: Option<&[Text]>, right: Option<&[Text]>) -> bool
    ensures { IsTrue result ↔ (option_map (λ labels. labels.now) left.entry
        ≡ option_map (λ labels. labels.now) right.entry) }
{
    match (left, right) {
        (None, None) => true,
        (Some(left), Some(right)) => are_same(left, right),
        _ => false,
    }
}
