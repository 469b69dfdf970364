ghost use Rattle.std.specs.Prelude.{◌≡◌, ◌↔◌, ◌⊎◌, ◌&&◌, ℕ, IfOk, IfSome, IsTrue, OnOk, OnErr};
ghost use Rattle.cue_row.specs.Lengths.{RefusesLength};

use crate::small::Small;
use crate::{LabelSet, Level};
use cue_lattice::{Memory, Narrow};
use cue_scalars::ScalarSet;
use std::alloc::Global;

/// What is known of one place of a configuration, part by part. Contracts see a [`Row`](crate::Row)
/// as its parts. They refuse questions, and unification refuses what one side refuses.
#[derive(Debug, Drop)]
pub struct RowParts {
    pub level: Level,
    /// Which scalars may stand.
    pub value: ScalarSet,
    /// Of which scalars a default is chosen.
    pub usual: ScalarSet,
    /// Whether a struct may stand.
    pub struct_ok: bool,
    /// Whether a list may stand.
    pub list_ok: bool,
    /// Which labels may stand directly below.
    pub labels: LabelSet,
    /// The least length of a list.
    pub least: u32,
    /// The greatest length of a list, where there is one.
    pub most: Option<u32>,
}

impl RowParts {
    ghost use Rattle.cue_row.specs.declared.question.Question.{Question as Questions};
    ghost use Rattle.cue_row.specs.Made.{at_level};
    ghost use Rattle.cue_row.specs.Row.{RefusesAsked, IsMetRow, IsRow};

    /// The parts that refuse nothing.
    pub fn free(alloc: Global) -> RowParts
        ensures { (question : Questions) → ¬ RefusesAsked result question }
    {
        RowParts::of_anything(alloc, Level::Optional)
    }

    /// Unifies others into these, which then refuse what one of both did. After want of memory they
    /// are as they were.
    pub(crate) fn narrow(&mut self, alloc: Global, other: RowParts) -> Result<(), Memory>
        ensures ok { OnOk result (IsMetRow self.old other self.new) }
        ensures err { OnErr result (self.new ≡ self.old) }
    {
        let value = self.value.change_by(alloc, other.value)?;
        let usual = self.usual.change_by(alloc, other.usual)?;
        let labels = self.labels.narrowed_by(alloc, other.labels)?;
        self.level = self.level.greater(other.level);
        self.value.apply(value);
        self.usual.apply(usual);
        self.struct_ok = both(self.struct_ok, other.struct_ok);
        self.list_ok = both(self.list_ok, other.list_ok);
        labels.put_into(&mut self.labels);
        self.least = self.least.max(other.least);
        self.most = least_length(self.most, other.most);
        Ok(())
    }

    /// What these become at this level where others are unified into them. They stay as they are.
    pub(crate) fn meet_at(
        &self,
        alloc: Global,
        level: Level,
        other: RowParts,
    ) -> Result<RowParts, Memory>
        ensures { IfOk result (IsMetRow (at_level level self.now) other) }
    {
        let value = self.value.narrowed_by(alloc, other.value)?;
        let usual = self.usual.narrowed_by(alloc, other.usual)?;
        let labels = self.labels.narrowed_by(alloc, other.labels)?;
        Ok(RowParts {
            level: level.greater(other.level),
            value: value.or_copy(alloc, &self.value)?,
            usual: usual.or_copy(alloc, &self.usual)?,
            struct_ok: both(self.struct_ok, other.struct_ok),
            list_ok: both(self.list_ok, other.list_ok),
            labels: labels.or_copy(alloc, &self.labels)?,
            least: self.least.max(other.least),
            most: least_length(self.most, other.most),
        })
    }

    /// The same parts once more.
    pub(crate) fn copy(&self, alloc: Global) -> Result<RowParts, Memory>
        ensures { IfOk result (λ copied. copied ≡ self.now) }
    {
        Ok(RowParts {
            level: self.level,
            value: self.value.copy(alloc)?,
            usual: self.usual.copy(alloc)?,
            struct_ok: self.struct_ok,
            list_ok: self.list_ok,
            labels: self.labels.copy(alloc)?,
            least: self.least,
            most: self.most,
        })
    }

    /// Sets and labels are kept in their one form.
    pub(crate) fn known(&self)
        ensures { IsRow self.now }
    {
        self.value.known();
        self.usual.known();
        self.labels.known();
    }
}

impl RowParts {
    ghost use Rattle.cue_row.specs.declared.level.Level.{Level as Levels};
    ghost use Rattle.cue_row.specs.declared.question.Question.{Question as Questions};
    ghost use Rattle.cue_row.specs.Kept.{small_parts, IsSmallRow};
    ghost use Rattle.cue_row.specs.Made.{at_level};
    ghost use Rattle.cue_row.specs.Row.{RefusesAsked};

    /// The small row of these parts, beside their level, where there is one.
    pub(crate) fn small(&self, alloc: Global) -> Result<Option<Small>, Memory>
        ensures parts { IfOk result (λ found. IfSome found
            (λ small. self.now ≡ small_parts self.now.level small)) }
        ensures small { IfOk result (λ found. IfSome found IsSmallRow) }
    {
        self.value.known();
        self.usual.known();
        if self.labels.listed().is_some() || self.least > 0 || self.most.is_some() {
            return Ok(None);
        }
        match (self.struct_ok, self.list_ok) {
            (true, true) if self.value.is_free() && self.usual.is_free() => Ok(Some(
                Small::Anything,
            )),
            (true, false) if self.value.is_empty() && self.usual.is_empty() => Ok(Some(
                Small::Struct,
            )),
            (false, false) => match Small::of_scalars(alloc, &self.value)? {
                Some(small) if self.value.same(&self.usual) => Ok(Some(small)),
                _ => Ok(None),
            },
            _ => Ok(None),
        }
    }

    ghost use Rattle.cue_row.specs.Inner.Forms.{AllowsAllForms, IsFormWithin};

    /// The same parts, of this level.
    pub(crate) fn at_level(mut self, level: Level) -> RowParts
        ensures { result ≡ at_level level self }
    {
        self.level = level;
        self
    }

    /// Whether they refuse nothing at this level.
    pub(crate) fn is_free_at(&self, level: Level) -> bool
        ensures { IsTrue result
            ↔ ((question : Questions) → ¬ RefusesAsked (at_level level self.now) question) }
    {
        if !self.allows_all_forms(level) {
            return false;
        }
        if !self.value.is_free() {
            return false;
        }
        if !self.usual.is_free() {
            return false;
        }
        self.labels.is_free()
    }

    /// Whether the row refuses nothing but scalars and labels at this level.
    fn allows_all_forms(&self, level: Level) -> bool
        ensures { IsTrue result ↔ AllowsAllForms (at_level level self.now) }
    {
        level == Level::Optional
            && self.struct_ok
            && self.list_ok
            && self.least == 0
            && self.most.is_none()
    }

    /// Whether this row refuses at this level what the other refuses of levels, structs, lists and
    /// lengths.
    pub(crate) fn is_form_within(&self, level: Level, other: &RowParts) -> bool
        ensures { IsTrue result → IsFormWithin (at_level level self.now) other.now }
    {
        if other.level.number() > level.number() || other.least > self.least {
            return false;
        }
        if self.struct_ok && !other.struct_ok || self.list_ok && !other.list_ok {
            return false;
        }
        match (self.most, other.most) {
            (_, None) => true,
            (None, Some(_)) => false,
            (Some(most), Some(other)) => most <= other,
        }
    }
}

/// Whether both are true.
fn both(left: bool, right: bool) -> bool
    ensures { result ≡ (left && right) }
{
    left && right
}

/// The smaller of two greatest lengths, where there is one.
fn least_length(left: Option<u32>, right: Option<u32>) -> Option<u32>
    ensures { (n : ℕ) → RefusesLength result n ↔ (RefusesLength left n ⊎ RefusesLength right n) }
{
    match (left, right) {
        (None, most) | (most, None) => most,
        (Some(left), Some(right)) => Some(left.min(right)),
    }
}
