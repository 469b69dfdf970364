ghost use Rattle.std.specs.Prelude.{◌≡◌, ◌↔◌, ◌&&◌, false, not, IfOk, IfSome, IfNone, IsTrue};
ghost use Rattle.cue_lattice.specs.declared.scalar.Scalar.{Scalar as Scalars};
ghost use Rattle.cue_row.specs.declared.kind.RowKind.{RowKind as Kinds};
ghost use Rattle.cue_row.specs.Chosen.{IsRowChosen};
ghost use Rattle.cue_row.specs.Kinds.{IsEmptySet, IsFullSet, IsRowKind};
ghost use Rattle.cue_row.specs.declared.small.Small.TheVariants.{Anything};
ghost use Rattle.cue_scalars.specs.Scalars.{members, IsFirstScalar};

use crate::row::RowForm;
use crate::small::Small;
use crate::{Row, RowParts};
use cue_lattice::{Memory, Scalar};
use cue_scalars::ScalarSet;
use std::alloc::Global;

/// What may stand at a place.
#[derive(Clone, Copy, Debug, PartialEq, Eq)]
pub enum RowKind {
    /// Anything.
    Free,
    /// Some scalar, and nothing else.
    Scalar,
    /// A struct alone.
    Struct,
    /// A list alone.
    List,
    /// Nothing.
    Nothing,
}

impl Row {
    /// What may stand at the place. Each row of a valid table has a kind; a row that lets two kinds
    /// of things stand, but not all, has none.
    #[inline(always)]
    pub fn kind(&self) -> Option<RowKind>
        ensures some { IfSome result (IsRowKind self.now) }
        ensures none { IfNone result ((kind : Kinds) → ¬ IsRowKind self.now kind) }
    {
        match (self.struct_ok(), self.list_ok()) {
            (true, true) => {
                if self.has_all_scalars() {
                    return Some(RowKind::Free);
                }
                None
            }
            (true, false) => {
                if self.has_no_scalar() {
                    return Some(RowKind::Struct);
                }
                None
            }
            (false, true) => {
                if self.has_no_scalar() {
                    return Some(RowKind::List);
                }
                None
            }
            (false, false) => {
                if self.has_no_scalar() {
                    return Some(RowKind::Nothing);
                }
                Some(RowKind::Scalar)
            }
        }
    }

    /// The chosen scalar: the only usual one, or, where no scalar is usual, the only one that may
    /// stand. This takes memory only for a text.
    pub fn chosen(&self, alloc: Global) -> Result<Option<Scalar>, Memory>
        ensures some { IfOk result (λ found. IfSome found (IsRowChosen self.now)) }
        ensures none { IfOk result (λ found. IfNone found
            ((scalar : Scalars) → ¬ IsRowChosen self.now scalar)) }
    {
        match &self.form {
            RowForm::Small(_, Small::Integers((first, last))) if first == last => {
                Ok(Some(Scalar::Int(*first)))
            }
            RowForm::Small(_, Small::Text(text)) => Ok(Some(Scalar::Text(text.copy(alloc)?))),
            RowForm::Small(level, small) => small.parts(alloc, *level)?.chosen(alloc),
            RowForm::Whole(_, parts) => parts.chosen(alloc),
        }
    }

    /// The first scalar that may stand, where there is one: in the order null, false, true,
    /// integers upwards, texts by their bytes. This takes memory only for a text.
    pub fn first_scalar(&self, alloc: Global) -> Result<Option<Scalar>, Memory>
        ensures some { IfOk result (λ found. IfSome found (IsFirstScalar self.now.value)) }
        ensures none { IfOk result (λ found. IfNone found
            ((scalar : Scalars) → members self.now.value scalar ≡ false)) }
    {
        match &self.form {
            RowForm::Small(level, small) => small.parts(alloc, *level)?.value.first(alloc),
            RowForm::Whole(_, parts) => parts.value.first(alloc),
        }
    }

    /// The scalars that may stand and are not usual.
    pub fn without_usual(&self, alloc: Global) -> Result<ScalarSet, Memory>
        ensures { IfOk result (λ set. (scalar : Scalars) → members set scalar
            ≡ (members self.now.value scalar && not (members self.now.usual scalar))) }
    {
        match &self.form {
            RowForm::Small(_, _) => Ok(ScalarSet::empty(alloc)),
            RowForm::Whole(_, parts) => parts.value.without(alloc, &parts.usual),
        }
    }

    /// Whether no scalar may stand.
    pub fn has_no_scalar(&self) -> bool
        ensures { IsTrue result ↔ IsEmptySet self.now.value }
    {
        self.value().is_empty()
    }

    /// Whether each scalar may stand.
    pub fn has_all_scalars(&self) -> bool
        ensures { IsTrue result ↔ IsFullSet self.now.value }
    {
        self.value().is_full()
    }
}

impl Small {
    /// Whether anything may stand.
    pub(crate) fn is_anything(&self) -> bool
        ensures { IsTrue result ↔ (self.now ≡ Anything) }
    {
        matches!(self, Small::Anything)
    }
}

impl RowParts {
    /// The chosen scalar.
    pub(crate) fn chosen(&self, alloc: Global) -> Result<Option<Scalar>, Memory>
        ensures some { IfOk result (λ found. IfSome found (IsRowChosen self.now)) }
        ensures none { IfOk result (λ found. IfNone found
            ((scalar : Scalars) → ¬ IsRowChosen self.now scalar)) }
    {
        if self.usual.is_empty() {
            return self.value.single(alloc);
        }
        self.usual.single(alloc)
    }
}
