ghost use Rattle.std.specs.Prelude.{◌≡◌, ◌↔◌, ◌<◌, [], true, false, not, ◌&&◌, ◌||◌, IfOk, IfSome};
ghost use Rattle.std.specs.Prelude.{IfNone, IsTrue, Ok, Some, None, length};
ghost use Rattle.std.specs.List.{list_all, list_any};
ghost use Rattle.std.specs.Result.{IsOk};
ghost use Rattle.cue_lattice.specs.declared.scalar.Scalar.{Scalar};
ghost use Rattle.cue_lattice.specs.declared.scalar.Scalar.TheVariants as scalars;
ghost use Rattle.cue_scalars.specs.Scalars.{members, kind, IsOnlyScalar, IsFirstScalar};
ghost use Rattle.cue_scalars.specs.Inner.Scalars.{only_of};
ghost use Rattle.cue_scalars.specs.Scalars.{IsScalarsWithin};
ghost use Rattle.cue_scalars.specs.Changes.{IsScalarChanged, UnifiesScalars};

use crate::ScalarChange;
use cue_lattice::{Memory, Narrow, Narrowed, Scalar, Text};
use cue_sets::{IntSet, TextSet};
use std::alloc::Global;

/// A set of scalars.
#[derive(Debug, Drop)]
pub struct ScalarSet {
    pub null: bool,
    /// Whether false is a member.
    pub no: bool,
    /// Whether true is a member.
    pub yes: bool,
    pub ints: IntSet,
    pub texts: TextSet,
}

impl ScalarSet {
    /// No scalar. This takes no memory.
    pub fn empty(alloc: Global) -> ScalarSet
        ensures { (scalar : Scalar) → members result scalar ≡ false }
    {
        ScalarSet {
            null: false,
            no: false,
            yes: false,
            ints: IntSet::empty(alloc),
            texts: TextSet::none(alloc),
        }
    }

    /// Whether a scalar is a member.
    pub fn contains(&self, scalar: &Scalar) -> bool
        ensures { result ≡ members self.now scalar.now }
    {
        match scalar {
            Scalar::Null => self.null,
            Scalar::Bool(false) => self.no,
            Scalar::Bool(true) => self.yes,
            Scalar::Int(number) => self.ints.contains(*number),
            Scalar::Text(text) => self.texts.contains(text.as_str()),
        }
    }

    /// Whether there is no member.
    pub fn is_empty(&self) -> bool
        ensures { IsTrue result ↔ ((scalar : Scalar) → members self.now scalar ≡ false) }
    {
        self.ints.known();
        if self.has_plain() {
            return false;
        }
        if !self.ints.is_empty() {
            return false;
        }
        self.texts.is_empty()
    }

    /// The members of both sets.
    pub fn meet(&self, alloc: Global, other: &ScalarSet) -> Result<ScalarSet, Memory>
        ensures { IfOk result (λ met. (scalar : Scalar) →
            members met scalar ≡ (members self.now scalar && members other.now scalar)) }
    {
        Ok(ScalarSet {
            null: self.null && other.null,
            no: self.no && other.no,
            yes: self.yes && other.yes,
            ints: self.ints.meet(alloc, &other.ints)?,
            texts: self.texts.meet(alloc, &other.texts)?,
        })
    }

    /// The members of either set.
    pub fn union(&self, alloc: Global, other: &ScalarSet) -> Result<ScalarSet, Memory>
        ensures { IfOk result (λ all. (scalar : Scalar) →
            members all scalar ≡ (members self.now scalar || members other.now scalar)) }
    {
        Ok(ScalarSet {
            null: self.null || other.null,
            no: self.no || other.no,
            yes: self.yes || other.yes,
            ints: self.ints.union(alloc, &other.ints)?,
            texts: self.texts.union(alloc, &other.texts)?,
        })
    }

    /// The members of both sets, whose texts are moved and not copied.
    pub fn into_meet(self, alloc: Global, other: ScalarSet) -> Result<ScalarSet, Memory>
        ensures { IfOk result (λ met. (scalar : Scalar) →
            members met scalar ≡ (members self scalar && members other scalar)) }
    {
        Ok(ScalarSet {
            null: self.null && other.null,
            no: self.no && other.no,
            yes: self.yes && other.yes,
            ints: self.ints.meet(alloc, &other.ints)?,
            texts: self.texts.into_meet(alloc, other.texts)?,
        })
    }

    /// The members of either set, whose pieces and texts are moved where that serves.
    pub fn into_union(self, alloc: Global, other: ScalarSet) -> Result<ScalarSet, Memory>
        ensures { IfOk result (λ all. (scalar : Scalar) →
            members all scalar ≡ (members self scalar || members other scalar)) }
    {
        Ok(ScalarSet {
            null: self.null || other.null,
            no: self.no || other.no,
            yes: self.yes || other.yes,
            ints: self.ints.into_union(alloc, other.ints)?,
            texts: self.texts.into_union(alloc, other.texts)?,
        })
    }

    /// The members of one or more of these sets, which are taken over.
    pub fn union_all(alloc: Global, sets: Vec<ScalarSet>) -> Result<ScalarSet, Memory>
        ensures { IfOk result (λ all. (scalar : Scalar) →
            members all scalar ≡ list_any (λ set. members set scalar) sets.items) }
    {
        let mut ints = Vec::with_capacity(alloc, sets.len())?;
        let mut texts = Vec::with_capacity(alloc, sets.len())?;
        let (mut null, mut no, mut yes) = (false, false, false);
        for set in sets {
            null = null || set.null;
            no = no || set.no;
            yes = yes || set.yes;
            ints.push(set.ints)?;
            texts.push(set.texts)?;
        }
        Ok(ScalarSet {
            null,
            no,
            yes,
            ints: IntSet::union_all(alloc, ints)?,
            texts: TextSet::union_all(alloc, texts)?,
        })
    }

    /// The members of all of these sets, which are taken over.
    pub fn meet_all(alloc: Global, sets: Vec<ScalarSet>) -> Result<ScalarSet, Memory>
        requires { 0 < length sets.items }
        ensures { IfOk result (λ met. (scalar : Scalar) →
            members met scalar ≡ list_all (λ set. members set scalar) sets.items) }
    {
        let mut ints = Vec::with_capacity(alloc, sets.len())?;
        let mut texts = Vec::with_capacity(alloc, sets.len())?;
        let (mut null, mut no, mut yes) = (true, true, true);
        for set in sets {
            null = null && set.null;
            no = no && set.no;
            yes = yes && set.yes;
            ints.push(set.ints)?;
            texts.push(set.texts)?;
        }
        Ok(ScalarSet {
            null,
            no,
            yes,
            ints: IntSet::meet_all(alloc, ints)?,
            texts: TextSet::meet_all(alloc, texts)?,
        })
    }

    /// The members of this set that the other lacks.
    pub fn without(&self, alloc: Global, other: &ScalarSet) -> Result<ScalarSet, Memory>
        ensures { IfOk result (λ rest. (scalar : Scalar) →
            members rest scalar ≡ (members self.now scalar && not (members other.now scalar))) }
    {
        Ok(ScalarSet {
            null: self.null && !other.null,
            no: self.no && !other.no,
            yes: self.yes && !other.yes,
            ints: self.ints.without(alloc, &other.ints)?,
            texts: self.texts.without(alloc, &other.texts)?,
        })
    }

    /// The only member, where there is one. This takes memory only for a text.
    pub fn single(&self, alloc: Global) -> Result<Option<Scalar>, Memory>
        ensures given { self.now.texts ≡ (false, []) → IsOk result }
        ensures some { IfOk result (λ found. IfSome found (IsOnlyScalar self.now)) }
        ensures none { IfOk result (λ found. IfNone found
            ((scalar : Scalar) → ¬ IsOnlyScalar self.now scalar)) }
    {
        self.ints.known();
        if !self.texts.is_empty() {
            if self.has_plain() {
                return Ok(None);
            }
            if !self.ints.is_empty() {
                return Ok(None);
            }
            return match self.texts.single() {
                None => Ok(None),
                Some(text) => Ok(Some(Scalar::Text(Text::from_str(alloc, text)?))),
            };
        }
        if !self.ints.is_empty() {
            if self.has_plain() {
                return Ok(None);
            }
            return match self.ints.single() {
                None => Ok(None),
                Some(number) => Ok(Some(Scalar::Int(number))),
            };
        }
        Ok(only_plain(self.null, self.no, self.yes))
    }

    /// The first member, where there is one: in the order null, false, true, integers upwards,
    /// texts by their bytes. This takes memory only where all members are texts.
    pub fn first(&self, alloc: Global) -> Result<Option<Scalar>, Memory>
        ensures given { (scalar : Scalar) → members self.now scalar ≡ true → kind scalar < 4 →
            IsOk result }
        ensures some { IfOk result (λ found. IfSome found (IsFirstScalar self.now)) }
        ensures none { IfOk result (λ found. IfNone found
            ((scalar : Scalar) → members self.now scalar ≡ false)) }
    {
        if self.null {
            return Ok(Some(Scalar::Null));
        }
        if self.no {
            return Ok(Some(Scalar::Bool(false)));
        }
        if self.yes {
            return Ok(Some(Scalar::Bool(true)));
        }
        if let Some(number) = self.ints.first() {
            return Ok(Some(Scalar::Int(number)));
        }
        match self.texts.first(alloc)? {
            None => Ok(None),
            Some(text) => Ok(Some(Scalar::Text(text))),
        }
    }

    /// Whether each member is one of the other set too. This takes no memory.
    pub fn is_within(&self, other: &ScalarSet) -> bool
        ensures { IsTrue result ↔ IsScalarsWithin self.now other.now }
    {
        if !self.is_plain_within(other) {
            return false;
        }
        if !self.ints.is_within(&other.ints) {
            return false;
        }
        self.texts.is_within(&other.texts)
    }

    /// What becomes of this set where the other one is unified into it.
    pub fn change_by(&self, alloc: Global, other: ScalarSet) -> Result<ScalarChange, Memory>
        ensures { IfOk result (λ change. UnifiesScalars change self.now other) }
    {
        let ScalarSet {
            null,
            no,
            yes,
            ints,
            texts,
        } = other;
        Ok(ScalarChange {
            null: both(self.null, null),
            no: both(self.no, no),
            yes: both(self.yes, yes),
            ints: self.ints.narrowed_by(alloc, ints)?,
            texts: self.texts.change_by(alloc, texts)?,
        })
    }

    /// Changes the set where it stands. This takes no memory.
    pub fn apply(&mut self, change: ScalarChange)
        ensures { IsScalarChanged change self.old self.new }
    {
        let ScalarChange {
            null,
            no,
            yes,
            ints,
            texts,
        } = change;
        self.null = null;
        self.no = no;
        self.yes = yes;
        ints.put_into(&mut self.ints);
        self.texts.apply(texts);
    }

    /// Whether null and the truth values that are members are members of the other set too.
    fn is_plain_within(&self, other: &ScalarSet) -> bool
        ensures { result ≡ ((not self.now.null || other.now.null)
            && (not self.now.no || other.now.no)
            && (not self.now.yes || other.now.yes)) }
    {
        (!self.null || other.null) && (!self.no || other.no) && (!self.yes || other.yes)
    }

    /// Whether null or a truth value is a member.
    fn has_plain(&self) -> bool
        ensures { result ≡ (self.now.null || self.now.no || self.now.yes) }
    {
        self.null || self.no || self.yes
    }

    /// Whether null and both truth values are members.
    fn has_all_plain(&self) -> bool
        ensures { result ≡ (self.now.null && self.now.no && self.now.yes) }
    {
        self.null && self.no && self.yes
    }
}

/// Whether both are true.
fn both(left: bool, right: bool) -> bool
    ensures { result ≡ (left && right) }
{
    left && right
}

/// The only one of null, false and true, where it is one.
fn only_plain(null: bool, no: bool, yes: bool) -> Option<Scalar>
    ensures { result ≡ only_of null no yes }
{
    match (null, no, yes) {
        (true, false, false) => Some(Scalar::Null),
        (false, true, false) => Some(Scalar::Bool(false)),
        (false, false, true) => Some(Scalar::Bool(true)),
        _ => None,
    }
}

/// A set refuses the scalars that are no members, and no number outside the 64-bit range.
impl Narrow for ScalarSet {
    ghost use Rattle.std.specs.Prelude.{◌≡◌, ◌↔◌};
    ghost use Rattle.cue_scalars.specs.Scalars.{RefusesScalar, IsScalarSet};
    ghost use Rattle.cue_scalars.specs.ScalarLaws.{same_scalars};

    type Question = Scalar;

    ghost refuses = { RefusesScalar };

    ghost is_value = { IsScalarSet };

    ghost exact = { same_scalars };

    fn free(alloc: Global) -> Result<ScalarSet, Memory> {
        Ok(ScalarSet {
            null: true,
            no: true,
            yes: true,
            ints: IntSet::full(),
            texts: TextSet::all(alloc),
        })
    }

    fn is_free(&self) -> bool {
        if !self.has_all_plain() {
            return false;
        }
        if !self.ints.is_free() {
            return false;
        }
        self.texts.is_free()
    }

    fn meet(&self, alloc: Global, other: &ScalarSet) -> Result<ScalarSet, Memory> {
        Ok(ScalarSet {
            null: self.null && other.null,
            no: self.no && other.no,
            yes: self.yes && other.yes,
            ints: Narrow::meet(&self.ints, alloc, &other.ints)?,
            texts: Narrow::meet(&self.texts, alloc, &other.texts)?,
        })
    }

    fn narrowed_by(&self, alloc: Global, other: ScalarSet) -> Result<Narrowed<ScalarSet>, Memory> {
        let stays = self.is_plain_within(&other);
        let ScalarSet {
            null,
            no,
            yes,
            ints,
            texts,
        } = other;
        let ints = self.ints.narrowed_by(alloc, ints)?;
        let texts = self.texts.narrowed_by(alloc, texts)?;
        if stays && ints.is_unchanged() && texts.is_unchanged() {
            return Ok(Narrowed::Unchanged);
        }
        Ok(Narrowed::To(ScalarSet {
            null: self.null && null,
            no: self.no && no,
            yes: self.yes && yes,
            ints: ints.or_copy(alloc, &self.ints)?,
            texts: texts.or_copy(alloc, &self.texts)?,
        }))
    }

    fn narrow(&mut self, alloc: Global, other: ScalarSet) -> Result<(), Memory> {
        let change = self.change_by(alloc, other)?;
        self.apply(change);
        Ok(())
    }

    fn same(&self, other: &ScalarSet) -> bool {
        self.null == other.null
            && self.no == other.no
            && self.yes == other.yes
            && self.ints.same(&other.ints)
            && self.texts.same(&other.texts)
    }

    fn copy(&self, alloc: Global) -> Result<ScalarSet, Memory> {
        Ok(ScalarSet {
            null: self.null,
            no: self.no,
            yes: self.yes,
            ints: self.ints.copy(alloc)?,
            texts: self.texts.copy(alloc)?,
        })
    }

    fn known(&self) {
        self.ints.known();
        self.texts.known();
    }
}
