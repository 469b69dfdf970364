ghost use Rattle.std.specs.Prelude.{◌≡◌, ℤ, ◌≤ℤ◌, ◌↔◌, ◌++◌, ◌&&◌, ◌||◌, not};
ghost use Rattle.std.specs.Prelude.{true, [], ◌∷◌, IfOk, IfSome, IfNone, Some, None};
ghost use Rattle.std.specs.Prelude.{IsTrue, ◌<◌, length};
ghost use Rattle.std.specs.Ordering.{int_eq};
ghost use Rattle.std.specs.List.{All, list_all, list_any};
ghost use Rattle.cue_sets.specs.Pieces.{is_member, is_int64, IsCanonical, IsFirstMember};
ghost use Rattle.cue_sets.specs.Pieces.{IsOnlyMember, least, greatest};
ghost use Rattle.cue_sets.specs.Inner.Combination.{combination_keeps};
ghost use Rattle.cue_sets.specs.Inner.Gaps.{pieces_lack};
ghost use Rattle.cue_sets.specs.Inner.Sorted.{IsPiece};

use crate::combination::Combination;
use crate::gaps::put_gaps;
use crate::kept::PieceList;
use crate::pieces::{combine, has, is_before, is_canonical, is_within};
use crate::uniting::unite;
use cue_lattice::{Memory, Narrow, Narrowed};
use std::alloc::Global;
use std::marker::Model;

/// A set of integers of 64 bits.
///
/// It is kept as pieces from a first to a last number, both included, which ascend and neither
/// overlap nor touch. So sets with equal members are equal values. A set of one piece, such as all
/// integers, one integer or all up to one, takes no memory besides the value itself.
#[derive(Debug)]
pub struct IntSet {
    pieces: PieceList,
}

impl Model for IntSet {
    ghost use Rattle.std.specs.Prelude.{List, ℤ};
    ghost use Rattle.cue_sets.specs.Kept.{pieces_of_set};
    ghost use Rattle.cue_sets.specs.Pieces.{IsCanonical};

    ghost Value = { List (ℤ × ℤ) };

    ghost view = { λ set. pieces_of_set set.pieces };

    ghost invariant = { λ set. IsCanonical (pieces_of_set set.pieces) };
}

impl IntSet {
    /// All integers of 64 bits. This takes no memory.
    pub fn full() -> IntSet
        ensures { result ≡ (least, greatest) ∷ [] }
    {
        IntSet::between(i64::MIN, i64::MAX)
    }

    /// No integer. This takes no memory.
    pub fn empty(alloc: Global) -> IntSet
        ensures { result ≡ [] }
    {
        IntSet {
            pieces: PieceList::none(alloc),
        }
    }

    /// One integer. This takes no memory.
    pub fn one(number: i64) -> IntSet
        ensures { result ≡ (number, number) ∷ [] }
    {
        IntSet::between(number, number)
    }

    /// The integers from a number upwards, with that number. This takes no memory.
    pub fn at_least(number: i64) -> IntSet
        ensures { result ≡ (number, greatest) ∷ [] }
    {
        IntSet::between(number, i64::MAX)
    }

    /// The integers up to a number, with that number. This takes no memory.
    pub fn at_most(number: i64) -> IntSet
        ensures { result ≡ (least, number) ∷ [] }
    {
        IntSet::between(i64::MIN, number)
    }

    /// The integers from `first` to `last`, with both. This takes no memory.
    pub fn between(first: i64, last: i64) -> IntSet
        requires { first ≤ℤ last }
        ensures { result ≡ (first, last) ∷ [] }
    {
        IntSet {
            pieces: PieceList::one(first, last),
        }
    }

    /// All integers of 64 bits but one.
    pub fn but(alloc: Global, number: i64) -> Result<IntSet, Memory>
        ensures { IfOk result (λ set. (n : ℤ) →
            is_member set n ≡ (is_int64 n && not (int_eq n number))) }
    {
        match number {
            i64::MIN => Ok(IntSet::at_least(i64::MIN + 1)),
            i64::MAX => Ok(IntSet::at_most(i64::MAX - 1)),
            _ => {
                let mut pieces = Vec::with_capacity(alloc, 2)?;
                pieces.push((i64::MIN, number - 1))?;
                pieces.push((number + 1, i64::MAX))?;
                Ok(IntSet {
                    pieces: PieceList::Many(pieces),
                })
            }
        }
    }

    /// Whether a number is a member. This is a binary search.
    pub fn contains(&self, number: i64) -> bool
        ensures { result ≡ is_member self.now number }
    {
        has(self.pieces.as_slice(), number)
    }

    /// Whether there is no member.
    pub fn is_empty(&self) -> bool
        ensures { IsTrue result ↔ (self.now ≡ []) }
    {
        self.pieces.as_slice().is_empty()
    }

    /// The members of both sets. Of two sets of one piece this takes no memory.
    pub fn meet(&self, alloc: Global, other: &IntSet) -> Result<IntSet, Memory>
        ensures { IfOk result (λ met. (n : ℤ) →
            is_member met n ≡ (is_member self.now n && is_member other.now n)) }
    {
        if let (Some(left), Some(right)) = (
            self.pieces.single_piece(),
            other.pieces.single_piece(),
        ) {
            return Ok(IntSet {
                pieces: PieceList::intersect(alloc, left, right),
            });
        }
        self.combine_with(alloc, Combination::Meet, other)
    }

    /// The members of either set.
    pub fn union(&self, alloc: Global, other: &IntSet) -> Result<IntSet, Memory>
        ensures { IfOk result (λ all. (n : ℤ) →
            is_member all n ≡ (is_member self.now n || is_member other.now n)) }
    {
        self.combine_with(alloc, Combination::Union, other)
    }

    /// The members of either set, which are taken over. Where this set ends before the other
    /// begins, the pieces of the other are put at its end.
    pub fn into_union(self, alloc: Global, other: IntSet) -> Result<IntSet, Memory>
        ensures { IfOk result (λ all. (n : ℤ) →
            is_member all n ≡ (is_member self n || is_member other n)) }
    {
        if other.is_empty() {
            return Ok(self);
        }
        if !is_before(self.pieces.as_slice(), other.pieces.as_slice()) {
            return self.union(alloc, &other);
        }
        self.followed_by(alloc, other)
    }

    /// The members of one or more of these sets, which are taken over. The pieces of all are
    /// sorted, and then walked once.
    pub fn union_all(alloc: Global, sets: Vec<IntSet>) -> Result<IntSet, Memory>
        ensures { IfOk result (λ all. (n : ℤ) →
            is_member all n ≡ list_any (λ set. is_member set n) sets.items) }
    {
        IntSet::unite_pieces(alloc, IntSet::gather_pieces(alloc, sets.as_slice())?)
    }

    /// The members of all of these sets, which are taken over. What each set but the first one
    /// leaves out is sorted, and walked once beside the first one.
    pub fn meet_all(alloc: Global, sets: Vec<IntSet>) -> Result<IntSet, Memory>
        requires { 0 < length sets.items }
        ensures { IfOk result (λ met. (n : ℤ) →
            is_member met n ≡ list_all (λ set. is_member set n) sets.items) }
    {
        let Some((first, others)) = sets.as_slice().split_first() else {
            unreachable!()
        };
        first.known();
        let left_out = IntSet::unite_pieces(alloc, IntSet::gaps(alloc, others)?)?;
        first.without(alloc, &left_out)
    }

    /// The members of this set that the other lacks.
    pub fn without(&self, alloc: Global, other: &IntSet) -> Result<IntSet, Memory>
        ensures { IfOk result (λ rest. (n : ℤ) →
            is_member rest n ≡ (is_member self.now n && not (is_member other.now n))) }
    {
        self.combine_with(alloc, Combination::Without, other)
    }

    /// The only member, where there is one.
    pub fn single(&self) -> Option<i64>
        ensures some { IfSome result (IsOnlyMember self.now) }
        ensures none { IfNone result ((n : ℤ) → ¬ IsOnlyMember self.now n) }
    {
        match self.pieces.as_slice() {
            [(first, last)] if *first == *last => Some(*first),
            _ => None,
        }
    }

    /// The least member, where there is one.
    pub fn first(&self) -> Option<i64>
        ensures some { IfSome result (IsFirstMember self.now) }
        ensures none { IfNone result (self.now ≡ []) }
    {
        match self.pieces.as_slice() {
            [] => None,
            [(first, _), ..] => Some(*first),
        }
    }

    /// The pieces: each a first and a last number, ascending, with at least one number left out
    /// between neighbours.
    pub fn pieces(&self) -> &[(i64, i64)]
        ensures list { result.now ≡ self.now }
        ensures canonical { IsCanonical self.now }
    {
        self.pieces.as_slice()
    }

    /// The set of these pieces, each a first and a last number, where they ascend, none is empty,
    /// and between neighbours at least one number is left out. This takes no memory.
    pub fn from_pieces(pieces: Vec<(i64, i64)>) -> Option<IntSet>
        ensures some { IfSome result (λ set. set ≡ pieces.items) }
        ensures none { IfNone result (¬ IsCanonical pieces.items) }
    {
        if !is_canonical(pieces.as_slice()) {
            return None;
        }
        Some(IntSet {
            pieces: PieceList::of(pieces),
        })
    }

    /// Whether each member is one of the other set too. This takes no memory.
    pub fn is_within(&self, other: &IntSet) -> bool
        ensures { IsTrue result ↔ ((n : ℤ) → is_member self.now n ≡ true →
            is_member other.now n ≡ true) }
    {
        if let (Some(left), Some(right)) = (
            self.pieces.single_piece(),
            other.pieces.single_piece(),
        ) {
            return right.0 <= left.0 && left.1 <= right.1;
        }
        is_within(self.pieces.as_slice(), other.pieces.as_slice())
    }

    /// The pieces of all these sets, those of one set after those of another.
    fn gather_pieces(alloc: Global, sets: &[IntSet]) -> Result<Vec<(i64, i64)>, Memory>
        ensures pieces { IfOk result (λ pieces. All IsPiece pieces.items) }
        ensures members { IfOk result (λ pieces. (n : ℤ) →
            is_member pieces.items n ≡ list_any (λ set. is_member set n) sets.now) }
    {
        let mut pieces = Vec::with_capacity(alloc, sets.len())?;
        for set in sets {
            pieces.extend_from_slice(set.pieces())?;
        }
        Ok(pieces)
    }

    /// The integers of 64 bits that one or more of these sets leave out, as pieces.
    fn gaps(alloc: Global, sets: &[IntSet]) -> Result<Vec<(i64, i64)>, Memory>
        ensures pieces { IfOk result (λ gaps. All IsPiece gaps.items) }
        ensures members { IfOk result (λ gaps. (n : ℤ) →
            is_member gaps.items n ≡ list_any (λ set. pieces_lack set n) sets.now) }
    {
        let mut gaps = Vec::with_capacity(alloc, sets.len())?;
        for set in sets {
            put_gaps(&mut gaps, set.pieces())?;
        }
        Ok(gaps)
    }

    /// The numbers that these pieces have. They are sorted, and then walked once.
    fn unite_pieces(alloc: Global, mut pieces: Vec<(i64, i64)>) -> Result<IntSet, Memory>
        requires { All IsPiece pieces.items }
        ensures { IfOk result (λ set. (n : ℤ) → is_member set n ≡ is_member pieces.items n) }
    {
        pieces.sort_unstable_by_key(|piece| piece.0);
        Ok(IntSet {
            pieces: PieceList::of(unite(alloc, pieces.as_slice())?),
        })
    }

    fn combine_with(
        &self,
        alloc: Global,
        how: Combination,
        other: &IntSet,
    ) -> Result<IntSet, Memory>
        ensures { IfOk result (λ set. (n : ℤ) →
            is_member set n ≡ combination_keeps how (is_member self.now n) (is_member other.now n)) }
    {
        let pieces = combine(alloc, how, self.pieces.as_slice(), other.pieces.as_slice())?;
        Ok(IntSet {
            pieces: PieceList::of(pieces),
        })
    }

    /// The members of both sets, where the pieces of the other come after those of this one.
    fn followed_by(self, alloc: Global, other: IntSet) -> Result<IntSet, Memory>
        requires { IsCanonical (self ++ other) }
        ensures { IfOk result (λ all. (n : ℤ) →
            is_member all n ≡ (is_member self n || is_member other n)) }
    {
        let IntSet { pieces } = self;
        let IntSet { pieces: later } = other;
        Ok(IntSet {
            pieces: pieces.followed_by(alloc, later)?,
        })
    }
}

/// A set is dropped by a call, so that nothing outside says how its pieces are kept.
impl Drop for IntSet {
    fn drop(self) {
        let IntSet { pieces: _pieces } = self;
    }
}

/// A set refuses the integers of 64 bits that are no members, and no other number.
impl Narrow for IntSet {
    ghost use Rattle.std.specs.Prelude.{◌≡◌, ℤ, List, ◌↔◌};
    ghost use Rattle.cue_sets.specs.Pieces.{RefusesInteger, IsCanonical};
    ghost use Rattle.cue_sets.specs.PieceLaws.{same_pieces};

    type Question = i64;

    ghost refuses = { RefusesInteger };

    ghost is_value = { IsCanonical };

    ghost exact = { same_pieces };

    fn free(_alloc: Global) -> Result<IntSet, Memory> {
        Ok(IntSet::full())
    }

    fn is_free(&self) -> bool {
        self.pieces.as_slice() == [(i64::MIN, i64::MAX)].as_slice()
    }

    fn meet(&self, alloc: Global, other: &IntSet) -> Result<IntSet, Memory> {
        IntSet::meet(self, alloc, other)
    }

    fn narrowed_by(&self, alloc: Global, other: IntSet) -> Result<Narrowed<IntSet>, Memory> {
        if self.is_within(&other) {
            return Ok(Narrowed::Unchanged);
        }
        if other.is_within(self) {
            return Ok(Narrowed::To(other));
        }
        Ok(Narrowed::To(IntSet::meet(self, alloc, &other)?))
    }

    fn same(&self, other: &IntSet) -> bool {
        self.pieces.as_slice() == other.pieces.as_slice()
    }

    fn copy(&self, alloc: Global) -> Result<IntSet, Memory> {
        Ok(IntSet {
            pieces: self.pieces.copy(alloc)?,
        })
    }

    fn known(&self) {
        let _pieces = &self.pieces;
    }
}
