ghost use Rattle.std.specs.Prelude.{◌≡◌, ◌↔◌, ◌⊎◌, IsTrue, IfOk, OnOk, OnErr};
ghost use Rattle.cue_lattice.specs.Narrowed.{IsNarrowedBy};
ghost use Rattle.cue_lattice.specs.declared.narrow.Narrowed.TheVariants.{Unchanged};
ghost use Rattle.cue_lattice.specs.OneOf.{OneOf};

use crate::Memory;
use std::alloc::Global;

/// What a value becomes that takes another one over.
#[derive(Debug, Drop)]
pub enum Narrowed<N> {
    /// It stays as it is: it refuses all that the other one refuses.
    Unchanged,
    /// It becomes this one, which refuses exactly what one of the two refuses.
    To(N),
}

impl<N: Narrow> Narrowed<N> {
    ghost use Rattle.cue_lattice.specs.Narrowed.{value_after};

    /// The value after it took the other one over. It is copied where it stays as it is.
    pub fn or_copy(self, alloc: Global, before: &N) -> Result<N, Memory>
        ensures { IfOk result (λ value. value ≡ value_after before.now self) }
    {
        match self {
            Narrowed::Unchanged => before.copy(alloc),
            Narrowed::To(met) => Ok(met),
        }
    }

    /// Whether the value stays as it is.
    pub fn is_unchanged(&self) -> bool
        ensures { IsTrue result ↔ (self.now ≡ Unchanged) }
    {
        matches!(self, Narrowed::Unchanged)
    }

    /// Puts the value that it becomes into its place.
    pub fn put_into(self, place: &mut N)
        ensures { place.new ≡ value_after place.old self }
    {
        match self {
            Narrowed::Unchanged => {}
            Narrowed::To(met) => *place = met,
        }
    }
}

/// What may be unified. A value refuses some questions, and unification refuses what one side
/// refuses.
///
/// Values with equal answers are equal: there is one form for each answer.
pub trait Narrow: Sized + Drop {
    /// What a value may be asked. Clauses range over all of its values, and a number in it is a
    /// whole number of any size.
    type Question;

    /// The value refuses the question.
    ghost refuses: { Self → Self.Question → Type 0 };

    /// Holds of the values of the type.
    ghost is_value: { Self → Type 0 };

    /// Refuses nothing.
    fn free(alloc: Global) -> Result<Self, Memory>
        ensures { IfOk result (λ value. (question : Self.Question) → ¬ refuses value question) };

    /// Whether the value refuses nothing.
    fn is_free(&self) -> bool
        ensures { IsTrue result ↔ ((question : Self.Question) → ¬ refuses self.now question) };

    /// The unification: refuses exactly what one side refuses.
    fn meet(&self, alloc: Global, other: &Self) -> Result<Self, Memory>
        ensures { IfOk result (λ met. (question : Self.Question) →
            refuses met question ↔ (refuses self.now question ⊎ refuses other.now question)) };

    /// The unification with a value that is not needed any more: what this one becomes. A side that
    /// the other leaves as it is, is kept or moved, and not made anew.
    fn narrowed_by(&self, alloc: Global, other: Self) -> Result<Narrowed<Self>, Memory>
        ensures { IfOk result (IsNarrowedBy refuses self.now other) }
    {
        if other.is_free() {
            return Ok(Narrowed::Unchanged);
        }
        if self.is_free() {
            return Ok(Narrowed::To(other));
        }
        let met = self.meet(alloc, &other)?;
        if met.same(self) {
            return Ok(Narrowed::Unchanged);
        }
        Ok(Narrowed::To(met))
    }

    /// Unifies a value that is not needed any more into this one, which then refuses exactly what
    /// one of both did. After want of memory it is as it was.
    fn narrow(&mut self, alloc: Global, other: Self) -> Result<(), Memory>
        ensures ok { OnOk result ((question : Self.Question) →
            refuses self.new question ↔ (refuses self.old question ⊎ refuses other question)) }
        ensures err { OnErr result (self.new ≡ self.old) }
    {
        if let Narrowed::To(met) = self.narrowed_by(alloc, other)? {
            *self = met;
        }
        Ok(())
    }

    /// Whether both are one value.
    fn same(&self, other: &Self) -> bool
        ensures { IsTrue result ↔ (self.now ≡ other.now) };

    /// An equal value.
    fn copy(&self, alloc: Global) -> Result<Self, Memory>
        ensures { IfOk result (λ copied. copied ≡ self.now) };

    /// A value of the type is one.
    fn known(&self)
        ensures { is_value self.now };

    /// Equal answers are equal values.
    ghost exact: { (a b : Self) → is_value a → is_value b
        → ((question : Self.Question) → refuses a question ↔ refuses b question) → a ≡ b };
}

/// The unification of a list: refuses exactly what one of its values refuses. Of an empty list it
/// is free.
///
/// The list is halved, so that many values are unified in balance.
pub fn meet_all<N: Narrow>(alloc: Global, values: &[N]) -> Result<N, Memory>
    ensures { IfOk result (λ met. (question : N.Question) →
        N.refuses met question ↔ OneOf (λ value. N.refuses value question) values.now) }
{
    let count = values.len();
    if count == 0 {
        return N::free(alloc);
    }
    if count == 1 {
        return values[0].copy(alloc);
    }
    let (front, back) = values.split_at(count / 2);
    let left = meet_all(alloc, front)?;
    let right = meet_all(alloc, back)?;
    match left.narrowed_by(alloc, right)? {
        Narrowed::Unchanged => Ok(left),
        Narrowed::To(met) => Ok(met),
    }
}
