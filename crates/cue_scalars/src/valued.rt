ghost use Rattle.std.specs.Prelude.{◌≡◌, ◌<◌, ◌≤◌, length, map, IfOk};
ghost use Rattle.std.specs.Prelude.{◌||◌, true, false, IsSome, is_some, unwrap_or};
ghost use Rattle.std.specs.Prelude.{filter_map, option_map};
ghost use Rattle.std.specs.List.{list_any};
ghost use Rattle.std.specs.Option.{ForSome};
ghost use Rattle.std.specs.Result.{IsOk};
ghost use Rattle.cue_scalars.specs.Pairs as joining;
ghost use Rattle.cue_scalars.specs.Scalars.{members, IsScalarsWithin};

use crate::ScalarSet;
use cue_lattice::{Memory, Narrow};
use std::alloc::Global;

/// The scalars that may stand, and the default where there is one: those among them that are meant
/// where nothing is said. A default may be empty, which is not the same as none.
#[derive(Debug, Drop)]
pub struct Valued {
    pub value: ScalarSet,
    pub usual: Option<ScalarSet>,
    ghost within: { ForSome usual (λ default. IsScalarsWithin default value) },
}

impl Valued {
    ghost use Rattle.cue_scalars.specs.Pairs.{all_of, unify_pairs, default_of, disjunction};
    ghost use Rattle.cue_scalars.specs.Inner.Pairs.{term_of};
    ghost use Rattle.cue_scalars.specs.Values.{pair_of_value, terms_of_values};
    ghost use Rattle.cue_scalars.specs.Inner.Lists.{value_of, AreWithin};

    /// The unification `&`: values meet, and so do defaults, where a side without a default brings
    /// its value.
    pub fn and(self, alloc: Global, other: Valued) -> Result<Valued, Memory>
        ensures { IfOk result (λ met. pair_of_value met ≡ unify_pairs (pair_of_value self) (pair_of_value other)) }
    {
        if !self.has_default() && !other.has_default() {
            return self.and_plain(alloc, other);
        }
        self.and_usual(alloc, other)
    }

    /// The unification of one or more, which are taken over. More than two are unified at once.
    pub fn and_all(alloc: Global, values: Vec<Valued>) -> Result<Valued, Memory>
        requires { 0 < length values.items }
        ensures { IfOk result (λ met. pair_of_value met ≡ all_of (map pair_of_value values.items)) }
    {
        if values.len() <= 2 {
            return Valued::and_few(alloc, values);
        }
        if is_any_given(&values) {
            return Valued::and_all_usual(alloc, values);
        }
        Valued::and_all_plain(alloc, values)
    }

    /// An equal value with an equal default.
    pub fn copy(&self, alloc: Global) -> Result<Valued, Memory>
        ensures value { IfOk result (λ copied. copied.value ≡ self.now.value) }
        ensures usual { IfOk result (λ copied. copied.usual ≡ self.now.usual) }
        ensures pair { IfOk result (λ copied. pair_of_value copied ≡ pair_of_value self.now) }
    {
        let value = self.value.copy(alloc)?;
        match &self.usual {
            None => Ok(Valued { value, usual: None }),
            Some(usual) => {
                let usual = usual.copy(alloc)?;
                Ok(Valued {
                    value,
                    usual: Some(usual),
                })
            }
        }
    }

    /// The disjunction `|` of marked and unmarked terms, which are taken over. Of no terms it is
    /// the empty value without a default. All terms are united at once.
    pub fn or(alloc: Global, terms: Vec<(bool, Valued)>) -> Result<Valued, Memory>
        ensures { IfOk result (λ all. pair_of_value all ≡ disjunction (terms_of_values terms.items)) }
    {
        let any_marked = is_any_marked(&terms);
        let (values, usuals) = Valued::split(alloc, any_marked, terms)?;
        Ok(Valued {
            value: ScalarSet::union_all(alloc, values)?,
            usual: unite_defaults(alloc, usuals)?,
        })
    }

    /// The values, and which of them are usual: the default, or all of them where there is none.
    /// This takes memory only where there is no default.
    pub fn settle(self, alloc: Global) -> Result<(ScalarSet, ScalarSet), Memory>
        ensures given { IsSome self.usual → IsOk result }
        ensures value { IfOk result (λ settled. settled.0 ≡ self.value) }
        ensures usual { IfOk result (λ settled. settled.1 ≡ unwrap_or self.usual self.value) }
    {
        let Valued { value, usual } = self;
        match usual {
            Some(usual) => Ok((value, usual)),
            None => {
                let all = value.copy(alloc)?;
                Ok((value, all))
            }
        }
    }

    fn has_default(&self) -> bool
        ensures { result ≡ is_some self.now.usual }
    {
        self.usual.is_some()
    }

    /// The unification where neither value has a default.
    fn and_plain(self, alloc: Global, other: Valued) -> Result<Valued, Memory>
        requires left { is_some self.usual ≡ false }
        requires right { is_some other.usual ≡ false }
        ensures { IfOk result (λ met. pair_of_value met ≡ unify_pairs (pair_of_value self) (pair_of_value other)) }
    {
        Ok(Valued {
            value: self.value.into_meet(alloc, other.value)?,
            usual: None,
        })
    }

    /// The unification where a value has a default.
    fn and_usual(self, alloc: Global, other: Valued) -> Result<Valued, Memory>
        requires { (is_some self.usual || is_some other.usual) ≡ true }
        ensures { IfOk result (λ met. pair_of_value met ≡ unify_pairs (pair_of_value self) (pair_of_value other)) }
    {
        let (left, left_usual) = self.settle(alloc)?;
        let (right, right_usual) = other.settle(alloc)?;
        let value = left.into_meet(alloc, right)?;
        let usual = left_usual.into_meet(alloc, right_usual)?;
        Ok(Valued {
            value,
            usual: Some(usual),
        })
    }

    /// The unification of one or two.
    fn and_few(alloc: Global, values: Vec<Valued>) -> Result<Valued, Memory>
        requires some { 0 < length values.items }
        requires few { length values.items ≤ 2 }
        ensures { IfOk result (λ met. pair_of_value met ≡ all_of (map pair_of_value values.items)) }
    {
        let mut rest = values.into_iter();
        let Some(first) = rest.next() else {
            unreachable!()
        };
        match rest.next() {
            None => Ok(first),
            Some(second) => first.and(alloc, second),
        }
    }

    /// The unification of one or more where none has a default.
    fn and_all_plain(alloc: Global, values: Vec<Valued>) -> Result<Valued, Memory>
        requires some { 0 < length values.items }
        requires plain { list_any (λ valued. is_some valued.usual) values.items ≡ false }
        ensures { IfOk result (λ met. pair_of_value met ≡ all_of (map pair_of_value values.items)) }
    {
        let mut sets = Vec::with_capacity(alloc, values.len())?;
        for valued in values {
            sets.push(valued.value)?;
        }
        Ok(Valued {
            value: ScalarSet::meet_all(alloc, sets)?,
            usual: None,
        })
    }

    /// The unification of one or more where one has a default.
    fn and_all_usual(alloc: Global, values: Vec<Valued>) -> Result<Valued, Memory>
        requires some { 0 < length values.items }
        requires given { list_any (λ valued. is_some valued.usual) values.items ≡ true }
        ensures { IfOk result (λ met. pair_of_value met ≡ all_of (map pair_of_value values.items)) }
    {
        let mut sets = Vec::with_capacity(alloc, values.len())?;
        let mut usuals = Vec::with_capacity(alloc, values.len())?;
        for valued in values {
            let (value, usual) = valued.settle(alloc)?;
            sets.push(value)?;
            usuals.push(usual)?;
        }
        let value = ScalarSet::meet_all(alloc, sets)?;
        let usual = ScalarSet::meet_all(alloc, usuals)?;
        Ok(Valued {
            value,
            usual: Some(usual),
        })
    }

    /// The values of the terms of a disjunction, and the defaults that they bring. `any_marked`
    /// says whether some term is marked.
    fn split(
        alloc: Global,
        any_marked: bool,
        terms: Vec<(bool, Valued)>,
    ) -> Result<(Vec<ScalarSet>, Vec<ScalarSet>), Memory>
        ensures values { IfOk result (λ sets.
            map members sets.0.items ≡ map value_of terms.items) }
        ensures usuals { IfOk result (λ sets. map members sets.1.items
            ≡ filter_map (default_of any_marked) (terms_of_values terms.items)) }
        ensures within { IfOk result (λ sets. AreWithin sets.1.items sets.0.items) }
    {
        let mut values = Vec::with_capacity(alloc, terms.len())?;
        let mut usuals = Vec::new(alloc);
        for (marked, term) in terms {
            let Valued { value, usual } = term.into_term(alloc, any_marked, marked)?;
            values.push(value)?;
            if let Some(usual) = usual {
                usuals.push(usual)?;
            }
        }
        Ok((values, usuals))
    }

    /// What this value brings to a disjunction as a term, marked or not.
    fn into_term(self, alloc: Global, any_marked: bool, marked: bool) -> Result<Valued, Memory>
        ensures { IfOk result (λ term. pair_of_value term ≡ term_of any_marked (marked, pair_of_value self)) }
    {
        if !any_marked {
            return Ok(self);
        }
        if !marked {
            return Ok(Valued {
                value: self.value,
                usual: None,
            });
        }
        let (value, usual) = self.settle(alloc)?;
        Ok(Valued {
            value,
            usual: Some(usual),
        })
    }
}

/// The union of defaults, where there are some.
fn unite_defaults(alloc: Global, usuals: Vec<ScalarSet>) -> Result<Option<ScalarSet>, Memory>
    ensures { IfOk result (λ usual.
        option_map members usual ≡ joining.unite_defaults (map members usuals.items)) }
{
    if usuals.is_empty() {
        return Ok(None);
    }
    Ok(Some(ScalarSet::union_all(alloc, usuals)?))
}

/// Whether some value has a default.
fn is_any_given(values: &[Valued]) -> bool
    ensures { result ≡ list_any (λ valued. is_some valued.usual) values.now }
{
    values.iter().any(|valued| valued.has_default())
}

/// Whether some term is marked.
fn is_any_marked(terms: &[(bool, Valued)]) -> bool
    ensures { result ≡ list_any (λ term. term.0) terms.now }
{
    terms.iter().any(|(marked, _)| *marked)
}
