//! Sets of scalars.
use crate::sets::made::{Made, are_same, unify_to};
use crate::sets::sets::texts;
use cue_lattice::Text;
use cue_scalars::{Scalar, ScalarSet};
use cue_sets::{IntSet, TextSet};
use std::alloc::Global;
use std::test::Fail;

/// The integers from a first to a last one.
pub type Range = (i64, i64);

/// The range that has no integer.
pub const NOTHING: Range = (1, 0);

/// The integers of a range.
fn between(alloc: Global, range: Range) -> IntSet {
    if range.0 <= range.1 {
        return IntSet::between(range.0, range.1);
    }
    IntSet::empty(alloc)
}

/// True or not, the integers of a range, and these texts.
fn mixed(alloc: Global, yes: bool, ints: Range, texts: Made<TextSet>) -> Made<ScalarSet> {
    Ok(ScalarSet {
        null: false,
        no: false,
        yes,
        ints: between(alloc, ints),
        texts: texts?,
    })
}

/// The integers of a range alone.
pub fn integers(alloc: Global, ints: Range) -> Made<ScalarSet> {
    mixed(alloc, false, ints, Ok(TextSet::none(alloc)))
}

/// True or not, the integers of a range, and the text `x`.
fn with_x(alloc: Global, yes: bool, ints: Range) -> Made<ScalarSet> {
    mixed(alloc, yes, ints, TextSet::one(alloc, "x"))
}

/// What either set has and the second one lacks, of that what the first one has.
fn combined(alloc: Global, low: Made<ScalarSet>, high: Made<ScalarSet>) -> Made<ScalarSet> {
    let low = low?;
    let high = high?;
    let all = low.union(alloc, &high)?;
    all.without(alloc, &high)?.meet(alloc, &low)
}

/// 1 to 4 and `x`, which are moved, without the integers.
fn moved(alloc: Global) -> Made<ScalarSet> {
    let all = integers(alloc, (1, 4))?.into_union(alloc, with_x(alloc, false, NOTHING)?)?;
    all.into_meet(alloc, with_x(alloc, true, (5, 9))?)
}

/// Whether it is the text `x`.
fn is_x(found: Option<Scalar>) -> bool {
    match found {
        Some(Scalar::Text(text)) => text.as_str() == "x",
        _ => false,
    }
}

/// Whether the set is `x` alone.
fn is_only_x(alloc: Global, set: Made<ScalarSet>) -> Made<bool> {
    let set = set?;
    let x = Scalar::Text(Text::from_str(alloc, "x")?);
    let is_so = set.contains(&x) && !set.contains(&Scalar::Int(1)) && !set.is_empty();
    Ok(is_so && is_x(set.first(alloc)?) && is_x(set.single(alloc)?))
}

/// Whether a set has no member, and lies within another one.
fn is_nothing(set: &ScalarSet, other: Made<ScalarSet>) -> Made<bool> {
    Ok(set.is_empty() && set.is_within(&other?))
}

#[test]
fn sets_of_scalars(rt: HostRuntime) -> Result<(), Fail> {
    let alloc = rt.alloc();
    let (low, high) = (with_x(alloc, true, (1, 5)), integers(alloc, (3, 9)));
    assert!(rt; are_same(combined(alloc, low, high), with_x(alloc, true, (1, 2)))?);
    assert!(rt; is_only_x(alloc, moved(alloc))?);
    assert!(rt; is_nothing(&ScalarSet::empty(alloc), moved(alloc))?);
    Ok(())
}

#[test]
fn sets_of_scalars_that_unify(rt: HostRuntime) -> Result<(), Fail> {
    let alloc = rt.alloc();
    let left = mixed(alloc, true, (1, 5), texts(alloc, (false, "a b c d")));
    let right = mixed(alloc, false, (3, 9), texts(alloc, (true, "a b")));
    let met = mixed(alloc, false, (3, 5), texts(alloc, (false, "c d")));
    assert!(rt; unify_to(alloc, left, right, met)?);
    Ok(())
}
