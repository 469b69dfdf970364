//! Values with defaults, after the examples of the CUE language specification.
use crate::sets::made::Made;
use crate::sets::scalars::{NOTHING, Range, integers};
use cue_scalars::{ScalarSet, Valued};
use std::alloc::Global;
use std::test::Fail;

/// A term of a disjunction: whether it is marked, and which integers it has.
type Term = (bool, Range);

/// `*1 | 2 | 3`
const ONE: &[Term] = &[(true, (1, 1)), (false, (2, 2)), (false, (3, 3))];

/// `1 | *2 | 3`
const TWO: &[Term] = &[(false, (1, 1)), (true, (2, 2)), (false, (3, 3))];

/// `2`
const ONLY_TWO: &[Term] = &[(false, (2, 2))];

/// `* >=5 | int`
const HIGH: &[Term] = &[(true, (5, i64::MAX)), (false, (i64::MIN, i64::MAX))];

/// `* <=5 | int`
const LOW: &[Term] = &[(true, (i64::MIN, 5)), (false, (i64::MIN, i64::MAX))];

/// The integers as a term.
fn term(alloc: Global, term: &Term) -> Made<(bool, Valued)> {
    let (is_marked, range) = *term;
    let value = integers(alloc, range)?;
    Ok((is_marked, Valued { value, usual: None }))
}

/// The disjunction of these terms.
fn one_of(alloc: Global, terms: &[Term]) -> Made<Valued> {
    let mut list = Vec::new(alloc);
    for next in terms {
        list.push(term(alloc, next)?)?;
    }
    Valued::or(alloc, list)
}

/// `left | right`, the second of which is marked or not.
fn either(alloc: Global, left: Made<Valued>, is_marked: bool, right: Made<Valued>) -> Made<Valued> {
    let mut list = Vec::new(alloc);
    list.push((false, left?))?;
    list.push((is_marked, right?))?;
    Valued::or(alloc, list)
}

/// `left & right`
fn both(alloc: Global, left: Made<Valued>, right: Made<Valued>) -> Made<Valued> {
    left?.and(alloc, right?)
}

/// A copy of the value.
fn copied(alloc: Global, value: Made<Valued>) -> Made<Valued> {
    value?.copy(alloc)
}

/// The unification of a list of the two.
fn all_met(alloc: Global, first: Made<Valued>, last: Made<Valued>) -> Made<Valued> {
    let mut list = Vec::new(alloc);
    list.push(first?)?;
    list.push(last?)?;
    Valued::and_all(alloc, list)
}

/// The unification of a list of these three.
fn three_met(alloc: Global, terms: [&[Term]; 3]) -> Made<Valued> {
    let mut list = Vec::new(alloc);
    list.push(one_of(alloc, terms[0])?)?;
    list.push(one_of(alloc, terms[1])?)?;
    list.push(one_of(alloc, terms[2])?)?;
    Valued::and_all(alloc, list)
}

/// Whether the set is the integers of a range.
fn is_range(set: &ScalarSet, range: Range) -> bool {
    if range == NOTHING {
        return set.is_empty();
    }
    set.ints.pieces() == [range].as_slice()
}

/// Whether these integers may stand, and those are meant where nothing is said.
fn settles(alloc: Global, valued: Made<Valued>, value: Range, usual: Range) -> Made<bool> {
    let (settled, chosen) = valued?.settle(alloc)?;
    Ok(is_range(&settled, value) && is_range(&chosen, usual))
}

#[test]
fn disjunctions(rt: HostRuntime) -> Result<(), Fail> {
    let alloc = rt.alloc();
    let (one, two) = (one_of(alloc, ONE), one_of(alloc, TWO));
    assert!(rt; settles(alloc, either(alloc, one, false, two), (1, 3), (1, 2))?);
    let (one, two) = (one_of(alloc, ONE), one_of(alloc, TWO));
    assert!(rt; settles(alloc, either(alloc, one, true, two), (1, 3), (2, 2))?);
    let two = both(alloc, one_of(alloc, TWO), one_of(alloc, ONLY_TWO));
    let all = either(alloc, one_of(alloc, ONE), false, two);
    assert!(rt; settles(alloc, all, (1, 3), (1, 2))?);
    assert!(rt; settles(alloc, one_of(alloc, &[]), NOTHING, NOTHING)?);
    Ok(())
}

#[test]
fn unifications(rt: HostRuntime) -> Result<(), Fail> {
    let alloc = rt.alloc();
    let bounds = both(alloc, one_of(alloc, HIGH), one_of(alloc, LOW));
    assert!(rt; settles(alloc, bounds, (i64::MIN, i64::MAX), (5, 5))?);
    let others = both(alloc, one_of(alloc, ONE), one_of(alloc, TWO));
    assert!(rt; settles(alloc, others, (1, 3), NOTHING)?);
    let one = copied(alloc, one_of(alloc, ONE));
    let all = all_met(alloc, one, one_of(alloc, &[(false, (0, 2))]));
    assert!(rt; settles(alloc, all, (1, 2), (1, 1))?);
    let plain = three_met(
        alloc,
        [&[(false, (0, 5))], &[(false, (2, 9))], &[(false, (1, 4))]],
    );
    assert!(rt; settles(alloc, plain, (2, 4), (2, 4))?);
    let given = three_met(alloc, [HIGH, &[(false, (1, 9))], LOW]);
    assert!(rt; settles(alloc, given, (1, 9), (5, 5))?);
    Ok(())
}
