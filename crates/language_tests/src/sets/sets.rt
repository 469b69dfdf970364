//! Sets of integers and of texts.
use crate::sets::made::{Made, are_same, pair, unify_to};
use cue_lattice::Text;
use cue_sets::{IntSet, TextSet};
use std::alloc::Global;
use std::test::Fail;

const LEAST: i64 = i64::MIN;

const GREATEST: i64 = i64::MAX;

/// The set of these pieces.
fn pieces(alloc: Global, pieces: &[(i64, i64)]) -> Made<IntSet> {
    match IntSet::from_pieces(Vec::from_slice(alloc, pieces)?) {
        None => Ok(IntSet::empty(alloc)),
        Some(set) => Ok(set),
    }
}

/// What either of two sets has and the second one lacks, and a set behind it.
fn combined(alloc: Global) -> Made<IntSet> {
    let all = IntSet::between(1, 4).union(alloc, &IntSet::between(3, 9))?;
    let rest = all.without(alloc, &IntSet::between(3, 9))?;
    rest.into_union(alloc, IntSet::between(6, 8))
}

/// Whether a set is asked as all integers but 5 are.
fn lacks_five(set: &IntSet) -> bool {
    set.pieces().len() == 2
        && set.contains(4)
        && !set.contains(5)
        && set.first() == Some(LEAST)
        && set.single().is_none()
        && !set.is_empty()
}

/// The same of a set that is made.
fn is_but_five(set: Made<IntSet>) -> Made<bool> {
    Ok(lacks_five(&set?))
}

#[test]
fn sets_of_integers(rt: HostRuntime) -> Result<(), Fail> {
    let alloc = rt.alloc();
    assert!(rt; is_but_five(IntSet::but(alloc, 5))?);
    let but_five = pieces(alloc, &[(LEAST, 4), (6, GREATEST)]);
    assert!(rt; are_same(IntSet::but(alloc, 5), but_five)?);
    assert!(rt; are_same(Ok(IntSet::full()), pieces(alloc, &[(LEAST, GREATEST)]))?);
    assert!(rt; are_same(combined(alloc), pieces(alloc, &[(1, 2), (6, 8)]))?);
    Ok(())
}

/// The pieces of a set of integers.
type Pieces<'a> = &'a [(i64, i64)];

/// Three sets of integers and what all have: some that two cut, all but a few, and no number.
const INTEGERS_MET: [(Pieces, Pieces, Pieces, Pieces); 3] = [
    (
        &[(1, 9)],
        &[(LEAST, 4), (6, GREATEST)],
        &[(3, 7), (9, 9)],
        &[(3, 4), (6, 7), (9, 9)],
    ),
    (
        &[(LEAST, 4), (6, GREATEST)],
        &[(LEAST, 5), (7, GREATEST)],
        &[(LEAST, 8), (10, GREATEST)],
        &[(LEAST, 4), (7, 8), (10, GREATEST)],
    ),
    (&[(1, 4)], &[(3, 9)], &[(5, 9)], &[]),
];

/// Whether the first three sets of integers meet in the fourth.
fn integers_meet(alloc: Global, sets: (Pieces, Pieces, Pieces, Pieces)) -> Made<bool> {
    let mut list = Vec::new(alloc);
    list.push(pieces(alloc, sets.0)?)?;
    list.push(pieces(alloc, sets.1)?)?;
    list.push(pieces(alloc, sets.2)?)?;
    are_same(IntSet::meet_all(alloc, list), pieces(alloc, sets.3))
}

/// Texts, with spaces between them. `true` says that all other texts are meant.
type Texts<'a> = (bool, &'a str);

/// The set of these texts.
pub fn texts(alloc: Global, words: Texts) -> Made<TextSet> {
    let mut texts = Vec::new(alloc);
    for word in words.1.split(' ') {
        texts.push(Text::from_str(alloc, word)?)?;
    }
    match TextSet::from_texts(words.0, texts) {
        None => Ok(TextSet::none(alloc)),
        Some(set) => Ok(set),
    }
}

/// What either set has and the second one lacks.
fn left_over(alloc: Global, set: Made<TextSet>, other: Made<TextSet>) -> Made<TextSet> {
    let other = other?;
    set?.union(alloc, &other)?.without(alloc, &other)
}

/// `a` and `b`, which are moved, without `a`.
fn moved(alloc: Global) -> Made<TextSet> {
    let all = TextSet::one(alloc, "b")?.into_union(alloc, TextSet::one(alloc, "a")?)?;
    all.into_meet(alloc, TextSet::but(alloc, "a")?)
}

/// Whether a set is asked as `b` alone is.
fn has_b(set: &TextSet) -> bool {
    set.contains("b") && set.single() == Some("b") && !set.is_empty() && !set.listed().0
}

/// The same of a set that is made.
fn is_only_b(set: Made<TextSet>) -> Made<bool> {
    Ok(has_b(&set?))
}

/// Whether the first text of the set is this one.
fn has_first(alloc: Global, set: Made<TextSet>, text: &str) -> Made<bool> {
    match set?.first(alloc)? {
        None => Ok(false),
        Some(first) => Ok(first.as_str() == text),
    }
}

#[test]
fn sets_of_texts(rt: HostRuntime) -> Result<(), Fail> {
    let alloc = rt.alloc();
    let rest = left_over(
        alloc,
        texts(alloc, (false, "a b c")),
        texts(alloc, (false, "b d")),
    );
    assert!(rt; are_same(rest, texts(alloc, (false, "a c")))?);
    assert!(rt; is_only_b(moved(alloc))?);
    assert!(rt; has_first(alloc, TextSet::one(alloc, "x"), "x")?);
    assert!(rt; has_first(alloc, Ok(TextSet::all(alloc)), "")?);
    assert!(rt; has_first(alloc, TextSet::but(alloc, ""), "\0")?);
    Ok(())
}

/// Two sets of texts and what both have: many that lose few, many that lose many, few of many, all
/// but more, and all but many and a few more.
const UNIFIED: [(Texts, Texts, Texts); 5] = [
    (
        (false, "a b c d e f g h i j"),
        (true, "b d y"),
        (false, "a c e f g h i j"),
    ),
    (
        (false, "a b c d e f g h i j"),
        (true, "b c d e f g h i j k"),
        (false, "a"),
    ),
    ((false, "a b c d e f g h i j"), (false, "j k"), (false, "j")),
    (
        (true, "a b c d e f g h i"),
        (true, "h i j k l m n o p"),
        (true, "a b c d e f g h i j k l m n o p"),
    ),
    (
        (
            true,
            "0 1 2 3 4 5 6 7 8 9 A B C D E F G H I J K L M N O P Q R S T U V W X Y Z b c d e f g h i j k l m",
        ),
        (true, "B a"),
        (
            true,
            "0 1 2 3 4 5 6 7 8 9 A B C D E F G H I J K L M N O P Q R S T U V W X Y Z a b c d e f g h i j k l m",
        ),
    ),
];

/// Whether the first two sets of texts unify to the third.
fn texts_unify(alloc: Global, sets: (Texts, Texts, Texts)) -> Made<bool> {
    let left = texts(alloc, sets.0);
    unify_to(alloc, left, texts(alloc, sets.1), texts(alloc, sets.2))
}

/// Three sets of texts and what all have: all but some, few of many, and one that two lack.
const TEXTS_MET: [(Texts, Texts, Texts, Texts); 3] = [
    ((true, "b d"), (true, "c"), (true, "a d"), (true, "a b c d")),
    (
        (false, "a b c"),
        (true, "b"),
        (false, "b c d"),
        (false, "c"),
    ),
    ((true, "x"), (false, "w x y"), (true, "y"), (false, "w")),
];

/// Whether the first three sets of texts meet in the fourth.
fn texts_meet(alloc: Global, sets: (Texts, Texts, Texts, Texts)) -> Made<bool> {
    let mut list = Vec::new(alloc);
    list.push(texts(alloc, sets.0)?)?;
    list.push(texts(alloc, sets.1)?)?;
    list.push(texts(alloc, sets.2)?)?;
    are_same(TextSet::meet_all(alloc, list), texts(alloc, sets.3))
}

#[test]
fn many_sets_that_meet(rt: HostRuntime) -> Result<(), Fail> {
    let alloc = rt.alloc();
    for sets in INTEGERS_MET {
        assert!(rt; integers_meet(alloc, sets)?);
    }
    for sets in TEXTS_MET {
        assert!(rt; texts_meet(alloc, sets)?, "{}", (sets.3).1);
    }
    Ok(())
}

#[test]
fn sets_that_unify(rt: HostRuntime) -> Result<(), Fail> {
    let alloc = rt.alloc();
    for sets in UNIFIED {
        assert!(rt; texts_unify(alloc, sets)?, "{}", (sets.2).1);
    }
    let (low, high) = (IntSet::at_most(7), IntSet::at_least(3));
    assert!(rt; unify_to(alloc, Ok(low), Ok(high), Ok(IntSet::between(3, 7)))?);
    let left = pair(Ok(IntSet::at_least(3)), Ok(TextSet::all(alloc)));
    let right = pair(Ok(IntSet::at_most(3)), TextSet::one(alloc, "x"));
    let met = pair(Ok(IntSet::one(3)), TextSet::one(alloc, "x"));
    assert!(rt; unify_to(alloc, left, right, met)?);
    Ok(())
}
