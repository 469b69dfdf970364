//! What is asked of values of any type that may be unified.
use cue_lattice::{Memory, Narrow, Pair, meet_all};
use std::alloc::Global;

/// What a call has made where memory was there. It goes on to the next call as it is, so that a
/// test holds no value that is dropped on its ways out.
pub type Made<T> = Result<T, Memory>;

/// Whether the value that was made is this one.
pub fn is_same<N: Narrow>(value: Made<N>, expected: &N) -> Made<bool> {
    Ok(value?.same(expected))
}

/// Whether both are one value.
pub fn are_same<N: Narrow>(value: Made<N>, expected: Made<N>) -> Made<bool> {
    is_same(value, &expected?)
}

/// What the value becomes when it takes the other one over.
fn narrowed<N: Narrow>(alloc: Global, value: &N, other: &N) -> Made<N> {
    let narrowed = value.narrowed_by(alloc, other.copy(alloc)?)?;
    narrowed.or_copy(alloc, value)
}

/// Whether the value stays as it is when it takes the other one over.
fn is_kept<N: Narrow>(alloc: Global, value: &N, other: &N) -> Made<bool> {
    Ok(value.narrowed_by(alloc, other.copy(alloc)?)?.is_unchanged())
}

/// A copy of the value, into which the other one is unified where it stands.
fn changed<N: Narrow>(alloc: Global, value: &N, other: &N) -> Made<N> {
    let mut changed = value.copy(alloc)?;
    changed.narrow(alloc, other.copy(alloc)?)?;
    Ok(changed)
}

/// The unification of a list of the two.
fn met_in_a_list<N: Narrow>(alloc: Global, first: Made<N>, last: Made<N>) -> Made<N> {
    let mut values = Vec::new(alloc);
    values.push(first?)?;
    values.push(last?)?;
    meet_all(alloc, values.as_slice())
}

/// Whether a free value refuses nothing.
fn is_freely_made<N: Narrow>(value: Made<N>) -> Made<bool> {
    Ok(value?.is_free())
}

/// Whether each call that unifies the first two makes the third, which is not free and stays as it
/// is when it takes the second one over.
fn each_makes<N: Narrow>(alloc: Global, left: &N, right: &N, met: &N) -> Made<bool> {
    met.known();
    Ok(
        !met.is_free()
            && is_freely_made(N::free(alloc))?
            && is_same(left.meet(alloc, right), met)?
            && is_same(narrowed(alloc, left, right), met)?
            && is_same(changed(alloc, left, right), met)?
            && is_same(
                met_in_a_list(alloc, left.copy(alloc), right.copy(alloc)),
                met,
            )?
            && is_kept(alloc, met, right)?
            && is_same(narrowed(alloc, met, right), met)?,
    )
}

/// The same of values that are made.
pub fn unify_to<N: Narrow>(
    alloc: Global,
    left: Made<N>,
    right: Made<N>,
    met: Made<N>,
) -> Made<bool> {
    let left = left?;
    let right = right?;
    each_makes(alloc, &left, &right, &met?)
}

/// Two values side by side.
pub fn pair<A: Narrow, B: Narrow>(left: Made<A>, right: Made<B>) -> Made<Pair<A, B>> {
    Ok(Pair {
        left: left?,
        right: right?,
    })
}
