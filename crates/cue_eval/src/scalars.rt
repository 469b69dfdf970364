//! The scalars and sets of scalars that a text writes by themselves, without a default.
ghost use Rattle.std.specs.Prelude.{◌≡◌, ◌≤◌, ◌&&◌, Bool, false, true, List, ℕ, ℤ, pos, neg_ℤ};
ghost use Rattle.std.specs.Prelude.{IfOk};
ghost use Rattle.cue_sets.specs.Pieces.{is_member, is_int64};
ghost use Rattle.cue_sets.specs.Texts.{is_text_member};
ghost use Rattle.cue_scalars.specs.Values.{pair_of_value};
ghost use Rattle.cue_syntax.specs.Grammar.{IsInRange};
ghost use Rattle.cue_syntax.specs.declared.tree.Comparison.TheVariants.{Less, Greater};
ghost use Rattle.cue_eval.specs.Sets as sets;
ghost use Rattle.cue_eval.specs.Pairs.{plain_pair};

use cue_lattice::Memory;
use cue_scalars::{ScalarSet, Valued};
use cue_scope::Named;
use cue_sets::{IntSet, TextSet};
use cue_syntax::{Comparison, Sign, Signed};
use std::alloc::Global;

/// The integer that is written.
pub(crate) fn integer_of(written: Signed) -> i64
    requires { IsInRange written }
    ensures { result ≡ sets.integer_of written }
{
    match written.sign {
        Sign::Minus => negative(written.magnitude),
        Sign::Absent => written.magnitude as i64,
        Sign::Plus => written.magnitude as i64,
    }
}

/// Nothing: `_|_`.
pub(crate) fn bottom_value(alloc: Global) -> Valued
    ensures { pair_of_value result ≡ plain_pair sets.no_scalars }
{
    Valued {
        value: ScalarSet::empty(alloc),
        usual: None,
    }
}

/// Null alone.
pub(crate) fn null_alone(alloc: Global) -> Valued
    ensures { pair_of_value result ≡ plain_pair sets.null_alone }
{
    Valued {
        value: ScalarSet {
            null: true,
            no: false,
            yes: false,
            ints: IntSet::empty(alloc),
            texts: TextSet::none(alloc),
        },
        usual: None,
    }
}

/// One truth value alone.
pub(crate) fn truth_alone(alloc: Global, truth: bool) -> Valued
    ensures { pair_of_value result ≡ plain_pair (sets.truth_alone truth) }
{
    of_truths(alloc, !truth, truth)
}

/// One integer alone.
pub(crate) fn integer_alone(alloc: Global, number: i64) -> Valued
    ensures { pair_of_value result ≡ plain_pair (sets.integer_alone number) }
{
    of_integers(alloc, IntSet::one(number))
}

/// All integers but one.
pub(crate) fn other_integers(alloc: Global, number: i64) -> Result<Valued, Memory>
    ensures { IfOk result (λ valued. pair_of_value valued ≡ plain_pair (sets.other_integers number)) }
{
    Ok(of_integers(alloc, IntSet::but(alloc, number)?))
}

/// One text alone.
pub(crate) fn text_alone(alloc: Global, text: &str) -> Result<Valued, Memory>
    ensures { IfOk result (λ valued. pair_of_value valued ≡ plain_pair (sets.text_alone text.now)) }
{
    Ok(of_texts(alloc, TextSet::one(alloc, text)?))
}

/// All texts but one.
pub(crate) fn other_texts(alloc: Global, text: &str) -> Result<Valued, Memory>
    ensures { IfOk result (λ valued. pair_of_value valued ≡ plain_pair (sets.other_texts text.now)) }
{
    Ok(of_texts(alloc, TextSet::but(alloc, text)?))
}

/// The integers that a bound lets stand.
pub(crate) fn bound_value(alloc: Global, comparison: Comparison, number: i64) -> Valued
    ensures { pair_of_value result ≡ plain_pair (sets.bound_scalars comparison number) }
{
    match comparison {
        Comparison::Less => integers_below(alloc, number),
        Comparison::AtMost => of_integers(alloc, IntSet::at_most(number)),
        Comparison::Greater => integers_above(alloc, number),
        Comparison::AtLeast => of_integers(alloc, IntSet::at_least(number)),
    }
}

/// The set of this name.
pub(crate) fn named_set(alloc: Global, name: Named) -> Result<Valued, Memory>
    ensures { IfOk result (λ valued. pair_of_value valued ≡ plain_pair (sets.named_set name)) }
{
    match name {
        Named::Int => Ok(of_integers(alloc, IntSet::full())),
        Named::Text => Ok(of_texts(alloc, TextSet::all(alloc))),
        Named::Bool => Ok(of_truths(alloc, true, true)),
        Named::Int8 => integers_between(alloc, -128, 127),
        Named::Uint8 => integers_between(alloc, 0, 255),
        Named::Int16 => integers_between(alloc, -32_768, 32_767),
        Named::Uint16 => integers_between(alloc, 0, 65_535),
        Named::Int32 => integers_between(alloc, -2_147_483_648, 2_147_483_647),
        Named::Uint32 => integers_between(alloc, 0, 4_294_967_295),
        Named::Int64 => Ok(of_integers(alloc, IntSet::full())),
        Named::Uint => Ok(of_integers(alloc, IntSet::at_least(0))),
    }
}

/// The negative of a number.
fn negative(magnitude: u64) -> i64
    requires { magnitude ≤ 9223372036854775808 }
    ensures { result ≡ neg_ℤ (pos magnitude) }
{
    if magnitude == 0 {
        return 0;
    }
    -((magnitude - 1) as i64) - 1
}

/// The integers below a number.
fn integers_below(alloc: Global, number: i64) -> Valued
    ensures { pair_of_value result ≡ plain_pair (sets.bound_scalars Less number) }
{
    if number == i64::MIN {
        return of_integers(alloc, IntSet::empty(alloc));
    }
    of_integers(alloc, IntSet::at_most(number - 1))
}

/// The integers above a number.
fn integers_above(alloc: Global, number: i64) -> Valued
    ensures { pair_of_value result ≡ plain_pair (sets.bound_scalars Greater number) }
{
    if number == i64::MAX {
        return of_integers(alloc, IntSet::empty(alloc));
    }
    of_integers(alloc, IntSet::at_least(number + 1))
}

/// The integers from one number to another, with both.
fn integers_between(alloc: Global, low: i64, high: i64) -> Result<Valued, Memory>
    ensures { IfOk result (λ valued. pair_of_value valued ≡ plain_pair (sets.integers_between low high)) }
{
    let from_low = IntSet::at_least(low);
    let to_high = IntSet::at_most(high);
    Ok(of_integers(alloc, from_low.meet(alloc, &to_high)?))
}

/// The members of a set of integers.
pub(crate) fn of_integers(alloc: Global, ints: IntSet) -> Valued
    ensures { (test : ℤ → Bool) →
        ((n : ℤ) → is_member ints n ≡ (is_int64 n && test n)) →
        pair_of_value result ≡ plain_pair (sets.integers test) }
{
    Valued {
        value: ScalarSet {
            null: false,
            no: false,
            yes: false,
            ints,
            texts: TextSet::none(alloc),
        },
        usual: None,
    }
}

/// The members of a set of texts.
pub(crate) fn of_texts(alloc: Global, texts: TextSet) -> Valued
    ensures { (test : List ℕ → Bool) →
        ((t : List ℕ) → is_text_member texts t ≡ test t) →
        pair_of_value result ≡ plain_pair (sets.all_texts test) }
{
    Valued {
        value: ScalarSet {
            null: false,
            no: false,
            yes: false,
            ints: IntSet::empty(alloc),
            texts,
        },
        usual: None,
    }
}

/// False and true, each where it is a member.
fn of_truths(alloc: Global, no: bool, yes: bool) -> Valued
    ensures { (test : Bool → Bool) → no ≡ test false → yes ≡ test true →
        pair_of_value result ≡ plain_pair (sets.truth_values test) }
{
    Valued {
        value: ScalarSet {
            null: false,
            no,
            yes,
            ints: IntSet::empty(alloc),
            texts: TextSet::none(alloc),
        },
        usual: None,
    }
}
