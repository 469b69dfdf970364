ghost use Rattle.std.specs.Prelude.{◌≡◌, ℤ, pos, ◌-ℤ◌, ◌≤ℤ◌, ◌<ℤ◌, ◌++◌, IfOk, IfSome, Some};
ghost use Rattle.std.specs.Prelude.{true, ◌↔◌, IsTrue};
ghost use Rattle.cue_sets.specs.Inner.Combination.{combination_keeps};
ghost use Rattle.cue_sets.specs.Pieces.{is_member, IsCanonical};
ghost use Rattle.cue_sets.specs.Inner.Sweep.{EndsFrom, close_piece, open_piece};

use crate::combination::Combination;
use cue_lattice::Memory;
use std::alloc::Global;

/// How far a set goes on as it is at a number.
#[derive(Clone, Copy)]
struct PieceRun {
    /// Whether the number is a member.
    inside: bool,
    /// The last number up to which that stays so.
    last: i64,
}

/// How the set of these pieces goes on from a number. No piece may end before it.
fn run_from(rest: &[(i64, i64)], from: i64) -> PieceRun
    requires ascending { IsCanonical rest.now }
    requires ends { EndsFrom from rest.now }
    ensures forward { from ≤ℤ result.last }
    ensures alike { (n : ℤ) → from ≤ℤ n → n ≤ℤ result.last → is_member rest.now n ≡ result.inside }
    ensures ends { EndsFrom result.last rest.now }
{
    match rest {
        [] => PieceRun {
            inside: false,
            last: i64::MAX,
        },
        [(first, last), ..] if *first <= from => PieceRun {
            inside: true,
            last: *last,
        },
        [(first, _), ..] => PieceRun {
            inside: false,
            last: *first - 1,
        },
    }
}

/// The pieces that end at a number or later, where at most the first ends right before it.
fn skip_before(rest: &[(i64, i64)], from: i64) -> &[(i64, i64)]
    requires ascending { IsCanonical rest.now }
    requires ends { EndsFrom (from -ℤ pos 1) rest.now }
    ensures ascending { IsCanonical result.now }
    ensures ends { EndsFrom from result.now }
    ensures members { (n : ℤ) → from ≤ℤ n → is_member result.now n ≡ is_member rest.now n }
{
    match rest {
        [(_, last), later @ ..] if *last < from => later,
        _ => rest,
    }
}

/// Goes on at `from` with numbers that are kept or not. `begun` is where the piece begins that is
/// being made.
fn go_on(
    pieces: &mut Vec<(i64, i64)>,
    begun: Option<i64>,
    from: i64,
    kept: bool,
) -> Result<Option<i64>, Memory>
    requires { IfSome begun (λ first. first <ℤ from) }
    ensures { IfOk result (λ next. (next ≡ open_piece begun from kept)
        × (pieces.new.items ≡ pieces.old.items ++ close_piece begun from kept)) }
{
    if kept {
        return Ok(Some(begun.unwrap_or(from)));
    }
    if let Some(first) = begun {
        pieces.push((first, from - 1))?;
    }
    Ok(None)
}

/// The pieces of a combination of two sets. Both are walked once.
pub(crate) fn combine(
    alloc: Global,
    how: Combination,
    left: &[(i64, i64)],
    right: &[(i64, i64)],
) -> Result<Vec<(i64, i64)>, Memory>
    requires left { IsCanonical left.now }
    requires right { IsCanonical right.now }
    ensures canonical { IfOk result (λ pieces. IsCanonical pieces.items) }
    ensures members { IfOk result (λ pieces. (n : ℤ) →
        is_member pieces.items n ≡ combination_keeps how (is_member left.now n) (is_member right.now n)) }
{
    let mut pieces = Vec::with_capacity(alloc, left.len() + right.len())?;
    let mut begun = None;
    let mut from = i64::MIN;
    let (mut on_left, mut on_right) = (left, right);
    loop {
        let (a, b) = (run_from(on_left, from), run_from(on_right, from));
        let last = a.last.min(b.last);
        begun = go_on(&mut pieces, begun, from, how.keeps(a.inside, b.inside))?;
        if last == i64::MAX {
            break;
        }
        from = last + 1;
        on_left = skip_before(on_left, from);
        on_right = skip_before(on_right, from);
    }
    if let Some(first) = begun {
        pieces.push((first, i64::MAX))?;
    }
    Ok(pieces)
}

/// Whether each number of the left set is in the right one. Both are walked once.
pub(crate) fn is_within(left: &[(i64, i64)], right: &[(i64, i64)]) -> bool
    requires left { IsCanonical left.now }
    requires right { IsCanonical right.now }
    ensures { IsTrue result ↔ ((n : ℤ) → is_member left.now n ≡ true →
        is_member right.now n ≡ true) }
{
    let mut from = i64::MIN;
    let (mut on_left, mut on_right) = (left, right);
    'sweep: loop {
        let (a, b) = (run_from(on_left, from), run_from(on_right, from));
        if Combination::Without.keeps(a.inside, b.inside) {
            return false;
        }
        let last = a.last.min(b.last);
        if last == i64::MAX {
            return true;
        }
        from = last + 1;
        on_left = skip_before(on_left, from);
        on_right = skip_before(on_right, from);
    }
}

/// Whether both lists have pieces, and between the last piece of the left one and the first piece
/// of the right one at least one number is left out. Then they are the pieces of a set, one list
/// after the other.
pub(crate) fn is_before(left: &[(i64, i64)], right: &[(i64, i64)]) -> bool
    requires left { IsCanonical left.now }
    requires right { IsCanonical right.now }
    ensures { IsTrue result → IsCanonical (left.now ++ right.now) }
{
    match (left.last(), right.first()) {
        (Some((_, last)), Some((first, _))) => *last < *first && *last + 1 < *first,
        _ => false,
    }
}

/// Whether some piece has a number, by a binary search.
pub(crate) fn has(pieces: &[(i64, i64)], number: i64) -> bool
    requires { IsCanonical pieces.now }
    ensures { result ≡ is_member pieces.now number }
{
    let at = pieces.partition_point(|piece| piece.1 < number);
    at < pieces.len() && pieces[at].0 <= number
}

/// Whether the pieces ascend, none of them empty and no two of them touching.
pub(crate) fn is_canonical(pieces: &[(i64, i64)]) -> bool
    ensures { IsTrue result ↔ IsCanonical pieces.now }
{
    let mut from = i64::MIN;
    let mut rest = pieces;
    while let Some(((first, last), later)) = rest.split_first() {
        if *first < from || *last < *first {
            return false;
        }
        let Some(next) = last.checked_add(2) else {
            return later.is_empty();
        };
        from = next;
        rest = later;
    }
    true
}
