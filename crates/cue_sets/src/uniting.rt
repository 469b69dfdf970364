//! Pieces in any order as the pieces of one set.
ghost use Rattle.std.specs.Prelude.{◌≡◌, ℤ, IfOk};
ghost use Rattle.std.specs.List.{All};
ghost use Rattle.std.specs.List.Sorted.{IsSortedByKey};
ghost use Rattle.std.specs.Ordering.{int_cmp};
ghost use Rattle.cue_sets.specs.Pieces.{is_member, IsCanonical};
ghost use Rattle.cue_sets.specs.Inner.Sorted.{IsPiece};

use cue_lattice::Memory;
use std::alloc::Global;

/// The pieces of the numbers that pieces have which ascend by their first numbers. Pieces that
/// overlap or touch become one.
pub(crate) fn unite(alloc: Global, sorted: &[(i64, i64)]) -> Result<Vec<(i64, i64)>, Memory>
    requires sorted { IsSortedByKey (λ piece. piece.0) int_cmp sorted.now }
    requires pieces { All IsPiece sorted.now }
    ensures canonical { IfOk result (λ pieces. IsCanonical pieces.items) }
    ensures members { IfOk result (λ pieces. (n : ℤ) →
        is_member pieces.items n ≡ is_member sorted.now n) }
{
    let mut pieces = Vec::with_capacity(alloc, sorted.len())?;
    let Some((start, later)) = sorted.split_first() else {
        return Ok(pieces);
    };
    let (mut held, mut rest) = (*start, later);
    while let Some((next, later)) = rest.split_first() {
        if next.0 <= held.1 || next.0 - 1 == held.1 {
            held.1 = held.1.max(next.1);
        } else {
            pieces.push(held)?;
            held = *next;
        }
        rest = later;
    }
    pieces.push(held)?;
    Ok(pieces)
}
