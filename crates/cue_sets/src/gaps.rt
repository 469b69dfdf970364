//! The numbers that the pieces of a set leave out.
ghost use Rattle.std.specs.Prelude.{◌≡◌, ℤ, pos, ◌-ℤ◌, ◌||◌, OnOk};
ghost use Rattle.std.specs.List.{All};
ghost use Rattle.cue_sets.specs.Pieces.{is_member, is_within, IsCanonical};
ghost use Rattle.cue_sets.specs.Inner.Gaps.{pieces_lack};
ghost use Rattle.cue_sets.specs.Inner.Sorted.{IsPiece};

use cue_lattice::Memory;

/// Puts the numbers from `from` to the one right before `end` at the end of a list of pieces, where
/// there are some.
fn put_before(gaps: &mut Vec<(i64, i64)>, from: i64, end: i64) -> Result<(), Memory>
    requires { All IsPiece gaps.old.items }
    ensures pieces { OnOk result (All IsPiece gaps.new.items) }
    ensures members { OnOk result ((n : ℤ) → is_member gaps.new.items n
        ≡ (is_member gaps.old.items n || is_within (from, end -ℤ pos 1) n)) }
{
    if from < end {
        gaps.push((from, end - 1))?;
    }
    Ok(())
}

/// Puts the integers of 64 bits that these pieces leave out at the end of a list of pieces.
pub(crate) fn put_gaps(gaps: &mut Vec<(i64, i64)>, pieces: &[(i64, i64)]) -> Result<(), Memory>
    requires canonical { IsCanonical pieces.now }
    requires pieces { All IsPiece gaps.old.items }
    ensures pieces { OnOk result (All IsPiece gaps.new.items) }
    ensures members { OnOk result ((n : ℤ) → is_member gaps.new.items n
        ≡ (is_member gaps.old.items n || pieces_lack pieces.now n)) }
{
    let mut from = i64::MIN;
    let mut rest = pieces;
    while let Some(((first, last), later)) = rest.split_first() {
        put_before(gaps, from, *first)?;
        let Some(next) = last.checked_add(1) else {
            return Ok(());
        };
        from = next;
        rest = later;
    }
    gaps.push((from, i64::MAX))?;
    Ok(())
}
