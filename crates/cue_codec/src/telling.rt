//! Whether a table has the indexes that were read with its rows.

ghost use Rattle.std.specs.Prelude.{◌≡◌, ◌↔◌, ◌∷◌, ◌++◌, ℕ, List, IfSome, IfNone, IsTrue};
ghost use Rattle.cue_codec.specs.Entry.{fixed_in, indexes_of};

use crate::version::Version;
use cue_row::Row;
use cue_table::{Branch, Table};

/// From which index on the elements of a place are alike, as a version tells it.
fn fixed_in(version: Version, branch: &Branch<Row>) -> u64
    ensures { result ≡ fixed_in version branch.now }
{
    match version {
        Version::First => 0,
        Version::Second => branch.fixed(),
    }
}

/// What stands after this number.
fn after(number: u64, indexes: &[u64]) -> Option<&[u64]>
    ensures some { IfSome result (λ rest. indexes.now ≡ number ∷ rest.now) }
    ensures none { IfNone result ((rest : List ℕ) → ¬ (indexes.now ≡ number ∷ rest)) }
{
    let (first, rest) = indexes.split_first()?;
    if *first != number {
        return None;
    }
    Some(rest)
}

/// What stands after the indexes of the rows of a branch, one after another, where these stand in
/// front.
fn after_branch<'a>(version: Version, branch: &Branch<Row>, indexes: &'a [u64]) -> Option<&'a [u64]>
    ensures some { IfSome result
        (λ rest. indexes.now ≡ indexes_of version branch.now ++ rest.now) }
    ensures none { IfNone result
        ((rest : List ℕ) → ¬ (indexes.now ≡ indexes_of version branch.now ++ rest)) }
{
    let mut rest = match branch.row() {
        None => indexes,
        Some(_) => after(fixed_in(version, branch), indexes)?,
    };
    for (_, below) in branch.children() {
        rest = after_branch(version, &below, rest)?;
    }
    match branch.rest() {
        None => Some(rest),
        Some(onward) => after_branch(version, &onward, rest),
    }
}

/// Whether the indexes of the rows of a table are these, in the order of the rows.
pub fn has_indexes(version: Version, table: &Table<Row>, indexes: &[u64]) -> bool
    ensures { IsTrue result ↔ (indexes.now ≡ indexes_of version table.now) }
{
    match after_branch(version, &table.root(), indexes) {
        None => false,
        Some(rest) => rest.is_empty(),
    }
}
