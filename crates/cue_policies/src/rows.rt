//! How many rows a table has.
ghost use Rattle.std.specs.Prelude.{◌≡◌, ◌+◌, ◌*◌, ◌<◌, ◌≤◌, MatchOption};
ghost use Rattle.cue_table.specs.Spans.{more_in};
ghost use Rattle.cue_table.specs.StepsOfCode.{span_of};
ghost use Rattle.cue_table.specs.Tree.{row_of};
ghost use Rattle.cue_policies.specs.Inner.Rows.{own_rows, tree_rows};

use cue_row::Row;
use cue_table::{Branch, Span};

/// How many rows a place has, itself and below, where they are no more than `most`. What is kept as
/// one is walked once, and no more is walked once there are more.
pub(crate) fn rows_within(branch: &Branch<Row>, most: u64) -> Option<u64>
    ensures { MatchOption result (most < tree_rows branch.now)
        (λ rows. (rows ≡ tree_rows branch.now) × (rows ≤ most)) }
{
    let mut rows = add_within(0, own_count(branch), 1, most)?;
    for (span, below) in branch.spans() {
        let one = rows_within(&below, most - rows)?;
        rows = add_within(rows, one, span_count(span), most)?;
    }
    match branch.rest() {
        None => Some(rows),
        Some(rest) => {
            let one = rows_within(&rest, most - rows)?;
            add_within(rows, one, 1, most)
        }
    }
}

/// How many rows a place has itself.
fn own_count(branch: &Branch<Row>) -> u64
    ensures { result ≡ own_rows (row_of branch.now) }
{
    match branch.row() {
        None => 0,
        Some(_) => 1,
    }
}

/// How many branches a span is.
fn span_count(span: Span<'_>) -> u64
    ensures { result ≡ more_in (span_of span.entry) + 1 }
{
    u64::from(span.more()) + 1
}

/// A sum and so many times a number, where that is no more than `most`.
fn add_within(sum: u64, number: u64, times: u64, most: u64) -> Option<u64>
    ensures { MatchOption result (most < sum + number * times)
        (λ whole. (whole ≡ sum + number * times) × (whole ≤ most)) }
{
    let more = number.checked_mul(times)?;
    let whole = sum.checked_add(more)?;
    if whole <= most { Some(whole) } else { None }
}
