//! The branches of a table: how many come together, how many rows they have, and the row of a place
//! as bytes.

ghost use Rattle.std.specs.Prelude.{◌≡◌, [], ◌+◌, ◌*◌, ◌^◌, ◌<◌, ◌≤◌, ◌++◌, length};
ghost use Rattle.std.specs.Prelude.{IfErr, IfOk, OnErr, OnOk};
ghost use Rattle.cue_row.specs.Begun.{StillBegins};
ghost use Rattle.cue_table.specs.Inner.ValidWalk.{IsSound};
ghost use Rattle.cue_table.specs.StepsOfCode.{span_of};
ghost use Rattle.cue_codec.specs.Entry.{entries_of};
ghost use Rattle.cue_codec.specs.RowBytes.{row_bytes_from, IsShortRow};
ghost use Rattle.cue_codec.specs.Version.{written_version};
ghost use Rattle.cue_codec.specs.Inner.Spans.{branch_count};
ghost use Rattle.cue_codec.specs.Inner.Ways.{tree_bytes, branches_bytes, branches_of};

use crate::row_writing::put_parts;
use cue_lattice::Memory;
use cue_row::Row;
use cue_table::{Branch, Span};

/// How many branches are kept as one.
pub fn branch_count(span: Span) -> u64
    ensures { result ≡ branch_count (span_of span.entry) }
{
    match span {
        Span::Label(_) => 1,
        Span::Elements { first: _, more } => u64::from(more) + 1,
    }
}

/// The sum of two counts of rows. This takes no memory: an error says that it is beyond any.
fn add_counts(count: u64, more: u64) -> Result<u64, Memory>
    ensures count { IfOk result (λ sum. sum ≡ count + more) }
    ensures beyond { IfErr result (λ memory. 2 ^ 64 ≤ count + more) }
{
    match count.checked_add(more) {
        Some(sum) => Ok(sum),
        None => Err(Memory::too_many(count, more)),
    }
}

/// So many times a count of rows. This takes no memory: an error says that it is beyond any.
fn multiply_counts(count: u64, each: u64) -> Result<u64, Memory>
    ensures count { IfOk result (λ product. product ≡ count * each) }
    ensures beyond { IfErr result (λ memory. 2 ^ 64 ≤ count * each) }
{
    match count.checked_mul(each) {
        Some(product) => Ok(product),
        None => Err(Memory::too_many(u64::MAX, each)),
    }
}

/// How many rows a branch has. What is kept as one is counted once. This takes no memory: an error
/// says that there are more rows than 64 bits tell, and than any memory holds.
pub fn row_count(branch: &Branch<Row>) -> Result<u64, Memory>
    ensures count { IfOk result (λ count. count ≡ length (entries_of written_version branch.now)) }
    ensures beyond { IfErr result (λ memory. 2 ^ 64 ≤ length (entries_of written_version branch.now)) }
{
    let mut count = match branch.row() {
        None => 0,
        Some(_) => 1,
    };
    for (span, below) in branch.spans() {
        let each = row_count(&below)?;
        let rows = multiply_counts(branch_count(span), each)?;
        count = add_counts(count, rows)?;
    }
    match branch.rest() {
        None => Ok(count),
        Some(rest) => {
            let more = row_count(&rest)?;
            add_counts(count, more)
        }
    }
}

/// Writes the row of a place that is so many steps from the root, and from which index on its
/// elements are alike. These steps were written before, as `steps`.
#[tactic(auto, unfolding(crate::specs::RowBytes::row_bytes_from))]
fn put_own_row(
    out: &mut Vec<u8>,
    depth: u8,
    steps: &[u8],
    row: &Row,
    fixed: u64,
) -> Result<(), Memory>
    requires short { IsShortRow row.now }
    requires fixed { fixed < 2 ^ 32 }
    ensures written { OnOk result (out.new.items ≡ out.old.items
        ++ row_bytes_from written_version depth steps.now
        (record { path = []; fixed = fixed; row = row.now })) }
    ensures kept { OnErr result (StillBegins out.old.items out.new.items) }
{
    out.push(depth)?;
    out.extend_from_slice(steps)?;
    out.push(row.level().number())?;
    put_parts(out, row, fixed)
}

/// Writes the row at a branch that is so many steps from the root: of its rows, those of the
/// branches below it are left. The steps to it were written before, as `steps`.
#[inline(always)]
pub fn put_place(
    out: &mut Vec<u8>,
    depth: u8,
    steps: &[u8],
    branch: &Branch<Row>,
) -> Result<(), Memory>
    requires { IsSound branch.now }
    ensures rows { OnOk result (out.new.items
        ++ branches_bytes depth steps.now (branches_of branch.now)
        ≡ out.old.items ++ tree_bytes depth steps.now branch.now) }
    ensures longer { OnOk result (length out.old.items < length out.new.items) }
    ensures kept { OnErr result (StillBegins out.old.items out.new.items) }
{
    match branch.row() {
        None => Ok(()),
        Some(row) => put_own_row(out, depth, steps, row, branch.fixed()),
    }
}
