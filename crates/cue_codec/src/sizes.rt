//! How many bytes a state takes, as far as 64 bits tell. None of it takes memory.

ghost use Rattle.std.specs.Prelude.{◌≡◌, ℕ, List, ◌+◌};
ghost use Rattle.std.specs.List.{flat_map};
ghost use Rattle.std.specs.Option.{option_map};
ghost use Rattle.cue_table.specs.StepsOfCode.{step_at};
ghost use Rattle.cue_table.specs.Tree.{fixed_of};
ghost use Rattle.cue_codec.specs.Entry.{at, entries_of};
ghost use Rattle.cue_codec.specs.Parts.{counted_bytes, text_bytes, set_bytes, labels_bytes};
ghost use Rattle.cue_codec.specs.Parts.{lengths_bytes, step_bytes};
ghost use Rattle.cue_codec.specs.RowBytes.{row_part_bytes, parts_of_row, row_bytes_from};
ghost use Rattle.cue_codec.specs.Size.{at_most_64_bits, size_of};
ghost use Rattle.cue_codec.specs.State.{table_bytes};
ghost use Rattle.cue_codec.specs.Version.{written_version};

use crate::branches::branch_count;
use crate::rows::is_empty;
use cue_lattice::Text;
use cue_row::{Row, Scalars};
use cue_table::{Branch, StepRef, Table};

fn add(left: u64, right: u64) -> u64
    ensures { result ≡ at_most_64_bits (left + right) }
{
    u64::saturating_add(left, right)
}

fn texts_size(texts: &[Text]) -> u64
    ensures { result ≡ size_of (counted_bytes text_bytes texts.now) }
{
    let mut size = 8;
    for text in texts {
        size = add(add(size, 2), text.as_bytes().len() as u64);
    }
    size
}

#[tactic(auto, using(crate::proofs::Lengths::set_length))]
fn set_size(set: &Scalars) -> u64
    ensures { result ≡ size_of (set_bytes set.now) }
{
    let pieces = u64::saturating_mul(16, set.pieces().len() as u64);
    let (_, texts) = set.texts();
    add(add(10, pieces), texts_size(texts))
}

#[tactic(auto, using(crate::proofs::Lengths::lengths_of_labels))]
fn labels_size(labels: Option<&[Text]>) -> u64
    ensures { result ≡ size_of (labels_bytes (option_map (λ texts. texts.now) labels.entry)) }
{
    match labels {
        None => 1,
        Some(texts) => add(1, texts_size(texts)),
    }
}

#[tactic(auto, using(crate::proofs::Lengths::open_length, crate::proofs::Lengths::closed_length))]
fn lengths_size(least: u32, most: Option<u32>) -> u64
    ensures { (fixed : ℕ) → result ≡ size_of (lengths_bytes written_version (least, most, fixed)) }
{
    match most {
        None => 9,
        Some(_) => 13,
    }
}

/// How many bytes the parts of a row take, from whichever index on its elements are alike.
#[tactic(auto, using(crate::proofs::Lengths::lengths_of_parts))]
fn parts_size(row: &Row) -> u64
    ensures { (fixed : ℕ) → result ≡ size_of (row_part_bytes written_version (parts_of_row row.now fixed)) }
{
    match (row.struct_ok(), row.list_ok()) {
        (true, true) => 1,
        (true, false) => add(1, labels_size(row.labels())),
        (false, true) => add(1, lengths_size(row.least(), row.most())),
        (false, false) => {
            if is_empty(&row.value()) {
                let left_out = lengths_size(row.least(), row.most());
                return add(1, add(labels_size(row.labels()), left_out));
            }
            add(1, add(set_size(&row.value()), set_size(&row.usual())))
        }
    }
}

/// How many bytes a label or an index takes.
#[tactic(auto, using(crate::proofs::Lengths::label_length, crate::proofs::Lengths::index_length))]
fn step_size(step: StepRef) -> u64
    ensures { result ≡ size_of (step_bytes written_version (at (step_at step.entry))) }
{
    match step {
        StepRef::Label(text) => add(3, text.as_bytes().len() as u64),
        StepRef::Index(_) => 5,
    }
}

/// How many bytes the rows of a branch take, where the bytes of the steps to it are so many. What
/// is kept as one is walked once, as each index takes as many bytes.
fn rows_size(steps: u64, branch: &Branch<Row>) -> u64
    ensures { (depth : ℕ) (bytes : List ℕ) → steps ≡ size_of bytes
        → result ≡ size_of (flat_map (row_bytes_from written_version depth bytes)
        (entries_of written_version branch.now)) }
{
    let mut size = match branch.row() {
        None => 0,
        // a byte for the number of steps, and one for the level
        Some(row) => add(add(2, steps), parts_size(row)),
    };
    for (span, below) in branch.spans() {
        let one = rows_size(add(steps, step_size(span.first())), &below);
        size = add(size, u64::saturating_mul(branch_count(span), one));
    }
    match branch.rest() {
        None => size,
        // a byte for the step to the rest
        Some(rest) => add(size, rows_size(add(steps, 1), &rest)),
    }
}

/// How many bytes the state of a table takes, or the greatest number of 64 bits where it is more.
/// This takes no memory.
#[tactic(auto, using(crate::proofs::Lengths::state_length))]
pub fn size(table: &Table<Row>) -> u64
    ensures { result ≡ size_of (table_bytes table.now) }
{
    // the mark, the version and the count
    add(13, rows_size(0, &table.root()))
}
