ghost use Rattle.std.specs.Prelude.{◌≡◌, IfOk, OnErr, OnOk, string_bytes};
ghost use Rattle.std.specs.Io.KnownBytes.{Appends};
ghost use Rattle.std.specs.List.{flat_map};
ghost use Rattle.cue_device.specs.Texts.{WritesPrefix};
ghost use Rattle.cue_table.specs.Tree.{below};
ghost use Rattle.cue_print.specs.Printed.{fields_below, file_of};
ghost use Rattle.cue_print.specs.Spelled.{line, field_texts, file_text};

use crate::value::push_field;
use crate::writer::Scratch;
use cue_device::TextSink;
use cue_lattice::Memory;
use cue_row::Row;
use cue_table::{Branch, Table};
use std::alloc::Global;

/// The canonical text of a table: a line for each field at the top, in the order of their labels;
/// where nothing is known, `_` alone.
pub fn print(alloc: Global, table: &Table<Row>) -> Result<String, Memory>
    ensures { IfOk result (λ text. string_bytes text ≡ file_text (file_of table.now)) }
{
    let mut out = String::new(alloc);
    print_to(alloc, table, &mut out)?;
    Ok(out)
}

/// Writes the canonical text of a table while the table is walked, in memory that goes with the
/// table.
///
/// # Errors
///
/// Where the sink takes no more, or memory is wanting; then the walk ends, and what the sink took
/// begins the text.
pub fn print_to<S: TextSink>(
    alloc: Global,
    table: &Table<Row>,
    out: &mut S,
) -> Result<(), S::SinkError>
    ensures told { OnOk result (Appends (S.taken out.old) (S.taken out.new)
        (file_text (file_of table.now))) }
    ensures begun { OnErr result (WritesPrefix (S.taken out.old) (S.taken out.new)
        (file_text (file_of table.now))) }
{
    let mut scratch = Scratch::new(alloc);
    let root = table.root();
    push_file(&mut scratch, out, &root)
}

/// Writes what the root of a table is printed as.
fn push_file<S: TextSink>(
    scratch: &mut Scratch,
    out: &mut S,
    root: &Branch<Row>,
) -> Result<(), S::SinkError>
    ensures told { OnOk result (Appends (S.taken out.old) (S.taken out.new)
        (file_text (file_of root.now))) }
    ensures begun { OnErr result (WritesPrefix (S.taken out.old) (S.taken out.new)
        (file_text (file_of root.now))) }
{
    match root.row() {
        None => out.put("_\n"),
        Some(_) => push_lines(scratch, out, root),
    }
}

/// Writes a line for each field of a place.
fn push_lines<S: TextSink>(
    scratch: &mut Scratch,
    out: &mut S,
    branch: &Branch<Row>,
) -> Result<(), S::SinkError>
    ensures told { OnOk result (Appends (S.taken out.old) (S.taken out.new)
        (flat_map line (field_texts (fields_below (below branch.now))))) }
    ensures begun { OnErr result (WritesPrefix (S.taken out.old) (S.taken out.new)
        (flat_map line (field_texts (fields_below (below branch.now))))) }
{
    for (label, field) in branch.labels() {
        push_field(scratch, out, label, &field)?;
        out.put("\n")?;
    }
    Ok(())
}
