//! The printed value of a place.
ghost use Rattle.std.specs.Prelude.{◌≡◌, ◌↔◌, ◌⊎◌, ◌<◌, ◌++◌, ℕ, List, Some, IfOk, IsTrue, string_bytes};
ghost use Rattle.std.specs.Option.{option_map};
ghost use Rattle.cue_lattice.specs.Limits.{step_limit};
ghost use Rattle.cue_print.specs.Printed.{value_of};
ghost use Rattle.cue_print.specs.Spelled as spelled;
ghost use Rattle.cue_row.specs.Kinds.{IsRowKind};
ghost use Rattle.cue_row.specs.Quoted.{quote_text};
ghost use Rattle.cue_row.specs.declared.kind.RowKind.TheVariants as kinds;
ghost use Rattle.cue_table.specs.Depth.{tree_depth};
ghost use Rattle.cue_table.specs.Form.{IsTreeTaken};
ghost use Rattle.cue_table.specs.Tree.{row_of};
ghost use Rattle.cue_table.specs.Valid.{IsOpenStruct};
ghost use Rattle.cue_places.specs.Inner.Fields.{name, one_field};
ghost use Rattle.cue_places.specs.Values.{IsFileValue};

use cue_lattice::{Memory, Narrow, STEP_LIMIT, Text};
use cue_print::print;
use cue_row::{LabelSet, Level, Row, Step};
use cue_table::Table;
use std::alloc::Global;

/// Whether a table is printed as a file: an open struct is at its root, or anything may be.
pub fn is_file(table: &Table<Row>) -> bool
    ensures { IsTrue result ↔ IsFileValue table.now }
{
    match table.root().row() {
        None => true,
        Some(row) => is_file_row(row),
    }
}

/// The canonical text of a table as a value, with a line break behind. The text of a table that is
/// too deep for a field, which no place below a root is, is that of its file.
///
/// # Errors
///
/// `Memory`.
pub fn value_text(alloc: Global, table: &Table<Row>) -> Result<String, Memory>
    ensures { tree_depth table.now < step_limit → IfOk result (λ text.
        string_bytes text ≡ spelled.line (spelled.value_text (value_of table.now))) }
{
    match table.root().row() {
        None => Ok(String::from_str(alloc, "_\n")?),
        Some(row) => text_at(alloc, table, row.level()),
    }
}

/// The canonical text of a table with a row of this level at its root.
fn text_at(alloc: Global, table: &Table<Row>, level: Level) -> Result<String, Memory>
    requires { option_map (λ row. row.level) (row_of table.now) ≡ Some level }
    ensures { tree_depth table.now < step_limit → IfOk result (λ text.
        string_bytes text ≡ spelled.line (spelled.value_text (value_of table.now))) }
{
    if table.depth() >= STEP_LIMIT {
        return print(alloc, table);
    }
    let field = with_field(alloc, table.copy(alloc)?)?;
    let text = print(alloc, &field)?;
    value_in(alloc, text.as_str(), level)
}

/// What is printed behind the label of the field and the mark of its level.
fn value_in(alloc: Global, field: &str, level: Level) -> Result<String, Memory>
    ensures { (value : List ℕ) → field.now ≡ (quote_text name ++ spelled.mark_text level) ++ value
        → IfOk result (λ text. string_bytes text ≡ value) }
{
    match level {
        Level::Optional => text_behind(alloc, field, "\"v\"?: "),
        Level::Required => text_behind(alloc, field, "\"v\"!: "),
        Level::Given => text_behind(alloc, field, "\"v\": "),
    }
}

/// What is behind the front of a text; nothing where this is not its front.
fn text_behind(alloc: Global, text: &str, front: &str) -> Result<String, Memory>
    ensures { (value : List ℕ) → text.now ≡ front.now ++ value
        → IfOk result (λ text. string_bytes text ≡ value) }
{
    match text.strip_prefix(front) {
        Some(value) => Ok(String::from_str(alloc, value)?),
        None => Ok(String::new(alloc)),
    }
}

/// An open struct with one field.
fn with_field(alloc: Global, value: Table<Row>) -> Result<Table<Row>, Memory>
    requires depth { tree_depth value < step_limit }
    requires some { IsTreeTaken value }
    ensures { IfOk result (λ table. table ≡ one_field value) }
{
    let _form = value.root();
    let mut fields = Vec::new(alloc);
    fields.push((Step::Label(Text::from_str(alloc, "v")?), value))?;
    let mut table = Table::of_branches(alloc, fields)?;
    let row = Row::of_struct(alloc, Level::Optional, LabelSet::all(alloc))?;
    row.known();
    table.meet_row(row)?;
    Ok(table)
}

/// Whether a row lets an open struct be, or anything.
fn is_file_row(row: &Row) -> bool
    ensures { IsTrue result ↔ (IsRowKind row.now kinds.Free ⊎ IsOpenStruct row.now) }
{
    if !row.struct_ok() {
        return false;
    }
    if row.list_ok() {
        return row.has_all_scalars();
    }
    if !row.has_no_scalar() {
        return false;
    }
    row.labels().is_none()
}
