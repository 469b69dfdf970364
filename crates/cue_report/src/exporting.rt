ghost use Rattle.std.specs.Prelude.{◌≡◌, ◌↔◌, ◌⊎◌, [], false, Some, IfOk, IfSome, IfNone, IsTrue};
ghost use Rattle.std.specs.Prelude.{OnErr};
ghost use Rattle.cue_lattice.specs.declared.scalar.Scalar.{Scalar as Scalars};
ghost use Rattle.cue_row.specs.Row.{IsRow, RowRefusesQuestion};
ghost use Rattle.cue_table.specs.Tree.{row_of};
ghost use Rattle.cue_table.specs.Refuses.{TableRefuses};
ghost use Rattle.cue_table.specs.Valid.{IsValidTable};
ghost use Rattle.serde_json.specs.View.{view, members_view, items_view};
ghost use Rattle.serde_json.specs.Written.{has_float, members_have_float, items_have_float};
ghost use Rattle.cue_report.specs.Answers.{HasNoScalar};
ghost use Rattle.cue_report.specs.Inner.Clear.{IsClear};
ghost use Rattle.cue_report.specs.Documents.{SomeMeets, IsDocumentOf, IsExactExport};
ghost use Rattle.cue_report.specs.Export.{IsShape, IsExport, AreKeys, AreMembers};
ghost use Rattle.cue_report.specs.Export.{AreElements, keys, count_elements, data_of};
ghost use Rattle.cue_report.specs.Inner.GapSearch.{AtPlace};
ghost use Rattle.cue_report.specs.Inner.Search.{least_at};
ghost use Rattle.cue_report.specs.Gaps.{IsFreeRow};
ghost use Rattle.cue_report.specs.ExportText.{WritesExportPrefix, WritesExport};
ghost use Rattle.cue_report.specs.Picks.{IsPicked};

use crate::demand::{is_demanded, least_of};
use crate::document_text::{document_text, write_table_document};
use crate::{Export, ExportKind, conflicts, incomplete, write_conflicts, write_gaps};
use cue_device::TextSink;
use cue_lattice::{Memory, Narrow};
use cue_row::{Row, Step};
use cue_scalars::Scalar;
use cue_table::{Branch, StepRef, Table};
use serde_json::{Map, Value, put};
use std::alloc::Global;

/// Exports a table: its conflicts where there are any; otherwise its gaps where there are any;
/// otherwise the document: an object of the demanded labels where a struct stands, a list of the
/// least length where a list stands, and the chosen scalar elsewhere.
pub fn export(alloc: Global, table: &Table<Row>) -> Result<Export, Memory>
    ensures export { IfOk result (λ export. IsExport (TableRefuses RowRefusesQuestion table.now) export) }
    // Of a valid table: with conflicts no document meets it; what is told in JSON is one that does,
    // and each of its scalars is the chosen one.
    ensures exact { IsValidTable table.now
        → IfOk result (λ export. IsExactExport (TableRefuses RowRefusesQuestion table.now) export) }
{
    let found = conflicts(alloc, table)?;
    if !found.is_empty() {
        return Ok(Export::Conflicts(found));
    }
    let gaps = incomplete(alloc, table)?;
    if !gaps.is_empty() {
        return Ok(Export::Incomplete(gaps));
    }
    let text = document_text(alloc, table)?;
    Ok(Export::Json(text))
}

/// Tells the export of a table as text, and what it comes to: what [`export`] tells, with a line
/// for each conflict or gap. It is told while the table is walked, lines one by one and JSON in
/// parts.
///
/// # Errors
///
/// Where no more is taken; then the front of the text was.
pub fn write_export<S: TextSink>(
    alloc: Global,
    table: &Table<Row>,
    out: &mut S,
) -> Result<ExportKind, S::SinkError>
    ensures export { IfOk result (λ kind. WritesExport (TableRefuses RowRefusesQuestion table.now) kind
        (S.taken out.old) (S.taken out.new)) }
    ensures begun { OnErr result (WritesExportPrefix (TableRefuses RowRefusesQuestion table.now)
        (S.taken out.old) (S.taken out.new)) }
{
    let conflicting = write_conflicts(alloc, table, out)?;
    if conflicting {
        return Ok(ExportKind::Conflicts);
    }
    let lacking = write_gaps(alloc, table, out)?;
    if lacking {
        return Ok(ExportKind::Incomplete);
    }
    write_table_document(alloc, table, out)?;
    Ok(ExportKind::Json)
}

/// A document that meets a table, also where the table is incomplete: an object of the demanded
/// labels where a struct stands, a list of the least length where a list stands, null where
/// anything may stand, and elsewhere the chosen scalar or, where none is chosen, the first one:
/// null, false, true, integers upwards, texts by their bytes. There is none where there are
/// conflicts.
///
/// The table is to be a valid one.
pub fn document(alloc: Global, table: &Table<Row>) -> Result<Option<Value>, Memory>
    ensures some { IsValidTable table.now → IfOk result (λ found. IfSome found
        (λ value. IsDocumentOf IsPicked (TableRefuses RowRefusesQuestion table.now) (view value))) }
    ensures none { IsValidTable table.now → IfOk result (λ found. IfNone found
        (¬ SomeMeets (TableRefuses RowRefusesQuestion table.now))) }
    ensures no_float { IfOk result (λ found. IfSome found
        (λ value. has_float (view value) ≡ false)) }
{
    let clashes = conflicts(alloc, table)?;
    if !clashes.is_empty() {
        return Ok(None);
    }
    let document = document_of(alloc, &table.root())?;
    Ok(Some(document))
}

/// The document of a place and all below it. Where only scalars may stand, but none is left, it is
/// null.
#[cycle(walk)]
fn document_of(alloc: Global, branch: &Branch<Row>) -> Result<Value, Memory>
    ensures document { IfOk result (λ value. IsClear (TableRefuses RowRefusesQuestion branch.now)
        → IsShape IsPicked (TableRefuses RowRefusesQuestion branch.now) (view value)) }
    ensures no_float { IfOk result (λ value. has_float (view value) ≡ false) }
{
    let Some(row) = branch.row() else {
        return Ok(Value::Null);
    };
    if is_free(row) {
        return Ok(Value::Null);
    }
    if row.struct_ok() {
        let members = members_of(alloc, branch)?;
        return Ok(Value::Object(members));
    }
    if row.list_ok() {
        let elements = elements_of(alloc, branch)?;
        return Ok(Value::Array(elements));
    }
    let value = scalar_of(alloc, row)?;
    Ok(value)
}

/// Whether anything may stand at a place.
pub(crate) fn is_free(row: &Row) -> bool
    ensures { IsTrue result ↔ IsFreeRow (AtPlace (Some row.now)) [] }
{
    if !row.struct_ok() {
        return false;
    }
    if !row.list_ok() {
        return false;
    }
    row.has_all_scalars()
}

/// The scalar that is told at a place, in JSON: the chosen one or, where none is chosen, the first
/// one. Where none may stand, it is null.
fn scalar_of(alloc: Global, row: &Row) -> Result<Value, Memory>
    ensures picked { IsRow row.now → IfOk result (λ value.
        ((scalar : Scalars) × IsPicked (AtPlace (Some row.now)) [] scalar
        × (view value ≡ data_of scalar))
        ⊎ HasNoScalar (AtPlace (Some row.now)) []) }
    ensures no_float { IfOk result (λ value. has_float (view value) ≡ false) }
{
    match pick_scalar(alloc, row)? {
        None => Ok(Value::Null),
        Some(scalar) => Ok(json_of(alloc, scalar)?),
    }
}

/// The chosen scalar of a place or, where none is chosen, the first one.
#[inline(always)]
pub(crate) fn pick_scalar(alloc: Global, row: &Row) -> Result<Option<Scalar>, Memory>
    ensures some { IsRow row.now → IfOk result (λ found.
        IfSome found (IsPicked (AtPlace (Some row.now)) [])) }
    ensures none { IsRow row.now → IfOk result (λ found.
        IfNone found (HasNoScalar (AtPlace (Some row.now)) [])) }
{
    match row.chosen(alloc)? {
        Some(scalar) => Ok(Some(scalar)),
        None => {
            let first = row.first_scalar(alloc)?;
            Ok(first)
        }
    }
}

/// The demanded labels below a place, each with its document.
#[cycle(walk)]
fn members_of(alloc: Global, branch: &Branch<Row>) -> Result<Map<String, Value>, Memory>
    ensures keys { IfOk result (λ members.
        AreKeys (TableRefuses RowRefusesQuestion branch.now) (keys (members_view members.entries))) }
    ensures members { IfOk result (λ members. IsClear (TableRefuses RowRefusesQuestion branch.now)
        → AreMembers IsPicked (TableRefuses RowRefusesQuestion branch.now) (members_view members.entries)) }
    ensures no_float { IfOk result (λ members.
        members_have_float (members_view members.entries) ≡ false) }
{
    let row = branch.row();
    let mut members = Map::new(alloc);
    for (step, child) in branch.children() {
        match step {
            StepRef::Label(name) => {
                if is_demanded(row, step, child.row()) {
                    let document = document_of(alloc, &child)?;
                    put(&mut members, alloc, name.as_str(), document)?;
                }
            }
            StepRef::Index(_) => {}
        }
    }
    Ok(members)
}

/// As many elements as each list has at a place, each with its document. An element of which
/// nothing is known is null.
#[cycle(walk)]
fn elements_of(alloc: Global, branch: &Branch<Row>) -> Result<Vec<Value>, Memory>
    ensures least { IfOk result (λ elements.
        count_elements (items_view elements.items) ≡ least_at (row_of branch.now)) }
    ensures elements { IfOk result (λ elements. IsClear (TableRefuses RowRefusesQuestion branch.now)
        → AreElements IsPicked (TableRefuses RowRefusesQuestion branch.now) 0 (items_view elements.items)) }
    ensures no_float { IfOk result (λ elements.
        items_have_float (items_view elements.items) ≡ false) }
{
    let mut elements = Vec::new(alloc);
    for number in 0..least_of(branch.row()) {
        let document = match branch.find(&Step::Index(number)) {
            None => Value::Null,
            Some(child) => document_of(alloc, &child)?,
        };
        elements.push(document)?;
    }
    Ok(elements)
}

/// A scalar as JSON.
fn json_of(alloc: Global, scalar: Scalar) -> Result<Value, Memory>
    ensures json { IfOk result (λ value. view value ≡ data_of scalar) }
    ensures no_float { IfOk result (λ value. has_float (view value) ≡ false) }
{
    Ok(match scalar {
        Scalar::Null => Value::Null,
        Scalar::Bool(truth) => Value::Bool(truth),
        Scalar::Int(integer) => Value::from(integer),
        Scalar::Text(text) => Value::String(text.into_string(alloc)?),
    })
}
