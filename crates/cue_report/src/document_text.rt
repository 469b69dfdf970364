ghost use Rattle.std.specs.Prelude.{◌≡◌, [], ◌∷◌, Some, OnOk, OnErr, IfOk, string_bytes};
ghost use Rattle.json.specs.Tree.{json_tokens};
ghost use Rattle.cue_row.specs.Row.{IsRow, RowRefusesQuestion};
ghost use Rattle.cue_table.specs.Refuses.{TableRefuses};
ghost use Rattle.cue_table.specs.Tree.{row_of};
ghost use Rattle.serde_json.specs.Data.{Data};
ghost use Rattle.serde_json.specs.Written.{compact_text, outline};
ghost use Rattle.cue_report.specs.Export.{data_of};
ghost use Rattle.cue_report.specs.Inner.GapSearch.{AtPlace};
ghost use Rattle.cue_report.specs.Inner.Search.{least_at};
ghost use Rattle.cue_report.specs.Stream.{WritesTokensPrefix, flow_of};
ghost use Rattle.cue_report.specs.Inner.Writing.{WritesJson, WritesDocument, WritesElements, WritesMembers};
ghost use Rattle.cue_report.specs.Inner.Writing.{WritesScalar, WritesDocumentPrefix, BreaksInDocument};
ghost use Rattle.cue_report.specs.Inner.Writing.{BreaksInElements, BreaksInMembers, IsDocumentOf};
ghost use Rattle.cue_report.specs.Inner.Writing.{PutsDocument};

use crate::demand::{is_demanded, least_of};
use crate::exporting::{is_free, pick_scalar};
use crate::stream::Stream;
use cue_device::TextSink;
use cue_lattice::Memory;
use cue_row::{Row, Step};
use cue_scalars::Scalar;
use cue_table::{Branch, StepRef, Table};
use json::Token;
use std::alloc::Global;

/// The text of the document of a table without conflicts, as JSON (RFC 8259) without any space.
pub(crate) fn document_text(alloc: Global, table: &Table<Row>) -> Result<String, Memory>
    ensures { IfOk result (λ text. (json : Data) × (string_bytes text ≡ compact_text json)
        × IsDocumentOf (TableRefuses RowRefusesQuestion table.now) json) }
{
    let mut text = String::new(alloc);
    write_table_document(alloc, table, &mut text)?;
    Ok(text)
}

/// Tells that text part after part while the table is walked, with no tree of values between.
///
/// # Errors
///
/// Where no more is taken; then the front of the text was.
pub(crate) fn write_table_document<S: TextSink>(
    alloc: Global,
    table: &Table<Row>,
    out: &mut S,
) -> Result<(), S::SinkError>
    ensures told { OnOk result (PutsDocument (TableRefuses RowRefusesQuestion table.now)
        (S.taken out.old) (S.taken out.new)) }
    ensures begun { OnErr result (WritesDocumentPrefix (TableRefuses RowRefusesQuestion table.now)
        (S.taken out.old) (S.taken out.new)) }
{
    let mut stream = Stream::new(alloc)?;
    write_document(alloc, &mut stream, out, &table.root())?;
    stream.drain(out)?;
    Ok(())
}

/// Writes the document of a place and all below it. Where only scalars may stand, but none is left,
/// it is null.
#[cycle(walk)]
fn write_document<S: TextSink>(
    alloc: Global,
    stream: &mut Stream,
    out: &mut S,
    branch: &Branch<Row>,
) -> Result<(), S::SinkError>
    ensures told { OnOk result (WritesDocument (TableRefuses RowRefusesQuestion branch.now)
        (flow_of (S.taken out.old) stream.old) (flow_of (S.taken out.new) stream.new)) }
    ensures begun { OnErr result (BreaksInDocument (TableRefuses RowRefusesQuestion branch.now)
        (flow_of (S.taken out.old) stream.old) (S.taken out.new)) }
{
    let Some(row) = branch.row() else {
        stream.token(out, Token::Null)?;
        return Ok(());
    };
    if is_free(row) {
        stream.token(out, Token::Null)?;
        return Ok(());
    }
    if row.struct_ok() {
        return write_members(alloc, stream, out, branch);
    }
    if row.list_ok() {
        return write_elements(alloc, stream, out, branch);
    }
    write_scalar(alloc, stream, out, row)
}

/// Writes an object of the demanded labels below a place, each with its document.
#[cycle(walk)]
fn write_members<S: TextSink>(
    alloc: Global,
    stream: &mut Stream,
    out: &mut S,
    branch: &Branch<Row>,
) -> Result<(), S::SinkError>
    ensures told { OnOk result (WritesMembers (TableRefuses RowRefusesQuestion branch.now)
        (flow_of (S.taken out.old) stream.old) (flow_of (S.taken out.new) stream.new)) }
    ensures begun { OnErr result (BreaksInMembers (TableRefuses RowRefusesQuestion branch.now)
        (flow_of (S.taken out.old) stream.old) (S.taken out.new)) }
{
    let row = branch.row();
    stream.token(out, Token::BeginObject)?;
    for (step, child) in branch.children() {
        match step {
            StepRef::Label(name) => {
                if is_demanded(row, step, child.row()) {
                    stream.token(out, Token::Key(name.as_str()))?;
                    write_document(alloc, stream, out, &child)?;
                }
            }
            StepRef::Index(_) => {}
        }
    }
    stream.token(out, Token::EndObject)?;
    Ok(())
}

/// Writes a list of as many elements as each list has at a place, each with its document. An
/// element of which nothing is known is null.
#[cycle(walk)]
fn write_elements<S: TextSink>(
    alloc: Global,
    stream: &mut Stream,
    out: &mut S,
    branch: &Branch<Row>,
) -> Result<(), S::SinkError>
    ensures told { OnOk result (WritesElements (TableRefuses RowRefusesQuestion branch.now)
        (least_at (row_of branch.now))
        (flow_of (S.taken out.old) stream.old) (flow_of (S.taken out.new) stream.new)) }
    ensures begun { OnErr result (BreaksInElements (TableRefuses RowRefusesQuestion branch.now)
        (least_at (row_of branch.now))
        (flow_of (S.taken out.old) stream.old) (S.taken out.new)) }
{
    stream.token(out, Token::BeginArray)?;
    for number in 0..least_of(branch.row()) {
        match branch.find(&Step::Index(number)) {
            None => stream.token(out, Token::Null)?,
            Some(child) => write_document(alloc, stream, out, &child)?,
        }
    }
    stream.token(out, Token::EndArray)?;
    Ok(())
}

/// Writes the scalar that is told at a place: the chosen one or, where none is chosen, the first
/// one. Where none may stand, it is null.
fn write_scalar<S: TextSink>(
    alloc: Global,
    stream: &mut Stream,
    out: &mut S,
    row: &Row,
) -> Result<(), S::SinkError>
    ensures told { IsRow row.now → OnOk result (WritesScalar (AtPlace (Some row.now))
        (flow_of (S.taken out.old) stream.old) (flow_of (S.taken out.new) stream.new)) }
    ensures begun { OnErr result
        (WritesTokensPrefix (flow_of (S.taken out.old) stream.old) (S.taken out.new) []) }
{
    match pick_scalar(alloc, row)? {
        None => stream.token(out, Token::Null)?,
        Some(scalar) => write_one(stream, out, &scalar)?,
    }
    Ok(())
}

/// Writes a scalar.
fn write_one<S: TextSink>(
    stream: &mut Stream,
    out: &mut S,
    scalar: &Scalar,
) -> Result<(), S::SinkError>
    ensures told { OnOk result (WritesJson (flow_of (S.taken out.old) stream.old)
        (flow_of (S.taken out.new) stream.new) (data_of scalar.now)) }
    ensures begun { OnErr result
        (WritesTokensPrefix (flow_of (S.taken out.old) stream.old) (S.taken out.new) []) }
{
    match scalar {
        Scalar::Null => stream.token(out, Token::Null)?,
        Scalar::Bool(truth) => stream.token(out, Token::Bool(*truth))?,
        Scalar::Int(integer) => stream.integer(out, *integer)?,
        Scalar::Text(text) => stream.token(out, Token::String(text.as_str()))?,
    }
    Ok(())
}
