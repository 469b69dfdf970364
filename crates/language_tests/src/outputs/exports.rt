//! What an export comes to.
use crate::outputs::sample::{Known, LACKING, Made, WHOLE, is, table};
use cue_report::{Export, export, lines, write_export};
use cue_row::Row;
use cue_table::Table;
use std::alloc::Global;
use std::test::Fail;

/// The export of a table.
fn exported(alloc: Global, table: &Table<Row>) -> Made<Export> {
    export(alloc, table)
}

/// The JSON of an export of a table, or the lines of what is in its way.
fn export_listed(alloc: Global, table: &Table<Row>) -> Made<String> {
    match exported(alloc, table)? {
        Export::Json(text) => Ok(text),
        Export::Conflicts(found) => lines(alloc, &found, &[]),
        Export::Incomplete(gaps) => lines(alloc, &[], &gaps),
    }
}

/// The export of a table, told as text.
fn export_written(alloc: Global, table: &Table<Row>) -> Made<String> {
    let mut text = String::new(alloc);
    write_export(alloc, table, &mut text)?;
    Ok(text)
}

/// Whether the table with these places is exported so, by lists and as text.
fn exports(alloc: Global, places: &[Known], wanted: &str) -> Made<bool> {
    let table = table(alloc, places)?;
    Ok(is(export_listed(alloc, &table), wanted)? && is(export_written(alloc, &table), wanted)?)
}

#[test]
fn tables_are_exported(rt: HostRuntime) -> Result<(), Fail> {
    let json = "{\"a\":{\"c\":-1},\"b\":2,\"l\":[1,[]]}";
    assert!(rt; exports(rt.alloc(), WHOLE, json)?);
    assert!(rt; exports(rt.alloc(), LACKING, "conflict c no value\n")?);
    assert!(rt; exports(rt.alloc(), &[], "incomplete . not a single value\n")?);
    Ok(())
}
