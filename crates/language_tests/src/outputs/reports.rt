//! What stands in the way of an export, as lines.
use crate::outputs::sample::{Known, LACKING, Made, WHOLE, is, path, steps, table};
use cue_report::{
    Conflict, Gap, ReportPlace, conflicts, incomplete, lines, path_text, write_conflicts,
    write_gaps,
};
use cue_row::Row;
use cue_table::Table;
use std::alloc::Global;
use std::test::Fail;

/// The conflicts of a table.
fn found(alloc: Global, table: &Table<Row>) -> Made<Vec<Conflict>> {
    conflicts(alloc, table)
}

/// The gaps of a table.
fn gaps(alloc: Global, table: &Table<Row>) -> Made<Vec<Gap>> {
    incomplete(alloc, table)
}

/// The lines of conflicts, and then those of gaps.
fn told(alloc: Global, conflicts: Made<Vec<Conflict>>, gaps: Made<Vec<Gap>>) -> Made<String> {
    lines(alloc, &conflicts?, &gaps?)
}

/// The lines of the conflicts of a table, and behind them those of its gaps.
fn report_written(alloc: Global, table: &Table<Row>) -> Made<String> {
    let mut text = String::new(alloc);
    write_conflicts(alloc, table, &mut text)?;
    write_gaps(alloc, table, &mut text)?;
    Ok(text)
}

/// Whether these lines are told of the table with these places, by lists and as text.
fn reports(alloc: Global, places: &[Known], wanted: &str) -> Made<bool> {
    let table = table(alloc, places)?;
    let listed = told(alloc, found(alloc, &table), gaps(alloc, &table));
    let written = report_written(alloc, &table);
    Ok(is(listed, wanted)? && is(written, wanted)?)
}

#[test]
fn tables_are_reported(rt: HostRuntime) -> Result<(), Fail> {
    assert!(rt; reports(rt.alloc(), WHOLE, "")?);
    let lacking = concat!(
        "conflict c no value\n",
        "incomplete a missing\n",
        "incomplete a.b not a single value\n",
        "incomplete l.0 not a single value\n",
        "incomplete l.1.0 not a single value\n",
        "incomplete l.2 not a single value\n"
    );
    assert!(rt; reports(rt.alloc(), LACKING, lacking)?);
    assert!(rt; reports(rt.alloc(), &[], "incomplete . not a single value\n")?);
    Ok(())
}

/// The text of the path that a word tells.
fn write_path(alloc: Global, word: &str) -> Made<String> {
    path_text(alloc, &path(alloc, word)?)
}

/// The text of the place that a word tells.
fn write_place(alloc: Global, word: &str) -> Made<String> {
    ReportPlace::new(steps(alloc, word)?).to_text(alloc)
}

#[test]
fn paths_are_told_step_by_step(rt: HostRuntime) -> Result<(), Fail> {
    let alloc = rt.alloc();
    assert!(rt; is(write_path(alloc, ""), ".")?);
    assert!(rt; is(write_path(alloc, "a1b"), "a.1.b")?);
    assert!(rt; is(write_place(alloc, "a1b"), "a.1.b")?);
    Ok(())
}
