//! Writes, reads, prints and reports on large tables, to see how the cost grows with their size.
//!
//! The samples are how many bytes the states of small tables have. With the words WORK SHAPE COUNT
//! ROUNDS a table and its state are made, the work is done so many times, and it is told how many
//! bytes the state has. WORK is `encode`, `decode`, `copy` (the bytes alone are copied),
//! `conflicts`, `incomplete`, `export` or `print`. SHAPE is one of these:
//! - `wide`: COUNT fields, each with an integer, at the top.
//! - `deep`: COUNT such fields under a parent 61 levels down.
//! - `texts`: one field, which may be one of COUNT texts.
//! - `open`: COUNT fields at the top, each of which may be any integer.
//! - `clashing`: COUNT fields at the top, in each of which nothing may stand.
//! - `closed`: COUNT fields, each with an integer, of a struct that allows their labels alone.
ghost use Rattle.cue_table.specs.Valid.{IsValidTable};

use crate::fault::{Fault, number};
use anyhow::Error;
use cue_codec::{decode, encode};
use cue_lattice::{Memory, Narrow, Text};
use cue_print::print;
use cue_report::{conflicts, export, incomplete};
use cue_row::{LabelSet, Level};
use cue_scalars::ScalarSet;
use cue_sets::{IntSet, TextSet};
use cue_table::{Draft, Path, Place, Row, Step, Table};
use std::alloc::Global;

/// What is done with a table or its state.
#[derive(Clone, Copy)]
enum Work {
    Encode,
    Decode,
    Copy,
    Conflicts,
    Incomplete,
    Export,
    Print,
}

impl Work {
    fn named(name: &str) -> Option<Work> {
        match name {
            "encode" => Some(Work::Encode),
            "decode" => Some(Work::Decode),
            "copy" => Some(Work::Copy),
            "conflicts" => Some(Work::Conflicts),
            "incomplete" => Some(Work::Incomplete),
            "export" => Some(Work::Export),
            "print" => Some(Work::Print),
            _ => None,
        }
    }
}

/// What a table is like.
#[derive(Clone, Copy)]
enum Shape {
    Wide,
    Deep,
    Texts,
    Open,
    Clashing,
    Closed,
}

impl Shape {
    const ALL: [Shape; 6] = [
        Shape::Wide,
        Shape::Deep,
        Shape::Texts,
        Shape::Open,
        Shape::Clashing,
        Shape::Closed,
    ];

    fn name(self) -> &'static str {
        match self {
            Shape::Wide => "wide",
            Shape::Deep => "deep",
            Shape::Texts => "texts",
            Shape::Open => "open",
            Shape::Clashing => "clashing",
            Shape::Closed => "closed",
        }
    }

    fn named(name: &str) -> Option<Shape> {
        match name {
            "wide" => Some(Shape::Wide),
            "deep" => Some(Shape::Deep),
            "texts" => Some(Shape::Texts),
            "open" => Some(Shape::Open),
            "clashing" => Some(Shape::Clashing),
            "closed" => Some(Shape::Closed),
            _ => None,
        }
    }

    /// How many levels down the parent of the fields is.
    fn levels(self) -> usize {
        match self {
            Shape::Deep => 61,
            Shape::Closed => 1,
            Shape::Wide | Shape::Texts | Shape::Open | Shape::Clashing => 0,
        }
    }
}

/// The path of the parent that is so many levels down.
fn parent(alloc: Global, levels: usize) -> Result<Vec<Step>, Memory> {
    let mut steps = Vec::new(alloc);
    for _ in 0..levels {
        steps.push(Step::Label(Text::from_str(alloc, "l")?))?;
    }
    Ok(steps)
}

/// The path that has these steps.
fn path(alloc: Global, steps: Vec<Step>) -> Path {
    Path::new(steps).unwrap_or(Path::root(alloc))
}

/// The label of a numbered field.
fn label(alloc: Global, number: u32) -> Result<Text, Memory> {
    Text::new(alloc, format!(in alloc; "f{number:08}")?)
}

/// The path of a numbered field whose parent is so many levels down.
fn field(alloc: Global, levels: usize, number: u32) -> Result<Path, Memory> {
    let mut steps = parent(alloc, levels)?;
    steps.push(Step::Label(label(alloc, number)?))?;
    Ok(path(alloc, steps))
}

/// The table of so many fields with equal rows, whose parent is so many levels down.
fn table<R: Narrow>(
    alloc: Global,
    levels: usize,
    fields: u32,
    root: &R,
    outer: &R,
    row: &R,
) -> Result<Table<R>, Memory> {
    let mut made = Draft::new(alloc);
    let _is_kept = made.append(&Place::root(alloc), root.copy(alloc)?)?;
    for level in 0..levels {
        let steps = parent(alloc, level.saturating_add(1))?;
        let place = Place::of_path(alloc, path(alloc, steps))?;
        let _is_kept = made.append(&place, outer.copy(alloc)?)?;
    }
    for number in 0..fields {
        let place = Place::of_path(alloc, field(alloc, levels, number)?)?;
        let _is_kept = made.append(&place, row.copy(alloc)?)?;
    }
    Ok(made.finish()?.unwrap_or(Table::new(alloc)))
}

/// The row of a field that has one of these scalars.
fn scalar(alloc: Global, value: ScalarSet) -> Result<Row, Memory> {
    let usual = value.copy(alloc)?;
    Row::of_scalars(alloc, Level::Given, value, usual)
}

/// The row of a field that has an integer as its value.
pub fn integer_row(alloc: Global) -> Result<Row, Memory> {
    scalar(alloc, integers(alloc, IntSet::one(7)))
}

/// The members of a set of integers.
fn integers(alloc: Global, ints: IntSet) -> ScalarSet {
    ScalarSet {
        null: false,
        no: false,
        yes: false,
        ints,
        texts: TextSet::none(alloc),
    }
}

/// The set of so many texts.
fn texts(alloc: Global, count: u32) -> Result<ScalarSet, Memory> {
    let mut list = Vec::new(alloc);
    for number in 0..count {
        list.push(Text::new(alloc, format!(in alloc; "t{number:08}")?)?)?;
    }
    Ok(ScalarSet {
        null: false,
        no: false,
        yes: false,
        ints: IntSet::empty(alloc),
        texts: match TextSet::from_texts(false, list) {
            Some(set) => set,
            None => TextSet::none(alloc),
        },
    })
}

/// The labels of so many fields, and no others.
fn labels(alloc: Global, fields: u32) -> Result<LabelSet, Memory> {
    let mut list = Vec::new(alloc);
    for number in 0..fields {
        list.push(label(alloc, number)?)?;
    }
    match LabelSet::listing(list) {
        Some(labels) => Ok(labels),
        None => Ok(LabelSet::all(alloc)),
    }
}

/// How many fields the table of this shape has, with so many fields or texts.
fn fields(shape: Shape, count: u32) -> u32 {
    match shape {
        Shape::Texts => 1,
        Shape::Wide | Shape::Deep | Shape::Open | Shape::Clashing | Shape::Closed => count,
    }
}

/// What may stand at each field of the table of this shape.
fn value(alloc: Global, shape: Shape, count: u32) -> Result<ScalarSet, Memory> {
    match shape {
        Shape::Wide | Shape::Deep | Shape::Closed => Ok(integers(alloc, IntSet::one(7))),
        Shape::Open => Ok(integers(alloc, IntSet::full())),
        Shape::Clashing => Ok(ScalarSet::empty(alloc)),
        Shape::Texts => texts(alloc, count),
    }
}

/// The labels that the parent of the fields allows.
fn allowed(alloc: Global, shape: Shape, count: u32) -> Result<LabelSet, Memory> {
    match shape {
        Shape::Closed => labels(alloc, count),
        Shape::Wide | Shape::Deep | Shape::Texts | Shape::Open | Shape::Clashing => {
            Ok(LabelSet::all(alloc))
        }
    }
}

/// The row at the top.
fn top(alloc: Global) -> Result<Row, Memory> {
    Row::of_struct(alloc, Level::Optional, LabelSet::all(alloc))
}

/// The row of the parent of the fields.
fn outer(alloc: Global, shape: Shape, count: u32) -> Result<Row, Memory> {
    Row::of_struct(alloc, Level::Given, allowed(alloc, shape, count)?)
}

/// The row of a field.
fn inner(alloc: Global, shape: Shape, count: u32) -> Result<Row, Memory> {
    scalar(alloc, value(alloc, shape, count)?)
}

/// The table of this shape with so many fields or texts.
fn shaped(alloc: Global, shape: Shape, count: u32) -> Result<Table<Row>, Memory> {
    let root = top(alloc)?;
    let outer = outer(alloc, shape, count)?;
    let row = inner(alloc, shape, count)?;
    table(
        alloc,
        shape.levels(),
        fields(shape, count),
        &root,
        &outer,
        &row,
    )
}

/// Reads a state.
fn read(alloc: Global, bytes: &[u8]) -> Result<(), Error> {
    match decode(alloc, bytes) {
        Ok(_table) => Ok(()),
        Err(kind) => Err(Fault::Refused(kind).into()),
    }
}

/// Does the work once, on a valid table.
fn do_work(alloc: Global, work: Work, table: &Table<Row>, bytes: &[u8]) -> Result<(), Error>
    requires { IsValidTable table.now }
{
    match work {
        Work::Encode => {
            let _state = encode(alloc, table)?;
        }
        Work::Decode => read(alloc, bytes)?,
        Work::Copy => {
            let _state = Vec::from_slice(alloc, bytes)?;
        }
        Work::Conflicts => {
            let _found = conflicts(alloc, table)?;
        }
        Work::Incomplete => {
            let _gaps = incomplete(alloc, table)?;
        }
        Work::Export => {
            let _export = export(alloc, table)?;
        }
        Work::Print => {
            let _text = print(alloc, table)?;
        }
    }
    Ok(())
}

/// Does the work so many times, and says how many bytes the state has.
fn measured(
    alloc: Global,
    work: Work,
    shape: Shape,
    count: u32,
    rounds: u32,
) -> Result<usize, Error> {
    let table = shaped(alloc, shape, count)?;
    if !table.is_valid() {
        return Err(Fault::Invalid.into());
    }
    let bytes = encode(alloc, &table)?;
    for _ in 0..rounds {
        do_work(alloc, work, &table, &bytes)?;
    }
    Ok(bytes.len())
}

/// What is asked for in words, and what came of it.
pub fn run_part(alloc: Global, words: &[String]) -> Result<String, Error> {
    if words.len() < 4 {
        return Err(Fault::Usage.into());
    }
    let work = Work::named(words[0].as_str()).ok_or(Fault::Usage)?;
    let shape = Shape::named(words[1].as_str()).ok_or(Fault::Usage)?;
    let count = number(words[2].as_str())?;
    let rounds = number(words[3].as_str())?;
    let bytes = measured(alloc, work, shape, count, rounds)?;
    Ok(format!(in alloc; "{bytes}")?)
}

/// How many bytes the states of small tables have, a line for each shape.
pub fn samples(alloc: Global) -> Result<String, Error> {
    let mut out = String::new(alloc);
    let mut separator = "";
    for shape in Shape::ALL {
        let bytes = measured(alloc, Work::Decode, shape, 3, 1)?;
        let line = format!(in alloc; "{separator}{} {bytes}", shape.name())?;
        out.push_str(line.as_str())?;
        separator = "\n";
    }
    Ok(out)
}
