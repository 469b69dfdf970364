//! Unifies tables of many rows, to see how the cost grows with their size.
//!
//! The samples are how many rows come of small tables. With the words WORK SHAPE ROWS ROUNDS the
//! work is done on a table of so many rows, and it is told whether the first row is there. WORK is
//! `fragments` (tables of 30 new rows each, as many as ROUNDS, are unified into it, one after the
//! other), `known` (tables of 30 rows that it has already), `equal` (it is unified with an equal
//! one, at most once) or `disjoint` (with one of as many rows that lie between its own, at most
//! once). With no rounds the tables are only made. SHAPE is `wide` (all rows under one parent) or
//! `deep` (all rows under one parent 61 levels down).
use crate::fault::{Fault, number};
use crate::tables::integer_row;
use anyhow::Error;
use cue_lattice::{Memory, Narrow, Text};
use cue_table::{Draft, Path, Place, Step, Table};
use std::alloc::Global;

/// Where the parent of all rows is.
#[derive(Clone, Copy)]
enum Shape {
    Wide,
    Deep,
}

impl Shape {
    fn named(name: &str) -> Option<Shape> {
        match name {
            "wide" => Some(Shape::Wide),
            "deep" => Some(Shape::Deep),
            _ => None,
        }
    }

    fn levels(self) -> usize {
        match self {
            Shape::Wide => 0,
            Shape::Deep => 61,
        }
    }
}

/// What is done with a table.
#[derive(Clone, Copy)]
enum Work {
    Fragments,
    Known,
    Equal,
    Disjoint,
}

impl Work {
    fn named(name: &str) -> Option<Work> {
        match name {
            "fragments" => Some(Work::Fragments),
            "known" => Some(Work::Known),
            "equal" => Some(Work::Equal),
            "disjoint" => Some(Work::Disjoint),
            _ => None,
        }
    }
}

/// Fields with numbers, from the first on and so far apart.
#[derive(Clone, Copy)]
struct Fields {
    first: u32,
    apart: u32,
    count: u32,
}

/// The path of a numbered field.
fn path(alloc: Global, shape: Shape, number: u32) -> Result<Path, Memory> {
    let mut steps = Vec::new(alloc);
    for _level in 0..shape.levels() {
        steps.push(Step::Label(Text::from_str(alloc, "level")?))?;
    }
    let label = Text::new(alloc, format!(in alloc; "f{number:010}")?)?;
    steps.push(Step::Label(label))?;
    Ok(Path::new(steps).unwrap_or(Path::root(alloc)))
}

/// The table that has the row at each of the fields.
fn table<R: Narrow>(
    alloc: Global,
    shape: Shape,
    fields: Fields,
    row: &R,
) -> Result<Table<R>, Memory> {
    let mut made = Draft::new(alloc);
    let mut number = fields.first;
    for _ in 0..fields.count {
        let place = Place::of_path(alloc, path(alloc, shape, number)?)?;
        let _is_kept = made.append(&place, row.copy(alloc)?)?;
        number = number.saturating_add(fields.apart);
    }
    Ok(made.finish()?.unwrap_or(Table::new(alloc)))
}

/// The tables that are unified into one of so many rows, whose fields have the even numbers.
fn parts(work: Work, rows: u32, round: u32) -> Fields {
    match work {
        Work::Fragments => Fields {
            first: round.saturating_mul(2).saturating_add(1),
            apart: rows / 30 * 2,
            count: 30,
        },
        Work::Known => Fields {
            first: round.saturating_mul(2),
            apart: rows / 30 * 2,
            count: 30,
        },
        Work::Equal => Fields {
            first: 0,
            apart: 2,
            count: rows,
        },
        Work::Disjoint => Fields {
            first: 1,
            apart: 2,
            count: rows,
        },
    }
}

/// The table of so many rows, with the others unified into it.
fn unify_rows<R: Narrow>(
    alloc: Global,
    work: Work,
    shape: Shape,
    rows: u32,
    rounds: u32,
    row: &R,
) -> Result<Table<R>, Memory> {
    let mut made = table(alloc, shape, parts(Work::Equal, rows, 0), row)?;
    let mut others = Vec::new(alloc);
    let count = match work {
        Work::Fragments | Work::Known => 1000,
        Work::Equal | Work::Disjoint => 1,
    };
    for round in 0..count {
        others.push(table(alloc, shape, parts(work, rows, round), row)?)?;
    }
    let mut left = rounds;
    for other in others {
        if left > 0 {
            made.meet_with(other)?;
            left -= 1;
        }
    }
    Ok(made)
}

/// How many rows the table has.
fn count<R: Narrow>(alloc: Global, table: &Table<R>) -> Result<usize, Memory> {
    Ok(table.rows(alloc)?.len())
}

/// Whether the field is there.
fn is_there<R: Narrow>(
    alloc: Global,
    shape: Shape,
    number: u32,
    table: &Table<R>,
) -> Result<bool, Memory> {
    Ok(table.row(&path(alloc, shape, number)?).is_some())
}

/// How many rows a small table has after the work.
fn sample<R: Narrow>(
    alloc: Global,
    work: Work,
    shape: Shape,
    rounds: u32,
    row: &R,
) -> Result<usize, Memory> {
    let made = unify_rows(alloc, work, shape, 60, rounds, row)?;
    count(alloc, &made)
}

/// How many rows small tables have, a line for each work.
fn sampled<R: Narrow>(alloc: Global, shape: Shape, row: &R) -> Result<String, Memory> {
    let fragments = sample(alloc, Work::Fragments, shape, 2, row)?;
    let known = sample(alloc, Work::Known, shape, 2, row)?;
    let equal = sample(alloc, Work::Equal, shape, 1, row)?;
    let disjoint = sample(alloc, Work::Disjoint, shape, 1, row)?;
    Ok(format!(in alloc; "{fragments}\n{known}\n{equal}\n{disjoint}")?)
}

/// Whether the first row is there after the work that the words ask for.
fn do_work<R: Narrow>(alloc: Global, words: &[String], row: &R) -> Result<bool, Error> {
    if words.len() < 4 {
        return Err(Fault::Usage.into());
    }
    let work = Work::named(words[0].as_str()).ok_or(Fault::Usage)?;
    let shape = Shape::named(words[1].as_str()).ok_or(Fault::Usage)?;
    let rows = number(words[2].as_str())?;
    let rounds = number(words[3].as_str())?;
    let made = unify_rows(alloc, work, shape, rows, rounds, row)?;
    Ok(is_there(alloc, shape, 0, &made)?)
}

/// What is asked for in words, and what came of it.
pub fn run_part(alloc: Global, words: &[String]) -> Result<String, Error> {
    let found = do_work(alloc, words, &integer_row(alloc)?)?;
    Ok(format!(in alloc; "{found}")?)
}

/// How many rows small tables of both shapes have, a line for each work.
pub fn samples(alloc: Global) -> Result<String, Memory> {
    let row = integer_row(alloc)?;
    let wide = sampled(alloc, Shape::Wide, &row)?;
    let deep = sampled(alloc, Shape::Deep, &row)?;
    Ok(format!(in alloc; "{wide}\n{deep}")?)
}
