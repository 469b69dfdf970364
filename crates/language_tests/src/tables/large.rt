//! Tables with many branches at one place, put in one by one in mixed order, or a few at a time.
use crate::tables::both::{append, is_same, put, take};
use crate::tables::plain::{Made, add};
use cue_lattice::Narrow;
use cue_row::{Path, Step};
use cue_table::{Draft, Table};
use std::alloc::Global;

/// How many branches there are.
const COUNT: u32 = 3000;

/// How far apart two branches stand that are put in one after the other. It has no divisor in
/// common with how many there are, so that each is put in once.
const STRIDE: u32 = 1009;

/// The place of the branch that is put in when so many were.
fn place(alloc: Global, turn: u32) -> Made<Path> {
    let number = turn as u64 * STRIDE as u64 % COUNT as u64;
    at(alloc, number as u32)
}

/// The place of a branch.
fn at(alloc: Global, number: u32) -> Made<Path> {
    let mut steps = Vec::new(alloc);
    add(&mut steps, Step::Index(number))?;
    Ok(Path::new(steps).unwrap_or(Path::root(alloc)))
}

/// Puts the row at every so many-th place into a draft, from the first to the last.
fn append_in_order<R: Narrow>(
    alloc: Global,
    draft: &mut Draft<R>,
    row: &R,
    every: usize,
) -> Made<()> {
    for number in 0..COUNT {
        if every != 0 && number as usize % every == 0 {
            append(alloc, draft, at(alloc, number), row)?;
        }
    }
    Ok(())
}

/// The table with the row at every so many-th place, put in from the first to the last.
fn in_order<R: Narrow>(alloc: Global, row: &R, every: usize) -> Made<Table<R>> {
    let mut draft = Draft::new(alloc);
    append_in_order(alloc, &mut draft, row, every)?;
    Ok(draft.finish()?.unwrap_or(Table::new(alloc)))
}

/// Puts the row in, in mixed order, from one turn up to another one.
fn put_turns<R: Narrow>(
    alloc: Global,
    table: &mut Table<R>,
    row: &R,
    turns: (u32, u32),
) -> Made<()> {
    for turn in turns.0..turns.1 {
        put(table, &place(alloc, turn)?, row)?;
    }
    Ok(())
}

/// Whether rows that are put in one by one in mixed order make the table of those in order.
fn is_mixed<R: Narrow>(alloc: Global, mixed: &mut Table<R>, row: &R) -> Made<bool> {
    put_turns(alloc, mixed, row, (0, COUNT))?;
    is_same(in_order(alloc, row, 1), mixed)
}

/// The same of a row that is made.
pub fn mixes<R: Narrow>(alloc: Global, row: Made<R>) -> Made<bool> {
    let row = row?;
    is_mixed(alloc, &mut Table::new(alloc), &row)
}

/// The table of three rows from a turn on, or of as many as are left.
fn small<R: Narrow>(alloc: Global, row: &R, turn: u32) -> Made<Table<R>> {
    let mut table = Table::new(alloc);
    let end = turn.saturating_add(3).min(COUNT);
    put_turns(alloc, &mut table, row, (turn, end))?;
    Ok(table)
}

/// Unifies small tables into one, until all rows are in, and then one without rows.
fn take_small_ones<R: Narrow>(alloc: Global, large: &mut Table<R>, row: &R) -> Made<()> {
    for third in 0..COUNT / 3 + 1 {
        take(large, small(alloc, row, third.saturating_mul(3))?)?;
    }
    Ok(())
}

/// Whether a table that has every second row, unified with small ones of three rows each, becomes
/// that of all rows.
fn is_all<R: Narrow>(alloc: Global, large: &mut Table<R>, row: &R) -> Made<bool> {
    take_small_ones(alloc, large, row)?;
    is_same(in_order(alloc, row, 1), large)
}

/// The same of a row that is made.
pub fn takes_small_ones<R: Narrow>(alloc: Global, row: Made<R>) -> Made<bool> {
    let row = row?;
    is_all(alloc, &mut in_order(alloc, &row, 2)?, &row)
}
