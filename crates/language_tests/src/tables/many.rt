//! What is asked of tables that are made of many, for rows of any type.
ghost use Rattle.std.specs.Prelude.{◌<◌, IfOk};
ghost use Rattle.cue_lattice.specs.Limits.{step_limit};
ghost use Rattle.cue_table.specs.Depth.{tree_depth};

use crate::tables::both::{has_rows, is_same, tree};
use crate::tables::plain::{Entry, Made, Plain, add};
use cue_lattice::{Narrow, STEP_LIMIT};
use cue_row::{Path, Step};
use cue_table::Table;
use std::alloc::Global;

/// Rows that are given for a step.
#[derive(Drop)]
pub struct Given<R: Narrow> {
    pub step: Step,
    pub rows: Vec<Entry<R>>,
}

/// The trees of lists of rows.
fn trees<R: Narrow>(alloc: Global, lists: &[Vec<Entry<R>>]) -> Made<Vec<Table<R>>> {
    let mut tables = Vec::new(alloc);
    for rows in lists {
        add(&mut tables, tree(alloc, rows)?)?;
    }
    Ok(tables)
}

/// Whether a table has the rows of all lists.
fn has_lists<R: Narrow>(alloc: Global, table: &Table<R>, lists: &[Vec<Entry<R>>]) -> Made<bool> {
    let mut wanted = Plain::new(alloc);
    for rows in lists {
        wanted.add_all(alloc, rows)?;
    }
    has_rows(alloc, table, &wanted)
}

/// Whether the tables of these lists, unified as a list, have the rows of all.
pub fn unifies<R: Narrow>(alloc: Global, lists: Made<Vec<Vec<Entry<R>>>>) -> Made<bool> {
    let lists = lists?;
    let all = Table::unify_all(alloc, trees(alloc, &lists)?)?;
    has_lists(alloc, &all, &lists)
}

/// The tree of the rows whose paths leave room for one step more.
fn shallow<R: Narrow>(alloc: Global, rows: &[Entry<R>]) -> Made<Table<R>>
    ensures { IfOk result (λ table. tree_depth table < step_limit) }
{
    let mut made = Table::new(alloc);
    for entry in rows {
        if entry.path.steps().len() < STEP_LIMIT {
            made.add(&entry.path, &entry.row)?;
        }
    }
    Ok(made)
}

/// The table of branches that are given so.
fn hung<R: Narrow>(alloc: Global, branches: &[Given<R>]) -> Made<Table<R>> {
    let mut tables = Vec::new(alloc);
    for given in branches {
        tables.push((given.step.copy(alloc)?, shallow(alloc, &given.rows)?))?;
    }
    Table::of_branches(alloc, tables)
}

/// The path that a step begins.
fn below(alloc: Global, step: &Step, path: &Path) -> Made<Path> {
    let mut steps = Vec::new(alloc);
    add(&mut steps, step.copy(alloc)?)?;
    for next in path.steps() {
        add(&mut steps, next.copy(alloc)?)?;
    }
    Ok(Path::new(steps).unwrap_or(Path::root(alloc)))
}

/// Adds the rows that are given for a step to a plain list, each one step further from the root.
fn add_below<R: Narrow>(alloc: Global, wanted: &mut Plain<R>, given: &Given<R>) -> Made<()> {
    for entry in &given.rows {
        let path = below(alloc, &given.step, &entry.path)?;
        wanted.add(alloc, &path, &entry.row)?;
    }
    Ok(())
}

/// Whether a table has the rows of each branch below its step.
fn has_branches<R: Narrow>(alloc: Global, table: &Table<R>, branches: &[Given<R>]) -> Made<bool> {
    let mut wanted = Plain::new(alloc);
    for given in branches {
        add_below(alloc, &mut wanted, given)?;
    }
    has_rows(alloc, table, &wanted)
}

/// Whether the table of branches that are given so has the rows of each below its step.
pub fn hangs<R: Narrow>(alloc: Global, branches: Made<Vec<Given<R>>>) -> Made<bool> {
    let branches = branches?;
    let table = hung(alloc, &branches)?;
    has_branches(alloc, &table, &branches)
}

/// Where a stretch of elements begins that is given so.
fn start<R: Narrow>(given: &Given<R>) -> u32 {
    match given.step {
        Step::Label(_) => 0,
        Step::Index(number) => number,
    }
}

/// The table of the list that has these stretches.
fn listed<R: Narrow>(alloc: Global, stretches: &[Given<R>]) -> Made<Table<R>> {
    let mut tables = Vec::new(alloc);
    for given in stretches {
        tables.push((u64::from(start(given)), shallow(alloc, &given.rows)?))?;
    }
    Table::of_elements(alloc, tables)
}

/// Adds rows to an element.
fn add_element<R: Narrow>(
    alloc: Global,
    list: &mut Table<R>,
    number: u32,
    rows: &[Entry<R>],
) -> Made<()> {
    let step = Step::Index(number);
    for entry in rows {
        list.add(&below(alloc, &step, &entry.path)?, &entry.row)?;
    }
    Ok(())
}

/// Adds the elements of the other stretches to a list, each by itself.
fn add_elements<R: Narrow>(
    alloc: Global,
    list: &mut Table<R>,
    end: u32,
    others: &[Given<R>],
) -> Made<()> {
    let mut end = end;
    for given in others {
        for number in start(given)..end {
            add_element(alloc, list, number, &given.rows)?;
        }
        end = end.min(start(given));
    }
    Ok(())
}

/// The same list, made element by element, and with a rest.
fn spelled<R: Narrow>(alloc: Global, stretches: &[Given<R>]) -> Made<Table<R>> {
    let mut list = Table::new(alloc);
    if let Some((last, others)) = stretches.split_first() {
        let from = start(last);
        list.meet_rest(u64::from(from), shallow(alloc, &last.rows)?)?;
        add_elements(alloc, &mut list, from, others)?;
    }
    Ok(list)
}

/// Whether a list that is given by its stretches, from the last one to the first, is the one that
/// is made element by element.
pub fn lists<R: Narrow>(alloc: Global, stretches: Made<Vec<Given<R>>>) -> Made<bool> {
    let stretches = stretches?;
    let list = listed(alloc, &stretches)?;
    is_same(spelled(alloc, &stretches), &list)
}

/// Adds a rest to the list at a path, where both together are not too deep, as the table's own
/// depth says.
fn add_rest<R: Narrow>(list: &mut Table<R>, path: &Path, from: u32, rest: &Table<R>) -> Made<bool> {
    if path.steps().len() + 1 + rest.depth() > STEP_LIMIT {
        return Ok(false);
    }
    list.add_rest(path, from, rest)?;
    Ok(true)
}

/// Whether something is known of the element with this index of the list at a path.
fn has_element<R: Narrow>(alloc: Global, table: &Table<R>, list: &Path, index: u32) -> Made<bool> {
    if list.steps().len() >= STEP_LIMIT {
        return Ok(false);
    }
    let path = list.then(alloc, &Step::Index(index))?;
    Ok(table.row(&path).is_some())
}

/// Whether a rest that is added at a path from index 2 on is in the elements from there on, and in
/// no others, and the table is as deep then as it says.
pub fn rests<R: Narrow>(
    alloc: Global,
    rows: &[Entry<R>],
    rest: &[Entry<R>],
    list: &Path,
) -> Made<bool> {
    let mut table = tree(alloc, rows)?;
    let rest = tree(alloc, rest)?;
    let is_added = add_rest(&mut table, list, 2, &rest)?;
    let is_deeper = table.depth() == list.steps().len() + 1 + rest.depth();
    let has_before = has_element(alloc, &table, list, 1)?;
    let has_further = has_element(alloc, &table, list, 3)?;
    Ok(is_added && is_deeper && !has_before && has_further)
}

/// Whether the root, as a table of its own, is the table.
pub fn is_own_root<R: Narrow>(alloc: Global, rows: &[Entry<R>]) -> Made<bool> {
    let table = tree(alloc, rows)?;
    Ok(table.root().to_table(alloc)?.same(&table))
}
