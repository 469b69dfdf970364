//! What is asked of the tree and of the plain list, for rows of any type.
//!
//! Each call of a table that promises much stands in a function of its own, which promises nothing,
//! and tables that are compared lie in one place, [`Tables`].
use crate::tables::plain::{Entry, Made, Plain};
use cue_lattice::Narrow;
use cue_row::Path;
use cue_table::{Branch, Draft, Place, Slot, Table};
use std::alloc::Global;

/// Two lists of rows.
#[derive(Drop)]
pub struct Two<R: Narrow> {
    pub left: Vec<Entry<R>>,
    pub right: Vec<Entry<R>>,
}

/// Adds a row to a tree.
pub fn put<R: Narrow>(tree: &mut Table<R>, path: &Path, row: &R) -> Made<()> {
    tree.add(path, row)
}

/// Adds rows to a tree, one after the other.
fn put_all<R: Narrow>(tree: &mut Table<R>, rows: &[Entry<R>]) -> Made<()> {
    for entry in rows {
        put(tree, &entry.path, &entry.row)?;
    }
    Ok(())
}

/// The tree of these rows, added one after the other.
pub fn tree<R: Narrow>(alloc: Global, rows: &[Entry<R>]) -> Made<Table<R>> {
    let mut made = Table::new(alloc);
    put_all(&mut made, rows)?;
    Ok(made)
}

/// The plain list of these rows.
fn plain<R: Narrow>(alloc: Global, rows: &[Entry<R>]) -> Made<Plain<R>> {
    let mut made = Plain::new(alloc);
    made.add_all(alloc, rows)?;
    Ok(made)
}

/// Unifies a tree into another one, in place.
pub fn take<R: Narrow>(mine: &mut Table<R>, theirs: Table<R>) -> Made<()> {
    mine.meet_with(theirs)
}

/// Whether the tree that was made is this one.
pub fn is_same<R: Narrow>(made: Made<Table<R>>, tree: &Table<R>) -> Made<bool> {
    Ok(made?.same(tree))
}

/// Whether a place has just the steps of a path.
fn is_place_of(place: &Place, path: &Path) -> bool {
    let (slots, steps) = (place.slots(), path.steps());
    if slots.len() != steps.len() {
        return false;
    }
    for (slot, step) in slots.iter().zip(steps) {
        match slot {
            Slot::At(own) if own.same(step) => {}
            _ => return false,
        }
    }
    true
}

/// Whether the rows of a tree are exactly these.
fn are_rows<R: Narrow>(rows: &[(Place, &R)], wanted: &[Entry<R>]) -> bool {
    if rows.len() != wanted.len() {
        return false;
    }
    for ((place, row), entry) in rows.iter().zip(wanted) {
        if !is_place_of(place, &entry.path) || !row.same(&entry.row) {
            return false;
        }
    }
    true
}

/// Whether the tree lists exactly the rows of the plain list.
pub fn has_rows<R: Narrow>(alloc: Global, tree: &Table<R>, plain: &Plain<R>) -> Made<bool> {
    Ok(are_rows(&tree.rows(alloc)?, &plain.entries))
}

/// Whether the tree lists exactly these rows.
fn has_all<R: Narrow>(alloc: Global, tree: &Table<R>, rows: &[Entry<R>]) -> Made<bool> {
    has_rows(alloc, tree, &plain(alloc, rows)?)
}

/// Whether the tree lists the rows that the plain list of both has.
fn has_both<R: Narrow>(
    alloc: Global,
    tree: &Table<R>,
    left: &[Entry<R>],
    right: &[Entry<R>],
) -> Made<bool> {
    let mut wanted = plain(alloc, left)?;
    wanted.add_all(alloc, right)?;
    has_rows(alloc, tree, &wanted)
}

/// Tables that are made one after the other. What makes one writes it here, so that it is dropped
/// in one place.
#[derive(Drop)]
struct Tables<R: Narrow> {
    first: Table<R>,
    second: Table<R>,
    third: Table<R>,
    fourth: Table<R>,
}

/// Tables without rows.
fn no_tables<R: Narrow>(alloc: Global) -> Tables<R> {
    Tables {
        first: Table::new(alloc),
        second: Table::new(alloc),
        third: Table::new(alloc),
        fourth: Table::new(alloc),
    }
}

/// Makes the tree of these rows.
fn build<R: Narrow>(alloc: Global, out: &mut Table<R>, rows: &[Entry<R>]) -> Made<()> {
    *out = Table::new(alloc);
    put_all(out, rows)
}

/// Makes a copy of a tree.
fn copy<R: Narrow>(alloc: Global, out: &mut Table<R>, tree: &Table<R>) -> Made<()> {
    *out = tree.copy(alloc)?;
    Ok(())
}

/// Adds a row to a tree. At the root, the row that is there is taken off before, and put back.
fn put_by_root<R: Narrow>(alloc: Global, tree: &mut Table<R>, entry: &Entry<R>) -> Made<()> {
    if !entry.path.steps().is_empty() {
        return put(tree, &entry.path, &entry.row);
    }
    let before = tree.take_row();
    tree.meet_row(entry.row.copy(alloc)?)?;
    match before {
        Some(row) => tree.meet_row(row),
        None => Ok(()),
    }
}

/// Adds rows to a tree so, one after the other.
fn put_all_by_root<R: Narrow>(alloc: Global, tree: &mut Table<R>, rows: &[Entry<R>]) -> Made<()> {
    for entry in rows {
        put_by_root(alloc, tree, entry)?;
    }
    Ok(())
}

/// Whether rows that are each given twice make the same table where those at the root are taken
/// over.
fn are_roots<R: Narrow>(alloc: Global, tree: &mut Table<R>, rows: &[Entry<R>]) -> Made<bool> {
    put_all_by_root(alloc, tree, rows)?;
    put_all_by_root(alloc, tree, rows)?;
    has_all(alloc, tree, rows)
}

/// The same of rows that are made.
pub fn roots<R: Narrow>(alloc: Global, rows: Made<Vec<Entry<R>>>) -> Made<bool> {
    let rows = rows?;
    are_roots(alloc, &mut Table::new(alloc), &rows)
}

/// Whether both tell the same row at the path of each of these.
fn agree_at<R: Narrow>(tree: &Table<R>, plain: &Plain<R>, rows: &[Entry<R>]) -> bool {
    for entry in rows {
        match (tree.row(&entry.path), plain.row(&entry.path)) {
            (None, None) => {}
            (Some(mine), Some(theirs)) if mine.same(theirs) => {}
            _ => return false,
        }
    }
    true
}

/// Puts a row behind those of a draft, or tells that it has no place there.
pub fn append<R: Narrow>(
    alloc: Global,
    draft: &mut Draft<R>,
    path: Made<Path>,
    row: &R,
) -> Made<bool> {
    let place = Place::of_path(alloc, path?)?;
    draft.append(&place, row.copy(alloc)?)
}

/// Puts rows behind those of a draft, or tells that one has no place there.
fn append_all<R: Narrow>(alloc: Global, draft: &mut Draft<R>, rows: &[Entry<R>]) -> Made<bool> {
    for entry in rows {
        if !append(alloc, draft, entry.path.copy(alloc), &entry.row)? {
            return Ok(false);
        }
    }
    Ok(true)
}

/// Whether the draft is finished as this tree.
fn is_finished<R: Narrow>(draft: Draft<R>, tree: &Table<R>) -> Made<bool> {
    match draft.finish()? {
        None => Ok(false),
        Some(made) => Ok(made.same(tree)),
    }
}

/// Whether the rows of the plain list, one after the other, make the tree.
fn is_drafted<R: Narrow>(alloc: Global, tree: &Table<R>, plain: &Plain<R>) -> Made<bool> {
    let mut draft = Draft::new(alloc);
    let appended = append_all(alloc, &mut draft, &plain.entries)?;
    Ok(is_finished(draft, tree)? && appended)
}

/// Whether a draft refuses a row at its last place and then each further row, and gives no table.
pub fn stays_refused<R: Narrow>(
    alloc: Global,
    first: Made<Path>,
    next: Made<Path>,
    row: Made<R>,
) -> Made<bool> {
    let (first, row) = (first?, row?);
    let mut draft = Draft::new(alloc);
    let is_first = append(alloc, &mut draft, first.copy(alloc), &row)?;
    let is_again = append(alloc, &mut draft, Ok(first), &row)?;
    let is_next = append(alloc, &mut draft, next, &row)?;
    let table = draft.finish()?;
    Ok(is_first && !is_again && !is_next && table.is_none())
}

/// Whether these rows make the same table both ways, which a copy is equal to, and which is made
/// again by its rows in path order.
fn are_added<R: Narrow>(
    alloc: Global,
    made: &mut Tables<R>,
    plain: &mut Plain<R>,
    rows: &[Entry<R>],
) -> Made<bool> {
    build(alloc, &mut made.first, rows)?;
    copy(alloc, &mut made.second, &made.first)?;
    plain.add_all(alloc, rows)?;
    Ok(
        made.second.same(&made.first)
            && agree_at(&made.first, plain, rows)
            && is_drafted(alloc, &made.first, plain)?
            && has_rows(alloc, &made.first, plain)?,
    )
}

/// The same of rows that are made.
pub fn adds<R: Narrow>(alloc: Global, rows: Made<Vec<Entry<R>>>) -> Made<bool> {
    let rows = rows?;
    are_added(alloc, &mut no_tables(alloc), &mut Plain::new(alloc), &rows)
}

/// Makes the unification of two trees.
fn meet<R: Narrow>(
    alloc: Global,
    out: &mut Table<R>,
    mine: &Table<R>,
    theirs: &Table<R>,
) -> Made<()> {
    *out = mine.meet(alloc, theirs)?;
    Ok(())
}

/// Unifies the tree of these rows into another one, in place.
fn take_rows<R: Narrow>(alloc: Global, mine: &mut Table<R>, rows: &[Entry<R>]) -> Made<()> {
    take(mine, tree(alloc, rows)?)
}

/// Whether the unification of two tables is that of the plain lists, both ways round and in place.
fn meets<R: Narrow>(alloc: Global, made: &mut Tables<R>, two: &Two<R>) -> Made<bool> {
    build(alloc, &mut made.first, &two.left)?;
    build(alloc, &mut made.second, &two.right)?;
    meet(alloc, &mut made.third, &made.first, &made.second)?;
    meet(alloc, &mut made.fourth, &made.second, &made.first)?;
    build(alloc, &mut made.first, &two.left)?;
    take_rows(alloc, &mut made.first, &two.right)?;
    Ok(
        made.third.same(&made.fourth)
            && made.first.same(&made.third)
            && has_both(alloc, &made.third, &two.left, &two.right)?,
    )
}

/// Whether copies of a table that take other rows, one after the other and at once, have both lists
/// of rows, and the table and a further copy the first one alone.
fn parts_from_copies<R: Narrow>(alloc: Global, made: &mut Tables<R>, two: &Two<R>) -> Made<bool> {
    build(alloc, &mut made.first, &two.left)?;
    copy(alloc, &mut made.second, &made.first)?;
    copy(alloc, &mut made.third, &made.first)?;
    put_all(&mut made.third, &two.right)?;
    copy(alloc, &mut made.fourth, &made.first)?;
    take_rows(alloc, &mut made.fourth, &two.right)?;
    Ok(
        made.third.same(&made.fourth)
            && has_both(alloc, &made.fourth, &two.left, &two.right)?
            && has_all(alloc, &made.first, &two.left)?
            && has_all(alloc, &made.second, &two.left)?,
    )
}

/// Whether the plain lists of two lists of rows are the same.
fn plains_are_same<R: Narrow>(alloc: Global, two: &Two<R>) -> Made<bool> {
    Ok(plain(alloc, &two.left)?.same(&plain(alloc, &two.right)?))
}

/// Whether the tree tells two tables apart as the plain list does.
fn tells_apart<R: Narrow>(alloc: Global, made: &mut Tables<R>, two: &Two<R>) -> Made<bool> {
    build(alloc, &mut made.first, &two.left)?;
    build(alloc, &mut made.second, &two.right)?;
    Ok(made.first.same(&made.second) == plains_are_same(alloc, two)?)
}

/// Whether all that is asked of two lists of rows is so: of their unification, of copies of a
/// table, and of what tells both apart.
fn are_alike<R: Narrow>(alloc: Global, made: &mut Tables<R>, two: &Two<R>) -> Made<bool> {
    Ok(
        meets(alloc, made, two)?
            && parts_from_copies(alloc, made, two)?
            && tells_apart(alloc, made, two)?,
    )
}

/// The same of two lists of rows that are made.
pub fn agrees<R: Narrow>(alloc: Global, two: Made<Two<R>>) -> Made<bool> {
    let two = two?;
    are_alike(alloc, &mut no_tables(alloc), &two)
}

/// Whether each row that the first tree refuses leaves it as it was, which the other one shows.
fn is_left<R: Narrow>(mine: &mut Table<R>, before: &mut Table<R>, rows: &[Entry<R>]) -> Made<bool> {
    for entry in rows {
        if put(mine, &entry.path, &entry.row).is_ok() {
            put(before, &entry.path, &entry.row)?;
        } else if !mine.same(before) {
            return Ok(false);
        }
    }
    Ok(mine.same(before))
}

/// Whether each `add` that is refused leaves the table as it was.
fn adds_or_stays<R: Narrow>(alloc: Global, made: &mut Tables<R>, two: &Two<R>) -> Made<bool> {
    build(alloc, &mut made.first, &two.left)?;
    build(alloc, &mut made.second, &two.left)?;
    is_left(&mut made.first, &mut made.second, &two.right)
}

/// Whether the first two tables have a unification and copies.
fn are_met<R: Narrow>(alloc: Global, made: &mut Tables<R>) -> bool {
    let met = meet(alloc, &mut made.third, &made.first, &made.second).is_ok();
    let copied = copy(alloc, &mut made.third, &made.first).is_ok()
        && copy(alloc, &mut made.fourth, &made.second).is_ok();
    met && copied
}

/// Whether both tables are as they were after a unification into a third that was refused, and
/// after copies that were.
fn meets_or_stays<R: Narrow>(alloc: Global, made: &mut Tables<R>, two: &Two<R>) -> Made<bool> {
    build(alloc, &mut made.first, &two.left)?;
    build(alloc, &mut made.second, &two.right)?;
    Ok(
        are_met(alloc, made)
            || has_all(alloc, &made.first, &two.left)? && has_all(alloc, &made.second, &two.right)?,
    )
}

/// Whether a unification in place that is refused leaves the table as it was.
fn takes_or_stays<R: Narrow>(alloc: Global, made: &mut Tables<R>, two: &Two<R>) -> Made<bool> {
    build(alloc, &mut made.first, &two.left)?;
    build(alloc, &mut made.second, &two.left)?;
    let theirs = tree(alloc, &two.right)?;
    let refused = take(&mut made.first, theirs).is_err();
    Ok(!refused || made.first.same(&made.second))
}

/// Whether tables are as they were where a call is refused.
fn are_as_before<R: Narrow>(alloc: Global, made: &mut Tables<R>, two: &Two<R>) -> Made<bool> {
    Ok(
        adds_or_stays(alloc, made, two)?
            && meets_or_stays(alloc, made, two)?
            && takes_or_stays(alloc, made, two)?,
    )
}

/// The same of two lists of rows that are made.
pub fn stays<R: Narrow>(alloc: Global, two: Made<Two<R>>) -> Made<bool> {
    let two = two?;
    are_as_before(alloc, &mut no_tables(alloc), &two)
}

/// Whether these are the labels below a branch.
pub fn has_labels<R: Narrow>(branch: &Branch<R>, wanted: &[&str]) -> bool {
    let mut rest = wanted.iter();
    for (label, _) in branch.labels() {
        match rest.next() {
            Some(name) if label == *name => {}
            _ => return false,
        }
    }
    rest.next().is_none()
}

/// Whether these are the indexes below a branch, with a row at each that says so.
pub fn has_indexes<R: Narrow>(branch: &Branch<R>, wanted: &[(u32, bool)]) -> bool {
    let mut rest = wanted.iter();
    for (index, lower) in branch.items() {
        match rest.next() {
            Some((at, is_row)) if index == *at && lower.row().is_some() == *is_row => {}
            _ => return false,
        }
    }
    rest.next().is_none()
}
