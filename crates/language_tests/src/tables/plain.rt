//! A table as the list of its rows in strict path order, without free rows: the plainest form there
//! is.
use cue_lattice::{Memory, Narrow};
use cue_row::Path;
use std::alloc::Global;
use std::cmp::Ordering;

/// What a call has made where memory was there. It goes on to the next call as it is, so that a
/// test holds no value that is dropped on its ways out.
pub type Made<T> = Result<T, Memory>;

/// Puts an item at the end of a list.
pub fn add<T: Drop>(list: &mut Vec<T>, item: T) -> Made<()> {
    list.push(item)?;
    Ok(())
}

/// Puts an item in at a place of a list.
fn put<T: Drop>(list: &mut Vec<T>, at: usize, item: T) -> Made<()> {
    if at <= list.len() {
        list.insert(at, item)?;
    }
    Ok(())
}

/// A row and where it stands.
#[derive(Drop)]
pub struct Entry<R: Narrow> {
    pub path: Path,
    pub row: R,
}

/// The entry of a path and a row.
fn copied<R: Narrow>(alloc: Global, path: &Path, row: &R) -> Made<Entry<R>> {
    Ok(Entry {
        path: path.copy(alloc)?,
        row: row.copy(alloc)?,
    })
}

/// The rows of a table, in path order.
#[derive(Drop)]
pub struct Plain<R: Narrow> {
    pub entries: Vec<Entry<R>>,
}

impl<R: Narrow> Plain<R> {
    pub fn new(alloc: Global) -> Plain<R> {
        Plain {
            entries: Vec::new(alloc),
        }
    }

    /// The row at a path; nothing means that the path is free.
    pub fn row(&self, path: &Path) -> Option<&R> {
        for entry in &self.entries {
            if entry.path.compare(path) == Ordering::Equal {
                return Some(&entry.row);
            }
        }
        None
    }

    /// How many rows stand before a path.
    fn place(&self, path: &Path) -> usize {
        for (at, entry) in self.entries.iter().enumerate() {
            if entry.path.compare(path) != Ordering::Less {
                return at;
            }
        }
        self.entries.len()
    }

    /// Meets the row at the path with another one.
    pub fn add(&mut self, alloc: Global, path: &Path, row: &R) -> Made<()> {
        if row.is_free() {
            return Ok(());
        }
        let at = self.place(path);
        if let Some(entry) = self.entries.get_mut(at) {
            if entry.path.compare(path) == Ordering::Equal {
                entry.row = entry.row.meet(alloc, row)?;
                return Ok(());
            }
        }
        put(&mut self.entries, at, copied(alloc, path, row)?)
    }

    /// Adds all rows of a list, one after the other.
    pub fn add_all(&mut self, alloc: Global, rows: &[Entry<R>]) -> Made<()> {
        for entry in rows {
            self.add(alloc, &entry.path, &entry.row)?;
        }
        Ok(())
    }

    pub fn same(&self, other: &Plain<R>) -> bool {
        if self.entries.len() != other.entries.len() {
            return false;
        }
        for (mine, theirs) in self.entries.iter().zip(other.entries.iter()) {
            if mine.path.compare(&theirs.path) != Ordering::Equal || !mine.row.same(&theirs.row) {
                return false;
            }
        }
        true
    }
}
