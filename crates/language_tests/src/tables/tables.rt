//! Each list of rows through the tree and through the plain list.
use crate::tables::both::{
    adds, agrees, has_indexes, has_labels, roots, stays, stays_refused, tree,
};
use crate::tables::large::{mixes, takes_small_ones};
use crate::tables::many::{hangs, is_own_root, lists, rests, unifies};
use crate::tables::plain::Made;
use crate::tables::sample::{
    BRANCHES, CLASHES, DEEP, LIST, STRETCHES, STRUCTS, first_tables, given, path, row, rows, texts,
    two,
};
use cue_row::{Path, Row};
use cue_table::Table;
use std::alloc::Global;
use std::mem::size_of;
use std::test::Fail;

#[test]
fn adds_rows_as_the_plain_list_does(rt: HostRuntime) -> Result<(), Fail> {
    for text in texts() {
        assert!(rt; adds(rt.alloc(), rows(rt.alloc(), text))?, "{text}");
    }
    Ok(())
}

#[test]
fn unifies_rows_at_the_root(rt: HostRuntime) -> Result<(), Fail> {
    for text in texts() {
        assert!(rt; roots(rt.alloc(), rows(rt.alloc(), text))?, "{text}");
    }
    Ok(())
}

#[test]
fn meets_copies_and_tells_apart_each_two_tables(rt: HostRuntime) -> Result<(), Fail> {
    let alloc = rt.alloc();
    for left in texts() {
        for right in texts() {
            assert!(rt; agrees(alloc, two(alloc, left, right))?, "{left}, {right}");
        }
    }
    Ok(())
}

#[test]
fn stays_as_it_was_where_memory_is_refused(rt: HostRuntime) -> Result<(), Fail> {
    for (left, right) in CLASHES {
        assert!(rt; stays(rt.alloc(), two(rt.alloc(), left, right))?);
    }
    Ok(())
}

#[test]
fn unifies_lists_of_tables(rt: HostRuntime) -> Result<(), Fail> {
    let alloc = rt.alloc();
    for count in 0..=texts().len() {
        assert!(rt;
            unifies(alloc, first_tables(alloc, count))?,
            "the first {count}"
        );
    }
    Ok(())
}

#[test]
fn hangs_tables_in_below_their_steps(rt: HostRuntime) -> Result<(), Fail> {
    let alloc = rt.alloc();
    for text in BRANCHES {
        assert!(rt; hangs(alloc, given(alloc, text))?, "{text}");
    }
    Ok(())
}

#[test]
fn makes_lists_of_their_stretches(rt: HostRuntime) -> Result<(), Fail> {
    let alloc = rt.alloc();
    for text in STRETCHES {
        assert!(rt; lists(alloc, given(alloc, text))?, "{text}");
    }
    Ok(())
}

#[test]
fn puts_many_branches_in_in_any_order(rt: HostRuntime) -> Result<(), Fail> {
    assert!(rt; mixes(rt.alloc(), row(rt.alloc(), "one"))?);
    Ok(())
}

#[test]
fn takes_small_tables_into_a_large_one(rt: HostRuntime) -> Result<(), Fail> {
    assert!(rt; takes_small_ones(rt.alloc(), row(rt.alloc(), "one"))?);
    Ok(())
}

#[test]
fn gives_no_table_of_a_refused_draft(rt: HostRuntime) -> Result<(), Fail> {
    let alloc = rt.alloc();
    let (first, next) = (path(alloc, "a"), path(alloc, "b"));
    assert!(rt; stays_refused(alloc, first, next, row(alloc, "one"))?);
    Ok(())
}

/// The labels and the indexes below a place of a table, and whether a row stands at each index.
struct Below {
    table: &'static str,
    place: &'static str,
    labels: &'static [&'static str],
    indexes: &'static [(u32, bool)],
}

/// What stands below places of some tables.
const WALKS: &[Below] = &[
    Below {
        table: STRUCTS,
        place: "",
        labels: &["a", "b", "c"],
        indexes: &[],
    },
    Below {
        table: STRUCTS,
        place: "a",
        labels: &[],
        indexes: &[],
    },
    Below {
        table: DEEP,
        place: "fg",
        labels: &["a", "h"],
        indexes: &[(1, true)],
    },
    Below {
        table: DEEP,
        place: "e",
        labels: &[],
        indexes: &[],
    },
    Below {
        table: LIST,
        place: "c",
        labels: &[],
        indexes: &[(0, true), (1, true)],
    },
];

/// Whether this stands below a path of a table.
fn stands_below(table: &Table<Row>, path: &Path, below: &Below) -> bool {
    match table.branch(path) {
        None => below.labels.is_empty() && below.indexes.is_empty(),
        Some(branch) => has_labels(&branch, below.labels) && has_indexes(&branch, below.indexes),
    }
}

/// The table of these rows.
fn table(alloc: Global, text: &str) -> Made<Table<Row>> {
    tree(alloc, &rows(alloc, text)?)
}

/// Whether this stands below a place of a table.
fn is_walked(alloc: Global, below: &Below) -> Made<bool> {
    let table = table(alloc, below.table)?;
    Ok(stands_below(&table, &path(alloc, below.place)?, below))
}

#[test]
fn walks_branches(rt: HostRuntime) -> Result<(), Fail> {
    for below in WALKS {
        assert!(rt;
            is_walked(rt.alloc(), below)?,
            "{}, {}",
            below.table,
            below.place
        );
    }
    Ok(())
}

/// Tables, and whether they are valid.
const VALID: &[(&str, bool)] = &[
    ("b=free", true),
    ("=optional", true),
    ("=optional a=one b=required ba=struct", true),
    ("=optional a=list a0=optional a1=optional", true),
    ("=optional a=nothing ab=one", true),
    ("=optional a=closed ac=two", true),
    ("=optional a=short", true),
    ("a=one", false),
    ("=one", false),
    ("=closed", false),
    ("=struct", false),
    ("=nothing", false),
    ("=optional ab=one", false),
    ("=optional a=one ab=one", false),
    ("=optional a=list ab=one", false),
    ("=optional 0=optional", false),
    ("=optional a=list a2=optional", false),
    ("=optional a=list a0=one", false),
    ("=optional a=struct ab=struct ab0=optional", false),
    ("=optional a=wide", false),
];

/// Whether the table of these rows is valid.
fn is_valid(alloc: Global, text: &str) -> Made<bool> {
    Ok(table(alloc, text)?.is_valid())
}

#[test]
fn tells_valid_tables(rt: HostRuntime) -> Result<(), Fail> {
    for (text, wanted) in VALID {
        assert!(rt; is_valid(rt.alloc(), text)? == *wanted, "{text}");
    }
    Ok(())
}

/// Whether a rest is added below the label `a`, and the table gives its root as a table.
fn adds_rest(alloc: Global) -> Made<bool> {
    let list = rows(alloc, "=optional a=list")?;
    let rest = rows(alloc, "=struct b=one")?;
    Ok(rests(alloc, &list, &rest, &path(alloc, "a")?)? && is_own_root(alloc, &list)?)
}

#[test]
fn adds_a_rest_at_a_path(rt: HostRuntime) -> Result<(), Fail> {
    assert!(rt; adds_rest(rt.alloc())?);
    Ok(())
}

#[test]
fn a_row_has_40_bytes(rt: HostRuntime) {
    assert_eq!(rt; size_of::<Row>(), 40);
}
