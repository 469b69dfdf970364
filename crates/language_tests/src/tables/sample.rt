//! Lists of rows for the tests of tables.
use crate::tables::both::Two;
use crate::tables::many::Given;
use crate::tables::plain::{Entry, Made, add};
use cue_lattice::{Narrow, Text};
use cue_row::{LabelSet, Level, Path, Row, Step};
use cue_scalars::ScalarSet;
use cue_sets::{IntSet, TextSet};
use std::alloc::Global;

/// The label of a letter.
fn label(alloc: Global, letter: char) -> Made<Text> {
    let mut label = String::new(alloc);
    label.push(letter)?;
    Text::new(alloc, label)
}

/// The step that a letter or a digit names.
fn step(alloc: Global, name: char) -> Made<Step> {
    match name.to_digit(10) {
        Some(number) => Ok(Step::Index(number)),
        None => Ok(Step::Label(label(alloc, name)?)),
    }
}

/// A path of one-letter labels and one-digit indexes: `a1b` is the label `a`, the index 1 and the
/// label `b`.
pub fn path(alloc: Global, word: &str) -> Made<Path> {
    let mut steps = Vec::new(alloc);
    for name in word.chars() {
        add(&mut steps, step(alloc, name)?)?;
    }
    Ok(Path::new(steps).unwrap_or(Path::root(alloc)))
}

/// The set of some integers, from the first to the last.
fn between(alloc: Global, first: i64, last: i64) -> Made<ScalarSet> {
    let low = IntSet::at_least(first);
    let high = IntSet::at_most(last);
    Ok(ScalarSet {
        null: false,
        no: false,
        yes: false,
        ints: low.meet(alloc, &high)?,
        texts: TextSet::none(alloc),
    })
}

/// The row of a field that is one of these integers, from the first to the last, of which some are
/// usual.
fn integers(alloc: Global, value: (i64, i64), usual: (i64, i64)) -> Made<Row> {
    let value = between(alloc, value.0, value.1)?;
    let usual = between(alloc, usual.0, usual.1)?;
    Row::of_scalars(alloc, Level::Given, value, usual)
}

/// A struct in which all labels may stand.
fn open_struct(alloc: Global, level: Level) -> Made<Row> {
    Row::of_struct(alloc, level, LabelSet::all(alloc))
}

/// A struct in which only these one-letter labels may stand.
fn closed(alloc: Global, letters: &str) -> Made<Row> {
    let mut labels = Vec::new(alloc);
    for letter in letters.chars() {
        add(&mut labels, label(alloc, letter)?)?;
    }
    match LabelSet::listing(labels) {
        Some(labels) => Row::of_struct(alloc, Level::Given, labels),
        None => open_struct(alloc, Level::Given),
    }
}

/// A list of this least and greatest length.
fn list(alloc: Global, least: u32, most: Option<u32>) -> Made<Row> {
    Row::of_list(alloc, Level::Given, least, most)
}

/// A row by its name.
pub fn row(alloc: Global, name: &str) -> Made<Row> {
    match name {
        "one" => integers(alloc, (1, 1), (1, 1)),
        "two" => integers(alloc, (2, 2), (2, 2)),
        "small" => integers(alloc, (0, 9), (0, 9)),
        "usual" => integers(alloc, (0, 9), (1, 1)),
        "struct" => open_struct(alloc, Level::Given),
        "optional" => open_struct(alloc, Level::Optional),
        "required" => open_struct(alloc, Level::Required),
        "nothing" => Row::of_nothing(alloc, Level::Given, LabelSet::all(alloc), 0, None),
        "closed" => closed(alloc, "ab"),
        "narrow" => closed(alloc, "bc"),
        "list" => list(alloc, 2, None),
        "pair" => list(alloc, 2, Some(2)),
        "single" => list(alloc, 1, Some(1)),
        "short" => list(alloc, 2, Some(1)),
        "wide" => list(alloc, 2, Some(3)),
        _ => Row::free(alloc),
    }
}

/// Structs with fields that are optional or not.
pub const STRUCTS: &str = "=optional b=small a=small c=struct";

/// A field with a default.
const USUAL: &str = "=optional a=usual b=required ba=one";

/// A closed struct.
const CLOSED: &str = "=optional b=closed ba=one bb=struct bba=two";

/// Another closed struct at the same place.
const NARROW: &str = "=optional b=narrow bc=one bb=struct bbb=usual bba=one";

/// A list of any length.
pub const LIST: &str = "=optional c=list c1=one c0=small c1=small";

/// A list of two elements at the same place.
const PAIR: &str = "=optional c=pair c0=struct c0d=one";

/// Rows under places without a row.
pub const DEEP: &str = "e=free fgh=one fg1=two f=optional fga=two";

/// Other rows at these places.
const DEEPER: &str = "fgh=two fg1=small fga=usual fgb=one fg=closed eab=list";

/// The rows of some tables, each as its path and its name.
const TABLES: &[&str] = &[
    "b=free",
    "=optional",
    "=optional a=one",
    "a=two =optional",
    STRUCTS,
    USUAL,
    CLOSED,
    NARROW,
    LIST,
    PAIR,
    "=optional c=single d=nothing da=one b=free",
    DEEP,
    DEEPER,
];

/// The rows of these tables.
pub fn texts() -> &'static [&'static str] {
    TABLES
}

/// Pairs of these tables that clash or share places two and three steps down.
pub const CLASHES: &[(&str, &str)] = &[
    (CLOSED, NARROW),
    (NARROW, CLOSED),
    (USUAL, NARROW),
    (LIST, PAIR),
    (DEEP, DEEPER),
    (DEEPER, DEEP),
];

/// Tables that are given for steps, each as its step and the names of its rows.
pub const BRANCHES: &[&str] = &[
    "a:b=free",
    "b:=struct",
    "c:=one b:=two a:=small",
    "b:=struct+a=one a:b=free b:=optional+a=two 0:=list+0=one",
    "a:=usual a:=one a:=two a:=small a:b=free",
    "a:=struct+b=one+a=two a:=struct+a=one a:=optional+c=one a:=struct+c=two+b=two a:c=one",
    "1:a=one b:ab=two 0:=pair 1:ab=one b:a=struct a:0=small 1:=closed b:ab=usual",
    "z:fg=one z:fgh=two y:b=free x:=nothing z:fg=two x:=narrow w:=list z:f=required",
];

/// Stretches of lists from the last to the first, each as the index where it begins and the names
/// of its rows: with a rest that stays or begins earlier, without one, with gaps, and some that are
/// empty, since one that is given before them begins no later.
pub const STRETCHES: &[&str] = &[
    "0:=one",
    "3:=struct+a=one",
    "3:=struct+a=one 0:=struct+a=one",
    "7:=one 5:=two 4:b=free 2:=two 0:=one",
    "9:=pair 8:=pair 5:=one 3:=pair 0:=pair",
    "4:b=free",
    "6:b=free 5:a=one 2:a=two+b=free 0:a=one",
    "6:=small 6:=one 6:=two 3:=one 5:=two 2:b=free 1:=list+0=one",
];

/// The table that a word of one of [`BRANCHES`] names.
fn one_given(alloc: Global, word: &str) -> Made<Given<Row>> {
    let (name, entries) = word.split_once(':').unwrap_or(("a", word));
    Ok(Given {
        step: step(alloc, name.chars().next().unwrap_or('a'))?,
        rows: rows_by(alloc, entries, '+')?,
    })
}

/// The tables that a text names, as those of [`BRANCHES`] and [`STRETCHES`].
pub fn given(alloc: Global, text: &str) -> Made<Vec<Given<Row>>> {
    let mut branches = Vec::new(alloc);
    for word in text.split(' ') {
        add(&mut branches, one_given(alloc, word)?)?;
    }
    Ok(branches)
}

/// The row that a word of one of [`TABLES`] names.
fn entry(alloc: Global, word: &str) -> Made<Entry<Row>> {
    let (place, name) = word.split_once('=').unwrap_or((word, "free"));
    Ok(Entry {
        path: path(alloc, place)?,
        row: row(alloc, name)?,
    })
}

/// The rows that a text names, with this character between them.
fn rows_by(alloc: Global, text: &str, by: char) -> Made<Vec<Entry<Row>>> {
    let mut rows = Vec::new(alloc);
    for word in text.split(by) {
        add(&mut rows, entry(alloc, word)?)?;
    }
    Ok(rows)
}

/// The rows that a text names, as those of [`TABLES`].
pub fn rows(alloc: Global, text: &str) -> Made<Vec<Entry<Row>>> {
    rows_by(alloc, text, ' ')
}

/// The rows of two tables.
pub fn two(alloc: Global, left: &str, right: &str) -> Made<Two<Row>> {
    Ok(Two {
        left: rows(alloc, left)?,
        right: rows(alloc, right)?,
    })
}

/// The rows of the first so many tables.
pub fn first_tables(alloc: Global, count: usize) -> Made<Vec<Vec<Entry<Row>>>> {
    let mut lists = Vec::new(alloc);
    for text in texts().iter().take(count) {
        add(&mut lists, rows(alloc, text)?)?;
    }
    Ok(lists)
}
