//! Tables for the tests of reports and printed text, told by words.
use Level::{Given, Optional, Required};
use Place::{Anything, Integer, List, Struct};
use cue_lattice::{Memory, Text};
use cue_row::{LabelSet, Level, Path, Row, Step};
use cue_table::Table;
use std::alloc::Global;

/// What a call has made where memory was there.
pub type Made<T> = Result<T, Memory>;

/// What a table of the tests says of a place.
#[derive(Clone, Copy)]
pub enum Place {
    Anything,
    Struct,
    /// A list of a least length.
    List(u32),
    Integer(i64),
}

/// A place by a word, its level, and what stands there. The word has a letter for each label and a
/// digit for each index: `a1b` is the label `a`, the index 1 and the label `b`.
pub type Known<'a> = (&'a str, Level, Place);

/// The step to a label of one letter.
fn label(alloc: Global, letter: char) -> Made<Step> {
    let mut label = String::new(alloc);
    label.push(letter)?;
    Ok(Step::Label(Text::from_str(alloc, label.as_str())?))
}

/// The step that a letter or a digit tells.
fn step(alloc: Global, letter: char) -> Made<Step> {
    match letter.to_digit(10) {
        Some(index) => Ok(Step::Index(index)),
        None => label(alloc, letter),
    }
}

/// The steps that the letters and digits of a word tell.
pub fn steps(alloc: Global, word: &str) -> Made<Vec<Step>> {
    let mut steps = Vec::new(alloc);
    for letter in word.chars() {
        steps.push(step(alloc, letter)?)?;
    }
    Ok(steps)
}

/// The path that a word tells, or the root where it is too long.
pub fn path(alloc: Global, word: &str) -> Made<Path> {
    match Path::new(steps(alloc, word)?) {
        Some(path) => Ok(path),
        None => Ok(Path::root(alloc)),
    }
}

/// The row of a place.
fn row(alloc: Global, level: Level, place: Place) -> Made<Row> {
    match place {
        Anything => Ok(Row::of_anything(level)),
        Struct => Row::of_struct(alloc, level, LabelSet::all(alloc)),
        List(least) => Row::of_list(alloc, level, least, None),
        Integer(number) => Ok(Row::of_integer(level, number)),
    }
}

/// Adds a row to a table.
fn add(table: &mut Table<Row>, path: Made<Path>, row: Made<Row>) -> Made<()> {
    table.add(&path?, &row?)
}

/// The table with these places, each unified into what is known of it.
pub fn table(alloc: Global, places: &[Known]) -> Made<Table<Row>> {
    let mut table = Table::new(alloc);
    for (word, level, place) in places {
        add(&mut table, path(alloc, word), row(alloc, *level, *place))?;
    }
    Ok(table)
}

/// Whether the text is the one that is wanted.
pub fn is(text: Made<String>, wanted: &str) -> Made<bool> {
    Ok(text?.as_str() == wanted)
}

/// Places of which all is known that must be.
pub const WHOLE: &[Known<'static>] = &[
    ("", Optional, Struct),
    ("b", Given, Integer(2)),
    ("a", Given, Struct),
    ("ac", Given, Integer(-1)),
    ("l", Given, List(2)),
    ("l0", Optional, Integer(1)),
    ("l1", Optional, List(0)),
    ("o", Optional, Integer(3)),
];

/// A required field that is missing, one of two values, and a list of which two elements are free.
pub const LACKING: &[Known<'static>] = &[
    ("", Optional, Struct),
    ("a", Required, Struct),
    ("ab", Given, Anything),
    ("c", Given, Integer(1)),
    ("c", Given, Integer(2)),
    ("l", Given, List(3)),
    ("l1", Optional, List(1)),
];
