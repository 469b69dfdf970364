//! Rows by what may stand at their place.

ghost use Rattle.std.specs.Prelude.{◌≡◌, ◌≤ℤ◌, IfOk};
ghost use Rattle.cue_row.specs.Made.{empty_set, full_set};

use crate::small::Small;
use crate::{LabelSet, Level, Row, RowParts};
use cue_lattice::{Memory, Narrow, Text};
use cue_scalars::ScalarSet;
use cue_sets::{IntSet, TextSet};
use std::alloc::Global;

fn no_scalar(alloc: Global) -> ScalarSet
    ensures { result ≡ empty_set }
{
    ScalarSet {
        null: false,
        no: false,
        yes: false,
        ints: IntSet::empty(alloc),
        texts: TextSet::none(alloc),
    }
}

fn all_scalars(alloc: Global) -> ScalarSet
    ensures { result ≡ full_set }
{
    ScalarSet {
        null: true,
        no: true,
        yes: true,
        ints: IntSet::full(),
        texts: TextSet::all(alloc),
    }
}

/// Rows by what may stand. Those of which most places have one take no memory.
impl Row {
    ghost use Rattle.cue_row.specs.Kept.{integers_set, text_set};
    ghost use Rattle.cue_row.specs.Made.{free_row, scalar_row, struct_row, list_row, nothing_row};
    ghost use Rattle.cue_row.specs.Made.{lone_row};

    /// The row of a place of this level where anything may stand. This takes no memory.
    pub fn of_anything(level: Level) -> Row
        ensures { result ≡ free_row level }
    {
        Row::small(level, Small::Anything)
    }

    /// The row of a place where these scalars alone may stand, and these are the usual ones.
    pub fn of_scalars(
        alloc: Global,
        level: Level,
        value: ScalarSet,
        usual: ScalarSet,
    ) -> Result<Row, Memory>
        ensures { IfOk result (λ row. row ≡ scalar_row level value usual) }
    {
        if value.same(&usual) {
            return Row::of_all_usual(alloc, level, value);
        }
        Row::whole(alloc, RowParts::of_scalars(alloc, level, value, usual))
    }

    /// The row of a place where these scalars alone may stand, all of them usual. A row that is
    /// small takes memory for a long text alone.
    #[inline(always)]
    pub fn of_all_usual(alloc: Global, level: Level, value: ScalarSet) -> Result<Row, Memory>
        ensures { IfOk result (λ row. row ≡ scalar_row level value value) }
    {
        match Small::of_scalars(alloc, &value)? {
            Some(small) => Ok(Row::small(level, small)),
            None => {
                let usual = value.copy(alloc)?;
                Row::whole(alloc, RowParts::of_scalars(alloc, level, value, usual))
            }
        }
    }

    /// The row of a place where one integer alone may stand. This takes no memory.
    pub fn of_integer(level: Level, number: i64) -> Row
        ensures { result ≡ lone_row level (integers_set (number, number)) }
    {
        Row::small(level, Small::Integers((number, number)))
    }

    /// The row of a place where the integers from a first to a last one alone may stand. This takes
    /// no memory.
    pub fn of_range(level: Level, first: i64, last: i64) -> Row
        requires { first ≤ℤ last }
        ensures { result ≡ lone_row level (integers_set (first, last)) }
    {
        Row::small(level, Small::Integers((first, last)))
    }

    /// The row of a place where one text alone may stand. This takes no memory.
    pub fn of_text(level: Level, text: Text) -> Row
        ensures { result ≡ lone_row level (text_set text) }
    {
        Row::small(level, Small::Text(text))
    }

    /// The row of a place where a struct alone may stand, with these labels. Where all may stand
    /// below this takes no memory.
    pub fn of_struct(alloc: Global, level: Level, labels: LabelSet) -> Result<Row, Memory>
        ensures { IfOk result (λ row. row ≡ struct_row level labels) }
    {
        if labels.listed().is_none() {
            return Ok(Row::small(level, Small::Struct));
        }
        Row::whole(alloc, RowParts::of_struct(alloc, level, labels))
    }

    /// The row of a place where a list alone may stand, of these lengths.
    pub fn of_list(
        alloc: Global,
        level: Level,
        least: u32,
        most: Option<u32>,
    ) -> Result<Row, Memory>
        ensures { IfOk result (λ row. row ≡ list_row level least most) }
    {
        Row::whole(alloc, RowParts::of_list(alloc, level, least, most))
    }

    /// The row of a place where nothing may stand, and which labels and lengths are left out.
    pub fn of_nothing(
        alloc: Global,
        level: Level,
        labels: LabelSet,
        least: u32,
        most: Option<u32>,
    ) -> Result<Row, Memory>
        ensures { IfOk result (λ row. row ≡ nothing_row level labels least most) }
    {
        Row::from_parts(
            alloc,
            RowParts::of_nothing(alloc, level, labels, least, most),
        )
    }
}

/// Parts by what may stand. They take no memory.
impl RowParts {
    ghost use Rattle.cue_row.specs.Made.{free_row, scalar_row, struct_row, list_row, nothing_row};

    /// The parts of a place of this level where anything may stand.
    pub(crate) fn of_anything(alloc: Global, level: Level) -> RowParts
        ensures { result ≡ free_row level }
    {
        RowParts {
            level,
            value: all_scalars(alloc),
            usual: all_scalars(alloc),
            struct_ok: true,
            list_ok: true,
            labels: LabelSet::all(alloc),
            least: 0,
            most: None,
        }
    }

    /// The parts of a place where these scalars alone may stand, and these are the usual ones.
    pub(crate) fn of_scalars(
        alloc: Global,
        level: Level,
        value: ScalarSet,
        usual: ScalarSet,
    ) -> RowParts
        ensures { result ≡ scalar_row level value usual }
    {
        RowParts {
            level,
            value,
            usual,
            struct_ok: false,
            list_ok: false,
            labels: LabelSet::all(alloc),
            least: 0,
            most: None,
        }
    }

    /// The parts of a place where a struct alone may stand, with these labels.
    pub(crate) fn of_struct(alloc: Global, level: Level, labels: LabelSet) -> RowParts
        ensures { result ≡ struct_row level labels }
    {
        RowParts {
            level,
            value: no_scalar(alloc),
            usual: no_scalar(alloc),
            struct_ok: true,
            list_ok: false,
            labels,
            least: 0,
            most: None,
        }
    }

    /// The parts of a place where a list alone may stand, of these lengths.
    pub(crate) fn of_list(alloc: Global, level: Level, least: u32, most: Option<u32>) -> RowParts
        ensures { result ≡ list_row level least most }
    {
        RowParts {
            level,
            value: no_scalar(alloc),
            usual: no_scalar(alloc),
            struct_ok: false,
            list_ok: true,
            labels: LabelSet::all(alloc),
            least,
            most,
        }
    }

    /// The parts of a place where nothing may stand, and which labels and lengths are left out.
    pub(crate) fn of_nothing(
        alloc: Global,
        level: Level,
        labels: LabelSet,
        least: u32,
        most: Option<u32>,
    ) -> RowParts
        ensures { result ≡ nothing_row level labels least most }
    {
        RowParts {
            level,
            value: no_scalar(alloc),
            usual: no_scalar(alloc),
            struct_ok: false,
            list_ok: false,
            labels,
            least,
            most,
        }
    }
}
