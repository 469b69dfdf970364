//! Rows, read one after another.

ghost use Rattle.std.specs.Prelude.{◌≡◌, ◌↔◌, ◌<◌, [], length, IsTrue, IfOk, IfErr, OnErr};
ghost use Rattle.cue_lattice.specs.Limits.{step_limit};
ghost use Rattle.cue_codec.specs.Entry.{path_of_place, entry_at};
ghost use Rattle.cue_codec.specs.Known.{IsIndexKnown};
ghost use Rattle.cue_codec.specs.Reading.{ReadsItem, ReadsNoItem};
ghost use Rattle.cue_codec.specs.Inner.Reading.{IsNoneRead};
ghost use Rattle.cue_codec.specs.RowBytes.{row_bytes, IsStateRow};
ghost use Rattle.cue_codec.specs.StateRow.{IsStatePath};

use crate::paths::path_at;
use crate::rows::parts_at;
use crate::unread::Unread;
use crate::version::Version;
use cue_row::{Level, Row};
use cue_table::Place;
use std::alloc::Global;
use std::marker::Model;

/// The row whose bytes stand in front, with its place and from which index on its elements are
/// alike, and the bytes after it. The place is made of the one before it, where these indexes are
/// known of the rows above.
fn row_at<'a>(
    alloc: Global,
    version: Version,
    before: Place,
    known: &[u64],
    bytes: &'a [u8],
) -> Result<((Place, u64, Row), &'a [u8]), Unread>
    requires steps { IsStatePath version (path_of_place before) }
    requires known { IsIndexKnown known.now before }
    requires deep { step_limit < length known.now }
    ensures ok { IfOk result (λ x. ReadsItem (IsStateRow version) (row_bytes version)
        (entry_at x.0.0 x.0.1 x.0.2) bytes.now x.1.now) }
    ensures numbers { IfOk result (λ x. IsIndexKnown known.now x.0.0) }
    ensures refused { IfErr result (λ why. IsNoneRead why
        (ReadsNoItem (IsStateRow version) (row_bytes version)) bytes.now) }
{
    let (place, behind) = path_at(alloc, version, before, known, bytes)?;
    let Some((number, rest)) = behind.split_first() else {
        return Err(Unread::Cut);
    };
    let Some(level) = Level::from_number(*number) else {
        return Err(Unread::Wrong);
    };
    let (row, fixed, rest) = parts_at(alloc, version, level, rest)?;
    Ok(((place, fixed, row), rest))
}

/// Takes a row at a time from the front of bytes. Contracts see the bytes that are left.
#[derive(Drop)]
pub struct RowReader<'a> {
    rest: &'a [u8],
}

impl<'a> Model for RowReader<'a> {
    ghost use Rattle.std.specs.Prelude.{List, ℕ};

    ghost Value = { List ℕ };

    ghost view = { λ reader. reader.rest.now };
}

impl<'a> RowReader<'a> {
    /// A reader of these bytes.
    pub fn new(bytes: &'a [u8]) -> RowReader<'a>
        ensures { result ≡ bytes.now }
    {
        RowReader { rest: bytes }
    }

    /// Whether no byte is left.
    pub fn is_at_end(&self) -> bool
        ensures { IsTrue result ↔ (self.now ≡ []) }
    {
        self.rest.is_empty()
    }

    /// How many bytes are left.
    pub fn len(&self) -> usize
        ensures { result ≡ length self.now }
    {
        self.rest.len()
    }

    /// The row whose bytes in this version stand in front, with its place and from which index on
    /// its elements are alike; the reader goes on after it. The place is made of the one before it,
    /// and a rest on it begins at the index that is known of the row above. Where no row is read the
    /// reader is as before. Room is made only for what was read.
    pub fn read(
        &mut self,
        alloc: Global,
        version: Version,
        before: Place,
        known: &[u64],
    ) -> Result<(Place, u64, Row), Unread>
        requires steps { IsStatePath version (path_of_place before) }
        requires known { IsIndexKnown known.now before }
        requires deep { step_limit < length known.now }
        ensures ok { IfOk result (λ x. ReadsItem (IsStateRow version) (row_bytes version)
            (entry_at x.0 x.1 x.2) self.old self.new) }
        ensures numbers { IfOk result (λ x. IsIndexKnown known.now x.0) }
        ensures refused { IfErr result (λ why. IsNoneRead why
            (ReadsNoItem (IsStateRow version) (row_bytes version)) self.old) }
        ensures unchanged { OnErr result (self.new ≡ self.old) }
    {
        let (row, rest) = row_at(alloc, version, before, known, self.rest)?;
        self.rest = rest;
        Ok(row)
    }
}
