//! Rows read one after another, of which a table is made.

ghost use Rattle.std.specs.Prelude.{◌≡◌, ◌<◌, ◌↔◌, ◌∷◌, ◌++◌, [], ℕ, List, IsTrue};
ghost use Rattle.std.specs.Prelude.{IfOk, IfErr, OnErr, Some};
ghost use Rattle.cue_lattice.specs.declared.refusal.Kind.TheVariants.{Memory as OutOfMemory};
ghost use Rattle.cue_row.specs.Row.{RefusesAsked, IsRow};
ghost use Rattle.cue_table.specs.RowList.{BeginsNoTable};
ghost use Rattle.cue_codec.specs.Decoding.{AreReadRows, NoRows};
ghost use Rattle.cue_codec.specs.Inner.Drafting.{IsNoRowsPrefix, rows_in};
ghost use Rattle.cue_codec.specs.Inner.Pieces.{HasNext, HasRows};
ghost use Rattle.cue_codec.specs.Reading.{IsReadRefused};

use crate::row_reader::RowReader;
use crate::telling::has_indexes;
use crate::unread::Unread;
use crate::version::Version;
use cue_lattice::Kind;
use cue_row::Row;
use cue_table::{Draft, Place, Table};
use std::alloc::Global;
use std::marker::Model;
use std::mem;

/// The rows that were read of so many, each added behind the others as it is read, and the indexes
/// from which on the elements of each are alike. The place of a row is made of the one before it,
/// so that all costs what the bytes cost. Contracts see the bytes of these rows, and how many are
/// missing.
#[derive(Drop)]
pub struct Drafting {
    alloc: Global,
    version: Version,
    count: u64,
    left: u64,
    draft: Draft<Row>,
    indexes: Vec<u64>,
    /// For each row above the last one, and for it, from which index on its elements are alike.
    known: [u64; 65],
    /// Where the last row stands.
    place: Place,
}

impl Model for Drafting {
    ghost use Rattle.cue_codec.specs.Inner.Drafting.{RowsRead, rows_bytes, rows_in, IsDrafting};

    ghost Value = { RowsRead };

    ghost view = { λ d. record {
      version = d.version;
      count = d.count;
      left = d.left;
      bytes = rows_bytes d.version (rows_in d.draft) d.indexes.items;
    } };

    ghost invariant = { λ d. IsDrafting d.version d.count d.left d.draft d.indexes.items d.known
        d.place };
}

/// Adds a row behind those of a draft. A draft that refuses it is begun anew.
fn append(alloc: Global, draft: &mut Draft<Row>, place: &Place, row: Row) -> Result<(), Kind>
    requires { draft.old ≡ Some (rows_in draft.old) }
    ensures ok { IfOk result
        (λ none. draft.new ≡ Some (rows_in draft.old ++ (place.now, row) ∷ [])) }
    ensures refused { IfErr result (λ kind. IsReadRefused kind
        (BeginsNoTable RefusesAsked IsRow (rows_in draft.old ++ (place.now, row) ∷ []))) }
    ensures err { OnErr result (draft.new ≡ Some []) }
{
    let kind = match draft.append(place, row) {
        Ok(true) => return Ok(()),
        Ok(false) => Kind::NotState,
        Err(_) => Kind::Memory,
    };
    *draft = Draft::new(alloc);
    Err(kind)
}

impl Drafting {
    /// None of so many rows. This takes no memory.
    pub fn new(alloc: Global, version: Version, count: u64) -> Drafting
        ensures { result ≡ record { version = version; count = count; left = count; bytes = [] } }
    {
        Drafting {
            alloc,
            version,
            count,
            left: count,
            draft: Draft::new(alloc),
            indexes: Vec::new(alloc),
            known: [0; 65],
            place: Place::root(alloc),
        }
    }

    /// Whether all rows are none.
    pub fn is_none(&self) -> bool
        ensures { IsTrue result ↔ (self.now.count ≡ 0) }
    {
        self.count == 0
    }

    /// Whether no row is missing. No rows are these with bytes behind them.
    pub fn is_full(&self) -> bool
        ensures full { IsTrue result ↔ (self.now.left ≡ 0) }
        ensures trailing { self.now.left ≡ 0 → (more : List ℕ) → ¬ (more ≡ [])
            → NoRows self.now.version self.now.count (self.now.bytes ++ more) }
    {
        self.left == 0
    }

    /// Adds the row that the reader reads next, and says whether a whole one is there: where the
    /// bytes end before it does, all is left as it is. Bytes with which no row begins are refused as
    /// `NotState` at once. After a refusal nothing is said of the rows.
    pub fn next(&mut self, reader: &mut RowReader) -> Result<bool, Kind>
        requires { 0 < self.old.left }
        ensures ok { IfOk result (HasNext self.old reader.old self.new reader.new) }
        ensures refused { IfErr result (λ kind. IsReadRefused kind
            (IsNoRowsPrefix self.old.version self.old.count (self.old.bytes ++ reader.old))) }
    {
        let before = mem::replace(&mut self.place, Place::root(self.alloc));
        let (place, fixed, row) = match reader.read(self.alloc, self.version, before, &self.known) {
            Ok(row) => row,
            Err(why) => match why {
                Unread::Memory => return Err(Kind::Memory),
                Unread::Cut => return Ok(false),
                Unread::Wrong => return Err(Kind::NotState),
            },
        };
        let Ok(()) = self.indexes.reserve(1) else {
            return Err(Kind::Memory);
        };
        if let Err(kind) = append(self.alloc, &mut self.draft, &place, row) {
            // The draft is a new one, so all rows are missing.
            self.left = self.count;
            self.indexes.clear();
            self.known = [0; 65];
            return Err(kind);
        }
        self.indexes.push_reserved(fixed);
        self.known[place.slots().len()] = fixed;
        self.left -= 1;
        self.place = place;
        Ok(true)
    }

    /// Adds the rows whose bytes stand in front, as far as these are whole, and says how many bytes
    /// they have. There is no number where no rows begin so. An error says that memory ran out;
    /// nothing is said of the rows then.
    pub fn add_rows(&mut self, bytes: &[u8]) -> Result<Option<usize>, Kind>
        ensures ok { IfOk result (HasRows self.old bytes.now self.new) }
        ensures memory { IfErr result (λ kind. kind ≡ OutOfMemory) }
    {
        let mut reader = RowReader::new(bytes);
        while !reader.is_at_end() {
            if self.is_full() {
                return Ok(None);
            }
            let is_added = match self.next(&mut reader) {
                Ok(is_added) => is_added,
                Err(kind) => match kind {
                    Kind::Memory => return Err(Kind::Memory),
                    _ => return Ok(None),
                },
            };
            if !is_added {
                return Ok(Some(bytes.len() - reader.len()));
            }
        }
        Ok(Some(bytes.len()))
    }

    /// The table of the rows, where none is missing.
    fn table(self) -> Result<Table<Row>, Kind>
        requires { self.left ≡ 0 }
        ensures ok { IfOk result (AreReadRows self.version self.count self.bytes) }
        ensures refused { IfErr result
            (λ kind. IsReadRefused kind (NoRows self.version self.count self.bytes)) }
    {
        let Drafting {
            version,
            draft,
            indexes,
            ..
        } = self;
        let table = match draft.finish() {
            Ok(Some(table)) => table,
            Ok(None) => return Err(Kind::NotState),
            Err(_) => return Err(Kind::Memory),
        };
        if !has_indexes(version, &table, indexes.as_slice()) {
            return Err(Kind::NotState);
        }
        Ok(table)
    }

    /// The table of the rows, where the bytes of those that are missing are these.
    pub fn finish(self, bytes: &[u8]) -> Result<Table<Row>, Kind>
        ensures ok { IfOk result
            (AreReadRows self.version self.count (self.bytes ++ bytes.now)) }
        ensures refused { IfErr result
            (λ kind. IsReadRefused kind (NoRows self.version self.count (self.bytes ++ bytes.now))) }
    {
        let mut rows = self;
        let mut reader = RowReader::new(bytes);
        while !rows.is_full() {
            let is_added = rows.next(&mut reader)?;
            if !is_added {
                return Err(Kind::NotState);
            }
        }
        if !reader.is_at_end() {
            return Err(Kind::NotState);
        }
        rows.table()
    }
}
