//! Rows read from bytes that come in pieces.

ghost use Rattle.std.specs.Prelude.{◌≡◌, ◌↔◌, ◌<◌, ◌≤◌, ◌+◌, ◌^◌, [], length, IfOk, IfErr};
ghost use Rattle.std.specs.Prelude.{IsOk, IsTrue};
ghost use Rattle.cue_lattice.specs.declared.refusal.Kind.TheVariants.{Memory as OutOfMemory};
ghost use Rattle.cue_codec.specs.Decoding.{AreReadRows, NoRows};
ghost use Rattle.cue_codec.specs.Inner.Drafting.{IsFed};
ghost use Rattle.cue_codec.specs.Reading.{IsReadRefused};

use crate::drafting::Drafting;
use crate::unfinished::Unfinished;
use crate::version::Version;
use cue_lattice::{Kind, Memory};
use cue_row::Row;
use cue_table::Table;
use std::alloc::Global;
use std::marker::Model;

/// Rows whose bytes come in pieces: those that were read, and the bytes of one that is unfinished.
/// Contracts see the bytes so far.
#[derive(Drop)]
pub struct RowPieces {
    rows: Drafting,
    unfinished: Unfinished,
    /// How many bytes of the state were taken in, with its head.
    taken: u64,
}

impl Model for RowPieces {
    ghost use Rattle.cue_codec.specs.Inner.Drafting.{RowsRead};

    ghost Value = { RowsRead };

    ghost use Rattle.cue_codec.specs.Inner.Pieces.{ArePieces, with_bytes};

    ghost view = { λ p. with_bytes p.rows p.unfinished };

    ghost invariant = { λ p. ArePieces (with_bytes p.rows p.unfinished) p.taken };
}

/// That a state of so many bytes and so many more is longer than any memory.
fn length_error(taken: u64, more: u64) -> Kind
    requires { 2 ^ 64 ≤ taken + more }
    ensures { result ≡ OutOfMemory }
{
    let _memory = Memory::too_many(taken, more);
    Kind::Memory
}

impl RowPieces {
    /// None of so many rows. This takes no memory.
    pub fn new(alloc: Global, version: Version, count: u64) -> RowPieces
        ensures { result ≡ record { version = version; count = count; left = count; bytes = [] } }
    {
        RowPieces {
            rows: Drafting::new(alloc, version, count),
            unfinished: Unfinished::none(alloc),
            taken: 13,
        }
    }

    /// Whether all rows are none, and no byte was taken in behind the head.
    pub fn is_none(&self) -> bool
        ensures { IsTrue result ↔ ((self.now.count ≡ 0) × (self.now.bytes ≡ [])) }
    {
        self.rows.is_none() && self.taken == 13
    }

    /// Takes in a piece. There is nothing where no rows begin so, and an error says that memory ran
    /// out.
    pub fn feed(self, piece: &[u8]) -> Result<Option<RowPieces>, Kind>
        ensures fed { IfOk result (IsFed self piece.now) }
        ensures none { piece.now ≡ [] → IsOk result }
        ensures memory { IfErr result (λ kind. kind ≡ OutOfMemory) }
    {
        let RowPieces {
            mut rows,
            mut unfinished,
            taken,
        } = self;
        let Some(taken) = taken.checked_add(piece.len() as u64) else {
            return Err(length_error(taken, piece.len() as u64));
        };
        let mut rest = piece;
        while !rest.is_empty() {
            let Some(len) = unfinished.take(&mut rows, rest)? else {
                return Ok(None);
            };
            let (_, back) = rest.split_at(len);
            rest = back;
        }
        Ok(Some(RowPieces {
            rows,
            unfinished,
            taken,
        }))
    }

    /// The table of the rows, where their bytes are all there are.
    pub fn finish(self) -> Result<Table<Row>, Kind>
        ensures ok { IfOk result (AreReadRows self.version self.count self.bytes) }
        ensures refused { IfErr result
            (λ kind. IsReadRefused kind (NoRows self.version self.count self.bytes)) }
        ensures fits { length self.bytes + 13 < 2 ^ 64 }
    {
        let RowPieces {
            rows,
            unfinished,
            ..
        } = self;
        rows.finish(unfinished.as_slice())
    }
}
