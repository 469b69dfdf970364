//! State bytes read in pieces.

ghost use Rattle.std.specs.Prelude.{◌≡◌, ◌+◌, ◌<◌, ◌≤◌, ◌^◌, ◌++◌, ℕ, List, [], length, take, IfOk};
ghost use Rattle.std.specs.Prelude.{IfErr};
ghost use Rattle.std.specs.Prelude.{IsOk, OnOk};
ghost use Rattle.cue_codec.specs.Pieces.{so_far, IsTakenIn, IsNotTakenIn, IsReadTable, IsIntakeUnread};
ghost use Rattle.cue_codec.specs.Pieces.{failed};
ghost use Rattle.cue_codec.specs.State.{table_bytes_in};
ghost use Rattle.cue_codec.specs.declared.version.Version.{Version as Versions};
ghost use Rattle.cue_table.specs.Tree.{empty};
ghost use Rattle.cue_lattice.specs.declared.refusal.Kind.TheVariants.{Memory as OutOfMemory};
ghost use Rattle.cue_table.specs.Valid.{IsValidTable};

use crate::decoding::{decode, head_at};
use crate::row_pieces::RowPieces;
use cue_lattice::Kind;
use cue_row::Row;
use cue_table::Table;
use std::alloc::Global;
use std::marker::Model;
use std::mem;

/// How many bytes the head of a state has: the mark, the version and the count of rows.
const HEAD_LEN: usize = 13;

/// What was taken in.
#[derive(Drop)]
pub(crate) enum TakenBytes {
    /// So many bytes of the head, at the front of its room.
    Head([u8; HEAD_LEN], usize),
    /// The head, and bytes of rows.
    Rows(RowPieces),
    /// The mark and a version that is not known.
    OtherVersion,
    /// Bytes with which no state begins.
    NoState,
    /// Nothing, since memory ran out.
    Failed,
}

/// A reader that is handed state bytes piece by piece, cut wherever they are cut. It keeps the
/// head, the rows that were read, and the bytes of one row that is unfinished, with some of those
/// behind it. Contracts see what it has taken in.
#[derive(Drop)]
pub struct StateReader {
    alloc: Global,
    taken: TakenBytes,
}

impl Model for StateReader {
    ghost use Rattle.cue_codec.specs.Pieces.{Intake};

    ghost Value = { Intake };

    ghost use Rattle.cue_codec.specs.Inner.Intakes.{intake_of, IsSound};

    ghost view = { λ reader. intake_of reader.taken };

    ghost invariant = { λ reader. IsSound reader.taken };
}

impl TakenBytes {
    ghost use Rattle.cue_codec.specs.Inner.Intakes.{with_head, intake_of, IsSound, HasTaken};

    /// Rows, with bytes that come next.
    fn more_rows(rows: RowPieces, piece: &[u8]) -> Result<TakenBytes, Kind>
        requires { rows.count < 2 ^ 64 }
        ensures none { piece.now ≡ [] → IsOk result }
        ensures memory { IfErr result (λ kind. kind ≡ OutOfMemory) }
        ensures taken { IfOk result
            (HasTaken (with_head rows.version rows.count (rows.bytes ++ piece.now))) }
    {
        match rows.feed(piece)? {
            Some(rows) => Ok(TakenBytes::Rows(rows)),
            None => Ok(TakenBytes::NoState),
        }
    }

    /// A whole head, with bytes that come next.
    fn whole_head(alloc: Global, head: [u8; HEAD_LEN], piece: &[u8]) -> Result<TakenBytes, Kind>
        requires { length head ≡ 13 }
        ensures none { piece.now ≡ [] → IsOk result }
        ensures memory { IfErr result (λ kind. kind ≡ OutOfMemory) }
        ensures taken { IfOk result (HasTaken (head ++ piece.now)) }
    {
        match head_at(&head) {
            Ok((version, count, _)) => {
                TakenBytes::more_rows(RowPieces::new(alloc, version, count), piece)
            }
            Err(kind) => match kind {
                Kind::Version => Ok(TakenBytes::OtherVersion),
                _ => Ok(TakenBytes::NoState),
            },
        }
    }

    /// So many bytes of the head, with bytes that come next.
    fn more_head(
        alloc: Global,
        head: [u8; HEAD_LEN],
        len: usize,
        piece: &[u8],
    ) -> Result<TakenBytes, Kind>
        requires room { length head ≡ 13 }
        requires short { len < 13 }
        ensures head { len + length piece.now ≤ 13 → IsOk result }
        ensures memory { IfErr result (λ kind. kind ≡ OutOfMemory) }
        ensures taken { IfOk result (HasTaken (take len head ++ piece.now)) }
    {
        let mut head = head;
        let count = piece.len().min(HEAD_LEN - len);
        let (front, rest) = piece.split_at(count);
        head[len..len + count].copy_from_slice(front);
        if len + count < HEAD_LEN {
            return Ok(TakenBytes::Head(head, len + count));
        }
        TakenBytes::whole_head(alloc, head, rest)
    }

    /// What was taken in, with bytes that come next.
    fn more(self, alloc: Global, piece: &[u8]) -> Result<TakenBytes, Kind>
        requires { IsSound self }
        ensures sound { IfOk result IsSound }
        ensures ok { IfOk result
            (λ new. IsTakenIn (intake_of self) piece.now (intake_of new)) }
        ensures err { IfErr result (λ kind. IsNotTakenIn (intake_of self) kind failed) }
        ensures head { (bytes : List ℕ) → intake_of self ≡ so_far bytes
            → length bytes + length piece.now ≤ 13 → IsOk result }
    {
        match self {
            TakenBytes::Head(head, len) => TakenBytes::more_head(alloc, head, len, piece),
            TakenBytes::Rows(rows) => TakenBytes::more_rows(rows, piece),
            TakenBytes::OtherVersion => Ok(TakenBytes::OtherVersion),
            TakenBytes::NoState => Ok(TakenBytes::NoState),
            TakenBytes::Failed => Err(Kind::Failed),
        }
    }
}

impl StateReader {
    /// A reader that was handed nothing. This takes no memory.
    pub fn new(alloc: Global) -> StateReader
        ensures { result ≡ so_far [] }
    {
        StateReader {
            alloc,
            taken: TakenBytes::Head([0; HEAD_LEN], 0),
        }
    }

    /// Takes in the bytes that come next. `finish` reports a fault that no continuation can mend;
    /// once such a fault is found, the reader drops what it has kept and all further pieces. The
    /// head takes no memory.
    ///
    /// # Errors
    ///
    /// `Memory` where memory ran out, and from then on `Failed`, for good.
    pub fn feed(&mut self, piece: &[u8]) -> Result<(), Kind>
        ensures ok { OnOk result (IsTakenIn self.old piece.now self.new) }
        ensures err { IfErr result (λ kind. IsNotTakenIn self.old kind self.new) }
        ensures head { (bytes : List ℕ) → self.old ≡ so_far bytes
            → length bytes + length piece.now ≤ 13 → IsOk result }
    {
        let taken = mem::replace(&mut self.taken, TakenBytes::Failed);
        self.taken = taken.more(self.alloc, piece)?;
        Ok(())
    }

    /// The valid table whose state bytes were taken in, in whichever version. The state without
    /// rows takes no memory.
    ///
    /// # Errors
    ///
    /// As those of `decode`; and `Failed` where memory ran out before.
    pub fn finish(self) -> Result<Table<Row>, Kind>
        ensures valid { IfOk result IsValidTable }
        ensures bytes { IfOk result (IsReadTable self) }
        ensures refused { IfErr result (IsIntakeUnread self) }
        ensures opening { (version : Versions) → self ≡ so_far (table_bytes_in version empty)
            → IsOk result }
    {
        let StateReader { alloc, taken } = self;
        match taken {
            TakenBytes::Head(head, len) => decode(alloc, &head[..len]),
            TakenBytes::Rows(rows) => {
                if rows.is_none() {
                    return Ok(Table::new(alloc));
                }
                let table = rows.finish()?;
                if !table.is_valid() {
                    return Err(Kind::NotState);
                }
                Ok(table)
            }
            TakenBytes::OtherVersion => Err(Kind::Version),
            TakenBytes::NoState => Err(Kind::NotState),
            TakenBytes::Failed => Err(Kind::Failed),
        }
    }
}
