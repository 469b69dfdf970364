//! Pieces that are taken in batches.
ghost use Rattle.std.specs.Prelude.{◌≡◌, ◌⊎◌, ℕ, List, [], ◌∷◌, ◌++◌};
ghost use Rattle.std.specs.Prelude.{IfOk, IfErr, OnOk};
ghost use Rattle.cue_lattice.specs.World.{Piece, text as text_of};
ghost use Rattle.cue_replica.specs.Accepted.{IsOfPieces};
ghost use Rattle.cue_replica.specs.Language.{language};
ghost use Rattle.cue_replica.specs.declared.Refusal.{Refusal};
ghost use Rattle.cue_program.specs.Inputs.{IsFilePiece, IsFileRead, IsPieceRefusal, IsTextInputRefusal};
ghost use Rattle.cue_program.specs.Stops.{IsMemoryStop, IsRefusedAs};
ghost use Rattle.cue_program.specs.inner.Gathered.{IsGathered};

use crate::input_reader::{Enough, Input};
use crate::site::{submit, take_file};
use crate::stop::RunError;
use cue_replica::{Memory, Replica};
use std::alloc::Global;
use std::mem;

/// How many bytes the pieces of a batch have at least, unless it is the last.
const BATCH: usize = 16_384;

/// How many times the bytes of a batch those before it may have.
const TIMES: usize = 16;

/// A site that has taken pieces, with a site of its own for those that came last. Both are unified
/// when that has taken enough of them: a piece alone would move all branches of a list that gets a
/// new one.
#[derive(Drop)]
pub struct SiteBatch {
    pub site: Replica,
    pub batch: Replica,
    /// How many bytes the pieces have that the site has taken.
    before: usize,
    /// How many bytes those of the batch have.
    size: usize,
    alloc: Global,
}

impl SiteBatch {
    /// No pieces.
    pub fn new(alloc: Global) -> SiteBatch
        ensures { IsGathered result [] }
    {
        SiteBatch {
            site: Replica::new(alloc),
            batch: Replica::new(alloc),
            before: 0,
            size: 0,
            alloc,
        }
    }

    /// Takes the text of this number.
    ///
    /// # Errors
    ///
    /// `RefusedInput`, and `Memory`: then this is not used any more.
    pub fn take(&mut self, text: &[u8], number: usize) -> Result<(), RunError>
        ensures taken { (pieces : List Piece) → IsGathered self.old pieces
            → OnOk result (IsGathered self.new (pieces ++ text_of text.now ∷ [])) }
        ensures refused { IfErr result (λ stop. IsMemoryStop stop ⊎ ((why : Refusal) ×
            IsRefusedAs why number stop × IsTextInputRefusal text.now why)) }
    {
        submit(&mut self.batch, text, number)?;
        self.grow(text.len())?;
        Ok(())
    }

    /// Takes the file of this number: a state, or one text.
    ///
    /// # Errors
    ///
    /// `RefusedInput`, and `Memory`: then this is not used any more.
    pub fn take_file(&mut self, file: Input<Enough>, number: usize) -> Result<(), RunError>
        ensures taken { (bytes : List ℕ) (pieces : List Piece) → IsFileRead file bytes
            → IsGathered self.old pieces → OnOk result ((piece : Piece) ×
            IsFilePiece bytes piece × IsGathered self.new (pieces ++ piece ∷ [])) }
        ensures refused { (bytes : List ℕ) → IsFileRead file bytes
            → IfErr result (λ stop. IsMemoryStop stop ⊎ ((piece : Piece) × (why : Refusal)
            × IsFilePiece bytes piece × IsPieceRefusal piece why × IsRefusedAs why number stop)) }
    {
        let len = file.len();
        take_file(&mut self.batch, file, number)?;
        self.grow(len)?;
        Ok(())
    }

    /// Counts a piece of so many bytes, and hands the batch to the site where that makes it enough.
    fn grow(&mut self, len: usize) -> Result<(), Memory>
        ensures { (pieces : List Piece) → IsGathered self.old pieces
            → OnOk result (IsGathered self.new pieces) }
    {
        self.size = self.size.saturating_add(len);
        if self.size < BATCH.max(self.before / TIMES) {
            return Ok(());
        }
        self.unify()
    }

    /// Hands the batch to the site.
    fn unify(&mut self) -> Result<(), Memory>
        ensures { (pieces : List Piece) → IsGathered self.old pieces
            → OnOk result (IsGathered self.new pieces) }
    {
        let batch = mem::replace(&mut self.batch, Replica::new(self.alloc));
        self.site.unify(batch)?;
        self.before = self.before.saturating_add(self.size);
        self.size = 0;
        Ok(())
    }

    /// A site that has taken all pieces.
    ///
    /// # Errors
    ///
    /// `Memory`.
    pub fn finish(self) -> Result<Replica, Memory>
        ensures { (pieces : List Piece) → IsGathered self pieces
            → IfOk result (λ site. IsOfPieces site pieces) }
    {
        let SiteBatch {
            mut site,
            batch,
            before: _,
            size: _,
            alloc: _,
        } = self;
        site.unify(batch)?;
        Ok(site)
    }
}
