ghost use Rattle.std.specs.Prelude.{ℕ, List, ◌≡◌, ◌+◌, ◌-◌, ◌<◌, ◌≤◌, ◌^◌, ◌==◌, ◌↔◌, ◌++◌, []};
ghost use Rattle.std.specs.Prelude.{◌∷◌, length, take, drop, map, None, Some, MatchOption, IfOk};
ghost use Rattle.std.specs.Prelude.{OnOk, OnErr, IsErrOf};
ghost use Rattle.cue_journal.specs.Blocks.{next_piece, recovered_pieces, IsScanned};
ghost use Rattle.cue_journal.specs.Settled.{IsBatch};
ghost use Rattle.cue_journal.specs.Frames.{sealed};

use crate::frames::checksum_of;
use std::alloc::{AllocError, Global};

/// The piece of the first block, where it counts, and what follows it.
pub(crate) fn first_piece(bytes: &[u8]) -> Option<(&[u8], &[u8])>
    ensures { MatchOption result (next_piece bytes.now ≡ None)
        (λ found. next_piece bytes.now ≡ Some (found.0.now, found.1.now)) }
{
    let [1, a, b, c, d, rest @ ..] = bytes else {
        return None;
    };
    let size = u32::from_be_bytes([*a, *b, *c, *d]) as usize;
    if size > rest.len() {
        return None;
    }
    Some(rest.split_at(size))
}

/// The pieces of the blocks that count, and where these blocks end.
pub fn read_pieces(alloc: Global, bytes: &[u8]) -> Result<(Vec<Vec<u8>>, usize), AllocError>
    ensures pieces { IfOk result (λ r. map (λ v. v.items) r.0.items ≡ recovered_pieces bytes.now) }
    ensures end { IfOk result (λ r. IsScanned bytes.now r.1) }
{
    let mut pieces = Vec::new(alloc);
    let mut rest = bytes;
    while let Some((piece, after)) = first_piece(rest) {
        pieces.push(Vec::from_slice(alloc, piece)?)?;
        rest = after;
    }
    Ok((pieces, bytes.len() - rest.len()))
}

/// Why an entry does not fit into a batch.
#[derive(Clone, Copy, Debug, PartialEq, Eq)]
pub enum BlockError {
    /// The entry has 4 GiB or more.
    TooLong,
    OutOfMemory(AllocError),
}

/// Blocks that wait to be written.
#[derive(Drop)]
pub struct Batch {
    pub(crate) bytes: Vec<u8>,
}

impl Batch {
    ghost use Rattle.cue_journal.specs.Batches.{batch_bytes};

    pub fn new(alloc: Global) -> Batch
        ensures { batch_bytes result ≡ [] }
    {
        Batch {
            bytes: Vec::new(alloc),
        }
    }

    pub fn is_empty(&self) -> bool
        ensures { result ≡ (length (batch_bytes self.now) == 0) }
    {
        self.bytes.is_empty()
    }

    /// How many bytes wait.
    pub fn len(&self) -> usize
        ensures { result ≡ length (batch_bytes self.now) }
    {
        self.bytes.len()
    }

    /// Adds a block whose entry is this byte and then these bytes.
    ///
    /// # Errors
    ///
    /// `TooLong` for an entry of 4 GiB and no other, and `OutOfMemory`. The batch is then as
    /// before.
    pub fn push(&mut self, first: u8, rest: &[u8]) -> Result<(), BlockError>
        ensures ok { OnOk result (IsBatch (batch_bytes self.old) → IsBatch (batch_bytes self.new)
            × (recovered_pieces (batch_bytes self.new)
            ≡ recovered_pieces (batch_bytes self.old) ++ (first ∷ rest.now) ∷ [])) }
        ensures fits { OnOk result (length rest.now < 2 ^ 32) }
        ensures long { IsErrOf result BlockError.TooLong ↔ (2 ^ 32 ≤ length rest.now + 1) }
        ensures appends { OnOk result ((more : List ℕ)
            × (batch_bytes self.new ≡ batch_bytes self.old ++ more)) }
        ensures err { OnErr result (batch_bytes self.new ≡ batch_bytes self.old) }
    {
        if rest.len() >= u32::MAX as usize {
            return Err(BlockError::TooLong);
        }
        let head = (rest.len() as u32 + 1).to_be_bytes();
        let old = self.bytes.len();
        match self.add(&head, first, rest) {
            Ok(()) => Ok(()),
            Err(error) => {
                self.bytes.truncate(old);
                Err(BlockError::OutOfMemory(error))
            }
        }
    }

    fn add(&mut self, head: &[u8; 4], first: u8, rest: &[u8]) -> Result<(), AllocError>
        ensures ok { OnOk result (self.new.bytes.items
            ≡ self.old.bytes.items ++ (1 ∷ head.now ++ first ∷ rest.now)) }
        ensures err { take (length self.old.bytes.items) self.new.bytes.items
            ≡ self.old.bytes.items }
    {
        self.bytes.push(1)?;
        self.bytes.extend_from_slice(head)?;
        self.bytes.push(first)?;
        self.bytes.extend_from_slice(rest)
    }

    /// Puts the length and the checksum of the blocks in front of them, and a closed gate behind them.
    #[tactic(auto, unfolding(crate::specs::Frames::sealed))]
    pub(crate) fn seal(&mut self) -> Result<(), AllocError>
        requires { length self.old.bytes.items < 2 ^ 64 }
        ensures { OnOk result (self.new.bytes.items ≡ sealed (self.old.bytes.items)) }
    {
        let size = (self.bytes.len() as u64).to_be_bytes();
        let sum = checksum_of(&self.bytes);
        self.bytes.extend_from_slice(&size)?;
        self.bytes.extend_from_slice(&sum)?;
        self.bytes.rotate_right(16);
        self.bytes.push(0)?;
        Ok(())
    }

    /// Takes back what was added behind so many bytes.
    pub fn cut(&mut self, length: usize)
        ensures { batch_bytes self.new ≡ take length (batch_bytes self.old) }
    {
        self.bytes.truncate(length);
    }

    pub fn clear(&mut self)
        ensures { batch_bytes self.new ≡ [] }
    {
        self.bytes.clear();
    }
}
