ghost use Rattle.std.specs.Prelude.{◌≡◌, ◌+◌, ◌-◌, ◌/◌, ◌≤◌, ◌++◌, ◌∷◌, [], ◌↔◌, ◌==◌, ℕ, List, length};
ghost use Rattle.std.specs.Prelude.{drop, IfOk, IfSome, IfNone, OnOk, OnErr, IsTrue};
ghost use Rattle.std.specs.List.{Contains};
ghost use Rattle.cue_journal.specs.Blocks.{recovered_pieces, block, FitsInBlock};
ghost use Rattle.cue_journal.specs.Listed.{Listed, next_of, KeepsPieces, behind_of, GivesUp};
ghost use Rattle.cue_journal.specs.Listed.{GivesUpBeyond};
ghost use Rattle.cue_journal.specs.Lists.{blocks, memory_of_pieces};

use crate::cursor::PieceCursor;
use bytes::Bytes;
use std::alloc::{AllocError, Global};
use std::collections::{BTreeMap, VecDeque};
use std::marker::Model;

/// So many bytes of memory the pieces that are kept take at most.
pub const MOST_BYTES: usize = 16 * 1024 * 1024;

/// So many bytes a piece takes beside its own: its place in the list and in the index, and what the
/// allocator adds. A million pieces of one byte were seen to take 121 each.
const BESIDE: usize = 128;

/// No piece is as long, in bytes.
const LONGEST: usize = u32::MAX as usize;

/// The pieces that a site accepted since its start, each as an entry of its journals. The oldest
/// are given up.
#[derive(Drop)]
pub struct Pieces {
    alloc: Global,
    run: u64,
    /// So many of the oldest are given up.
    given_up: u64,
    kept: VecDeque<Bytes>,
    /// The numbers of those that are kept, to look them up.
    known: BTreeMap<Bytes, u64>,
    /// How many bytes of memory those that are kept take.
    size: usize,
}

impl Model for Pieces {
    ghost use Rattle.cue_journal.specs.Listed.{Listed};

    ghost Value = { Listed };

    ghost use Rattle.cue_journal.specs.Inner.Pieces.{AreSound};

    ghost view = { λ p. record { run = p.run; given_up = p.given_up; kept = p.kept.items } };

    ghost invariant = { λ p. AreSound p.given_up p.size p.kept.items };
}

/// The entry that begins with this byte.
fn entry_of(alloc: Global, first: u8, rest: &[u8]) -> Result<Bytes, AllocError>
    ensures { IfOk result (λ entry. entry ≡ first ∷ rest.now) }
{
    let mut entry = Vec::with_capacity(alloc, rest.len().saturating_add(1))?;
    entry.push(first)?;
    entry.extend_from_slice(rest)?;
    Ok(Bytes::from_vec(entry)?)
}

/// Adds the block of an entry.
fn add_block(body: &mut Vec<u8>, entry: &[u8]) -> Result<(), AllocError>
    requires { FitsInBlock entry.now }
    ensures { OnOk result (body.new.items ≡ body.old.items ++ block entry.now) }
{
    let size = (entry.len() as u32).to_be_bytes();
    body.push(1)?;
    body.extend_from_slice(&size)?;
    body.extend_from_slice(entry)
}

impl Pieces {
    /// No piece was accepted in this run.
    pub fn new(alloc: Global, run: u64) -> Pieces
        ensures { result ≡ record { run = run; given_up = 0; kept = [] } }
    {
        Pieces {
            alloc,
            run,
            given_up: 0,
            kept: VecDeque::new(alloc),
            known: BTreeMap::new(alloc),
            size: 0,
        }
    }

    /// The place behind all.
    pub fn cursor(&self) -> PieceCursor
        ensures run { result.run ≡ self.now.run }
        ensures count { result.count ≡ next_of self.now }
    {
        PieceCursor {
            run: self.run,
            count: self.given_up + self.kept.len() as u64,
        }
    }

    /// Whether none was given up.
    pub fn is_whole(&self) -> bool
        ensures { IsTrue result ↔ (self.now.given_up ≡ 0) }
    {
        self.given_up == 0
    }

    /// Whether an entry is found among those that are kept. One that stands there more than once is
    /// not found any more when the first of them is given up.
    pub fn contains_entry(&self, entry: &[u8]) -> Result<bool, AllocError>
        ensures { IfOk result (λ known. IsTrue known → Contains self.now.kept entry.now) }
    {
        let key = Bytes::from_vec(Vec::from_slice(self.alloc, entry)?)?;
        Ok(self.is_kept(&key))
    }

    /// Whether the entry that begins with this byte is found among those that are kept.
    pub fn contains_parts(&self, first: u8, rest: &[u8]) -> Result<bool, AllocError>
        ensures { IfOk result (λ known. IsTrue known → Contains self.now.kept (first ∷ rest.now)) }
    {
        let key = entry_of(self.alloc, first, rest)?;
        Ok(self.is_kept(&key))
    }

    fn is_kept(&self, key: &Bytes) -> bool
        ensures { IsTrue result → Contains self.now.kept key.now }
    {
        match self.known.get(key) {
            Some(number) => self.is_at(*number, key.as_slice()),
            None => false,
        }
    }

    /// Whether the piece with this number is kept, and is this entry.
    fn is_at(&self, number: u64, entry: &[u8]) -> bool
        ensures { IsTrue result → Contains self.now.kept entry.now }
    {
        if number < self.given_up {
            return false;
        }
        let place = number - self.given_up;
        if place >= self.kept.len() as u64 {
            return false;
        }
        match self.kept.get(place as usize) {
            Some(kept) => kept.as_slice() == entry,
            None => false,
        }
    }

    /// Adds a piece: an entry that begins with this byte.
    ///
    /// # Errors
    ///
    /// Where memory is wanting, or a further number, or for an entry of 4 GiB. Nothing changes.
    pub fn add(&mut self, first: u8, rest: &[u8]) -> Result<(), AllocError>
        ensures ok { OnOk result
            (self.new ≡ record self.old { kept = self.old.kept ++ (first ∷ rest.now) ∷ [] }) }
        ensures err { OnErr result (self.new ≡ self.old) }
    {
        if rest.len() >= LONGEST || self.given_up >= u64::MAX - self.kept.len() as u64 {
            return Err(AllocError);
        }
        let Some(size) = self.size.checked_add(rest.len() + 1 + BESIDE) else {
            return Err(AllocError);
        };
        let entry = entry_of(self.alloc, first, rest)?;
        let shared = entry.clone()?;
        let number = self.given_up + self.kept.len() as u64;
        self.kept.push_back(entry)?;
        self.size = size;
        let _before = self.known.insert(shared, number);
        Ok(())
    }

    /// Takes the last piece back, which was added and is not accepted.
    pub fn take_back(&mut self)
        ensures { (entries : List (List ℕ)) (last : List ℕ) → self.old.kept ≡ entries ++ last ∷ []
            → self.new ≡ record self.old { kept = entries } }
    {
        if let Some(last) = self.kept.pop_back() {
            self.size -= last.len() + BESIDE;
            self.known.remove(&last);
        }
    }

    /// Gives up the oldest as long as they take too many bytes.
    pub fn trim(&mut self)
        ensures gives_up { GivesUp self.old self.new }
        ensures needed { GivesUpBeyond 16777216 self.old self.new }
        ensures bound { memory_of_pieces self.new.kept ≤ 16777216 }
    {
        self.shrink_to(MOST_BYTES);
    }

    /// Gives up the oldest, until the others take half of the memory that all took.
    pub fn halve(&mut self)
        ensures gives_up { GivesUp self.old self.new }
        ensures bound { memory_of_pieces self.new.kept ≤ memory_of_pieces self.old.kept / 2 }
    {
        self.shrink_to(self.size / 2);
    }

    /// Gives up the oldest, until the others take so many bytes.
    fn shrink_to(&mut self, most: usize)
        ensures gives_up { GivesUp self.old self.new }
        ensures needed { GivesUpBeyond most self.old self.new }
        ensures bound { memory_of_pieces self.new.kept ≤ most }
    {
        while self.size > most {
            let Some(oldest) = self.kept.pop_front() else {
                return;
            };
            self.size -= oldest.len() + BESIDE;
            self.given_up += 1;
            self.known.remove(&oldest);
        }
    }

    /// Where the pieces behind a cursor begin among those that are kept.
    fn place_of(&self, cursor: PieceCursor) -> Option<usize>
        ensures some { IfSome result (λ place. KeepsPieces self.now cursor.run cursor.count
            × (place ≡ cursor.count - self.now.given_up)) }
        ensures none { IfNone result (¬ KeepsPieces self.now cursor.run cursor.count) }
    {
        if cursor.run != self.run || cursor.count < self.given_up {
            return None;
        }
        let place = cursor.count - self.given_up;
        if place > self.kept.len() as u64 {
            return None;
        }
        Some(place as usize)
    }

    /// The blocks of all pieces behind a cursor, as those of a journal; none where not all of them
    /// are kept, or it is of another run.
    pub fn blocks_behind(&self, cursor: PieceCursor) -> Result<Option<Vec<u8>>, AllocError>
        ensures some { IfOk result (λ found. IfSome found (λ body. KeepsPieces self.now cursor.run cursor.count
            × (body.items ≡ blocks (behind_of self.now cursor.count))
            × (recovered_pieces body.items ≡ behind_of self.now cursor.count))) }
        ensures none { IfOk result (λ found. IfNone found (¬ KeepsPieces self.now cursor.run cursor.count)) }
    {
        let Some(place) = self.place_of(cursor) else {
            return Ok(None);
        };
        let mut body = Vec::new(self.alloc);
        for at in place..self.kept.len() {
            if let Some(entry) = self.kept.get(at) {
                add_block(&mut body, entry.as_slice())?;
            }
        }
        Ok(Some(body))
    }
}
