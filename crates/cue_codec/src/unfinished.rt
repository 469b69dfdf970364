//! The bytes of a row that the end of a piece cuts.

ghost use Rattle.std.specs.Prelude.{◌≡◌, ◌<◌, ◌≤◌, ◌++◌, [], length, take, IfOk, IfErr};
ghost use Rattle.cue_lattice.specs.declared.refusal.Kind.TheVariants.{Memory as OutOfMemory};
ghost use Rattle.cue_codec.specs.Inner.Pieces.{IsTaken, IsReadAgain, with_bytes};

use crate::drafting::Drafting;
use crate::state_writer::drop_front;
use cue_lattice::Kind;
use std::alloc::Global;
use std::marker::Model;

/// The bytes of a row that is unfinished, and those that were put behind it. They are read in vain
/// while the row is cut, and each time only once they are twice as many as the last time: so all
/// readings of a row cost no more than a few times what its bytes do. Contracts see the bytes.
#[derive(Drop)]
pub struct Unfinished {
    bytes: Vec<u8>,
    /// How many bytes there must be before they are read again.
    wanted: usize,
}

impl Model for Unfinished {
    ghost use Rattle.std.specs.Prelude.{List, ℕ};

    ghost Value = { List ℕ };

    ghost view = { λ unfinished. unfinished.bytes.items };
}

impl Unfinished {
    /// No bytes. This takes no memory.
    pub fn none(alloc: Global) -> Unfinished
        ensures { result ≡ [] }
    {
        Unfinished {
            bytes: Vec::new(alloc),
            wanted: 0,
        }
    }

    /// The bytes.
    pub fn as_slice(&self) -> &[u8]
        ensures { result.now ≡ self.now }
    {
        self.bytes.as_slice()
    }

    /// Reads the rows that stand whole in front of bytes, where none are kept; what stands behind
    /// these rows is kept then.
    fn read(&mut self, rows: &mut Drafting, bytes: &[u8]) -> Result<Option<usize>, Kind>
        requires some { 0 < length bytes.now }
        requires none { self.old ≡ [] }
        ensures taken { IfOk result
            (IsTaken (with_bytes rows.old self.old) bytes.now (with_bytes rows.new self.new)) }
        ensures memory { IfErr result (λ kind. kind ≡ OutOfMemory) }
    {
        let Some(len) = rows.add_rows(bytes)? else {
            return Ok(None);
        };
        let (_, cut) = bytes.split_at(len);
        let Ok(()) = self.bytes.extend_from_slice(cut) else {
            return Err(Kind::Memory);
        };
        self.wanted = cut.len().saturating_mul(2);
        Ok(Some(bytes.len()))
    }

    /// Puts bytes that come next behind the others, as many as are missing, but one at least, and
    /// says how many these are.
    fn put(&mut self, bytes: &[u8]) -> Result<usize, Kind>
        requires { 0 < length bytes.now }
        ensures some { IfOk result (λ len. 0 < len) }
        ensures few { IfOk result (λ len. len ≤ length bytes.now) }
        ensures put { IfOk result (λ len. self.new ≡ self.old ++ take len bytes.now) }
        ensures memory { IfErr result (λ kind. kind ≡ OutOfMemory) }
    {
        let missing = self.wanted.saturating_sub(self.bytes.len()).max(1);
        let len = missing.min(bytes.len());
        let (front, _) = bytes.split_at(len);
        let Ok(()) = self.bytes.extend_from_slice(front) else {
            return Err(Kind::Memory);
        };
        Ok(len)
    }

    /// Reads the rows that stand whole in front, where so many bytes were put behind the others
    /// last, and says how many of these are taken in. Those behind the rows are given back where
    /// all of them were put there last; else they are kept.
    fn read_again(&mut self, rows: &mut Drafting, last: usize) -> Result<Option<usize>, Kind>
        requires some { 0 < last }
        requires within { last ≤ length self.old }
        ensures read { IfOk result
            (IsReadAgain rows.old self.old last (with_bytes rows.new self.new)) }
        ensures memory { IfErr result (λ kind. kind ≡ OutOfMemory) }
    {
        let Some(len) = rows.add_rows(self.bytes.as_slice())? else {
            return Ok(None);
        };
        let left = self.bytes.len() - len;
        if left < last {
            self.bytes.clear();
            return Ok(Some(last - left));
        }
        drop_front(&mut self.bytes, len);
        self.wanted = left.saturating_mul(2);
        Ok(Some(last))
    }

    /// Takes in bytes that come next, of which there are some, behind the rows and these bytes, and
    /// says how many. There is no number where no rows begin so. Rows that stand whole in the bytes
    /// are read there, and only what is cut is kept.
    pub fn take(&mut self, rows: &mut Drafting, bytes: &[u8]) -> Result<Option<usize>, Kind>
        requires { 0 < length bytes.now }
        ensures taken { IfOk result
            (IsTaken (with_bytes rows.old self.old) bytes.now (with_bytes rows.new self.new)) }
        ensures memory { IfErr result (λ kind. kind ≡ OutOfMemory) }
    {
        if self.bytes.is_empty() {
            return self.read(rows, bytes);
        }
        let len = self.put(bytes)?;
        if self.bytes.len() < self.wanted {
            return Ok(Some(len));
        }
        self.read_again(rows, len)
    }
}
