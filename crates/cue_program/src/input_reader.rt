ghost use Rattle.std.specs.Prelude.{◌≡◌, ◌<◌, ◌++◌, ℕ, List, length, IfOk, IfErr, OnOk};
ghost use Rattle.cue_codec.specs.Pieces.{IsIntake, IsTakenIn};
ghost use Rattle.cue_program.specs.Inputs.{IsEnoughOf};
ghost use Rattle.cue_program.specs.Stops.{IsMemoryStop};

use crate::site::begins_a_state;
use crate::stop::RunError;
use cue_replica::{StateReader, TEXT_LIMIT};
use std::alloc::Global;

/// What is kept of an input while it is read.
pub trait InputReader: Drop {
    // This is kept of an input with these bytes so far.
    ghost keeps: { Self → List ℕ → Type 0 };

    /// What is kept of an input whose first piece this is: an empty one where it has no bytes.
    ///
    /// # Errors
    ///
    /// `Memory`.
    fn begin(alloc: Global, piece: &[u8]) -> Result<Self, RunError>
        ensures kept { IfOk result (λ kept. keeps kept piece.now) }
        ensures fault { IfErr result IsMemoryStop };

    /// Goes on with the piece that comes next.
    ///
    /// # Errors
    ///
    /// `Memory`.
    fn go_on(&mut self, piece: &[u8]) -> Result<(), RunError>
        ensures kept { (front : List ℕ) → 0 < length front → keeps self.old front
            → OnOk result (keeps self.new (front ++ piece.now)) }
        ensures fault { (front : List ℕ) → 0 < length front → keeps self.old front
            → IfErr result IsMemoryStop };
}

/// All bytes.
impl InputReader for Vec<u8> {
    ghost keeps = { λ kept bytes. kept.items ≡ bytes };

    fn begin(alloc: Global, piece: &[u8]) -> Result<Vec<u8>, RunError> {
        Ok(piece.to_vec(alloc)?)
    }

    fn go_on(&mut self, piece: &[u8]) -> Result<(), RunError> {
        Ok(self.extend_from_slice(piece)?)
    }
}

/// Enough of a file to know what it hands in: of what is no state no more than tells that it is too
/// long for a text.
#[derive(Drop)]
pub struct Enough {
    pub bytes: Vec<u8>,
}

impl InputReader for Enough {
    ghost keeps = { λ kept bytes. IsEnoughOf bytes kept.bytes.items };

    fn begin(alloc: Global, piece: &[u8]) -> Result<Enough, RunError> {
        let mut bytes = piece.to_vec(alloc)?;
        keep_enough(&mut bytes);
        Ok(Enough { bytes })
    }

    fn go_on(&mut self, piece: &[u8]) -> Result<(), RunError> {
        self.bytes.extend_from_slice(piece)?;
        keep_enough(&mut self.bytes);
        Ok(())
    }
}

/// Of bytes that begin no state, drops those that come after the one that is too many for a text.
fn keep_enough(bytes: &mut Vec<u8>)
    ensures { IsEnoughOf bytes.old.items bytes.new.items }
{
    if !begins_a_state(bytes) {
        bytes.truncate(TEXT_LIMIT + 1);
    }
}

/// An input as it was read: a state of so many bytes was taken in piece by piece, and its bytes are
/// not kept; of any other this is kept.
#[derive(Drop)]
pub enum Input<K> {
    State(StateReader, usize),
    Text(K),
}

impl Input<Enough> {
    /// How many bytes were taken in of a state, or are kept of a text.
    pub(crate) fn len(&self) -> usize {
        match self {
            Input::State(_, len) => *len,
            Input::Text(text) => text.bytes.len(),
        }
    }
}

impl<K: InputReader> InputReader for Input<K> {
    ghost use Rattle.cue_program.specs.Inputs.{IsInputRead};

    ghost keeps = { λ input bytes. IsInputRead K.keeps input bytes };

    fn begin(alloc: Global, piece: &[u8]) -> Result<Input<K>, RunError> {
        if !begins_a_state(piece) {
            return Ok(Input::Text(K::begin(alloc, piece)?));
        }
        let mut reader = StateReader::new(alloc);
        feed(&mut reader, piece)?;
        Ok(Input::State(reader, piece.len()))
    }

    fn go_on(&mut self, piece: &[u8]) -> Result<(), RunError> {
        match self {
            Input::State(reader, len) => {
                *len = len.saturating_add(piece.len());
                feed(reader, piece)
            }
            Input::Text(kept) => kept.go_on(piece),
        }
    }
}

/// Hands a piece to a reader. One that no memory was refused to fails for want of memory alone.
fn feed(reader: &mut StateReader, piece: &[u8]) -> Result<(), RunError>
    ensures taken { OnOk result (IsTakenIn reader.old piece.now reader.new) }
    ensures fault { (bytes : List ℕ) → IsIntake bytes reader.old → IfErr result IsMemoryStop }
{
    match reader.feed(piece) {
        Ok(()) => Ok(()),
        Err(kind) => Err(RunError::Refused(kind)),
    }
}
