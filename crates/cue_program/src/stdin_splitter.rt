ghost use Rattle.std.specs.Prelude.{◌≡◌, ◌⊎◌, ◌≤◌, ◌+◌, ◌++◌, ℕ, List, [], codes, length};
ghost use Rattle.std.specs.Prelude.{IfOk, IfErr, OnOk};
ghost use Rattle.cue_replica.specs.Accepted.{text_limit};
ghost use Rattle.cue_program.specs.Stops.{IsMemoryStop};
ghost use Rattle.cue_program.specs.inner.Texts.{AreTexts, IsTextRefused};
ghost use Rattle.cue_program.specs.inner.Taking.{AreTaken, HasRead, HasTaken, IsLineEnd};
ghost use Rattle.cue_program.specs.inner.Taking.{IsRefusedWithin, IsStopWithin, IsUnbroken};

use crate::batch::SiteBatch;
use crate::input_reader::InputReader;
use crate::separator::{is_separator, line_end};
use crate::site::take_parts;
use crate::stop::RunError;
use cue_replica::{Kind, Refusal, Replica, TEXT_LIMIT};
use std::alloc::Global;

/// How many bytes a separating line has, at most.
const SEPARATOR: usize = 4;

/// Texts that are read, with a new site that takes each as soon as its separating line was read.
/// Once one is refused, the others are neither taken nor kept.
#[derive(Drop)]
pub struct Texts {
    pub taken: StdinSplitter,
    pub refused: Option<RunError>,
}

impl InputReader for Texts {
    ghost keeps = { λ texts bytes. AreTaken texts bytes };

    fn begin(alloc: Global, piece: &[u8]) -> Result<Texts, RunError> {
        let mut texts = Texts {
            taken: StdinSplitter::new(alloc),
            refused: None,
        };
        texts.take(piece)?;
        Ok(texts)
    }

    fn go_on(&mut self, piece: &[u8]) -> Result<(), RunError> {
        self.take(piece)
    }
}

impl Texts {
    /// Goes on with the piece that comes next.
    fn take(&mut self, piece: &[u8]) -> Result<(), RunError>
        ensures taken { (front : List ℕ) → AreTaken self.old front
            → OnOk result (AreTaken self.new (front ++ piece.now)) }
        ensures fault { (front : List ℕ) → AreTaken self.old front → IfErr result IsMemoryStop }
    {
        if self.refused.is_some() {
            return Ok(());
        }
        match self.taken.take(piece) {
            Ok(()) => Ok(()),
            Err(RunError::RefusedInput(why, number)) => {
                self.refused = Some(RunError::RefusedInput(why, number));
                Ok(())
            }
            Err(RunError::Refused(kind)) => Err(RunError::Refused(kind)),
            Err(RunError::Device) => Err(RunError::Device),
        }
    }

    /// The site that has taken all texts, where none follows.
    ///
    /// # Errors
    ///
    /// `RefusedInput` for the first text that is refused, with its number from 1.
    pub fn finish(self) -> Result<Replica, RunError>
        ensures holds { (bytes : List ℕ) → AreTaken self bytes → IfOk result (AreTexts bytes) }
        ensures stop { (bytes : List ℕ) → AreTaken self bytes
            → IfErr result (λ stop. IsMemoryStop stop ⊎ IsTextRefused bytes stop) }
    {
        match self.refused {
            Some(stop) => Err(stop),
            None => self.taken.finish(),
        }
    }
}

/// What has taken the parts that are finished, and what was read of the next.
#[derive(Drop)]
pub struct StdinSplitter {
    pub gathered: SiteBatch,
    /// How many parts are finished.
    pub number: usize,
    /// The whole lines of the next part.
    pub part: Vec<u8>,
    /// The line that goes on with what is read next.
    pub line: Vec<u8>,
}

impl StdinSplitter {
    /// A new site, of whose first part nothing was read.
    fn new(alloc: Global) -> StdinSplitter
        ensures { HasTaken result [] }
    {
        StdinSplitter {
            gathered: SiteBatch::new(alloc),
            number: 0,
            part: Vec::new(alloc),
            line: Vec::new(alloc),
        }
    }

    /// Takes the piece that comes next.
    fn take(&mut self, piece: &[u8]) -> Result<(), RunError>
        ensures taken { (front : List ℕ) → HasTaken self.old front
            → OnOk result (HasTaken self.new (front ++ piece.now)) }
        ensures stop { (front : List ℕ) → HasTaken self.old front
            → IfErr result (IsStopWithin (front ++ piece.now)) }
    {
        let mut rest = piece;
        while let Some((end, after)) = line_end(rest) {
            self.end_line(end)?;
            rest = after;
        }
        self.line.extend_from_slice(rest)?;
        self.check_length()
    }

    /// Takes the end of a line, with the line break. Where the line separates, the part is ended.
    fn end_line(&mut self, end: &[u8]) -> Result<(), RunError>
        requires { IsLineEnd end.now }
        ensures taken { (front : List ℕ) → HasTaken self.old front
            → OnOk result (HasTaken self.new (front ++ end.now)) }
        ensures stop { (front : List ℕ) → HasTaken self.old front
            → IfErr result (IsStopWithin (front ++ end.now)) }
    {
        self.line.extend_from_slice(end)?;
        if is_separator(&self.line) {
            return self.end_part();
        }
        self.part.extend_from_slice(&self.line)?;
        self.line.clear();
        self.check_length()
    }

    /// Hands the part on, and begins the next behind the separating line.
    fn end_part(&mut self) -> Result<(), RunError>
        ensures taken { (bytes : List ℕ) → HasRead self.old bytes
            → self.old.line.items ≡ codes "---\n" → OnOk result (HasTaken self.new bytes) }
        ensures stop { (bytes : List ℕ) → HasRead self.old bytes
            → self.old.line.items ≡ codes "---\n" → IfErr result (IsStopWithin bytes) }
    {
        self.number = self.number.saturating_add(1);
        self.gathered.take(&self.part, self.number)?;
        self.part.clear();
        self.line.clear();
        Ok(())
    }

    /// Refuses a part that is too long for a text, whatever follows: none of its whole lines
    /// separates, and no line that is longer than a separating one.
    fn check_length(&self) -> Result<(), RunError>
        ensures short { OnOk result
            (length self.now.part.items + length self.now.line.items ≤ text_limit + 4) }
        ensures long { (bytes : List ℕ) → HasRead self.now bytes
            → IsUnbroken self.now.line.items → IfErr result (IsRefusedWithin bytes) }
    {
        if self.part.len().saturating_add(self.line.len()) <= TEXT_LIMIT + SEPARATOR {
            return Ok(());
        }
        let why = Refusal::at(Kind::TooLong, TEXT_LIMIT);
        Err(RunError::RefusedInput(why, self.number.saturating_add(1)))
    }

    /// The site, with the parts in what was read and not yet taken, where nothing follows.
    fn finish(mut self) -> Result<Replica, RunError>
        ensures holds { (bytes : List ℕ) → HasTaken self bytes → IfOk result (AreTexts bytes) }
        ensures stop { (bytes : List ℕ) → HasTaken self bytes
            → IfErr result (λ stop. IsMemoryStop stop ⊎ IsTextRefused bytes stop) }
    {
        self.part.extend_from_slice(&self.line)?;
        take_parts(self.gathered.finish()?, self.number, &self.part)
    }
}
