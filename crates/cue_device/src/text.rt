//! Texts that are written while they are made.
ghost use Rattle.std.specs.Prelude.{ℕ, List, Option, Some, OnOk, OnErr, string_bytes};
ghost use Rattle.std.specs.Io.KnownBytes.{Appends};
ghost use Rattle.cue_device.specs.Texts.{WritesPrefix};

use cue_lattice::Memory;

/// Where a text is written to while it is made, a piece at a time.
pub trait TextSink {
    /// Why it takes no more.
    type SinkError: From<Memory> + Drop;

    // The bytes that it took so far, where they are known.
    ghost taken: { Self → Option (List ℕ) };

    /// Takes the next piece of the text.
    ///
    /// # Errors
    ///
    /// Where it takes no more; then some bytes in front of the piece were taken.
    fn put(&mut self, piece: &str) -> Result<(), Self::SinkError>
        ensures told { OnOk result (Appends (taken self.old) (taken self.new) piece.now) }
        ensures begun { OnErr result (WritesPrefix (taken self.old) (taken self.new) piece.now) };
}

impl TextSink for String {
    type SinkError = Memory;

    ghost taken = { λ text. Some (string_bytes text) };

    fn put(&mut self, piece: &str) -> Result<(), Memory> {
        self.push_str(piece)?;
        Ok(())
    }
}
