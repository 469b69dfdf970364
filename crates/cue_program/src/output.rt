//! Streams that are written to.
ghost use Rattle.std.specs.Prelude.{◌≡◌, ◌<◌, ◌≤◌, false, true, length, IfOk, OnOk, OnErr};
ghost use Rattle.std.specs.Io.KnownBytes.{Keeps, WriteAppends};
ghost use Rattle.cue_program.specs.Outlets.{AddsBytes, BreaksAfter, outlet_failed, outlet_inner, passage_of};

use cue_device::Fault;
use std::io::{ErrorKind, Write};

/// A stream that bytes are written to. It keeps whether a call of it has failed.
#[derive(Drop)]
pub struct Output<W> {
    inner: W,
    failed: bool,
}

impl<W: Write> Output<W> {
    /// A stream of which no call has failed.
    pub fn new(inner: W) -> Output<W>
        ensures inner { outlet_inner result ≡ inner }
        ensures sound { outlet_failed result ≡ false }
    {
        Output {
            inner,
            failed: false,
        }
    }

    /// What was written to.
    pub fn into_inner(self) -> W
        ensures { result ≡ outlet_inner self }
    {
        self.inner
    }

    /// Writes bytes, all of them, and gets them out.
    ///
    /// # Errors
    ///
    /// `Fault` where a call fails; then some bytes in front were written.
    pub fn write_out(&mut self, bytes: &[u8]) -> Result<(), Fault>
        ensures told { OnOk result (AddsBytes (passage_of W.contents self.old self.new) bytes.now) }
        ensures broken { OnErr result (BreaksAfter (passage_of W.contents self.old self.new) bytes.now) }
    {
        self.write_all(bytes)?;
        self.flush()
    }

    /// Hands bytes on, all of them, which need not get out yet.
    ///
    /// # Errors
    ///
    /// As `write_out`.
    pub fn write_all(&mut self, bytes: &[u8]) -> Result<(), Fault>
        ensures told { OnOk result (AddsBytes (passage_of W.contents self.old self.new) bytes.now) }
        ensures broken { OnErr result (BreaksAfter (passage_of W.contents self.old self.new) bytes.now) }
    {
        let mut rest = bytes;
        while !rest.is_empty() {
            let count = self.write(rest)?;
            rest = &rest[count..];
        }
        Ok(())
    }

    /// Gets out what was handed on.
    ///
    /// # Errors
    ///
    /// `Fault` where the call fails.
    pub fn flush(&mut self) -> Result<(), Fault>
        ensures kept { Keeps (W.contents (outlet_inner self.old))
            (W.contents (outlet_inner self.new)) }
        ensures failed { OnErr result (outlet_failed self.new ≡ true) }
    {
        match self.inner.flush() {
            Ok(()) => Ok(()),
            Err(_) => {
                self.failed = true;
                Err(Fault)
            }
        }
    }

    /// Keeps that a call of it has failed.
    pub(crate) fn fail(&mut self)
        ensures inner { outlet_inner self.new ≡ outlet_inner self.old }
        ensures failed { outlet_failed self.new ≡ true }
    {
        self.failed = true;
    }

    /// Writes bytes from the front of a slice that has some, and answers how many. A call that a
    /// signal interrupts is made again.
    fn write(&mut self, bytes: &[u8]) -> Result<usize, Fault>
        ensures bound { IfOk result (λ count. (0 < count) × (count ≤ length bytes.now)) }
        ensures taken { WriteAppends (W.contents (outlet_inner self.old))
            (W.contents (outlet_inner self.new)) result bytes.now }
        ensures failed { OnErr result (outlet_failed self.new ≡ true) }
    {
        for _ in 0..u64::MAX {
            match self.inner.write(bytes) {
                Ok(0) => break,
                Ok(count) => return Ok(count),
                Err(error) => {
                    if error.kind() != ErrorKind::Interrupted {
                        break;
                    }
                }
            }
        }
        self.failed = true;
        Err(Fault)
    }
}
