ghost use Rattle.std.specs.Prelude.{◌≡◌, ◌-◌, ◌^◌, ◌<◌, ◌≤◌, ℕ, List, [], length, Option, None};
ghost use Rattle.std.specs.Prelude.{IfOk};
ghost use Rattle.std.specs.Io.KnownBytes.{Keeps, WriteAppends};
ghost use Rattle.cue_device.specs.Devices.{Counts};

use crate::Fault;
use std::io::Write;

/// Where bytes are written to.
pub trait Sink {
    // How often it was called, and how often a call failed.
    ghost called: { Self → ℕ };

    ghost failed: { Self → ℕ };

    // The bytes that it took so far, where they are known.
    ghost taken: { Self → Option (List ℕ) } = { λ _. None };

    /// How often it was called. It never failed more often.
    fn calls(&self) -> u64
        ensures counted { result ≡ called self.now }
        ensures failures { failed self.now ≤ called self.now };

    /// Writes bytes from the front of a slice, and answers how many: some, where there are any.
    ///
    /// # Errors
    ///
    /// `Fault` where the device fails or takes nothing, and then no byte was written.
    fn write(&mut self, bytes: &[u8]) -> Result<usize, Fault>
        requires { called self.old < 2 ^ 64 - 1 }
        ensures counts { Counts result (called self.old) (failed self.old) (called self.new)
            (failed self.new) }
        ensures bound { IfOk result (λ n. n ≤ length bytes.now) }
        ensures some { IfOk result (λ n. n ≡ 0 → bytes.now ≡ []) }
        ensures takes { WriteAppends (taken self.old) (taken self.new) result bytes.now };
}

/// Anything that bytes are written to, with its calls counted: memory, a file, a connection.
#[derive(Drop)]
pub struct Writer<W> {
    inner: W,
    calls: u64,
    failures: u64,
    ghost within: { failures ≤ calls },
}

impl<W: Write> Writer<W> {
    ghost use Rattle.cue_device.specs.Streams.{writer_inner, writer_calls, writer_failures};

    /// A sink that was not called yet.
    pub fn new(inner: W) -> Writer<W>
        ensures inner { writer_inner result ≡ inner }
        ensures calls { writer_calls result ≡ 0 }
        ensures failures { writer_failures result ≡ 0 }
    {
        Writer {
            inner,
            calls: 0,
            failures: 0,
        }
    }

    /// Hands on what the device keeps back, which is a call too.
    ///
    /// # Errors
    ///
    /// `Fault` where the device fails.
    pub fn flush(&mut self) -> Result<(), Fault>
        requires { writer_calls self.old < 2 ^ 64 - 1 }
        ensures counts { Counts result (writer_calls self.old) (writer_failures self.old)
            (writer_calls self.new) (writer_failures self.new) }
        ensures bytes { Keeps (W.contents (writer_inner self.old))
            (W.contents (writer_inner self.new)) }
    {
        self.calls += 1;
        match self.inner.flush() {
            Ok(()) => Ok(()),
            Err(_) => {
                self.failures += 1;
                Err(Fault)
            }
        }
    }

    /// What was written to.
    pub fn into_inner(self) -> W
        ensures { result ≡ writer_inner self }
    {
        self.inner
    }
}

impl<W: Write> Sink for Writer<W> {
    ghost use Rattle.cue_device.specs.Streams.{writer_inner, writer_calls, writer_failures};

    ghost called = { writer_calls };

    ghost failed = { writer_failures };

    ghost taken = { λ w. W.contents (writer_inner w) };

    fn calls(&self) -> u64 {
        self.calls
    }

    fn write(&mut self, bytes: &[u8]) -> Result<usize, Fault> {
        self.calls += 1;
        match self.inner.write(bytes) {
            Ok(count) if count > 0 || bytes.is_empty() => Ok(count),
            _ => {
                self.failures += 1;
                Err(Fault)
            }
        }
    }
}
