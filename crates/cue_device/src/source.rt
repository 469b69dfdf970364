ghost use Rattle.std.specs.Prelude.{◌≡◌, ◌-◌, ◌^◌, ◌<◌, ◌≤◌, ℕ, List, length, Option, None};
ghost use Rattle.std.specs.Prelude.{IfOk};
ghost use Rattle.std.specs.Io.KnownBytes.{ReadConsumes, WriteAppends};
ghost use Rattle.cue_device.specs.Devices.{Counts};

use crate::Fault;
use std::io::Read;

/// Where bytes are read from.
pub trait Source {
    // How often it was called, and how often a call failed.
    ghost called: { Self → ℕ };

    ghost failed: { Self → ℕ };

    // The bytes that it gave so far, and those still to come, where they are known.
    ghost given: { Self → Option (List ℕ) } = { λ _. None };

    ghost to_come: { Self → Option (List ℕ) } = { λ _. None };

    /// How often it was called. It never failed more often.
    fn calls(&self) -> u64
        ensures counted { result ≡ called self.now }
        ensures failures { failed self.now ≤ called self.now };

    /// Reads bytes into the front of a slice, and answers how many. Nothing into some room is the
    /// end: no byte is still to come.
    ///
    /// # Errors
    ///
    /// `Fault` where the device fails, and then no byte was read.
    fn read(&mut self, into: &mut [u8]) -> Result<usize, Fault>
        requires { called self.old < 2 ^ 64 - 1 }
        ensures counts { Counts result (called self.old) (failed self.old) (called self.new)
            (failed self.new) }
        ensures bound { IfOk result (λ n. n ≤ length into.new) }
        ensures room { length into.new ≡ length into.old }
        ensures gives { WriteAppends (given self.old) (given self.new) result into.new }
        ensures takes { ReadConsumes (to_come self.old) (to_come self.new) result into.new };
}

/// Anything that bytes are read from, with its calls counted: a file, standard input, a connection.
#[derive(Drop)]
pub struct Reader<R> {
    inner: R,
    calls: u64,
    failures: u64,
    ghost within: { failures ≤ calls },
}

impl<R: Read> Reader<R> {
    ghost use Rattle.cue_device.specs.Streams.{reader_inner, reader_calls, reader_failures};

    /// A source that was not called yet.
    pub fn new(inner: R) -> Reader<R>
        ensures inner { reader_inner result ≡ inner }
        ensures calls { reader_calls result ≡ 0 }
        ensures failures { reader_failures result ≡ 0 }
    {
        Reader {
            inner,
            calls: 0,
            failures: 0,
        }
    }
}

impl<R: Read> Source for Reader<R> {
    ghost use Rattle.cue_device.specs.Streams.{reader_inner, reader_calls, reader_failures};

    ghost called = { reader_calls };

    ghost failed = { reader_failures };

    ghost to_come = { λ r. R.remaining (reader_inner r) };

    fn calls(&self) -> u64 {
        self.calls
    }

    fn read(&mut self, into: &mut [u8]) -> Result<usize, Fault> {
        self.calls += 1;
        match self.inner.read(into) {
            Ok(count) => Ok(count),
            Err(_) => {
                self.failures += 1;
                Err(Fault)
            }
        }
    }
}
