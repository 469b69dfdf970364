ghost use Rattle.std.specs.Prelude.{◌≡◌, ◌≤◌, length, take, drop, Some};

use crate::{Fault, Source};

/// A source of bytes in memory, which never fails.
#[derive(Drop)]
pub struct Bytes<'b> {
    all: &'b [u8],
    at: usize,
    calls: u64,
    ghost within: { at ≤ length all.now },
}

impl<'b> Bytes<'b> {
    ghost use Rattle.cue_device.specs.Streams.{bytes_all, bytes_at, bytes_calls};

    /// A source of these bytes, of which none was given yet.
    pub fn new(all: &'b [u8]) -> Bytes<'b>
        ensures all { bytes_all result ≡ all.now }
        ensures at { bytes_at result ≡ 0 }
        ensures calls { bytes_calls result ≡ 0 }
    {
        Bytes {
            all,
            at: 0,
            calls: 0,
        }
    }
}

impl<'b> Source for Bytes<'b> {
    ghost use Rattle.cue_device.specs.Streams.{bytes_all, bytes_at, bytes_calls};

    ghost called = { bytes_calls };

    ghost failed = { λ b. 0 };

    ghost given = { λ b. Some (take (bytes_at b) (bytes_all b)) };

    ghost to_come = { λ b. Some (drop (bytes_at b) (bytes_all b)) };

    fn calls(&self) -> u64 {
        self.calls
    }

    fn read(&mut self, into: &mut [u8]) -> Result<usize, Fault> {
        self.calls += 1;
        let rest = &self.all[self.at..];
        let count = rest.len().min(into.len());
        into[..count].copy_from_slice(&rest[..count]);
        self.at += count;
        Ok(count)
    }
}
