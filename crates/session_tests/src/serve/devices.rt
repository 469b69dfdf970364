//! Devices in memory that move at most so many bytes a call, and fail once they were called so
//! often.

use std::io;
use std::io::{ErrorKind, Read, Write};

/// A reader of bytes.
#[derive(Drop)]
pub struct Input<'b> {
    pub rest: &'b [u8],
    pub most: usize,
    pub good: u64,
}

impl<'b> Read for Input<'b> {
    fn read(&mut self, buf: &mut [u8]) -> io::Result<usize> {
        if self.good == 0 {
            return Err(io::Error::from(ErrorKind::Other));
        }
        self.good -= 1;
        let count = self.rest.len().min(buf.len()).min(self.most);
        buf[..count].copy_from_slice(&self.rest[..count]);
        self.rest = &self.rest[count..];
        Ok(count)
    }
}

/// A writer that keeps what it takes.
#[derive(Drop)]
pub struct Output {
    pub written: Vec<u8>,
    pub most: usize,
    pub good: u64,
}

impl Write for Output {
    fn write(&mut self, buf: &[u8]) -> io::Result<usize> {
        if self.good == 0 {
            return Err(io::Error::from(ErrorKind::Other));
        }
        self.good -= 1;
        let count = buf.len().min(self.most);
        self.written.extend_from_slice(&buf[..count])?;
        Ok(count)
    }

    fn flush(&mut self) -> io::Result<()> {
        Ok(())
    }
}
