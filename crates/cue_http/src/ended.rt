use std::alloc::AllocError;
use std::fmt::{Display, Formatter, Write};
use std::{fmt, io};

/// Why serving ended.
#[derive(Clone, Copy, Debug)]
pub enum LoopError {
    /// A round failed to settle, and why.
    Unsettled(io::Error),
    /// This call of the system failed.
    System(&'static str, io::Error),
    OutOfMemory,
}

impl From<AllocError> for LoopError {
    fn from(_error: AllocError) -> LoopError {
        LoopError::OutOfMemory
    }
}

impl Display for LoopError {
    fn fmt<W: Write>(&self, f: &mut Formatter<W>) -> fmt::Result {
        match self {
            LoopError::Unsettled(error) => write!(f, "a round could not be written: {error}"),
            LoopError::System(call, error) => write!(f, "{call}: {error}"),
            LoopError::OutOfMemory => f.write_str("out of memory"),
        }
    }
}

/// What a call of the system gave, or that this call failed.
pub(crate) fn check_call<T>(call: &'static str, answer: io::Result<T>) -> Result<T, LoopError> {
    match answer {
        Ok(value) => Ok(value),
        Err(error) => Err(LoopError::System(call, error)),
    }
}
