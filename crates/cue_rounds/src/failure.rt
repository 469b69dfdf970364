use http1::WriteError;
use std::alloc::AllocError;
use std::fmt;
use std::fmt::{Display, Formatter, Write};

/// Why a source could not be asked, or gave no answer that was taken.
#[derive(Clone, Copy, Debug, PartialEq, Eq)]
pub enum SourceFailure {
    /// Its name has no address, or could not be looked up.
    NoAddress,
    /// It refused the connection, or can't be reached.
    Unreachable,
    /// The connection ended before the answer did.
    CutOff,
    /// The answer was not whole in time.
    TimedOut,
    /// It answered with another status, which is this one.
    Status(u16),
    /// Its answer is longer than any that is taken.
    TooLong,
    /// What it sent is no HTTP answer.
    NoHttp,
    /// The service refused what it sent as pieces.
    RefusedPieces,
    /// The service refused what it sent as its state.
    RefusedState,
    /// The service refused what it sent as layers bytes.
    RefusedLayers,
    /// No request can carry what it is asked with.
    Unaskable,
    OutOfMemory,
}

impl From<AllocError> for SourceFailure {
    fn from(_error: AllocError) -> SourceFailure {
        SourceFailure::OutOfMemory
    }
}

impl From<WriteError> for SourceFailure {
    fn from(error: WriteError) -> SourceFailure {
        match error {
            WriteError::OutOfMemory => SourceFailure::OutOfMemory,
            _ => SourceFailure::Unaskable,
        }
    }
}

impl Display for SourceFailure {
    fn fmt<W: Write>(&self, f: &mut Formatter<W>) -> fmt::Result {
        match self {
            SourceFailure::NoAddress => f.write_str("its name has no address"),
            SourceFailure::Unreachable => f.write_str("can't be reached"),
            SourceFailure::CutOff => f.write_str("the connection ended before the answer did"),
            SourceFailure::TimedOut => f.write_str("no whole answer came in time"),
            SourceFailure::Status(status) => write!(f, "answered {status}"),
            SourceFailure::TooLong => f.write_str("the answer is too long"),
            SourceFailure::NoHttp => f.write_str("the answer is not HTTP"),
            SourceFailure::RefusedPieces => f.write_str("its pieces were refused"),
            SourceFailure::RefusedState => f.write_str("its state was refused"),
            SourceFailure::RefusedLayers => f.write_str("its layers were refused"),
            SourceFailure::Unaskable => f.write_str("no request can carry what it is asked with"),
            SourceFailure::OutOfMemory => f.write_str("out of memory"),
        }
    }
}
