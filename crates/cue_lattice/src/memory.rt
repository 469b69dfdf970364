ghost use Rattle.std.specs.Prelude.{◌≤◌, ◌+◌, ◌^◌};

use std::alloc::{AllocError, AllocFailed};
use std::error::Error;
use std::fmt;

/// Memory ran out: a growth was refused, or would be of 2^64 bytes and more, and no other fault had
/// been found before. It is made of the error of an allocation, or of counts beyond 64 bits.
#[derive(Clone, Copy, Debug, PartialEq, Eq, Hash)]
pub struct Memory {
    _refused: (),
}

impl Memory {
    /// That so many things and so many more are too many for any memory.
    pub fn too_many(_things: u64, _more: u64) -> Memory
        requires { 2 ^ 64 ≤ _things + _more }
    {
        Memory { _refused: () }
    }
}

impl fmt::Display for Memory {
    fn fmt<W: fmt::Write>(&self, f: &mut fmt::Formatter<W>) -> fmt::Result {
        f.write_str("out of memory")
    }
}

impl Error for Memory {}

impl From<AllocError> for Memory {
    fn from(_error: AllocError) -> Memory {
        Memory { _refused: () }
    }
}

impl<T: Drop> From<AllocFailed<T>> for Memory {
    fn from(_error: AllocFailed<T>) -> Memory {
        Memory { _refused: () }
    }
}
