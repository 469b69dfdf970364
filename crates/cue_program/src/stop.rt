use cue_device::Fault;
use cue_replica::{Kind, Memory, Refusal};
use std::alloc::{AllocError, AllocFailed};

/// What ends a run before it has an answer.
#[derive(Clone, Copy, Debug, PartialEq, Eq)]
pub enum RunError {
    /// A file or a stream can't be opened, read or written.
    Device,
    /// A refusal of no single input.
    Refused(Kind),
    /// An input is refused: why, and the input's number, from 1.
    RefusedInput(Refusal, usize),
}

impl From<Fault> for RunError {
    ghost use Rattle.cue_program.specs.Stops.{IsDeviceStop};

    ghost from_gives = { λ _ stop. IsDeviceStop stop };

    fn from(_fault: Fault) -> RunError {
        RunError::Device
    }
}

impl From<Memory> for RunError {
    ghost use Rattle.cue_program.specs.Stops.{IsMemoryStop};

    ghost from_gives = { λ _ stop. IsMemoryStop stop };

    fn from(_memory: Memory) -> RunError {
        RunError::Refused(Kind::Memory)
    }
}

impl From<AllocError> for RunError {
    ghost use Rattle.cue_program.specs.Stops.{IsMemoryStop};

    ghost from_gives = { λ _ stop. IsMemoryStop stop };

    fn from(_error: AllocError) -> RunError {
        RunError::Refused(Kind::Memory)
    }
}

impl<T: Drop> From<AllocFailed<T>> for RunError {
    ghost use Rattle.cue_program.specs.Stops.{IsMemoryStop};

    ghost from_gives = { λ _ stop. IsMemoryStop stop };

    fn from(_error: AllocFailed<T>) -> RunError {
        RunError::Refused(Kind::Memory)
    }
}
