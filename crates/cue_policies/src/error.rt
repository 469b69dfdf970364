//! Why a view is not made.
use cue_lattice::Memory;
use std::alloc::{AllocError, AllocFailed};

/// Why a view is not made.
#[derive(Clone, Copy, Debug, PartialEq, Eq)]
pub enum ViewError {
    /// Memory ran out.
    Memory(Memory),
    /// The view has more rows than its limit.
    TooLarge,
}

impl From<Memory> for ViewError {
    ghost use Rattle.cue_policies.specs.Rows.{IsViewError};

    ghost from_gives = { λ _ error. IsViewError ⊥ error };

    fn from(memory: Memory) -> ViewError {
        ViewError::Memory(memory)
    }
}

impl From<AllocError> for ViewError {
    ghost use Rattle.cue_policies.specs.Rows.{IsViewError};

    ghost from_gives = { λ _ error. IsViewError ⊥ error };

    fn from(error: AllocError) -> ViewError {
        ViewError::Memory(Memory::from(error))
    }
}

impl<T: Drop> From<AllocFailed<T>> for ViewError {
    ghost use Rattle.cue_policies.specs.Rows.{IsViewError};

    ghost from_gives = { λ _ error. IsViewError ⊥ error };

    fn from(error: AllocFailed<T>) -> ViewError {
        ViewError::Memory(Memory::from(error))
    }
}
