ghost use Rattle.std.specs.Prelude.{◌≡◌};

use cue_replica::{Kind, Memory};
use std::alloc::AllocError;

/// How a want of memory is told.
pub fn memory_kind(_memory: Memory) -> Kind
    ensures { result ≡ Kind.Memory }
{
    Kind::Memory
}

/// How a growth that was refused is told.
pub fn want_of(refused: AllocError) -> Kind
    ensures { result ≡ Kind.Memory }
{
    memory_kind(Memory::from(refused))
}
