use cue_device::Fault;
use cue_layers::LayersRefusal;
use cue_program::{Memory, RunError};
use cue_replica::Refusal;
use std::alloc::{AllocError, AllocFailed};

/// What ends a run before it has an answer.
#[derive(Clone, Copy, Debug, PartialEq, Eq)]
pub enum LayersStop {
    /// A file or a stream can't be opened, read or written.
    Device,
    /// A refusal of no single input: of a name, a put, the map that lies in a file, or a limit; or
    /// memory ran out, or an input takes too many reads.
    Refused(LayersRefusal),
    /// An input is refused: why, and the input's number, from 1.
    RefusedInput(LayersRefusal, usize),
}

impl From<Fault> for LayersStop {
    ghost use Rattle.cue_layers_program.specs.Stops.{IsDeviceLayersStop};

    ghost from_gives = { λ _ stop. IsDeviceLayersStop stop };

    fn from(_fault: Fault) -> LayersStop {
        LayersStop::Device
    }
}

impl From<LayersRefusal> for LayersStop {
    ghost use Rattle.cue_layers_program.specs.Stops.{IsRefusalLayersStop};

    ghost from_gives = { λ why stop. IsRefusalLayersStop why stop };

    fn from(why: LayersRefusal) -> LayersStop {
        LayersStop::Refused(why)
    }
}

impl From<Memory> for LayersStop {
    ghost use Rattle.cue_layers_program.specs.Stops.{IsMemoryLayersStop};

    ghost from_gives = { λ _ stop. IsMemoryLayersStop stop };

    fn from(memory: Memory) -> LayersStop {
        LayersStop::Refused(LayersRefusal::from(memory))
    }
}

impl From<AllocError> for LayersStop {
    ghost use Rattle.cue_layers_program.specs.Stops.{IsMemoryLayersStop};

    ghost from_gives = { λ _ stop. IsMemoryLayersStop stop };

    fn from(error: AllocError) -> LayersStop {
        LayersStop::from(Memory::from(error))
    }
}

impl<T: Drop> From<AllocFailed<T>> for LayersStop {
    ghost use Rattle.cue_layers_program.specs.Stops.{IsMemoryLayersStop};

    ghost from_gives = { λ _ stop. IsMemoryLayersStop stop };

    fn from(error: AllocFailed<T>) -> LayersStop {
        LayersStop::from(Memory::from(error))
    }
}

impl From<RunError> for LayersStop {
    ghost use Rattle.std.specs.Prelude.{◌≡◌};
    ghost use Rattle.cue_layers_program.specs.Stops.{stop_of};

    ghost from_gives = { λ end stop. stop ≡ stop_of end };

    fn from(stop: RunError) -> LayersStop {
        match stop {
            RunError::Device => LayersStop::Device,
            RunError::Refused(kind) => {
                LayersStop::Refused(LayersRefusal::Store(Refusal::at(kind, 0)))
            }
            RunError::RefusedInput(why, number) => {
                LayersStop::RefusedInput(LayersRefusal::Store(why), number)
            }
        }
    }
}
