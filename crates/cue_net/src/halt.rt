use cue_device::Fault;
use cue_replica::{Kind, Memory, Refusal};

/// What ends a word over a network before it has an answer.
#[derive(Clone, Copy, Debug, PartialEq, Eq)]
pub enum NetError {
    /// A port can't be listened on or connected to, a read or a write failed, or the replies end
    /// early or are none of a site.
    Device,
    /// A refusal here, of no single input: `FrameTooLong`, `TurnsUsed` or `Memory`.
    Refused(Kind),
    /// The site refuses to tell its export: `ReplyTooLong`, where it is a site of this program.
    RefusedExport(Kind),
    /// The site refuses an input: why, and the input's number, from 1.
    RefusedInput(Refusal, usize),
}

impl From<Memory> for NetError {
    ghost use Rattle.cue_net.specs.Halts.{IsMemoryNetError};

    ghost from_gives = { λ _ halt. IsMemoryNetError halt };

    fn from(_memory: Memory) -> NetError {
        NetError::Refused(Kind::Memory)
    }
}

impl From<Fault> for NetError {
    ghost use Rattle.cue_net.specs.Halts.{IsDeviceNetError};

    ghost from_gives = { λ _ halt. IsDeviceNetError halt };

    fn from(_fault: Fault) -> NetError {
        NetError::Device
    }
}
