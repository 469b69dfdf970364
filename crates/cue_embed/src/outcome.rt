ghost use Rattle.std.specs.Prelude.{◌≡◌};
ghost use Rattle.cue_embed.specs.Outcomes.{outcome_of_error, IsGiven, IsOutcomeOf};

use cue_replica::{Answer, Memory, Refusal};

/// The status of a call whose answer has no room.
const NO_ROOM: u8 = 5;

/// The status of a call of which an input is refused.
const REFUSED: u8 = 1;

/// What a call came to.
#[repr(C)]
#[derive(Clone, Copy)]
pub struct CallOutcome {
    /// How many bytes the answer has, also where it had no room; 0 where there is none.
    pub length: usize,
    /// The byte of the input at which it is refused; 0 where none is.
    pub place: u64,
    /// 0 done, 1 an input is refused, 2 the answer is conflict lines, 3 lines of what is
    /// incomplete, 5 the answer has no room, and nothing was written.
    pub status: u8,
    /// The number of the refusal; 0 where there is none.
    pub refusal: u8,
    /// Which input is refused, from 1; 0 where none is, also where memory ran out for the answer.
    pub input: u8,
}

/// Why a call has no answer: the refusal, and the number of the input that is refused, from 1, or 0
/// where memory ran out for the answer.
#[derive(Clone, Copy)]
pub struct CallError {
    pub why: Refusal,
    pub input: u8,
}

impl From<Memory> for CallError {
    ghost use Rattle.cue_embed.specs.Stops.{IsMemoryError};

    ghost from_gives = { λ _ stop. IsMemoryError stop };

    fn from(memory: Memory) -> CallError {
        CallError {
            why: Refusal::from(memory),
            input: 0,
        }
    }
}

/// Writes an answer to the front of `out`, where there is room for it.
fn give(bytes: &[u8], status: u8, out: &mut [u8]) -> CallOutcome
    ensures { IsGiven bytes.now status out.old out.new result }
{
    let length = bytes.len();
    if length > out.len() {
        return CallOutcome {
            length,
            place: 0,
            status: NO_ROOM,
            refusal: 0,
            input: 0,
        };
    }
    out[..length].copy_from_slice(bytes);
    CallOutcome {
        length,
        place: 0,
        status,
        refusal: 0,
        input: 0,
    }
}

/// The outcome of a call that has no answer.
fn refuse(stop: CallError) -> CallOutcome
    ensures { result ≡ outcome_of_error stop }
{
    CallOutcome {
        length: 0,
        place: stop.why.place,
        status: REFUSED,
        refusal: stop.why.kind.number(),
        input: stop.input,
    }
}

/// Writes the answer of a call, where it has one, and tells what the call came to.
pub fn outcome_of(answer: Result<Answer, CallError>, out: &mut [u8]) -> CallOutcome
    ensures { IsOutcomeOf answer out.old out.new result }
{
    match answer {
        Ok(answer) => give(&answer.bytes, answer.status.code(), out),
        Err(stop) => refuse(stop),
    }
}
