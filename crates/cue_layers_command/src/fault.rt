//! What ends a run that has no answer, and the lines of it.
ghost use Rattle.std.specs.Prelude.{◌≡◌, ◌++◌, ◌+◌, ◌<◌, ◌≤◌, [], decimal};
ghost use Rattle.arrayvec.specs.ArrayString.{array_string_len};
ghost use Rattle.cue_layers_command.specs.Faults.{IsMemoryLayersFault, layers_kind_text, placed_text, reason_text};
ghost use Rattle.cue_layers_command.specs.Faults.{layers_refusal_text, run_refusal, layers_status_of};
ghost use Rattle.cue_layers_command.specs.Faults.{store_refusal};
ghost use Rattle.cue_layers_command.specs.inner.Lines.{digit_limit, line_limit, placed_limit};
ghost use Rattle.cue_layers_command.specs.inner.Lines.{reason_limit};

use arrayvec::ArrayString;
use cue_layers::LayersRefusal;
use cue_layers_program::LayersStop;
use cue_program::{Kind, Memory, Refusal, RunError};
use itoa::Buffer;
use std::alloc::{AllocError, AllocFailed};
use thiserror::Error;

/// What ends a run before it has an answer.
#[derive(Clone, Copy, Debug, PartialEq, Eq, Error)]
pub enum LayersCommandError {
    /// The arguments ask for nothing that the program does.
    #[error("usage fault")]
    Usage,
    /// A call of a file or a stream failed.
    #[error("device fault")]
    Device,
    /// An input, what was asked for, or the run itself, was refused.
    #[error("{}", text_of(.0))]
    Refused(LayersRunRefusal),
}

/// What was refused in a run, and why.
#[derive(Clone, Copy, Debug, PartialEq, Eq)]
pub enum LayersRunRefusal {
    /// The run itself, and no single input.
    Run(Kind),
    /// What was asked for: the name, the put, the map or the limit.
    Request(LayersRefusal),
    /// An input, with its number from 1.
    Input(LayersRefusal, usize),
}

impl LayersCommandError {
    /// The exit status of a run that was stopped by it.
    pub fn status(&self) -> u8
        ensures { result ≡ layers_status_of self.now }
    {
        match self {
            LayersCommandError::Device => 4,
            _ => 1,
        }
    }
}

/// Memory ran out, of no single input.
pub fn memory() -> LayersCommandError
    ensures { IsMemoryLayersFault result }
{
    LayersCommandError::Refused(LayersRunRefusal::Run(Kind::Memory))
}

/// The line of a refusal has fewer bytes.
pub const LINE: usize = 128;

/// The text of a refusal: the number and the name of its reason, and, but for the run itself, the
/// place, and for an input also which input it is. It takes no memory.
pub fn text_of(refusal: &LayersRunRefusal) -> ArrayString<LINE>
    ensures text { result.bytes ≡ layers_refusal_text refusal.now }
    ensures short { array_string_len result < line_limit }
{
    let mut text = ArrayString::new();
    match refusal {
        LayersRunRefusal::Run(kind) => push_kind(&mut text, *kind),
        LayersRunRefusal::Request(why) => push_placed(&mut text, why),
        LayersRunRefusal::Input(why, input) => {
            push_placed(&mut text, why);
            text.push_str(" in ");
            push_number(&mut text, *input as u64);
        }
    }
    text
}

/// Adds the number and the name of a kind of refusal.
fn push_kind(text: &mut ArrayString<LINE>, kind: Kind)
    requires { text.old.bytes ≡ [] }
    ensures text { text.new.bytes ≡ layers_kind_text kind }
    ensures short { array_string_len text.new ≤ reason_limit }
{
    text.push_str("refused ");
    push_number(text, u64::from(kind.number()));
    text.push_str(" ");
    text.push_str(kind.name());
}

/// Adds the number and the name of a reason, and the place.
fn push_placed(text: &mut ArrayString<LINE>, why: &LayersRefusal)
    requires { text.old.bytes ≡ [] }
    ensures text { text.new.bytes ≡ placed_text why.now }
    ensures short { array_string_len text.new ≤ placed_limit }
{
    push_reason(text, why);
    text.push_str(" at ");
    push_number(text, why.place());
}

/// Adds the number and the name of a reason.
fn push_reason(text: &mut ArrayString<LINE>, why: &LayersRefusal)
    requires { text.old.bytes ≡ [] }
    ensures text { text.new.bytes ≡ reason_text why.now }
    ensures short { array_string_len text.new ≤ reason_limit }
{
    text.push_str("refused ");
    push_number(text, u64::from(why.number()));
    text.push_str(" ");
    text.push_str(why.name());
}

/// Adds a number in decimal digits.
fn push_number(text: &mut ArrayString<LINE>, number: u64)
    requires { array_string_len text.old + digit_limit ≤ line_limit }
    ensures text { text.new.bytes ≡ text.old.bytes ++ decimal number }
    ensures short { array_string_len text.new ≤ array_string_len text.old + digit_limit }
{
    text.push_str(Buffer::new().format(number));
}

impl From<RunError> for LayersCommandError {
    ghost use Rattle.cue_layers_command.specs.Faults.{IsLayersFaultOf};

    ghost from_gives = { λ stop fault. IsLayersFaultOf stop fault };

    fn from(stop: RunError) -> LayersCommandError {
        match stop {
            RunError::Device => LayersCommandError::Device,
            RunError::Refused(kind) => LayersCommandError::Refused(LayersRunRefusal::Run(kind)),
            RunError::RefusedInput(why, input) => {
                LayersCommandError::Refused(LayersRunRefusal::Input(
                    LayersRefusal::Store(why),
                    input,
                ))
            }
        }
    }
}

impl From<LayersStop> for LayersCommandError {
    ghost use Rattle.cue_layers_command.specs.Faults.{IsOfLayers};

    ghost from_gives = { λ stop fault. IsOfLayers stop fault };

    fn from(stop: LayersStop) -> LayersCommandError {
        match stop {
            LayersStop::Device => LayersCommandError::Device,
            LayersStop::Refused(why) => LayersCommandError::Refused(run_refusal(why)),
            LayersStop::RefusedInput(why, input) => {
                LayersCommandError::Refused(LayersRunRefusal::Input(why, input))
            }
        }
    }
}

/// What was refused, of no single input: what was asked for, or, where memory ran out or an input
/// takes too many reads, the run itself.
fn run_refusal(why: LayersRefusal) -> LayersRunRefusal
    ensures { result ≡ run_refusal why }
{
    match why {
        LayersRefusal::Store(reason) => refused_store(reason),
        _ => LayersRunRefusal::Request(why),
    }
}

/// The same for a reason that texts and states have too.
fn refused_store(why: Refusal) -> LayersRunRefusal
    ensures { result ≡ store_refusal why }
{
    match why.kind {
        Kind::Version => LayersRunRefusal::Request(LayersRefusal::Store(why)),
        kind => LayersRunRefusal::Run(kind),
    }
}

impl From<Memory> for LayersCommandError {
    ghost use Rattle.cue_layers_command.specs.Faults.{IsMemoryLayersFault};

    ghost from_gives = { λ _ fault. IsMemoryLayersFault fault };

    fn from(_memory: Memory) -> LayersCommandError {
        memory()
    }
}

impl From<AllocError> for LayersCommandError {
    ghost use Rattle.cue_layers_command.specs.Faults.{IsMemoryLayersFault};

    ghost from_gives = { λ _ fault. IsMemoryLayersFault fault };

    fn from(_error: AllocError) -> LayersCommandError {
        memory()
    }
}

impl<T: Drop> From<AllocFailed<T>> for LayersCommandError {
    ghost use Rattle.cue_layers_command.specs.Faults.{IsMemoryLayersFault};

    ghost from_gives = { λ _ fault. IsMemoryLayersFault fault };

    fn from(_error: AllocFailed<T>) -> LayersCommandError {
        memory()
    }
}
