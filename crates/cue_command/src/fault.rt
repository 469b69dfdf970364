ghost use Rattle.std.specs.Prelude.{◌≡◌, ◌++◌, ◌+◌, ◌<◌, ◌≤◌, [], decimal};
ghost use Rattle.arrayvec.specs.ArrayString.{array_string_len};
ghost use Rattle.cue_command.specs.Faults.{kind_text, refusal_text, status_of_fault};
ghost use Rattle.cue_command.specs.inner.Lines.{digit_limit, kind_limit, line_limit};

use arrayvec::ArrayString;
use cue_program::{Kind, RunError};
use cue_replica::Refusal;
use itoa::Buffer;
use std::alloc::{AllocError, AllocFailed};
use thiserror::Error;

/// What ends a run before it has an answer.
#[derive(Clone, Copy, Debug, PartialEq, Eq, Error)]
pub enum CommandError {
    /// The arguments name nothing that the program does.
    #[error("usage fault")]
    Usage,
    /// A call of a file, a stream or a port failed.
    #[error("device fault")]
    Device,
    /// An input, or the run itself, was refused.
    #[error("{}", text_of(.0))]
    Refused(RunRefusal),
}

/// What was refused in a run, and why.
#[derive(Clone, Copy, Debug, PartialEq, Eq)]
pub enum RunRefusal {
    /// The run itself, and no single input.
    Run(Kind),
    /// An input, with its number from 1.
    Input(Refusal, usize),
}

impl CommandError {
    /// The exit status of a run that was stopped by it.
    pub fn status(&self) -> u8
        ensures { result ≡ status_of_fault self.now }
    {
        match self {
            CommandError::Device => 4,
            _ => 1,
        }
    }
}

/// The line of a refusal has fewer bytes.
pub const LINE: usize = 128;

/// The text of a refusal: the number and the name of its kind, and for an input also the place in
/// it, and which input it is. It takes no memory.
pub fn text_of(refusal: &RunRefusal) -> ArrayString<LINE>
    ensures text { result.bytes ≡ refusal_text refusal.now }
    ensures short { array_string_len result < line_limit }
{
    let mut text = ArrayString::new();
    match refusal {
        RunRefusal::Run(kind) => push_kind(&mut text, *kind),
        RunRefusal::Input(why, input) => {
            push_kind(&mut text, why.kind);
            text.push_str(" at ");
            push_number(&mut text, why.place as u64);
            text.push_str(" in ");
            push_number(&mut text, *input as u64);
        }
    }
    text
}

/// Adds the number and the name of a kind of refusal.
fn push_kind(text: &mut ArrayString<LINE>, kind: Kind)
    requires { text.old.bytes ≡ [] }
    ensures text { text.new.bytes ≡ kind_text kind }
    ensures short { array_string_len text.new ≤ kind_limit }
{
    text.push_str("refused ");
    push_number(text, u64::from(kind.number()));
    text.push_str(" ");
    text.push_str(kind.name());
}

/// Adds a number in decimal digits.
fn push_number(text: &mut ArrayString<LINE>, number: u64)
    requires { array_string_len text.old + digit_limit ≤ line_limit }
    ensures text { text.new.bytes ≡ text.old.bytes ++ decimal number }
    ensures short { array_string_len text.new ≤ array_string_len text.old + digit_limit }
{
    text.push_str(Buffer::new().format(number));
}

impl From<RunError> for CommandError {
    ghost use Rattle.cue_command.specs.Faults.{IsFaultOf};

    ghost from_gives = { λ stop fault. IsFaultOf stop fault };

    fn from(stop: RunError) -> CommandError {
        match stop {
            RunError::Device => CommandError::Device,
            RunError::Refused(kind) => CommandError::Refused(RunRefusal::Run(kind)),
            RunError::RefusedInput(why, input) => CommandError::Refused(RunRefusal::Input(
                why, input,
            )),
        }
    }
}

impl From<AllocError> for CommandError {
    ghost use Rattle.cue_command.specs.Faults.{IsMemoryFault};

    ghost from_gives = { λ _ fault. IsMemoryFault fault };

    fn from(_error: AllocError) -> CommandError {
        CommandError::Refused(RunRefusal::Run(Kind::Memory))
    }
}

impl<T: Drop> From<AllocFailed<T>> for CommandError {
    ghost use Rattle.cue_command.specs.Faults.{IsMemoryFault};

    ghost from_gives = { λ _ fault. IsMemoryFault fault };

    fn from(_error: AllocFailed<T>) -> CommandError {
        CommandError::Refused(RunRefusal::Run(Kind::Memory))
    }
}
