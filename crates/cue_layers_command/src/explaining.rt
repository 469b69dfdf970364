//! What is meant where what was asked for is refused: a line beside that of the refusal.
ghost use Rattle.std.specs.Prelude.{IfOk, string_bytes};
ghost use Rattle.cue_layers_command.specs.Faults.{IsMeaning};
ghost use Rattle.cue_layers_command.specs.inner.Lines.{IsLine};

use crate::command::LayersCommand;
use crate::fault::{LayersCommandError, LayersRunRefusal};
use cue_layers::LayersRefusal;
use itoa::Buffer;
use std::alloc::{AllocError, Global};

/// The line that says what a command asked for that was refused; nothing where an input is refused,
/// or the run itself.
pub fn explanation(
    alloc: Global,
    command: &LayersCommand,
    fault: &LayersCommandError,
) -> Result<String, AllocError>
    ensures { IfOk result (λ text. IsMeaning fault.now (string_bytes text)) }
{
    match fault {
        LayersCommandError::Refused(LayersRunRefusal::Request(why)) => line_of(alloc, command, why),
        _ => Ok(String::new(alloc)),
    }
}

/// The line that says what is meant by a refusal of what a command asked for.
fn line_of(
    alloc: Global,
    command: &LayersCommand,
    why: &LayersRefusal,
) -> Result<String, AllocError>
    ensures { IfOk result (λ text. IsLine (string_bytes text)) }
{
    match why {
        LayersRefusal::ViewTooLarge => {
            line(alloc, reason(why), Buffer::new().format(limit_of(command)))
        }
        LayersRefusal::NotLayers | LayersRefusal::Store(_) => {
            line(alloc, reason(why), map_of(command))
        }
        _ => line(alloc, reason(why), name_of(command)),
    }
}

/// Why what was asked for is refused.
fn reason(why: &LayersRefusal) -> &'static str {
    match why {
        LayersRefusal::BadName(_) => "no name of a layer or a policy: ",
        LayersRefusal::NotWellFormed =>
            "a pattern below an element of a list, or in a closed set of labels: policy ",
        LayersRefusal::RevisionsUsed => "no revision is left: ",
        LayersRefusal::ViewTooLarge => "the view has more rows than ",
        LayersRefusal::NotLayers => "no map of layers: ",
        _ => "a map of another version: ",
    }
}

/// The name that a command is about.
fn name_of<'a>(command: &'a LayersCommand) -> &'a str {
    match command {
        LayersCommand::Put { name, .. }
        | LayersCommand::Remove { name, .. }
        | LayersCommand::Attempt { name, .. }
        | LayersCommand::Show { name, .. } => name,
        _ => "",
    }
}

/// The file of the map that a command is about.
fn map_of<'a>(command: &'a LayersCommand) -> &'a str {
    match command {
        LayersCommand::Put { map, .. }
        | LayersCommand::Remove { map, .. }
        | LayersCommand::Attempt { map, .. } => map,
        _ => "",
    }
}

/// The most rows of a view, where a command has a limit.
fn limit_of(command: &LayersCommand) -> u64 {
    match command {
        LayersCommand::Put { limit, .. }
        | LayersCommand::Attempt { limit, .. }
        | LayersCommand::Ask { limit, .. } => *limit,
        _ => 0,
    }
}

/// A line of two texts.
fn line(alloc: Global, text: &str, end: &str) -> Result<String, AllocError>
    ensures { IfOk result (λ line. IsLine (string_bytes line)) }
{
    let mut line = String::new(alloc);
    line.push_str(text)?;
    line.push_str(end)?;
    line.push_str("\n")?;
    Ok(line)
}
