//! What `cuelayers` prints in a session.
use crate::command::{Printed, path_of};
use cue_layers_command::act;
use cue_program::Output;
use std::alloc::Global;

/// Runs `cuelayers` with these arguments, on files of a folder.
pub fn run_layers(
    mut rt: &HostRuntime,
    folder: &str,
    arguments: &[&str],
    mut input: &[u8],
) -> anyhow::Result<Printed> {
    let alloc = rt.alloc();
    let words = place_arguments(alloc, folder, arguments)?;
    let mut out = Output::new(Vec::new(alloc));
    let mut faults = Output::new(Vec::new(alloc));
    let status = act(&mut rt, &words, &mut input, &mut out, &mut faults);
    Ok(Printed {
        bytes: out.into_inner(),
        status,
    })
}

/// The arguments, with the folder in front of each file.
fn place_arguments(alloc: Global, folder: &str, arguments: &[&str]) -> anyhow::Result<Vec<String>> {
    let mut words = Vec::new(alloc);
    let Some((command, rest)) = arguments.split_first() else {
        return Ok(words);
    };
    words.push(String::from_str(alloc, command)?)?;
    let mut place = 0u32;
    let mut before = "";
    for argument in rest {
        let is_option = argument.starts_with("--") || before == "--at" || before == "--limit";
        if is_option || !is_file(command, place) {
            words.push(String::from_str(alloc, argument)?)?;
        } else {
            words.push(path_of(alloc, folder, argument)?)?;
        }
        if !is_option {
            place = place.saturating_add(1);
        }
        before = *argument;
    }
    Ok(words)
}

/// Whether the argument of a command at this place, from 0 and without options, is a file.
fn is_file(command: &str, place: u32) -> bool {
    match command {
        "put" | "remove" | "try" | "show" => place != 1,
        "why" => place != 0,
        _ => true,
    }
}
