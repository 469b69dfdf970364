//! The words that the program reads, as `clap` is told of them.
ghost use Rattle.std.specs.Prelude.{◌≡◌, IfOk, [], codes, false};
ghost use Rattle.clap.specs.Walk.{rule_of};
ghost use Rattle.cue_command.specs.inner.Apps.{IsApp, file_rule, of_files, of_first, of_two, store};
ghost use Rattle.cue_command.specs.inner.Apps.{top};
ghost use Rattle.cue_command.specs.inner.Apps.{taken_rule};

use clap::{Arg, ArgAction, Command};
use std::alloc::{AllocError, Global};

/// What help says of a command.
fn help_of(name: &str) -> &'static str {
    match name {
        "export" => "Prints the JSON, or the conflicts, or what is incomplete",
        "print" => "Prints all that is known, as one text",
        "report" => "Prints the conflicts, and then what is incomplete",
        "state" => "Writes the state bytes to standard output",
        "merge" => "Writes the state bytes to the file OUT",
        "serve" => "Serves COUNT connections on a port, then prints as export",
        "push" => "Sends the inputs to the site on a port, then prints its export",
        "loop" => "Serves a new site and pushes to it, in one process",
        _ => "",
    }
}

/// What help says of an argument.
fn help(id: &str) -> &'static str {
    match id {
        "FILE" => "States and fragments; without one, standard input",
        "OUT" => "Where the state bytes go",
        "PORT" => "A port of 127.0.0.1, from 1 to 65535",
        "COUNT" => "How many connections, from 1 to 1000",
        _ => "",
    }
}

/// Any number of inputs.
fn inputs<'a>(alloc: Global) -> Arg<'a>
    ensures { (rule_of result ≡ file_rule) × (result.global ≡ false) }
{
    Arg::new(alloc, "FILE")
        .action(ArgAction::Append)
        .help(help("FILE"))
}

/// An argument that must be there.
fn required_argument<'a>(alloc: Global, id: &'a str) -> Arg<'a>
    ensures { (rule_of result ≡ taken_rule id.entry.now) × (result.global ≡ false) }
{
    Arg::new(alloc, id)
        .action(ArgAction::Set)
        .required(true)
        .help(help(id))
}

/// A command with inputs alone.
fn of_files<'a>(alloc: Global, name: &'a str) -> Result<Command<'a>, AllocError>
    ensures { IfOk result (IsApp (of_files name.entry.now)) }
{
    let inputs = inputs(alloc);
    Command::new(alloc, name).about(help_of(name)).arg(inputs)
}

/// A command with an argument and inputs.
fn of_first<'a>(alloc: Global, name: &'a str, first: &'a str) -> Result<Command<'a>, AllocError>
    ensures { IfOk result (IsApp (of_first name.entry.now first.entry.now)) }
{
    let first = required_argument(alloc, first);
    let inputs = inputs(alloc);
    Command::new(alloc, name)
        .about(help_of(name))
        .arg(first)?
        .arg(inputs)
}

/// A command with two arguments.
fn of_two<'a>(
    alloc: Global,
    name: &'a str,
    first: &'a str,
    second: &'a str,
) -> Result<Command<'a>, AllocError>
    ensures { IfOk result (IsApp (of_two name.entry.now first.entry.now second.entry.now)) }
{
    let first = required_argument(alloc, first);
    let second = required_argument(alloc, second);
    Command::new(alloc, name)
        .about(help_of(name))
        .arg(first)?
        .arg(second)
}

/// The program, before its commands are added. Its first word names the command; a request for help
/// is no command, and no flag.
fn base_app<'a>(alloc: Global) -> Command<'a>
    ensures { IsApp (record { top = top; subs = [] }) result }
{
    Command::new(alloc, "cuestore")
        .about("Merges configuration that several teams write, without a leader")
        .no_binary_name(true)
        .disable_help_flag(true)
        .disable_help_subcommand(true)
        .subcommand_required(true)
}

/// The program.
pub fn store<'a>(alloc: Global) -> Result<Command<'a>, AllocError>
    ensures { IfOk result (IsApp store) }
{
    let export = of_files(alloc, "export")?;
    let print = of_files(alloc, "print")?;
    let report = of_files(alloc, "report")?;
    let state = of_files(alloc, "state")?;
    let merge = of_first(alloc, "merge", "OUT")?;
    let serve = of_two(alloc, "serve", "PORT", "COUNT")?;
    let push = of_first(alloc, "push", "PORT")?;
    let both = of_files(alloc, "loop")?;
    let asking = base_app(alloc)
        .subcommand(export)?
        .subcommand(print)?
        .subcommand(report)?
        .subcommand(state)?;
    asking
        .subcommand(merge)?
        .subcommand(serve)?
        .subcommand(push)?
        .subcommand(both)
}
