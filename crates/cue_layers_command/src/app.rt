//! The arguments that the program reads, as `clap` is given them.
ghost use Rattle.std.specs.Prelude.{◌≡◌, IfOk, [], codes, false};
ghost use Rattle.clap.specs.Walk.{rule_of};
ghost use Rattle.cue_layers_command.specs.Apps.{IsApp, app_with_questions, app_with_changes, files_rule, layers};
ghost use Rattle.cue_layers_command.specs.Apps.{of_files, of_first, of_name, of_put, of_question};
ghost use Rattle.cue_layers_command.specs.Apps.{option_rule, policy_rule, taken_rule, top};

use clap::{Arg, ArgAction, Command};
use std::alloc::{AllocError, Global};

/// What help says of a command.
fn help_of(name: &str) -> &'static str {
    match name {
        "put" => "Replaces what NAME says by the files, and prints the revision",
        "remove" => "Removes what NAME says, and prints the revision",
        "try" => "Prints the report lines that a put would add, and writes nothing",
        "merge" => "Joins the files, and writes the map to the file OUT",
        "export" => "Prints the JSON of the view, or the conflicts, or what is incomplete",
        "report" => "Prints the conflicts of the view, and then what is incomplete",
        "print" => "Prints all that the view says, as one text",
        "list" => "Prints a line for each layer and policy: name, revision, rows",
        "show" => "Prints what NAME says, as one text",
        "why" => "Prints which layers and policies make what is reported at PATH",
        _ => "",
    }
}

/// What help says of an argument.
fn help(id: &str) -> &'static str {
    match id {
        "FILE" => "A map of layers, a state or a fragment",
        "MAP" => "The file of the map; a new map where no file is",
        "NAME" => "The name of the layer",
        "OUT" => "Where the map goes",
        "PATH" => "A path, as report lines write it",
        "policy" => "NAME is a policy, whose labels may be patterns",
        "limit" => "The most rows that a view may have; 10000000 without it",
        "at" => "The place to look at, as a root of its own",
        _ => "",
    }
}

/// Files, of which there must be one where they are required.
fn files<'a>(alloc: Global, required: bool) -> Arg<'a>
    ensures { (rule_of result ≡ files_rule required) × (result.global ≡ false) }
{
    Arg::new(alloc, "FILE")
        .action(ArgAction::Append)
        .required(required)
        .help(help("FILE"))
}

/// An argument that must be there.
fn required_argument<'a>(alloc: Global, id: &'a str) -> Arg<'a>
    ensures { (rule_of result ≡ taken_rule id.entry.now) × (result.global ≡ false) }
{
    Arg::new(alloc, id)
        .action(ArgAction::Set)
        .required(true)
        .help(help(id))
}

/// An option with a value, which help shows by this name.
fn option<'a>(alloc: Global, id: &'a str, shown: &'a str) -> Arg<'a>
    ensures { (rule_of result ≡ option_rule id.entry.now) × (result.global ≡ false) }
{
    Arg::new(alloc, id)
        .long(id)
        .value_name(shown)
        .action(ArgAction::Set)
        .help(help(id))
}

/// The option `--policy`.
fn policy<'a>(alloc: Global) -> Arg<'a>
    ensures { (rule_of result ≡ policy_rule) × (result.global ≡ false) }
{
    Arg::new(alloc, "policy")
        .long("policy")
        .action(ArgAction::SetTrue)
        .help(help("policy"))
}

/// A command with files alone.
fn of_files<'a>(alloc: Global, name: &'a str) -> Result<Command<'a>, AllocError>
    ensures { IfOk result (IsApp (of_files name.entry.now)) }
{
    let files = files(alloc, true);
    Command::new(alloc, name).about(help_of(name)).arg(files)
}

/// A command with an argument and files.
fn of_first<'a>(alloc: Global, name: &'a str, first: &'a str) -> Result<Command<'a>, AllocError>
    ensures { IfOk result (IsApp (of_first name.entry.now first.entry.now)) }
{
    let first = required_argument(alloc, first);
    let files = files(alloc, true);
    Command::new(alloc, name)
        .about(help_of(name))
        .arg(first)?
        .arg(files)
}

/// A command about the layer of a name in a file.
fn of_name<'a>(alloc: Global, name: &'a str, file: &'a str) -> Result<Command<'a>, AllocError>
    ensures { IfOk result (IsApp (of_name name.entry.now file.entry.now)) }
{
    let policy = policy(alloc);
    let file = required_argument(alloc, file);
    let layer = required_argument(alloc, "NAME");
    Command::new(alloc, name)
        .about(help_of(name))
        .arg(policy)?
        .arg(file)?
        .arg(layer)
}

/// A command that puts a layer of files.
fn of_put<'a>(alloc: Global, name: &'a str) -> Result<Command<'a>, AllocError>
    ensures { IfOk result (IsApp (of_put name.entry.now)) }
{
    let limit = option(alloc, "limit", "ROWS");
    let files = files(alloc, false);
    let named = of_name(alloc, name, "MAP")?;
    named.arg(files)?.arg(limit)
}

/// A command that asks about the view of files.
fn of_question<'a>(alloc: Global, name: &'a str) -> Result<Command<'a>, AllocError>
    ensures { IfOk result (IsApp (of_question name.entry.now)) }
{
    let place = option(alloc, "at", "PATH");
    let limit = option(alloc, "limit", "ROWS");
    let files = of_files(alloc, name)?;
    files.arg(place)?.arg(limit)
}

/// The program, before its commands are added. Its first argument names the command; a request for
/// help is no command, and no flag.
fn base_app<'a>(alloc: Global) -> Command<'a>
    ensures { IsApp (record { top = top; subs = [] }) result }
{
    Command::new(alloc, "cuelayers")
        .about("Configuration in layers, which their owners replace, and policies")
        .no_binary_name(true)
        .disable_help_flag(true)
        .disable_help_subcommand(true)
        .subcommand_required(true)
}

/// The program with the commands that change a map, or try to.
fn add_change_commands<'a>(alloc: Global) -> Result<Command<'a>, AllocError>
    ensures { IfOk result (IsApp app_with_changes) }
{
    let put = of_put(alloc, "put")?;
    let remove = of_name(alloc, "remove", "MAP")?;
    let attempt = of_put(alloc, "try")?;
    let merge = of_first(alloc, "merge", "OUT")?;
    base_app(alloc)
        .subcommand(put)?
        .subcommand(remove)?
        .subcommand(attempt)?
        .subcommand(merge)
}

/// The same with the commands that answer a question about a view.
fn add_question_commands<'a>(alloc: Global) -> Result<Command<'a>, AllocError>
    ensures { IfOk result (IsApp app_with_questions) }
{
    let export = of_question(alloc, "export")?;
    let report = of_question(alloc, "report")?;
    let print = of_question(alloc, "print")?;
    let changing = add_change_commands(alloc)?;
    changing
        .subcommand(export)?
        .subcommand(report)?
        .subcommand(print)
}

/// The program.
pub fn layers<'a>(alloc: Global) -> Result<Command<'a>, AllocError>
    ensures { IfOk result (IsApp layers) }
{
    let list = of_files(alloc, "list")?;
    let show = of_name(alloc, "show", "FILE")?;
    let why = of_first(alloc, "why", "PATH")?;
    let asking = add_question_commands(alloc)?;
    asking.subcommand(list)?.subcommand(show)?.subcommand(why)
}
