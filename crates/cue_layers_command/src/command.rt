//! What the arguments ask for.
ghost use Rattle.std.specs.Prelude.{◌≡◌, ◌≢◌, ◌⊎◌, IfOk, IfErr, None, Some, map};
ghost use Rattle.std.specs.Prelude.{drop, option_and_then, string_bytes};
ghost use Rattle.std.specs.Char.{is_ascii_digit};
ghost use Rattle.std.specs.List.{list_all};
ghost use Rattle.std.specs.Option.{option_map};
ghost use Rattle.std.specs.IoError.{error_kind};
ghost use Rattle.std.specs.Vec.Iter.{into_iter_items};
ghost use Rattle.std.specs.declared.io.ErrorKind.TheVariants.{OutOfMemory};
ghost use Rattle.clap.specs.Matches.{found_of};
ghost use Rattle.clap.specs.Simple.{subcommand_rows_of};
ghost use Rattle.clap.specs.Walk.{first_of, rows_of};
ghost use Rattle.cue_program.specs.Files.{texts_of_files};
ghost use Rattle.cue_layers_command.specs.Faults.{IsMemoryLayersFault};
ghost use Rattle.cue_layers_command.specs.Words.{ask_in, meaning_of_arguments, asked_by_arguments, files_of_rows, kind_in};
ghost use Rattle.cue_layers_command.specs.Words.{limit_in, listing, meaning_of_argument_rows, merge_of_rows, put_in};
ghost use Rattle.cue_layers_command.specs.Words.{remove_in, rows_of_arguments, show_in, try_in, why_in};

use crate::app::layers;
use crate::fault::{LayersCommandError, memory};
use clap::ArgMatches;
use clap::error::ErrorKind;
use cue_policies::LayerKind;
use cue_program::SiteQuestion;
use std::alloc::{AllocError, Global};
use std::env::{Args, Env};
use std::{env, io};

/// What the program is asked to do.
#[derive(Drop)]
pub enum LayersCommand<'w> {
    /// Replace what a name says in a map by the unification of the files, and print the revision.
    Put {
        kind: LayerKind,
        map: &'w str,
        name: &'w str,
        files: Vec<&'w str>,
        limit: u64,
    },
    /// Remove what a name says in a map, and print the revision.
    Remove {
        kind: LayerKind,
        map: &'w str,
        name: &'w str,
    },
    /// Print the report lines that a put would add, and change nothing.
    Attempt {
        kind: LayerKind,
        map: &'w str,
        name: &'w str,
        files: Vec<&'w str>,
        limit: u64,
    },
    /// Join files, and put the map at a name.
    Merge {
        out: &'w str,
        files: Vec<&'w str>,
    },
    /// Print the answer to a question about the view of files, or about a place of it.
    Ask {
        question: SiteQuestion,
        place: Option<&'w str>,
        files: Vec<&'w str>,
        limit: u64,
    },
    /// Print a line for each layer of files.
    List {
        files: Vec<&'w str>,
    },
    /// Print what a name says in a file.
    Show {
        kind: LayerKind,
        file: &'w str,
        name: &'w str,
    },
    /// Print which layers of files make what is reported at a path.
    Why {
        path: &'w str,
        files: Vec<&'w str>,
    },
}

/// The most rows of a view, where no option says it.
const ROW_LIMIT: u64 = 10_000_000;

/// The arguments behind the program's name. One that is not UTF-8 is a usage fault.
pub fn given_words<H: AllocGlobal + Env>(rt: &H) -> Result<Vec<String>, LayersCommandError>
    ensures fault { IfErr result (λ fault. (fault ≡ LayersCommandError.Usage) ⊎ IsMemoryLayersFault fault) }
{
    match env::args(rt) {
        Ok(all) => Ok(after_the_name(rt.alloc(), all)?),
        Err(error) => Err(unread_fault(&error)),
    }
}

/// The arguments behind the first, which is the program's name.
fn after_the_name(alloc: Global, all: Args) -> Result<Vec<String>, AllocError>
    ensures { IfOk result (λ words. words.items ≡ drop 1 (into_iter_items all)) }
{
    all.skip(1).collect(alloc)
}

/// What ends a run whose arguments can't be read.
pub fn unread_fault(error: &io::Error) -> LayersCommandError
    ensures memory { error_kind error.now ≡ OutOfMemory → IsMemoryLayersFault result }
    ensures usage { error_kind error.now ≢ OutOfMemory → result ≡ LayersCommandError.Usage }
    ensures fault { (result ≡ LayersCommandError.Usage) ⊎ IsMemoryLayersFault result }
{
    match error.kind() {
        io::ErrorKind::OutOfMemory => memory(),
        _ => LayersCommandError::Usage,
    }
}

/// What the arguments ask for.
///
/// # Errors
///
/// `Usage` where they ask for nothing, and want of memory.
pub fn command_of<'w>(
    alloc: Global,
    words: &'w [String],
) -> Result<LayersCommand<'w>, LayersCommandError>
    ensures asks { IfOk result (λ command.
        meaning_of_arguments (map string_bytes words.now) ≡ Some (asked_by_arguments command)) }
    ensures fault { IfErr result (λ fault.
        ((fault ≡ LayersCommandError.Usage) × (meaning_of_arguments (map string_bytes words.now) ≡ None))
        ⊎ IsMemoryLayersFault fault) }
{
    let matches = matches_of(alloc, words)?;
    let command = read(alloc, &matches)?;
    command.ok_or(LayersCommandError::Usage)
}

/// What `clap` finds in the arguments.
fn matches_of<'w>(alloc: Global, words: &'w [String]) -> Result<ArgMatches<'w>, LayersCommandError>
    ensures found { IfOk result (λ matches. meaning_of_arguments (map string_bytes words.now)
        ≡ option_and_then (λ p. meaning_of_argument_rows p.0 p.1) (subcommand_rows_of matches)) }
    ensures fault { IfErr result (λ fault.
        ((fault ≡ LayersCommandError.Usage) × (meaning_of_arguments (map string_bytes words.now) ≡ None))
        ⊎ IsMemoryLayersFault fault) }
{
    let layers = layers(alloc)?;
    match layers.try_get_matches_from(words) {
        Ok(matches) => Ok(matches),
        Err(error) => Err(usage_fault(error.kind())),
    }
}

/// What ends a run whose arguments `clap` refuses.
fn usage_fault(kind: ErrorKind) -> LayersCommandError
    ensures memory { kind ≡ ErrorKind.OutOfMemory → IsMemoryLayersFault result }
    ensures fault { (result ≡ LayersCommandError.Usage) ⊎ IsMemoryLayersFault result }
    ensures usage { result ≡ LayersCommandError.Usage → (kind ≡ ErrorKind.OutOfMemory → ⊥) }
{
    match kind {
        ErrorKind::OutOfMemory => memory(),
        _ => LayersCommandError::Usage,
    }
}

/// The command that was found, where its limit is a number.
fn read<'w>(
    alloc: Global,
    matches: &ArgMatches<'w>,
) -> Result<Option<LayersCommand<'w>>, AllocError>
    ensures { IfOk result (λ command. option_map asked_by_arguments command
        ≡ option_and_then (λ p. meaning_of_argument_rows p.0 p.1) (subcommand_rows_of matches.now)) }
{
    match matches.subcommand() {
        Some((name, found)) => find_command(alloc, name, found),
        None => Ok(None),
    }
}

/// The command of this name, with what was found of its arguments.
fn find_command<'w>(
    alloc: Global,
    name: &str,
    found: &ArgMatches<'w>,
) -> Result<Option<LayersCommand<'w>>, AllocError>
    ensures { IfOk result (λ command.
        option_map asked_by_arguments command ≡ meaning_of_argument_rows name.now (rows_of (found_of found.now))) }
{
    let files = files(alloc, found)?;
    Ok(with_files(name, found, files))
}

/// The command of this name, with these files, and what was found of its other arguments.
fn with_files<'w>(
    name: &str,
    found: &ArgMatches<'w>,
    files: Vec<&'w str>,
) -> Option<LayersCommand<'w>>
    ensures { texts_of_files files.entry.items ≡ files_of_rows (rows_of (found_of found.now))
        → option_map asked_by_arguments result ≡ meaning_of_argument_rows name.now (rows_of (found_of found.now)) }
{
    match name {
        "put" => put(found, files),
        "remove" => remove(found),
        "try" => attempt(found, files),
        "merge" => merge(found, files),
        "export" => ask(SiteQuestion::Export, found, files),
        "report" => ask(SiteQuestion::Report, found, files),
        "print" => ask(SiteQuestion::Print, found, files),
        "list" => Some(LayersCommand::List { files }),
        "show" => show(found),
        "why" => why(found, files),
        _ => None,
    }
}

fn put<'w>(found: &ArgMatches<'w>, files: Vec<&'w str>) -> Option<LayersCommand<'w>>
    ensures { texts_of_files files.entry.items ≡ files_of_rows (rows_of (found_of found.now))
        → option_map asked_by_arguments result ≡ put_in (rows_of (found_of found.now)) }
{
    let map = text(found, "MAP")?;
    let name = text(found, "NAME")?;
    let limit = limit(found)?;
    Some(LayersCommand::Put {
        kind: kind(found),
        map,
        name,
        files,
        limit,
    })
}

fn attempt<'w>(found: &ArgMatches<'w>, files: Vec<&'w str>) -> Option<LayersCommand<'w>>
    ensures { texts_of_files files.entry.items ≡ files_of_rows (rows_of (found_of found.now))
        → option_map asked_by_arguments result ≡ try_in (rows_of (found_of found.now)) }
{
    let map = text(found, "MAP")?;
    let name = text(found, "NAME")?;
    let limit = limit(found)?;
    Some(LayersCommand::Attempt {
        kind: kind(found),
        map,
        name,
        files,
        limit,
    })
}

fn remove<'w>(found: &ArgMatches<'w>) -> Option<LayersCommand<'w>>
    ensures { option_map asked_by_arguments result ≡ remove_in (rows_of (found_of found.now)) }
{
    let map = text(found, "MAP")?;
    let name = text(found, "NAME")?;
    Some(LayersCommand::Remove {
        kind: kind(found),
        map,
        name,
    })
}

fn show<'w>(found: &ArgMatches<'w>) -> Option<LayersCommand<'w>>
    ensures { option_map asked_by_arguments result ≡ show_in (rows_of (found_of found.now)) }
{
    let file = text(found, "FILE")?;
    let name = text(found, "NAME")?;
    Some(LayersCommand::Show {
        kind: kind(found),
        file,
        name,
    })
}

fn merge<'w>(found: &ArgMatches<'w>, files: Vec<&'w str>) -> Option<LayersCommand<'w>>
    ensures { texts_of_files files.entry.items ≡ files_of_rows (rows_of (found_of found.now))
        → option_map asked_by_arguments result ≡ merge_of_rows (rows_of (found_of found.now)) }
{
    let out = text(found, "OUT")?;
    Some(LayersCommand::Merge { out, files })
}

fn why<'w>(found: &ArgMatches<'w>, files: Vec<&'w str>) -> Option<LayersCommand<'w>>
    ensures { texts_of_files files.entry.items ≡ files_of_rows (rows_of (found_of found.now))
        → option_map asked_by_arguments result ≡ why_in (rows_of (found_of found.now)) }
{
    let path = text(found, "PATH")?;
    Some(LayersCommand::Why { path, files })
}

fn ask<'w>(
    question: SiteQuestion,
    found: &ArgMatches<'w>,
    files: Vec<&'w str>,
) -> Option<LayersCommand<'w>>
    ensures { texts_of_files files.entry.items ≡ files_of_rows (rows_of (found_of found.now))
        → option_map asked_by_arguments result ≡ ask_in question (rows_of (found_of found.now)) }
{
    let limit = limit(found)?;
    Some(LayersCommand::Ask {
        question,
        place: text(found, "at"),
        files,
        limit,
    })
}

/// The files that are named.
fn files<'w>(alloc: Global, found: &ArgMatches<'w>) -> Result<Vec<&'w str>, AllocError>
    ensures { IfOk result (λ files.
        texts_of_files files.items ≡ files_of_rows (rows_of (found_of found.now))) }
{
    match found.get_strs("FILE") {
        Some(files) => copy_words(alloc, files),
        None => Ok(Vec::new(alloc)),
    }
}

/// The words, in a list of their own.
fn copy_words<'w>(alloc: Global, words: &[&'w str]) -> Result<Vec<&'w str>, AllocError>
    ensures { IfOk result (λ list. list.items ≡ words.now) }
{
    words.iter().copied().collect(alloc)
}

/// The argument of this id.
fn text<'w>(found: &ArgMatches<'w>, id: &str) -> Option<&'w str>
    ensures { option_map (λ s. s.now) result
        ≡ first_of id.now (rows_of (found_of found.now)) }
{
    found.get_str(id)
}

/// What the name is of: a policy where `--policy` is there.
fn kind(found: &ArgMatches) -> LayerKind
    ensures { result ≡ kind_in (rows_of (found_of found.now)) }
{
    match text(found, "policy") {
        Some(word) if word == "true" => LayerKind::Policy,
        _ => LayerKind::Layer,
    }
}

/// The most rows of a view, where the option that says it is a number.
fn limit(found: &ArgMatches) -> Option<u64>
    ensures { result ≡ limit_in (rows_of (found_of found.now)) }
{
    match text(found, "limit") {
        Some(word) => rows_in(word),
        None => Some(ROW_LIMIT),
    }
}

/// The number that an argument of ASCII digits says, where it has 64 bits at most.
pub fn rows_in(word: &str) -> Option<u64>
    ensures { result ≡ rows_of_arguments word.now }
{
    if word.is_empty() || !is_digits(word) {
        return None;
    }
    word.parse::<u64>().ok()
}

/// Whether each character is an ASCII digit.
fn is_digits(word: &str) -> bool
    ensures { result ≡ list_all is_ascii_digit word.now }
{
    word.as_bytes().iter().all(|byte| byte.is_ascii_digit())
}
