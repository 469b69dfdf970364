ghost use Rattle.std.specs.Prelude.{◌≡◌, ◌≢◌, ◌⊎◌, IfOk, IfErr, None, Some, map};
ghost use Rattle.std.specs.Prelude.{drop, option_and_then, string_bytes};
ghost use Rattle.std.specs.Char.{is_ascii_digit};
ghost use Rattle.std.specs.List.{list_all};
ghost use Rattle.std.specs.Option.{option_map};
ghost use Rattle.std.specs.IoError.{error_kind};
ghost use Rattle.std.specs.Vec.Iter.{into_iter_items};
ghost use Rattle.std.specs.declared.io.ErrorKind.TheVariants.{OutOfMemory};
ghost use Rattle.clap.specs.Matches.{found_of};
ghost use Rattle.clap.specs.Simple.{subcommand_rows_of};
ghost use Rattle.clap.specs.Walk.{first_of, rows_of};
ghost use Rattle.cue_program.specs.Files.{texts_of_files};
ghost use Rattle.cue_command.specs.Faults.{IsMemoryFault};
ghost use Rattle.cue_command.specs.Words.{meaning_of_words, asked_by_words, asking, looping, number_in};
ghost use Rattle.cue_command.specs.inner.Rows.{files_in, meaning_of_rows, merge_in, push_in, serve_in};

use crate::app::store;
use crate::fault::{CommandError, RunRefusal};
use clap::ArgMatches;
use clap::error::ErrorKind;
use cue_program::{Kind, SiteQuestion};
use std::alloc::{AllocError, Global};
use std::env::{Args, Env};
use std::{env, io};

/// What the program is asked to do.
#[derive(Drop)]
pub enum Command<'w> {
    /// Print the answer to a question about the inputs.
    Ask {
        question: SiteQuestion,
        files: Vec<&'w str>,
    },
    /// Put the state of the inputs at a name.
    Merge {
        out: &'w str,
        files: Vec<&'w str>,
    },
    /// Serve so many connections on a port, and print the export.
    Serve {
        port: u16,
        count: u16,
    },
    /// Send the inputs to the site on a port, and print its export.
    Push {
        port: u16,
        files: Vec<&'w str>,
    },
    /// Do both in this process.
    Loop {
        files: Vec<&'w str>,
    },
}

/// The greatest port.
const MAX_PORT: u16 = 65_535;

/// The most connections that one run serves.
const MAX_COUNT: u16 = 1_000;

/// The words after the program's name. One that is not UTF-8 is a usage fault.
pub fn given_words<H: AllocGlobal + Env>(rt: &H) -> Result<Vec<String>, CommandError>
    ensures fault { IfErr result (λ fault. (fault ≡ CommandError.Usage) ⊎ IsMemoryFault fault) }
{
    match env::args(rt) {
        Ok(all) => Ok(after_the_name(rt.alloc(), all)?),
        Err(error) => Err(unread_fault(&error)),
    }
}

/// The words after the first, which is the program's name.
fn after_the_name(alloc: Global, all: Args) -> Result<Vec<String>, AllocError>
    ensures { IfOk result (λ words. words.items ≡ drop 1 (into_iter_items all)) }
{
    all.skip(1).collect(alloc)
}

/// What is told where the words can't be read.
pub fn unread_fault(error: &io::Error) -> CommandError
    ensures memory { error_kind error.now ≡ OutOfMemory → IsMemoryFault result }
    ensures usage { error_kind error.now ≢ OutOfMemory → result ≡ CommandError.Usage }
    ensures fault { (result ≡ CommandError.Usage) ⊎ IsMemoryFault result }
{
    match error.kind() {
        io::ErrorKind::OutOfMemory => CommandError::Refused(RunRefusal::Run(Kind::Memory)),
        _ => CommandError::Usage,
    }
}

/// What the words after the program's name ask for.
///
/// # Errors
///
/// `Usage` where they ask for nothing, and want of memory.
pub fn command_of<'w>(alloc: Global, words: &'w [String]) -> Result<Command<'w>, CommandError>
    ensures asks { IfOk result (λ command.
        meaning_of_words (map string_bytes words.now) ≡ Some (asked_by_words command)) }
    ensures fault { IfErr result (λ fault.
        ((fault ≡ CommandError.Usage) × (meaning_of_words (map string_bytes words.now) ≡ None))
        ⊎ IsMemoryFault fault) }
{
    let matches = matches_of(alloc, words)?;
    let command = read(alloc, &matches)?;
    command.ok_or(CommandError::Usage)
}

/// What `clap` finds in the words.
fn matches_of<'w>(alloc: Global, words: &'w [String]) -> Result<ArgMatches<'w>, CommandError>
    ensures found { IfOk result (λ matches. meaning_of_words (map string_bytes words.now)
        ≡ option_and_then (λ p. meaning_of_rows p.0 p.1) (subcommand_rows_of matches)) }
    ensures fault { IfErr result (λ fault.
        ((fault ≡ CommandError.Usage) × (meaning_of_words (map string_bytes words.now) ≡ None))
        ⊎ IsMemoryFault fault) }
{
    let store = store(alloc)?;
    match store.try_get_matches_from(words) {
        Ok(matches) => Ok(matches),
        Err(error) => Err(usage_fault(error.kind())),
    }
}

/// What is told of words that `clap` refuses.
fn usage_fault(kind: ErrorKind) -> CommandError
    ensures memory { kind ≡ ErrorKind.OutOfMemory → IsMemoryFault result }
    ensures fault { (result ≡ CommandError.Usage) ⊎ IsMemoryFault result }
    ensures usage { result ≡ CommandError.Usage → (kind ≡ ErrorKind.OutOfMemory → ⊥) }
{
    match kind {
        ErrorKind::OutOfMemory => CommandError::Refused(RunRefusal::Run(Kind::Memory)),
        _ => CommandError::Usage,
    }
}

/// The command that was found, where its numbers are in their ranges.
fn read<'w>(alloc: Global, matches: &ArgMatches<'w>) -> Result<Option<Command<'w>>, AllocError>
    ensures { IfOk result (λ command. option_map asked_by_words command
        ≡ option_and_then (λ p. meaning_of_rows p.0 p.1) (subcommand_rows_of matches.now)) }
{
    match matches.subcommand() {
        Some((name, found)) => find_command(alloc, name, found),
        None => Ok(None),
    }
}

/// The command of this name, with what was found of its arguments.
fn find_command<'w>(
    alloc: Global,
    name: &str,
    found: &ArgMatches<'w>,
) -> Result<Option<Command<'w>>, AllocError>
    ensures { IfOk result (λ command.
        option_map asked_by_words command ≡ meaning_of_rows name.now (rows_of (found_of found.now))) }
{
    match name {
        "export" => ask(alloc, SiteQuestion::Export, found),
        "print" => ask(alloc, SiteQuestion::Print, found),
        "report" => ask(alloc, SiteQuestion::Report, found),
        "state" => ask(alloc, SiteQuestion::State, found),
        "merge" => merge(alloc, found),
        "serve" => Ok(serve(found)),
        "push" => push(alloc, found),
        "loop" => both(alloc, found),
        _ => Ok(None),
    }
}

fn ask<'w>(
    alloc: Global,
    question: SiteQuestion,
    found: &ArgMatches<'w>,
) -> Result<Option<Command<'w>>, AllocError>
    ensures { IfOk result (λ command. option_map asked_by_words command
        ≡ Some (asking question (files_in (rows_of (found_of found.now))))) }
{
    let files = files(alloc, found)?;
    Ok(Some(Command::Ask { question, files }))
}

fn both<'w>(alloc: Global, found: &ArgMatches<'w>) -> Result<Option<Command<'w>>, AllocError>
    ensures { IfOk result (λ command. option_map asked_by_words command
        ≡ Some (looping (files_in (rows_of (found_of found.now))))) }
{
    let files = files(alloc, found)?;
    Ok(Some(Command::Loop { files }))
}

fn merge<'w>(alloc: Global, found: &ArgMatches<'w>) -> Result<Option<Command<'w>>, AllocError>
    ensures { IfOk result (λ command.
        option_map asked_by_words command ≡ merge_in (rows_of (found_of found.now))) }
{
    let files = files(alloc, found)?;
    match text(found, "OUT") {
        Some(out) => Ok(Some(Command::Merge { out, files })),
        None => Ok(None),
    }
}

fn push<'w>(alloc: Global, found: &ArgMatches<'w>) -> Result<Option<Command<'w>>, AllocError>
    ensures { IfOk result (λ command.
        option_map asked_by_words command ≡ push_in (rows_of (found_of found.now))) }
{
    let files = files(alloc, found)?;
    match number(found, "PORT", MAX_PORT) {
        Some(port) => Ok(Some(Command::Push { port, files })),
        None => Ok(None),
    }
}

fn serve<'w>(found: &ArgMatches<'w>) -> Option<Command<'w>>
    ensures { option_map asked_by_words result ≡ serve_in (rows_of (found_of found.now)) }
{
    let port = number(found, "PORT", MAX_PORT)?;
    let count = number(found, "COUNT", MAX_COUNT)?;
    Some(Command::Serve { port, count })
}

/// The inputs that are named.
fn files<'w>(alloc: Global, found: &ArgMatches<'w>) -> Result<Vec<&'w str>, AllocError>
    ensures { IfOk result (λ files.
        texts_of_files files.items ≡ files_in (rows_of (found_of found.now))) }
{
    match found.get_strs("FILE") {
        Some(files) => copy_words(alloc, files),
        None => Ok(Vec::new(alloc)),
    }
}

/// The words, in a list of their own.
fn copy_words<'w>(alloc: Global, words: &[&'w str]) -> Result<Vec<&'w str>, AllocError>
    ensures { IfOk result (λ list. list.items ≡ words.now) }
{
    words.iter().copied().collect(alloc)
}

/// The argument of this id.
fn text<'w>(found: &ArgMatches<'w>, id: &str) -> Option<&'w str>
    ensures { option_map (λ s. s.now) result
        ≡ first_of id.now (rows_of (found_of found.now)) }
{
    found.get_str(id)
}

/// The argument of this id, where it is a number in its range.
fn number<'w>(found: &ArgMatches<'w>, id: &str, most: u16) -> Option<u16>
    ensures { result ≡ option_and_then (number_in most)
        (first_of id.now (rows_of (found_of found.now))) }
{
    number_in(text(found, id)?, most)
}

/// The number that a word of ASCII digits says, where it is from 1 to the greatest one.
pub fn number_in(word: &str, most: u16) -> Option<u16>
    ensures { result ≡ number_in most word.now }
{
    if !is_digits(word) {
        return None;
    }
    match word.parse::<u16>() {
        Ok(number) if number >= 1 && number <= most => Some(number),
        _ => None,
    }
}

/// Whether each character is an ASCII digit.
fn is_digits(word: &str) -> bool
    ensures { result ≡ list_all is_ascii_digit word.now }
{
    word.as_bytes().iter().all(|byte| byte.is_ascii_digit())
}
