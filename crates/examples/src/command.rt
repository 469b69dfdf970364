use crate::layers::run_layers;
use anyhow::{Context, anyhow};
use cue_program::{RunError, SiteQuestion, answer_for, merge_into};
use std::alloc::Global;
use std::fs;

/// What a command printed, and how it ended.
#[derive(Drop)]
pub struct Printed {
    pub bytes: Vec<u8>,
    pub status: u8,
}

impl Printed {
    pub fn nothing(alloc: Global) -> Printed {
        Printed {
            bytes: Vec::new(alloc),
            status: 0,
        }
    }

    fn text(text: String, status: u8) -> Printed {
        Printed {
            bytes: text.into_bytes(),
            status,
        }
    }
}

/// The words of a command, and the files that stand for its input and its output.
#[derive(Drop)]
struct Words<'a> {
    words: Vec<&'a str>,
    input: Option<&'a str>,
    output: Option<&'a str>,
}

/// The words of a command, between which single spaces stand.
fn words_of(alloc: Global, command: &str) -> anyhow::Result<Words<'_>> {
    let mut all = Words {
        words: Vec::new(alloc),
        input: None,
        output: None,
    };
    let mut rest = command.split(' ');
    while let Some(word) = rest.next() {
        match word {
            "<" => all.input = rest.next(),
            ">" => all.output = rest.next(),
            _ => all.words.push(word)?,
        }
    }
    Ok(all)
}

/// Runs a command on the files of a folder, after one that ended with this status.
pub fn run(rt: &HostRuntime, folder: &str, command: &str, last: u8) -> anyhow::Result<Printed> {
    let alloc = rt.alloc();
    let Words {
        words,
        input,
        output,
    } = words_of(alloc, command)?;
    let (first, rest) = words.split_first().context("a command without words")?;
    match (*first, rest) {
        ("echo", ["$?"]) => Ok(Printed::text(format!(in alloc; "{last}\n")?, 0)),
        ("cat", [name]) => Ok(Printed {
            bytes: bytes_of(rt, folder, name)?,
            status: 0,
        }),
        ("cmp", [one, other]) => compared(rt, folder, one, other),
        ("cuestore", [word, files @ ..]) => {
            let input = input_of(rt, folder, input)?;
            let printed = run_command(rt, folder, word, files, &input)?;
            printed_to(rt, folder, output, printed)
        }
        ("cuelayers", arguments) => {
            let input = input_of(rt, folder, input)?;
            let printed = run_layers(rt, folder, arguments, &input)?;
            printed_to(rt, folder, output, printed)
        }
        _ => Err(anyhow!("not a command that a session may have: {command}")),
    }
}

/// What is in the file that stands for a command's input, if one does.
fn input_of(rt: &HostRuntime, folder: &str, name: Option<&str>) -> anyhow::Result<Vec<u8>> {
    match name {
        Some(name) => bytes_of(rt, folder, name),
        None => Ok(Vec::new(rt.alloc())),
    }
}

/// What is seen of what a command printed, whose output may go to a file of the folder.
fn printed_to(
    rt: &HostRuntime,
    folder: &str,
    output: Option<&str>,
    printed: Printed,
) -> anyhow::Result<Printed> {
    match output {
        Some(name) => keep_output(rt, folder, name, printed),
        None => Ok(printed),
    }
}

/// Writes what a command printed to a file of the folder, so that nothing of it is seen.
fn keep_output(
    rt: &HostRuntime,
    folder: &str,
    name: &str,
    printed: Printed,
) -> anyhow::Result<Printed> {
    let path = path_of(rt.alloc(), folder, name)?;
    fs::write(rt, path.as_str(), printed.bytes.as_slice())?;
    Ok(Printed {
        bytes: Vec::new(rt.alloc()),
        status: printed.status,
    })
}

/// The path of a file of a folder.
pub fn path_of(alloc: Global, folder: &str, name: &str) -> anyhow::Result<String> {
    Ok(format!(in alloc; "{folder}/{name}")?)
}

/// What is in a file of a folder.
fn bytes_of(rt: &HostRuntime, folder: &str, name: &str) -> anyhow::Result<Vec<u8>> {
    let path = path_of(rt.alloc(), folder, name)?;
    Ok(fs::read(rt, path.as_str())?)
}

/// What `cmp` tells of two files.
fn compared(rt: &HostRuntime, folder: &str, one: &str, other: &str) -> anyhow::Result<Printed> {
    if bytes_of(rt, folder, one)?.as_slice() == bytes_of(rt, folder, other)?.as_slice() {
        return Ok(Printed::nothing(rt.alloc()));
    }
    Ok(Printed::text(format!(in rt.alloc(); "{one} {other} differ\n")?, 1))
}

/// What `cuestore` prints for a word and files of a folder.
fn run_command(
    rt: &HostRuntime,
    folder: &str,
    word: &str,
    files: &[&str],
    mut input: &[u8],
) -> anyhow::Result<Printed> {
    let mut paths = Vec::new(rt.alloc());
    for name in files {
        paths.push(path_of(rt.alloc(), folder, name)?)?;
    }
    let mut names = Vec::new(rt.alloc());
    for path in &paths {
        names.push(path.as_str())?;
    }
    match (question_of(word), names.split_first()) {
        (Some(question), _) => match answer_for(rt, question, &names, &mut input) {
            Ok(answer) => Ok(Printed {
                status: answer.status.code(),
                bytes: answer.bytes,
            }),
            Err(stop) => print_stop(rt.alloc(), stop),
        },
        (None, Some((out, files))) if word == "merge" => run_merge(rt, out, files, &mut input),
        _ => Err(anyhow!("no word of cuestore: {word}")),
    }
}

/// What `cuestore` prints that merges files of a folder.
fn run_merge(
    mut rt: &HostRuntime,
    out: &str,
    files: &[&str],
    input: &mut &[u8],
) -> anyhow::Result<Printed> {
    let alloc = rt.alloc();
    match merge_into(&mut rt, out, files, input) {
        Ok(()) => Ok(Printed::nothing(alloc)),
        Err(stop) => print_stop(alloc, stop),
    }
}

/// What a word of `cuestore` asks, where it asks something.
fn question_of(word: &str) -> Option<SiteQuestion> {
    match word {
        "export" => Some(SiteQuestion::Export),
        "report" => Some(SiteQuestion::Report),
        "print" => Some(SiteQuestion::Print),
        "state" => Some(SiteQuestion::State),
        _ => None,
    }
}

/// What is printed where a run is stopped before it has an answer.
fn print_stop(alloc: Global, stop: RunError) -> anyhow::Result<Printed> {
    Ok(match stop {
        RunError::Device => Printed::text(format!(in alloc; "device fault\n")?, 4),
        RunError::Refused(kind) => {
            let (number, name) = (kind.number(), kind.name());
            Printed::text(format!(in alloc; "refused {number} {name}\n")?, 1)
        }
        RunError::RefusedInput(why, input) => {
            let (number, name, place) = (why.kind.number(), why.kind.name(), why.place);
            let line = format!(in alloc; "refused {number} {name} at {place} in {input}\n")?;
            Printed::text(line, 1)
        }
    })
}
