//! Resolves or evaluates the text of a file, to see how the cost grows with its size.
//!
//! The samples are the size and the number of rows of a small text. With the words FILE ROUNDS the
//! text is parsed, and `scope` resolves its names so many times and tells its size (0 with no
//! rounds), while `eval` resolves them once, evaluates it so many times and tells 0 rows. A text
//! that is refused is told with its refusal. `bench/texts.awk` writes long texts.
use crate::fault::{Fault, number};
use anyhow::Error;
use cue_eval::evaluate;
use cue_lattice::{Memory, Refusal};
use cue_lex::{Token, lex};
use cue_scope::{Resolved, resolve};
use cue_syntax::{File, parse};
use std::alloc::Global;
use std::fs;

/// A definition and two fields that use it.
const SAMPLE: &str = "#D: {a: int, b?: string}\nx: #D\ny: #D & {a: 1}\n";

/// What is done with a text.
#[derive(Clone, Copy)]
enum Work {
    /// Its names are resolved so many times, and its size is told.
    Resolve(u32),
    /// It is evaluated so many times, and what comes of it dropped.
    Evaluate(u32),
    /// Its rows are counted.
    Count,
}

/// The size of the text that has these declarations, or why it is refused.
fn size_of(alloc: Global, file: &File, rounds: u32) -> Result<u64, Refusal> {
    let mut size = 0;
    for _ in 0..rounds {
        match resolve(alloc, file) {
            Ok(resolved) => size = resolved.size(),
            Err(refusal) => return Err(refusal),
        }
    }
    Ok(size)
}

/// How many rows the table of the text has.
fn count_rows(alloc: Global, resolved: &Resolved) -> Result<u64, Memory> {
    let table = evaluate(alloc, resolved)?;
    Ok(table.rows(alloc)?.len() as u64)
}

/// Evaluates the text and drops its table.
fn dropped(alloc: Global, resolved: &Resolved) -> Result<(), Memory> {
    let _table = evaluate(alloc, resolved)?;
    Ok(())
}

/// Evaluates the text so many times, and counts no rows.
fn evaluated(alloc: Global, resolved: &Resolved, rounds: u32) -> Result<u64, Memory> {
    for _ in 0..rounds {
        dropped(alloc, resolved)?;
    }
    Ok(0)
}

/// How many rows the text has that has these declarations, or why it is refused.
fn rows_of(alloc: Global, file: &File, rounds: Option<u32>) -> Result<u64, Refusal> {
    let resolved = resolve(alloc, file)?;
    match rounds {
        Some(rounds) => Ok(evaluated(alloc, &resolved, rounds)?),
        None => Ok(count_rows(alloc, &resolved)?),
    }
}

/// What the work finds of the text that has these declarations, or why it is refused.
fn found_of(alloc: Global, file: &File, work: Work) -> Result<u64, Refusal> {
    match work {
        Work::Resolve(rounds) => size_of(alloc, file, rounds),
        Work::Evaluate(rounds) => rows_of(alloc, file, Some(rounds)),
        Work::Count => rows_of(alloc, file, None),
    }
}

/// What the work finds of the text that has these tokens, or why it is refused.
fn found_at<'t>(
    alloc: Global,
    tokens: &'t [Token<'t>],
    end: usize,
    work: Work,
) -> Result<u64, Refusal> {
    match parse(alloc, tokens, end) {
        Ok(file) => found_of(alloc, &file, work),
        Err(refusal) => Err(refusal),
    }
}

/// What the work finds of a text, or why it is refused.
fn count_found(alloc: Global, text: &str, work: Work) -> Result<u64, Refusal> {
    match lex(alloc, text) {
        Ok(tokens) => found_at(alloc, &tokens, text.len(), work),
        Err(refusal) => Err(refusal),
    }
}

/// What the work finds, in words.
fn write_found(alloc: Global, work: Work, count: u64) -> Result<String, Memory> {
    match work {
        Work::Resolve(_) => Ok(format!(in alloc; "size {count}")?),
        Work::Evaluate(_) | Work::Count => Ok(format!(in alloc; "{count} rows")?),
    }
}

/// What came of a text, in words.
fn answer(alloc: Global, text: &str, work: Work) -> Result<String, Memory> {
    match count_found(alloc, text, work) {
        Ok(count) => write_found(alloc, work, count),
        Err(refusal) => Ok(format!(in alloc; "{} at {}", refusal.kind.name(), refusal.place)?),
    }
}

/// What is asked of the part of this name in words, and what came of it.
pub fn run_part(rt: &HostRuntime, part: &str, words: &[String]) -> Result<String, Error> {
    if words.len() < 2 {
        return Err(Fault::Usage.into());
    }
    let rounds = number(words[1].as_str())?;
    let work = match part {
        "scope" => Work::Resolve(rounds),
        _ => Work::Evaluate(rounds),
    };
    let text = fs::read_to_string(rt, words[0].as_str())?;
    Ok(answer(rt.alloc(), text.as_str(), work)?)
}

/// The size and the number of rows of a small text, a line each.
pub fn samples(alloc: Global) -> Result<String, Memory> {
    let size = answer(alloc, SAMPLE, Work::Resolve(1))?;
    let rows = answer(alloc, SAMPLE, Work::Count)?;
    Ok(format!(in alloc; "{size}\n{rows}")?)
}
