//! Texts with the answers that the lexer and the parser must give: each line is a text as a JSON
//! string, a tab and the answer: `ok`, or the refusal's number and place, and after a 9 its form.
mod size;

use anyhow::{Context, anyhow};
use cue_lattice::{Kind, Refusal};
use cue_lex::lex;
use cue_syntax::parse;
use serde_json::Value;
use std::alloc::Global;
use std::fs;
use std::time::Instant;

/// How often a text is read for its time.
const RUNS: u32 = 20;

/// Why the lexer or the parser refuses a text, or None where both accept it.
fn refusal(alloc: Global, text: &str) -> Option<Refusal> {
    let tokens = match lex(alloc, text) {
        Ok(tokens) => tokens,
        Err(refusal) => return Some(refusal),
    };
    parse(alloc, &tokens, text.len()).err()
}

/// The answer that a text gets, as `ok`, `2 7` or `9 3 Call`.
fn answer(alloc: Global, text: &str) -> anyhow::Result<String> {
    let Some(refusal) = refusal(alloc, text) else {
        return Ok(format!(in alloc; "ok")?);
    };
    let (number, place) = (refusal.kind.number(), refusal.place);
    match refusal.kind {
        Kind::Memory => Err(anyhow!("out of memory")),
        Kind::LeftOut(form) => Ok(format!(in alloc; "{number} {place} {form}")?),
        _ => Ok(format!(in alloc; "{number} {place}")?),
    }
}

/// What a line's text gets, where it isn't the answer that the line names.
fn disagreement(alloc: Global, line: &str) -> anyhow::Result<Option<String>> {
    let (quoted, wanted) = line.split_once('\t').context("a line without a tab")?;
    let value = Value::from_str(alloc, quoted)?;
    let text = value.as_str().context("a text that is no JSON string")?;
    let found = answer(alloc, text)?;
    if found.as_str() == wanted {
        return Ok(None);
    }
    Ok(Some(found))
}

/// Lexes a text some times over, and tells the least time.
fn time_lexer(rt: &HostRuntime, text: &str) -> anyhow::Result<()> {
    let mut least = u128::MAX;
    for _ in 0..RUNS {
        let start = Instant::now(rt)?;
        let _tokens = lex(rt.alloc(), text).ok();
        least = least.min(start.elapsed(rt)?.as_micros());
    }
    println!(rt; "{} bytes, {least} microseconds", text.len())?;
    Ok(())
}

/// Parses the tokens of a text some times over, and tells the least time and the size of the tree.
fn time_parser(rt: &HostRuntime, text: &str) -> anyhow::Result<()> {
    let tokens = lex(rt.alloc(), text)
        .ok()
        .context("a text that the lexer refuses")?;
    let mut least = u128::MAX;
    let mut size = 0;
    for _ in 0..RUNS {
        let start = Instant::now(rt)?;
        let file = parse(rt.alloc(), &tokens, text.len())
            .ok()
            .context("a text that the parser refuses")?;
        least = least.min(start.elapsed(rt)?.as_micros());
        size = size::of_declarations(&file.declarations);
    }
    println!(rt;
        "{} bytes, {size} expressions, {least} microseconds",
        text.len()
    )?;
    Ok(())
}

/// Compares each line, and tells those that get another answer.
fn compare(rt: &HostRuntime, lines: &str) -> anyhow::Result<()> {
    let mut wrong = 0u64;
    for line in lines.lines() {
        if let Some(found) = disagreement(rt.alloc(), line)? {
            println!(rt; "{line}: {found}")?;
            wrong = wrong.saturating_add(1);
        }
    }
    println!(rt; "{} lines, {wrong} wrong", lines.lines().count())?;
    Ok(())
}

/// Reads a file whose lines are texts with their answers, and prints those that get another answer.
pub(crate) fn compare_file(rt: &HostRuntime, path: &str) -> anyhow::Result<()> {
    compare(rt, fs::read_to_string(rt, path)?.as_str())
}

/// Takes a file as one text, and prints how long the lexer takes for it.
pub(crate) fn time_lexing(rt: &HostRuntime, path: &str) -> anyhow::Result<()> {
    time_lexer(rt, fs::read_to_string(rt, path)?.as_str())
}

/// Takes a file as one text, and prints how long the parser takes for it.
pub(crate) fn time_parsing(rt: &HostRuntime, path: &str) -> anyhow::Result<()> {
    time_parser(rt, fs::read_to_string(rt, path)?.as_str())
}
