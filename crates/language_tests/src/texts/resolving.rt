//! What comes of texts whose names are resolved.
use crate::texts::texts::Made;
use cue_lattice::{Kind, Refusal};
use cue_lex::{Token, lex};
use cue_scope::resolve;
use cue_syntax::{File, parse};
use std::alloc::Global;
use std::process::Abort;
use std::test::Fail;

/// The size of the text that has these declarations, or why it is refused.
fn size_of(alloc: Global, file: &File) -> Result<u64, Refusal> {
    match resolve(alloc, file) {
        Ok(resolved) => Ok(resolved.size()),
        Err(refusal) => Err(refusal),
    }
}

/// The size of the text that has these tokens, or why it is refused.
fn size_at<'t>(alloc: Global, tokens: &'t [Token<'t>], end: usize) -> Result<u64, Refusal> {
    match parse(alloc, tokens, end) {
        Ok(file) => size_of(alloc, &file),
        Err(refusal) => Err(refusal),
    }
}

/// The size of a text, or why it is refused.
pub fn size(alloc: Global, text: &str) -> Result<u64, Refusal> {
    match lex(alloc, text) {
        Ok(tokens) => size_at(alloc, &tokens, text.len()),
        Err(refusal) => Err(refusal),
    }
}

/// Asserts of which size the text is.
fn sized(rt: &impl Abort, alloc: Global, text: &str, wanted: u64) {
    assert_eq!(rt; size(alloc, text), Ok(wanted), "{text}");
}

/// Asserts that the text is refused for this reason, and at which place.
fn refused(rt: &impl Abort, alloc: Global, text: &str, kind: Kind, place: u64) {
    assert_eq!(rt; size(alloc, text), Err(Refusal { kind, place }), "{text}");
}

/// Asserts of which size each text is.
pub fn each_sized(rt: &impl Abort, alloc: Global, texts: &[(&str, u64)]) {
    for (text, wanted) in texts {
        sized(rt, alloc, text, *wanted);
    }
}

/// Asserts of which size the text is, where it was made.
pub fn sized_made<H: AllocGlobal + Abort>(
    rt: &H,
    text: Made<String>,
    wanted: u64,
) -> Result<(), Fail> {
    sized(rt, rt.alloc(), text?.as_str(), wanted);
    Ok(())
}

/// Asserts that the text is refused for this reason, at its start.
pub fn refused_made<H: AllocGlobal + Abort>(
    rt: &H,
    text: Made<String>,
    kind: Kind,
) -> Result<(), Fail> {
    refused(rt, rt.alloc(), text?.as_str(), kind, 0);
    Ok(())
}

/// A text with what stands before it.
pub fn after(alloc: Global, before: &str, text: Made<String>) -> Made<String> {
    let mut all = String::from_str(alloc, before)?;
    all.push_str(text?.as_str())?;
    Ok(all)
}

/// A definition that uses the one before once.
fn once(alloc: Global, before: u32, number: u32) -> Made<String> {
    Ok(format!(in alloc; "#A{number}: {{l: #A{before}}}\n")?)
}

/// A definition that uses the one before twice.
fn doubled(alloc: Global, before: u32, number: u32) -> Made<String> {
    Ok(format!(in alloc; "#A{number}: {{l: #A{before}, r: #A{before}}}\n")?)
}

/// A definition that uses the one before.
fn line(alloc: Global, before: u32, number: u32, twice: bool) -> Made<String> {
    if twice {
        doubled(alloc, before, number)
    } else {
        once(alloc, before, number)
    }
}

/// Writes so many definitions, each of which uses the one before.
fn push_lines(alloc: Global, text: &mut String, count: u32, twice: bool) -> Made<()> {
    for before in 0..count {
        text.push_str(line(alloc, before, before + 1, twice)?.as_str())?;
    }
    Ok(())
}

/// `#A0` and so many further definitions, each of which uses the one before, and what follows.
pub fn chain(alloc: Global, count: u32, twice: bool, then: &str) -> Made<String> {
    let mut text = String::from_str(alloc, "#A0: {a: 1}\n")?;
    push_lines(alloc, &mut text, count, twice)?;
    text.push_str(then)?;
    Ok(text)
}
