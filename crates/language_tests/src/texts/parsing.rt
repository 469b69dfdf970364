use crate::texts::texts::{Made, debugged, long, repeated};
use cue_lattice::Refusal;
use cue_lex::{Token, lex};
use cue_syntax::{File, parse};
use std::alloc::Global;
use std::process::Abort;
use std::test::Fail;

/// Why the text that has these tokens is refused, if it is.
fn refusal_at<'t>(alloc: Global, tokens: &'t [Token<'t>], end: usize) -> Option<Refusal> {
    parse(alloc, tokens, end).err()
}

/// Why the text is refused, if it is.
fn refusal(alloc: Global, text: &str) -> Option<Refusal> {
    match lex(alloc, text) {
        Ok(tokens) => refusal_at(alloc, &tokens, text.len()),
        Err(refusal) => Some(refusal),
    }
}

fn accepted(rt: &impl Abort, alloc: Global, text: &str) {
    assert_eq!(rt; refusal(alloc, text), None, "{text}");
}

/// Asserts that the text is accepted.
fn accepted_made<H: AllocGlobal + Abort>(rt: &H, text: Made<String>) -> Result<(), Fail> {
    accepted(rt, rt.alloc(), text?.as_str());
    Ok(())
}

/// What a file keeps of the declarations of a text.
fn file_shown(alloc: Global, file: &File) -> Made<String> {
    let mut shown = debugged(alloc, &file.declarations)?;
    shown.push_str(if file.comma { " true" } else { " false" })?;
    Ok(shown)
}

/// What the tree of these tokens keeps.
fn tree_shown<'t>(alloc: Global, tokens: &'t [Token<'t>], end: usize) -> Result<String, Refusal> {
    Ok(file_shown(alloc, &parse(alloc, tokens, end)?)?)
}

/// What the tree of a text keeps.
fn shown(alloc: Global, text: &str) -> Result<String, Refusal> {
    tree_shown(alloc, &lex(alloc, text)?, text.len())
}

/// Asserts what the tree of a text keeps.
fn assert_tree<H: AllocGlobal + Abort>(rt: &H, text: &str, wanted: &str) -> Result<(), Fail> {
    let shown = shown(rt.alloc(), text)?;
    assert_eq!(rt; shown.as_str(), wanted);
    Ok(())
}

#[test]
fn what_a_tree_keeps(rt: HostRuntime) -> Result<(), Fail> {
    assert_tree(
        &rt,
        "a?: *1 | x & -2,",
        concat!(
            "[Field { label: Label { name: Plain(\"a\"), mark: Optional }, chain: [], ",
            "value: Disjunction([",
            "Term { marked: true, from: 5, value: Integer(Signed ",
            "{ sign: Absent, magnitude: 1 }) }, ",
            "Term { marked: false, from: 9, value: Conjunction([",
            "Name { name: Plain(\"x\"), from: 9 }, ",
            "Integer(Signed { sign: Minus, magnitude: 2 })]) }",
            "]) }] true"
        ),
    )
}

#[test]
fn what_a_tree_keeps_of_a_rest(rt: HostRuntime) -> Result<(), Fail> {
    assert_tree(
        &rt,
        "l: [1, ...int,]",
        concat!(
            "[Field { label: Label { name: Plain(\"l\"), mark: Regular }, chain: [], ",
            "value: List { elements: [Integer(Signed { sign: Absent, magnitude: 1 })], ",
            "rest: Each(Name { name: Plain(\"int\"), from: 10 }), comma: true } }] false"
        ),
    )
}

/// A list of many values, each of which is this part.
fn list(alloc: Global, part: &str) -> Made<String> {
    long(alloc, "a: [", part, 40_000, "1]")
}

#[test]
fn long_chains(rt: HostRuntime) -> Result<(), Fail> {
    let alloc = rt.alloc();
    accepted_made(&rt, list(alloc, "1&"))?;
    accepted_made(&rt, list(alloc, "1|"))?;
    accepted_made(&rt, list(alloc, "[],"))?;
    accepted_made(&rt, repeated(alloc, "a:1,", 40_000))
}
