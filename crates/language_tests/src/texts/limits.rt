//! Sizes, depths and paths at their limits, and what a legal text keeps.
use crate::texts::resolving::{after, chain, each_sized, refused_made, size, sized_made};
use crate::texts::texts::{Made, followed, long, repeated};
use cue_lattice::{Kind, Refusal};
use cue_lex::{Token, lex};
use cue_scope::{Resolved, resolve};
use cue_syntax::{File, parse};
use std::alloc::Global;
use std::process::Abort;
use std::test::Fail;

#[test]
fn sizes(rt: HostRuntime) {
    let alloc = rt.alloc();
    each_sized(
        &rt,
        alloc,
        &[
            ("", 1),
            ("a: 1", 3),
            ("a: 1 & 2 & 3", 6),
            ("a: (1 & 2) & 3", 7),
            ("...", 1),
            ("a: {...}", 4),
            ("a: [1, ...]", 5),
            ("a: [...int]", 5),
            ("a: [1, ...int]", 6),
            ("a: [..._]", 5),
            ("a: [...[...int]]", 7),
            ("#A: {b: 1}\nx: [#A, ...#A]", 12),
            ("a: close({b: 1})", 6),
            ("a: *1 | >2", 5),
            ("a: b: c: 1", 7),
            ("package p\na: 1", 3),
            ("#A: {b: 1}", 1),
            ("#A: {b: 1}\nx: #A & #A", 11),
        ],
    );
}

#[test]
fn steps(rt: HostRuntime) -> Result<(), Fail> {
    let alloc = rt.alloc();
    sized_made(&rt, long(alloc, "", "a: ", 64, "1"), 129)?;
    refused_made(&rt, long(alloc, "", "a: ", 65, "1"), Kind::TooDeep)?;
    sized_made(&rt, chain(alloc, 62, false, "x: #A62\n"), 192)?;
    refused_made(&rt, chain(alloc, 63, false, "x: #A63\n"), Kind::TooDeep)?;
    Ok(())
}

/// Whether the text is of this size.
fn has_size(alloc: Global, text: Made<String>, wanted: u64) -> Made<bool> {
    Ok(size(alloc, text?.as_str()) == Ok(wanted))
}

/// Whether the text is too deep.
fn is_too_deep(alloc: Global, text: Made<String>) -> Made<bool> {
    let deep = Refusal {
        kind: Kind::TooDeep,
        place: 0,
    };
    Ok(size(alloc, text?.as_str()) == Err(deep))
}

/// So many labels and what follows give this size, and one label more is too deep.
fn longest(alloc: Global, (label, last): (&str, &str), count: u8, wanted: u64) -> Made<bool> {
    let count = usize::from(count);
    let legal = long(alloc, "", label, count, last);
    let deeper = long(alloc, "", label, count + 1, last);
    Ok(has_size(alloc, legal, wanted)? && is_too_deep(alloc, deeper)?)
}

/// Steps are counted as they are written, also to fields that say nothing, and an element is one.
#[test]
fn steps_as_they_are_written(rt: HostRuntime) -> Result<(), Fail> {
    let alloc = rt.alloc();
    assert!(rt; longest(alloc, ("a?: ", "_"), 64, 129)?);
    assert!(rt; longest(alloc, ("a!: ", "_"), 64, 129)?);
    assert!(rt; longest(alloc, ("a: ", "[_]"), 63, 128)?);
    assert!(rt; longest(alloc, ("a: ", "[..._]"), 63, 129)?);
    assert!(rt; longest(alloc, ("a: ", "[_, ...{b?: _}]"), 62, 130)?);
    assert!(rt; longest(alloc, ("a: ", "#A\n#A: close({b?: _})"), 63, 131)?);
    assert!(rt; longest(alloc, ("a: ", "#A\n#A: b?: _"), 63, 130)?);
    Ok(())
}

/// `a: [...[...1]]` and so on, with so many lists.
fn rests(alloc: Global, count: usize) -> Made<String> {
    let open = long(alloc, "a: ", "[...", count, "1");
    followed(open, repeated(alloc, "]", count))
}

/// What each further element of a list is stands one step down, and its size counts. A plain `...`
/// is no step.
#[test]
fn rests_at_their_limits(rt: HostRuntime) -> Result<(), Fail> {
    let alloc = rt.alloc();
    sized_made(&rt, long(alloc, "", "a: ", 64, "[...]"), 130)?;
    sized_made(&rt, rests(alloc, 63), 129)?;
    refused_made(&rt, rests(alloc, 64), Kind::TooDeep)?;
    sized_made(&rt, chain(alloc, 13, true, "x: [...#A13]\n"), 65_536)?;
    refused_made(
        &rt,
        chain(alloc, 13, true, "x: [1, ...#A13]\n"),
        Kind::TooLarge,
    )?;
    sized_made(&rt, chain(alloc, 61, false, "x: [...#A61]\n"), 191)?;
    refused_made(
        &rt,
        chain(alloc, 62, false, "x: [...#A62]\n"),
        Kind::TooDeep,
    )?;
    Ok(())
}

#[test]
fn doubled_definitions(rt: HostRuntime) -> Result<(), Fail> {
    let alloc = rt.alloc();
    sized_made(&rt, chain(alloc, 10, true, "x: #A10\n"), 8_190)?;
    sized_made(&rt, chain(alloc, 13, true, "x: #A13\n"), 65_534)?;
    refused_made(&rt, chain(alloc, 14, true, "x: #A14\n"), Kind::TooLarge)?;
    refused_made(&rt, chain(alloc, 17, true, "x: #A17\n"), Kind::TooLarge)?;
    Ok(())
}

#[test]
fn definitions_that_nothing_reaches(rt: HostRuntime) -> Result<(), Fail> {
    let alloc = rt.alloc();
    sized_made(&rt, chain(alloc, 60, true, "x: 1\n"), 3)?;
    sized_made(&rt, chain(alloc, 40_000, false, "x: 1\n"), 3)?;
    Ok(())
}

/// `1 | 1 | 1` and so on, of 65,533 terms.
fn wide(alloc: Global) -> Made<String> {
    long(alloc, "", "1 | ", 65_532, "1")
}

#[test]
fn the_longest_disjunction(rt: HostRuntime) -> Result<(), Fail> {
    let alloc = rt.alloc();
    sized_made(&rt, after(alloc, "a: ", wide(alloc)), 65_536)?;
    let wider = after(alloc, "a: 1 | ", wide(alloc));
    refused_made(&rt, wider, Kind::TooLarge)
}

/// Whether these are the declarations and definitions that are kept, in the order in which they
/// are placed.
fn keeps_definitions(resolved: &Resolved) -> bool {
    resolved.order() == [2, 0].as_slice()
        && resolved.declarations().len() == 4
        && resolved.definitions().number("#B") == Some(2)
}

/// Whether this is kept of each definition.
fn keeps_uses(resolved: &Resolved) -> bool {
    if resolved.definitions().all().len() != 3 {
        return false;
    }
    let counts = [resolved.count(0), resolved.count(1), resolved.count(2)];
    counts == [1, 0, 2] && resolved.is_scalar(0) && resolved.is_scalar(2)
}

/// Asserts what is kept of the text that has these declarations.
fn kept(rt: &impl Abort, alloc: Global, file: &File) {
    match resolve(alloc, file) {
        Ok(resolved) => assert!(rt; keeps_definitions(&resolved) && keeps_uses(&resolved)),
        Err(_) => panic!(rt; "refused"),
    }
}

/// Asserts what is kept of the text that has these tokens.
fn kept_at<'t>(rt: &impl Abort, alloc: Global, tokens: &'t [Token<'t>], end: usize) {
    match parse(alloc, tokens, end) {
        Ok(file) => kept(rt, alloc, &file),
        Err(_) => panic!(rt; "tree"),
    }
}

#[test]
fn what_a_text_keeps(rt: HostRuntime) {
    let alloc = rt.alloc();
    let text = "#C: #B & 1 & #B\nx: #C\n#A: #B\n#B: int\n";
    match lex(alloc, text) {
        Ok(tokens) => kept_at(&rt, alloc, &tokens, text.len()),
        Err(_) => panic!(rt; "tokens"),
    }
}
