//! Each command refused, on files.
use crate::desk::Desk;
use crate::runs::{Case, first_other};
use std::test::Fail;

/// Runs that are refused, none of which writes a file.
const REFUSED: &[Case] = &[
    (
        &["put", "new", "a//b", "wrong"],
        "",
        1,
        "refused 27 BadName at 2\n",
        "no name of a layer or a policy: a//b\n",
    ),
    (
        &["put", "text", "web", "wrong"],
        "",
        1,
        "refused 26 NotLayers at 0\n",
        "no map of layers: text\n",
    ),
    (
        &["put", "other", "web", "wrong"],
        "",
        1,
        "refused 17 Version at 0\n",
        "a map of another version: other\n",
    ),
    (
        &["put", "new", "web", "text", "wrong"],
        "",
        1,
        "refused 2 BadCharacter at 3 in 2\n",
        "",
    ),
    (
        &["put", "--policy", "new", "p", "pattern"],
        "",
        1,
        "refused 28 NotWellFormed at 0\n",
        "a pattern below an element of a list, or in a closed set of labels: policy p\n",
    ),
    (
        &["remove", "text", "web"],
        "",
        1,
        "refused 26 NotLayers at 0\n",
        "no map of layers: text\n",
    ),
    (
        &["try", "new", "web", "other"],
        "",
        1,
        "refused 18 NotState at 0 in 1\n",
        "",
    ),
    (
        &["try", "new", "web"],
        "a: 1\n---\na: ]\n",
        1,
        "refused 7 Syntax at 3 in 2\n",
        "",
    ),
    (
        &["merge", "new", "text", "other"],
        "",
        1,
        "refused 17 Version at 0 in 2\n",
        "",
    ),
    (
        &["export", "cut"],
        "",
        1,
        "refused 26 NotLayers at 0 in 1\n",
        "",
    ),
    (
        &["report", "text", "wrong"],
        "",
        1,
        "refused 2 BadCharacter at 3 in 2\n",
        "",
    ),
    (
        &["print", "--at", "a", "cut"],
        "",
        1,
        "refused 26 NotLayers at 0 in 1\n",
        "",
    ),
    (
        &["list", "cut"],
        "",
        1,
        "refused 26 NotLayers at 0 in 1\n",
        "",
    ),
    (
        &["show", "cut", "web"],
        "",
        1,
        "refused 26 NotLayers at 0 in 1\n",
        "",
    ),
    (
        &["show", "cut", "-", "--policy"],
        "",
        1,
        "refused 27 BadName at 0\n",
        "no name of a layer or a policy: -\n",
    ),
    (
        &["why", "a", "cut"],
        "",
        1,
        "refused 26 NotLayers at 0 in 1\n",
        "",
    ),
    (&["export", "none"], "", 4, "", "device fault\n"),
];

/// Runs over views that are too large.
const LARGE: &[Case] = &[
    (
        &["put", "--policy", "map", "p"],
        "s?: \"*\": x: 1\n",
        0,
        "1\n",
        "",
    ),
    (&["put", "map", "web"], "s: a: {}\n", 0, "1\n", ""),
    (
        &["put", "--limit", "5", "map", "pay"],
        "s: b: {}\n",
        1,
        "refused 30 ViewTooLarge at 0\n",
        "the view has more rows than 5\n",
    ),
    (
        &["export", "--limit=1", "map"],
        "",
        1,
        "refused 30 ViewTooLarge at 0\n",
        "the view has more rows than 1\n",
    ),
];

#[test]
fn each_command_refuses(rt: HostRuntime) -> Result<(), Fail> {
    let mut desk = Desk::new(rt.alloc());
    desk.add("text", b"a: 1\n")?;
    desk.add("wrong", b"a: \xff\n")?;
    desk.add("cut", b"\xfeLAY\x01")?;
    desk.add("other", b"\xfeLAY\x02")?;
    desk.add("pattern", b"l: [...{\"*\": int}]\n")?;
    assert_eq!(rt; first_other(&mut desk, REFUSED)?, None);
    assert_eq!(rt; desk.made, 0);
    assert_eq!(rt; first_other(&mut desk, LARGE)?, None);
    Ok(())
}
