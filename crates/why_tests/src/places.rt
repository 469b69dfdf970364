//! Places by their paths.
use cue_places::{Lookup, Step, is_file, place_at, read_path, value_text};
use cue_replica::Replica;
use cue_report::lines;
use std::alloc::Global;
use std::test::Fail;

/// What is found in a text at a path, in words.
fn found(alloc: Global, text: &str, path: &str) -> Result<String, Fail> {
    let mut site = Replica::new(alloc);
    site.submit(text)?;
    let Some(steps) = read_path(alloc, path)? else {
        return Ok(String::from_str(alloc, "no path")?);
    };
    match place_at(alloc, site.table(), steps.as_slice())? {
        Lookup::Absent => Ok(String::from_str(alloc, "absent")?),
        Lookup::Barred(conflict) => {
            let mut conflicts = Vec::new(alloc);
            conflicts.push(conflict)?;
            Ok(lines(alloc, conflicts.as_slice(), &[])?)
        }
        Lookup::Root(table) => {
            let value = value_text(alloc, &table)?;
            let kind = if is_file(&table) { "file" } else { "value" };
            Ok(format!(in alloc; "{kind} {value}")?)
        }
    }
}

/// A struct, a list and scalars.
const WEB: &str = "a: {b!: int, c: [1, {x: 2}, _]}\nl: [...{x: 1}]\n";

/// Places that bar what is below them.
const BARRED: &str = "a: close({b: int})\na: {c: {d: 1}}\ns: {t: {u: 1}}\ns: 3\n";

#[test]
fn a_place_is_a_root_of_its_own(rt: HostRuntime) -> Result<(), Fail> {
    let alloc = rt.alloc();
    assert_eq!(rt; found(alloc, WEB, "a.b")?.as_str(), "value int\n");
    assert_eq!(rt; found(alloc, WEB, "a.c.1")?.as_str(), "file {\"x\": 2}\n");
    assert_eq!(rt; found(alloc, WEB, "a.c.1.x")?.as_str(), "value 2\n");
    assert_eq!(rt; found(alloc, WEB, "a.c.2")?.as_str(), "file _\n");
    assert_eq!(rt;
        found(alloc, BARRED, "s")?.as_str(),
        "value {\"t\": {\"u\": 1}} & _|_\n"
    );
    assert_eq!(rt; found(alloc, "a: 1\n", ".")?.as_str(), "file {\"a\": 1}\n");
    Ok(())
}

#[test]
fn nothing_is_declared(rt: HostRuntime) -> Result<(), Fail> {
    let alloc = rt.alloc();
    assert_eq!(rt; found(alloc, WEB, "a.d")?.as_str(), "absent");
    assert_eq!(rt; found(alloc, WEB, "a.c.3")?.as_str(), "absent");
    assert_eq!(rt; found(alloc, WEB, "l.0")?.as_str(), "absent");
    assert_eq!(rt; found(alloc, BARRED, "a.c.e")?.as_str(), "absent");
    Ok(())
}

#[test]
fn a_place_bars_what_is_below(rt: HostRuntime) -> Result<(), Fail> {
    let alloc = rt.alloc();
    let label = "conflict a.c label not allowed\n";
    assert_eq!(rt; found(alloc, BARRED, "a.c")?.as_str(), label);
    assert_eq!(rt; found(alloc, BARRED, "a.c.d")?.as_str(), label);
    assert_eq!(rt;
        found(alloc, BARRED, "s.t.u")?.as_str(),
        "conflict s no value\n"
    );
    Ok(())
}

#[test]
fn paths_have_one_spelling(rt: HostRuntime) -> Result<(), Fail> {
    let alloc = rt.alloc();
    assert_eq!(rt;
        found(alloc, "s: \"pay-eu\": 1\n", "s.\"pay-eu\"")?.as_str(),
        "value 1\n"
    );
    assert_eq!(rt; found(alloc, WEB, "a.\"b\"")?.as_str(), "no path");
    assert_eq!(rt; found(alloc, WEB, "a..b")?.as_str(), "no path");
    assert_eq!(rt; found(alloc, WEB, "")?.as_str(), "no path");
    Ok(())
}
