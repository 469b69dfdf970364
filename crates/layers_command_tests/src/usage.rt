//! Arguments that ask for nothing.
use crate::desk::Desk;
use crate::runs::is_run;
use std::test::Fail;

/// Arguments that are a usage fault: no command, none that is known, an option of another command, a
/// limit that is no number, a path that is none, too few or too many.
const FAULTS: &[&[&str]] = &[
    &[],
    &["--help"],
    &["help"],
    &["state", "a"],
    &["--policy", "put", "map", "web"],
    &["put", "map"],
    &["put", "map", "web", "--at", "x"],
    &["put", "map", "web", "--limit"],
    &["put", "map", "web", "--limit", "x"],
    &["put", "map", "web", "--limit", "+1"],
    &["put", "map", "web", "--limit", ""],
    &["put", "map", "web", "--limit", "18446744073709551616"],
    &["put", "map", "web", "--limit", "1", "--limit", "1"],
    &["put", "--policy=yes", "map", "web"],
    &["remove", "map"],
    &["remove", "map", "web", "a"],
    &["remove", "map", "web", "--limit", "1"],
    &["try"],
    &["merge", "out"],
    &["export"],
    &["export", "-a"],
    &["export", "--policy", "a"],
    &["export", "--at", "a..b", "a"],
    &["report", "--limit=1"],
    &["print", "--at"],
    &["list"],
    &["list", "--limit", "1", "a"],
    &["show", "a"],
    &["show", "a", "web", "b"],
    &["why", "a"],
    &["why", "[", "a"],
    &["why", "--at", "a", "b", "c"],
];

#[test]
fn asks_for_nothing(rt: HostRuntime) -> Result<(), Fail> {
    let mut desk = Desk::new(rt.alloc());
    desk.add("a", b"a: 1\n")?;
    for words in FAULTS {
        assert!(rt; is_run(&mut desk, &(words, "a: 1\n", 1, "", "usage fault\n"))?);
    }
    assert_eq!(rt; desk.made, 0);
    Ok(())
}
