//! What tables are printed as.
use crate::outputs::sample::{Known, LACKING, Made, WHOLE, is, table};
use cue_print::{others_are_left, print};
use std::alloc::Global;
use std::test::Fail;

/// The text of the table with these places.
fn printed(alloc: Global, places: &[Known]) -> Made<String> {
    print(alloc, &table(alloc, places)?)
}

#[test]
fn tables_are_printed(rt: HostRuntime) -> Result<(), Fail> {
    let whole = "\"a\": {\"c\": -1}\n\"b\": 2\n\"l\": [1, [...], ...]\n\"o\"?: 3\n";
    assert!(rt; is(printed(rt.alloc(), WHOLE), whole)?);
    let lacking = "\"a\"!: {\"b\": _}\n\"c\": _|_\n\"l\": [_, [_, ...], _, ...]\n";
    assert!(rt; is(printed(rt.alloc(), LACKING), lacking)?);
    assert!(rt; is(printed(rt.alloc(), &[]), "_\n")?);
    others_are_left();
    Ok(())
}
