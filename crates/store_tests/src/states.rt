//! State bytes that sites write and take, and inputs that they refuse.
use crate::bytes::{CLASH, FIRST_CLASH, FIRST_LIST, FREE, LIST, ONE, REST, TWO};
use crate::sites::Input::{State, Text};
use crate::sites::{Input, are_same, hand, has_state, site};
use cue_replica::{Kind, Memory, Refusal, Replica};
use std::alloc::Global;
use std::test::Fail;

/// Inputs, and the state bytes of a site that has accepted them.
const WRITTEN: &[(&[Input], &[u8])] = &[
    (&[], FREE),
    (&[Text("a: 1\n")], ONE),
    (&[Text("a: int\nb: -1\n")], TWO),
    (&[Text("a: 1\n"), Text("a: 2\n")], CLASH),
    (&[Text("l: [...int]\n")], REST),
    (&[State(FIRST_CLASH)], CLASH),
    (&[State(FIRST_LIST)], LIST),
];

/// Whether a site that has accepted these inputs has these state bytes, and whether a new site that
/// takes them has the same table.
fn is_written(alloc: Global, inputs: &[Input], bytes: &[u8]) -> Result<bool, Refusal> {
    let writer = site(alloc, inputs)?;
    let reader = site(alloc, &[State(bytes)])?;
    Ok(has_state(alloc, &writer, bytes)? && are_same(&reader, &writer))
}

#[test]
fn states_that_were_written_down(rt: HostRuntime) -> Result<(), Fail> {
    for (inputs, bytes) in WRITTEN {
        assert!(rt; is_written(rt.alloc(), inputs, bytes)?);
    }
    Ok(())
}

/// Inputs that are refused, why, and where.
const REFUSED: &[(Input, Kind, u64)] = &[
    (Text("a: *1\n"), Kind::Syntax, 5),
    (State(&[0xFE, 0x43, 0x55, 0x45, 2]), Kind::NotState, 0),
    (State(&[0xFE, 0x43, 0x55, 0x45, 9]), Kind::Version, 0),
];

/// Another site with the same table.
fn copied(alloc: Global, site: &Replica) -> Result<Replica, Memory> {
    site.copy(alloc)
}

/// Whether a site refuses an input so, and keeps what it had.
fn refuses(alloc: Global, input: Input, why: Refusal) -> Result<bool, Refusal> {
    let before = site(alloc, &[Text("a: int\n")])?;
    let mut kept = copied(alloc, &before)?;
    Ok(hand(&mut kept, input) == Err(why) && are_same(&kept, &before))
}

#[test]
fn what_is_refused_changes_nothing(rt: HostRuntime) -> Result<(), Fail> {
    for (input, kind, place) in REFUSED {
        let why = Refusal {
            kind: *kind,
            place: *place,
        };
        assert!(rt; refuses(rt.alloc(), *input, why)?);
    }
    Ok(())
}

/// Both sites, unified.
fn both(mut site: Replica, other: Replica) -> Result<Replica, Memory> {
    site.unify(other)?;
    Ok(site)
}

/// Whether two sites that have accepted an input each have these state bytes once they are unified.
fn is_unified(alloc: Global, first: Input, second: Input, bytes: &[u8]) -> Result<bool, Refusal> {
    let site = both(site(alloc, &[first])?, site(alloc, &[second])?)?;
    Ok(has_state(alloc, &site, bytes)?)
}

#[test]
fn sites_are_unified(rt: HostRuntime) -> Result<(), Fail> {
    assert!(rt; is_unified(rt.alloc(), Text("a: 1\n"), Text("a: 2\n"), CLASH)?);
    Ok(())
}

/// The lines of the gaps of a site.
fn gaps_told(alloc: Global, site: &Replica) -> Result<String, Memory> {
    let mut lines = String::new(alloc);
    site.write_gaps(alloc, &mut lines)?;
    Ok(lines)
}

/// Whether the gaps of a site that has accepted an input have so many bytes as lines, and end so.
fn tells(alloc: Global, input: Input, size: usize, last: &str) -> Result<bool, Refusal> {
    let site = site(alloc, &[input])?;
    let lines = gaps_told(alloc, &site)?;
    Ok(lines.len() == size && lines.as_str().ends_with(last))
}

#[test]
fn the_longest_list_is_told(rt: HostRuntime) -> Result<(), Fail> {
    // a line for each of 65,536 elements: 33 bytes and the digits of its index
    let last = "\nincomplete l.65535 not a single value\n";
    assert!(rt; tells(rt.alloc(), State(LIST), 2_479_258, last)?);
    Ok(())
}
